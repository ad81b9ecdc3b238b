#![tactic(auto)]

#[cfg(test)]
mod attribute_fields;
#[cfg(test)]
mod attributes;
#[cfg(test)]
mod connections;
#[cfg(test)]
mod frames;
#[cfg(test)]
mod messages;
#[cfg(test)]
mod session_states;
#[cfg(test)]
mod updates;
