#![tactic(auto)]

#[cfg(test)]
mod choice;
#[cfg(test)]
mod filters;
#[cfg(test)]
mod sets;
#[cfg(test)]
mod validation;
