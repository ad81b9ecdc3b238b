#![tactic(auto)]

#[cfg(test)]
mod neighbour;
#[cfg(test)]
mod parent;
#[cfg(test)]
mod sessions;
