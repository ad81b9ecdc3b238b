#![tactic(auto)]

#[cfg(test)]
mod checks;
#[cfg(test)]
mod replays;
