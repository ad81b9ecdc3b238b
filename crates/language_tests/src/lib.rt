#![tactic(auto)]

#[cfg(test)]
mod canonical_texts;
#[cfg(test)]
mod control;
#[cfg(test)]
mod stages;
#[cfg(test)]
mod tokens;
