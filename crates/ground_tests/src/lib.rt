#![tactic(auto)]

#[cfg(test)]
mod addresses;
#[cfg(test)]
mod fields;
#[cfg(test)]
mod kernel_tables;
#[cfg(test)]
mod lanes;
#[cfg(test)]
mod links;
#[cfg(test)]
mod lists;
#[cfg(test)]
mod marks;
#[cfg(test)]
mod next_hops;
#[cfg(test)]
mod numbers;
#[cfg(test)]
mod outside;
#[cfg(test)]
mod prefix_sets;
#[cfg(test)]
mod prefixes;
