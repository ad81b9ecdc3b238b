#![tactic(auto)]

#[cfg(test)]
mod adj_rib_in_rows;
#[cfg(test)]
mod adj_rib_out_rows;
#[cfg(test)]
mod interning;
#[cfg(test)]
mod ribs;
