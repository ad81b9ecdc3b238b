//! What filter rules decide of a route (bgpd.conf(5), FILTER).
#![tactic(auto)]

mod asked;
mod communities;
mod conditions;
mod context;
mod evaluation;
mod items;
mod laws;
mod path_test;
mod rule_test;
mod skips;
mod steps;
mod verdict;

pub use context::Context;
pub use evaluation::{evaluate, evaluate_skipping};
pub use items::{apply_set, choose_hop};
pub use laws::{
    given_hop_has_the_family, settled_rules_name_sets, valid_attributes_stay_valid,
    verdict_goes_by_rules_for_the_route, verdict_goes_by_sets,
};
pub use skips::SkipTable;
pub use steps::Steps;
pub use verdict::{Hop, Verdict};
