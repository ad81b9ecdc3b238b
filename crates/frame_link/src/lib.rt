//! Links between the cores: frames that go in at one end and come out at the other in their order, as bytes that may stop
//! anywhere between.
#![tactic(auto)]

mod link;

pub use link::FrameLink;
