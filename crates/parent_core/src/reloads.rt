ghost use Rattle.std.specs.Prelude.{◌≡◌};
ghost use Rattle.parent_core.specs.Reloads.{idle, next_stage, under_way};

use conf_tree::Conf;
use reload_stage::StageList;

/// How far the reload of the last accepted configuration is.
#[derive(Drop)]
pub enum Stage {
    /// It is done, or none was accepted yet.
    Idle,
    /// The session core has to take up this configuration. Its stage is kept for the decision core.
    AtSession(Conf, StageList),
    /// The decision core has to take it up.
    AtDecision,
}

impl Stage {
    /// How far the reload is once the core that has to take it up has done so.
    pub(crate) fn next(&self) -> Stage
        ensures { result ≡ next_stage self.now }
    {
        match self {
            Stage::Idle => Stage::Idle,
            Stage::AtSession(_, _) => Stage::AtDecision,
            Stage::AtDecision => Stage::Idle,
        }
    }
}

/// The reloads that were accepted: how many, and how far the last one is.
#[derive(Drop)]
pub struct Reloads {
    /// The generation of the last accepted configuration, 0 before the first.
    pub generation: u32,
    pub stage: Stage,
}

impl Reloads {
    /// No configuration was accepted.
    pub(crate) fn new() -> Self
        ensures { result ≡ idle 0 }
    {
        Reloads {
            generation: 0,
            stage: Stage::Idle,
        }
    }

    /// The generation that is accepted and isn't done.
    pub(crate) fn under_way(&self) -> Option<u32>
        ensures { result ≡ under_way self.now }
    {
        match &self.stage {
            Stage::Idle => None,
            Stage::AtSession(_, _) => Some(self.generation),
            Stage::AtDecision => Some(self.generation),
        }
    }
}
