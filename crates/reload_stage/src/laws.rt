ghost use Rattle.std.specs.Prelude.{◌≡◌, ℕ, List, Result, Ok, Err, ◌⊎◌};
ghost use Rattle.conf_tree.specs.declared.conf.Conf.{Conf};
ghost use Rattle.conf_tree.specs.Canonical.{canonical};
ghost use Rattle.reload_stage.specs.declared.fault.StageFault.{StageFault};
ghost use Rattle.reload_stage.specs.declared.fault.StageFault.TheVariants.{NoMemory};
ghost use Rattle.reload_stage.specs.Stages.{CanBeStaged, Completes, GivesConf, nothing_taken, stage_items, taken_whole};

/// A stage carries its configuration: each of its items can follow those before it, and behind the last one the stage
/// gives the generation and the configuration, unless memory is refused.
pub fn stages_give_configurations()
    ensures order { (generation : ℕ) (text : List ℕ) →
        Completes generation text nothing_taken (stage_items generation text) }
    ensures given { (generation : ℕ) (conf : Conf) (result : Result (ℕ × Conf) StageFault) → CanBeStaged conf →
        GivesConf (taken_whole generation (canonical conf)) result →
        (result ≡ Ok (generation, conf)) ⊎ (result ≡ Err NoMemory) }
{}
