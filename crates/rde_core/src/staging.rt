//! The next configuration, which comes in items.

ghost use Rattle.std.specs.Prelude.{◌≡◌, true, IfOk, IfSome};
ghost use Rattle.reload_stage.specs.Stages.{is_whole};
ghost use Rattle.rde_core.specs.Staged.{CanBeTakenUp};

use conf_sound::{
    configurations_are_settled, configurations_are_within_limits, configurations_can_be_written,
};
use conf_tree::Conf;
use net_base::NoMemory;
use reload_stage::{Assembly, StageFault, StageItem};
use std::alloc::{AllocError, Global};
use std::mem;

/// Takes an item of the next configuration. One that can't follow those before it is passed over.
pub(crate) fn stage(assembly: &mut Assembly, item: StageItem) -> Result<(), NoMemory> {
    match assembly.take(item) {
        Err(StageFault::NoMemory) => Err(AllocError),
        _ => Ok(()),
    }
}

/// The configuration that the Commit of a generation makes whole. None where it can't follow the items before it, or their text has
/// a fault. The next item then begins another.
pub(crate) fn committed(
    alloc: Global,
    assembly: &mut Assembly,
    generation: u32,
) -> Result<Option<(u32, Conf)>, NoMemory>
    ensures { IfOk result (λ given. IfSome given (λ given. CanBeTakenUp given.1)) }
{
    match assembly.take(StageItem::Commit(generation)) {
        Ok(()) => conf_of(mem::replace(assembly, Assembly::new(alloc))),
        Err(StageFault::NoMemory) => Err(AllocError),
        Err(_) => Ok(None),
    }
}

/// The generation and the configuration of items that are whole.
fn conf_of(assembly: Assembly) -> Result<Option<(u32, Conf)>, NoMemory>
    requires { is_whole assembly.progress ≡ true }
    ensures { IfOk result (λ given. IfSome given (λ given. CanBeTakenUp given.1)) }
{
    configurations_can_be_written();
    configurations_are_within_limits();
    configurations_are_settled();
    match assembly.done() {
        Ok(given) => Ok(Some(given)),
        Err(StageFault::NoMemory) => Err(AllocError),
        Err(_) => Ok(None),
    }
}
