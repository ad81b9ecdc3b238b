ghost use Rattle.std.specs.Prelude.{IfOk};
ghost use Rattle.reload_stage.specs.Stages.{CanBeStaged};

use conf_print::print;
use conf_tree::Conf;
use net_base::{ConfFault, ConfKind, Items};
use reload_stage::*;
use std::alloc::Global;
use std::test::Fail;

/// A configuration of one network, as it is written.
const WRITTEN: &[u8] = b"AS 65001\nrouter-id 10.0.0.1\nnetwork 192.0.2.0/24\n";
/// Its canonical text, of 133 bytes.
const CANONICAL: &[u8] =
    b"AS 65001\nrouter-id 10.0.0.1\nholdtime 90\nholdtime min 3\nfib-update yes\nrde med compare strict\nsocket \"bgpd.sock\"\nnetwork 192.0.2.0/24\n";

fn begin(generation: u32, length: u32) -> StageItem {
    StageItem::Begin { generation, length }
}

fn piece(alloc: Global, text: &[u8]) -> Result<StageItem, Fail> {
    Ok(StageItem::Piece(Items::from_slice(alloc, text)?))
}

/// The configuration of a text that is canonical.
fn conf_of(alloc: Global, text: &[u8]) -> Result<Conf, Fail>
    ensures { IfOk result (λ conf. CanBeStaged conf) }
{
    let conf = read_conf(alloc, text, STAGE_LIMIT)?;
    let printed = print(alloc, &conf)?;
    if printed.as_slice() != text || text.len() > STAGE_LIMIT {
        return Err("the text isn't canonical".into());
    }
    Ok(conf)
}

#[test]
fn a_short_text_is_one_piece(rt: HostRuntime) -> Result<(), Fail> {
    let conf = conf_of(rt.alloc(), CANONICAL)?;
    let items = frames(rt.alloc(), &conf, 1)?;
    assert_eq!(rt; items.len(), 3);
    assert_eq!(rt; items.get(0), Some(&begin(1, 133)));
    assert_eq!(rt; items.get(1), Some(&piece(rt.alloc(), CANONICAL)?));
    assert_eq!(rt; items.get(2), Some(&StageItem::Commit(1)));
    Ok(())
}

#[test]
fn a_stage_gives_its_configuration(rt: HostRuntime) -> Result<(), Fail> {
    let mut assembly = Assembly::new(rt.alloc());
    assembly.take(begin(7, 133))?;
    assembly.take(piece(rt.alloc(), &CANONICAL[..100])?)?;
    assembly.take(piece(rt.alloc(), &CANONICAL[100..])?)?;
    assembly.take(StageItem::Commit(7))?;
    let (generation, conf) = assembly.done()?;
    assert_eq!(rt; generation, 7);
    assert_eq!(rt; conf, read_conf(rt.alloc(), WRITTEN, TEXT_LIMIT)?);
    Ok(())
}

#[test]
fn items_out_of_order(rt: HostRuntime) -> Result<(), Fail> {
    let mut assembly = Assembly::new(rt.alloc());
    let late = Err(StageFault::OutOfOrder);
    assert_eq!(rt; assembly.take(piece(rt.alloc(), b"A")?), late);
    assert_eq!(rt; assembly.take(StageItem::Commit(1)), late);
    assembly.take(begin(1, 4))?;
    assembly.take(piece(rt.alloc(), b"AS")?)?;
    assert_eq!(rt; assembly.take(begin(1, 4)), late);
    assert_eq!(rt; assembly.take(piece(rt.alloc(), b" 65")?), late);
    assert_eq!(rt; assembly.take(StageItem::Commit(1)), late);
    assembly.take(piece(rt.alloc(), b" 1")?)?;
    assert_eq!(rt; assembly.take(StageItem::Commit(2)), late);
    assembly.take(StageItem::Commit(1))?;
    assert_eq!(rt; assembly.take(piece(rt.alloc(), b"")?), late);
    Ok(())
}

#[test]
fn a_text_without_router_id(rt: HostRuntime) -> Result<(), Fail> {
    let mut assembly = Assembly::new(rt.alloc());
    assembly.take(begin(1, 4))?;
    assembly.take(piece(rt.alloc(), b"AS 1")?)?;
    assembly.take(StageItem::Commit(1))?;
    let fault = ConfFault {
        line: 0,
        kind: ConfKind::NoRouterId,
    };
    assert_eq!(rt; assembly.done(), Err(StageFault::BadText(fault)));
    Ok(())
}
