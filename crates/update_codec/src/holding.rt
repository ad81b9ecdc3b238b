//! The routes that UPDATEs leave, computed from the first one on.

ghost use Rattle.std.specs.Prelude.{◌≡◌, ◌<◌, [], ◌∷◌, fold, length, IfOk, IfSome, OnOk, MatchOption};
ghost use Rattle.attr_model.specs.Routes.{without_route};
ghost use Rattle.bgp_wire.specs.Message.{messages};
ghost use Rattle.update_codec.specs.Held.{with_group, with_update, held, read_ones, updates_in, told_from, told};

use crate::reading::read_update;
use crate::update::Update;
use attr_codec::UpdateFault;
use attr_model::{Attrs, RouteTable};
use bgp_wire::{Cut, Encoding, HEADER_LENGTH, cut, kind};
use net_base::{NoMemory, Prefix, PrefixList};
use std::alloc::{AllocError, Global};

/// Withdraws prefixes.
fn withdraw(routes: &mut RouteTable, prefixes: &[Prefix])
    ensures { routes.new ≡ fold without_route routes.old prefixes.now }
{
    for prefix in prefixes {
        routes.remove(*prefix);
    }
}

/// Announces prefixes with the same attributes. Where memory is refused, some of them may have been announced.
fn announce(routes: &mut RouteTable, attrs: &Attrs, prefixes: &[Prefix]) -> Result<(), NoMemory>
    ensures { OnOk result (routes.new ≡ with_group routes.old (attrs.now, prefixes.now)) }
{
    for prefix in prefixes {
        routes.put(*prefix, attrs.clone()?)?;
    }
    Ok(())
}

/// Takes an UPDATE: its prefixes are withdrawn, and then those of its groups announced. Where memory is refused, a part of it
/// may have been taken.
pub fn take_update(routes: &mut RouteTable, update: &Update) -> Result<(), NoMemory>
    ensures { OnOk result (routes.new ≡ with_update routes.old update.now) }
{
    withdraw(routes, update.withdrawn.as_slice());
    for (attrs, prefixes) in update.announced.as_slice() {
        announce(routes, attrs, prefixes.as_slice())?;
    }
    Ok(())
}

/// The routes that UPDATEs leave: by prefix, those whose last word is an announcement.
pub fn held(alloc: Global, updates: &[Update]) -> Result<RouteTable, NoMemory>
    ensures { IfOk result (λ routes. routes ≡ held updates.now) }
{
    let mut routes = RouteTable::new(alloc);
    for update in updates {
        take_update(&mut routes, update)?;
    }
    Ok(routes)
}

// Takes the UPDATE that a message is, where it is one without a NOTIFICATION.
#[tactic(auto, unfolding(crate::specs::Held::updates_in))]
fn take_message(
    alloc: Global,
    enc: Encoding,
    kind: u8,
    body: &[u8],
    routes: &mut RouteTable,
) -> Result<(), NoMemory>
    ensures { OnOk result (routes.new ≡ fold with_update routes.old (updates_in enc (record { kind = kind; body = body.now }))) }
{
    if kind != kind::UPDATE {
        return Ok(());
    }
    match read_update(alloc, enc, body) {
        Ok(update) => take_update(routes, &update),
        Err(UpdateFault::Notify(_)) => Ok(()),
        Err(UpdateFault::NoMemory) => Err(AllocError),
    }
}

// The type and the body of the message in front, and the bytes behind it; None where no whole message stands there.
fn next_message(left: &[u8]) -> Option<(u8, &[u8], &[u8])>
    ensures messages { MatchOption result ((messages left.now).whole ≡ []) (λ m. (messages left.now).whole ≡ record { kind = m.0; body = m.1.now } ∷ (messages m.2.now).whole) }
    ensures shorter { IfSome result (λ m. length m.2.now < length left.now) }
{
    match cut(left) {
        Cut::Message { kind, length } => {
            let (message, behind) = left.split_at(length);
            let (_, body) = message.split_at(HEADER_LENGTH);
            Some((kind, body, behind))
        }
        Cut::More | Cut::Notify(_) => None,
    }
}

/// What the bytes of a connection tell: the routes that the UPDATEs of its messages leave, read by what was agreed with the
/// peer. An UPDATE that is to be answered by a NOTIFICATION leaves them as they were.
#[tactic(auto, unfolding(crate::specs::Held::told))]
pub fn told(alloc: Global, enc: Encoding, bytes: &[u8]) -> Result<RouteTable, NoMemory>
    ensures { IfOk result (λ routes. routes ≡ told enc bytes.now) }
{
    let mut routes = RouteTable::new(alloc);
    let mut left = bytes;
    while let Some((kind, body, behind)) = next_message(left) {
        take_message(alloc, enc, kind, body, &mut routes)?;
        left = behind;
    }
    Ok(routes)
}
