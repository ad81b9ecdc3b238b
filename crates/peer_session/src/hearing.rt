//! What a message of a peer says in a state of its session.

ghost use Rattle.std.specs.Prelude.{◌≡◌, ◌+◌, ◌≤◌, true, length, IfOk};
ghost use Rattle.bgp_wire.specs.Message.{fits_kind};
ghost use Rattle.bgp_wire.specs.Open.{answer_to, open_of};
ghost use Rattle.peer_session.specs.Hearing.{heard_in, open_heard, update_heard};

use attr_codec::UpdateFault;
use bgp_wire::{Notify, OpenFacts, OpenRules, kind, read_open, read_refresh};
use net_base::{Family, NoMemory};
use session_fsm::State;
use std::alloc::{AllocError, Global};
use update_codec::{Update, read_update};

/// A message of a peer, as its session takes it.
#[derive(Debug, Drop)]
pub(crate) enum Heard {
    /// An acceptable OPEN, where one is awaited.
    Open(OpenFacts),
    Keepalive,
    /// An UPDATE that was read, where the session is up.
    Update(Update),
    /// A ROUTE-REFRESH, for the routes of a family if that is one that is known.
    Refresh(Option<Family>),
    /// A NOTIFICATION of this code and subcode.
    Received(u8, u8),
    /// A message that is to be answered by this NOTIFICATION.
    Bad(Notify),
    /// Another message.
    Other,
}

/// What a message with a good header of this type says, by the state of the session, the rules for an OPEN, and what was
/// agreed. An OPEN is read only where one is awaited, and an UPDATE only where the session is up.
#[tactic(auto, unfolding(crate::specs::Hearing::heard_in))]
pub(crate) fn hear(
    alloc: Global,
    state: State,
    rules: &OpenRules,
    facts: Option<OpenFacts>,
    message_kind: u8,
    body: &[u8],
) -> Result<Heard, NoMemory>
    requires { fits_kind message_kind (19 + length body.now) ≡ true }
    ensures { IfOk result (λ heard. heard ≡ heard_in state rules.now facts message_kind body.now) }
{
    if message_kind == kind::OPEN && state == State::OpenSent {
        return Ok(hear_open(rules, body));
    }
    if message_kind == kind::NOTIFICATION {
        return Ok(Heard::Received(body[0], body[1]));
    }
    if message_kind == kind::KEEPALIVE {
        return Ok(Heard::Keepalive);
    }
    if message_kind == kind::ROUTE_REFRESH {
        return Ok(Heard::Refresh(read_refresh(body)));
    }
    if message_kind == kind::UPDATE && state == State::Established {
        return hear_update(alloc, facts, body);
    }
    Ok(Heard::Other)
}

fn hear_open(rules: &OpenRules, body: &[u8]) -> Heard
    requires { 10 ≤ length body.now }
    ensures { result ≡ open_heard (answer_to (open_of body.now) rules.now) }
{
    match read_open(body, rules) {
        Ok(facts) => Heard::Open(facts),
        Err(fault) => Heard::Bad(fault),
    }
}

/// Errors of UPDATEs have code 3 (RFC 4271, section 6.3).
fn hear_update(alloc: Global, facts: Option<OpenFacts>, body: &[u8]) -> Result<Heard, NoMemory>
    ensures { IfOk result (λ heard. heard ≡ update_heard facts body.now) }
{
    let Some(facts) = facts else {
        return Ok(Heard::Other);
    };
    match read_update(alloc, facts.encoding, body) {
        Ok(update) => Ok(Heard::Update(update)),
        Err(UpdateFault::Notify(sub)) => Ok(Heard::Bad(Notify { code: 3, sub })),
        Err(UpdateFault::NoMemory) => Err(AllocError),
    }
}
