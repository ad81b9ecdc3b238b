//! Which UPDATEs can be written by what was agreed with a peer.

ghost use Rattle.std.specs.Prelude.{◌≡◌, IsTrue};
ghost use Rattle.update_codec.specs.Written as written;
ghost use Rattle.peer_session.specs.Calls.{can_write, may_be_sent, may_name, may_stand};

use attr_model::Attrs;
use bgp_wire::Encoding;
use net_base::{Family, Prefix};
use update_codec::{OutUpdate, fits};

/// Whether an UPDATE can be written by what was agreed: it may be sent, and has at most 4096 bytes.
pub(crate) fn can_write(encoding: Encoding, update: &OutUpdate) -> bool
    ensures { result ≡ can_write encoding update.now }
{
    may_be_sent(encoding, update) && fits(encoding, update)
}

fn may_be_sent(encoding: Encoding, update: &OutUpdate) -> bool
    ensures { result ≡ may_be_sent encoding update.now }
{
    match update {
        OutUpdate::Withdraw(prefixes) => match prefixes.as_slice().first() {
            Some(first) => is_agreed(encoding, first.family),
            None => false,
        },
        OutUpdate::Announce(attrs, prefixes) => {
            may_name(encoding, attrs.hop.family, prefixes.as_slice()) && may_stand(encoding, attrs)
        }
    }
}

/// Whether there is a prefix, and the family was agreed.
fn may_name(encoding: Encoding, family: Family, prefixes: &[Prefix]) -> bool
    ensures { result ≡ may_name encoding family prefixes.now }
{
    !prefixes.is_empty() && is_agreed(encoding, family)
}

/// Whether attributes have no weight, and LOCAL_PREF exactly for an internal peer.
fn may_stand(encoding: Encoding, attrs: &Attrs) -> bool
    ensures { result ≡ may_stand encoding attrs.now }
{
    attrs.weight == 0
        && if encoding.external {
            attrs.local_pref.is_none()
        } else {
            attrs.local_pref.is_some()
        }
}

fn is_agreed(encoding: Encoding, family: Family) -> bool
    ensures { result ≡ written.is_agreed encoding family }
{
    match family {
        Family::V4 => encoding.v4,
        Family::V6 => encoding.v6,
    }
}
