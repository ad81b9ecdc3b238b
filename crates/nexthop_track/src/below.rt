//! The addresses below a prefix, and the prefixes above an address.
ghost use Rattle.std.specs.Prelude.{◌≡◌, ◌+◌, ◌-◌, ◌^◌, ◌&&◌, ◌||◌, ◌≤◌, nat_lt};
ghost use Rattle.std.specs.List.{list_any};
ghost use Rattle.net_base.specs.Bits.{host_len};
ghost use Rattle.net_base.specs.PrefixSet.{is_in};
ghost use Rattle.nexthop_track.specs.Hops.{is_other, makes_valid};

use net_base::{Addr, Prefix, PrefixSet};

/// The last address of a prefix.
pub(crate) fn last_addr(prefix: Prefix) -> Addr
    ensures family { result.family ≡ prefix.family }
    ensures bits { result.bits ≡ prefix.bits + (2 ^ host_len prefix.family prefix.len - 1) }
{
    let host = prefix.family.width() - prefix.len;
    Addr {
        family: prefix.family,
        bits: prefix.bits + ones(host),
    }
}

/// The number with so many low bits set, at most 128 of them.
fn ones(count: u8) -> u128
    requires { count ≤ 128 }
    ensures { result ≡ 2 ^ count - 1 }
{
    if count == 128 {
        u128::MAX
    } else {
        (1 << count) - 1
    }
}

/// Whether one of the routes makes the address valid, the route `besides` left out. It asks once for each length.
pub(crate) fn is_reached(
    routes: &PrefixSet,
    qualify_default: bool,
    addr: Addr,
    besides: Option<Prefix>,
) -> bool
    ensures { result ≡ list_any (λ p. is_other besides p && makes_valid qualify_default addr p) routes.now }
{
    for len in 0..addr.family.width() + 1 {
        let prefix = Prefix::new(addr, len);
        if counts(routes, qualify_default, prefix, besides) {
            return true;
        }
    }
    false
}

/// Whether the route is up, and counts.
fn counts(
    routes: &PrefixSet,
    qualify_default: bool,
    prefix: Prefix,
    besides: Option<Prefix>,
) -> bool
    ensures { result ≡ ((is_other besides prefix && (qualify_default || nat_lt 0 prefix.len))
        && is_in routes.now prefix) }
{
    is_used(qualify_default, prefix, besides) && routes.has(prefix)
}

/// Whether a route counts where it is up: it isn't the one left out, and a default route needs leave.
fn is_used(qualify_default: bool, prefix: Prefix, besides: Option<Prefix>) -> bool
    ensures { result ≡ (is_other besides prefix && (qualify_default || nat_lt 0 prefix.len)) }
{
    let other = match besides {
        Some(left_out) => left_out != prefix,
        None => true,
    };
    other && (qualify_default || prefix.len > 0)
}
