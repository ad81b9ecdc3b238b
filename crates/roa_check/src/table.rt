ghost use Rattle.std.specs.Prelude.{◌≡◌, IfOk};
ghost use Rattle.std.specs.List.{list_any};
ghost use Rattle.net_base.specs.Prefix.{covers};
ghost use Rattle.net_base.specs.declared.addr.Family.TheVariants.{V4, V6};
ghost use Rattle.net_base.specs.Roa.{comes_from, matches, origin_validation};
ghost use Rattle.roa_check.specs.Table.{AreAllOf};

use crate::side::RoaSide;
use net_base::{Family, NoMemory, Ovs, Prefix, Roa, RoaList};
use std::alloc::Global;
use std::marker::Model;

/// Authorizations, ready to be asked. Contracts see the list that the table was built of. Beside that list stand those of
/// each family in order, each with the nearest one that covers it.
#[derive(Debug, Drop)]
pub struct RoaTable {
    roas: RoaList,
    v4: RoaSide,
    v6: RoaSide,
    ghost all_v4: { AreAllOf V4 roas v4 },
    ghost all_v6: { AreAllOf V6 roas v6 },
}

impl Model for RoaTable {
    ghost use Rattle.std.specs.Prelude.{List};
    ghost use Rattle.net_base.specs.declared.roa.Roa.{Roa};

    ghost Value = { List Roa };

    ghost view = { λ table. table.roas };
}

impl RoaTable {
    /// The table of these authorizations. It needs memory.
    pub fn build(alloc: Global, list: &RoaList) -> Result<RoaTable, NoMemory>
        ensures { IfOk result (λ table. table ≡ list.now) }
    {
        Ok(RoaTable {
            roas: RoaList::from_slice(alloc, list.as_slice())?,
            v4: RoaSide::build(alloc, list.as_slice(), Family::V4)?,
            v6: RoaSide::build(alloc, list.as_slice(), Family::V6)?,
        })
    }

    /// Whether some authorization matches a route of this prefix and origin. It takes no memory, and a number of steps that
    /// grows with the logarithm of the authorizations and with those that cover.
    pub fn has_match(&self, prefix: Prefix, origin: Option<u32>) -> bool
        ensures { result ≡ list_any (matches prefix origin) self.now }
    {
        match prefix.family {
            Family::V4 => self.v4.has_match(prefix, origin),
            Family::V6 => self.v6.has_match(prefix, origin),
        }
    }

    /// Whether some authorization covers the prefix, at the same cost.
    fn has_cover(&self, prefix: Prefix) -> bool
        ensures { result ≡ list_any (λ roa. covers roa.prefix prefix) self.now }
    {
        match prefix.family {
            Family::V4 => self.v4.has_cover(prefix),
            Family::V6 => self.v6.has_cover(prefix),
        }
    }
}

/// What origin validation says of a route to this prefix whose path begins at this AS, or at none that is known
/// (RFC 6811 section 2): Valid where some authorization covers the prefix, allows its length and names the AS,
/// NotFound where none covers the prefix, and Invalid otherwise. It takes no memory.
#[tactic(auto, unfolding(net_base::specs::Roa::origin_validation))]
pub fn ovs(roas: &RoaTable, prefix: Prefix, origin: Option<u32>) -> Ovs
    ensures { result ≡ origin_validation roas.now prefix origin }
{
    if roas.has_match(prefix, origin) {
        Ovs::Valid
    } else if roas.has_cover(prefix) {
        Ovs::Invalid
    } else {
        Ovs::NotFound
    }
}

/// Whether the authorization covers the prefix, allows its length and names the origin.
pub fn matches_route(roa: &Roa, prefix: Prefix, origin: Option<u32>) -> bool
    ensures { result ≡ matches prefix origin roa.now }
{
    roa.prefix.covers(prefix) && prefix.len <= roa.maxlen && names_origin(roa.source, origin)
}

/// Whether the origin is known and is this AS, which isn't 0.
fn names_origin(source: u32, origin: Option<u32>) -> bool
    ensures { result ≡ comes_from source origin }
{
    match origin {
        Some(origin) => origin == source && source != 0,
        None => false,
    }
}
