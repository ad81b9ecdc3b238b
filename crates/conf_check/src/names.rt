//! Names looked up: the number of a RIB, and sets by kind and place.
ghost use Rattle.std.specs.Prelude.{◌≡◌, ◌<◌, ◌^◌, length, IfSome, option_map, option_and_then};
ghost use Rattle.std.specs.Ordering.{on};
ghost use Rattle.std.specs.List.Sorted.{IsStrictlySortedBy};
ghost use Rattle.conf_tree.specs.Flat.{text_cmp, below, place_of, rib_number, prefix_set_id, as_set_id, origin_set_id};
ghost use Rattle.conf_check.specs.Names.{HasOrderedSets};

use conf_tree::{AsSetConf, Conf, OriginSetConf, PrefixSetConf, Rib, SetId, SetKind, Text};

/// The number of a RIB: 0 of Loc-RIB, and the others from 1 on, as they stand.
#[tactic(auto, unfolding(conf_tree::specs::Flat::rib_number))]
pub(crate) fn rib_number(ribs: &[Rib], name: &Text) -> Option<u8>
    ensures { result ≡ rib_number ribs.now name.now }
{
    if name.as_slice() == b"Loc-RIB".as_slice() {
        return Some(0);
    }
    let place = rib_place(ribs, name)?;
    if place < 255 {
        Some((place + 1) as u8)
    } else {
        None
    }
}

fn rib_place(ribs: &[Rib], name: &Text) -> Option<usize>
    ensures { result ≡ place_of (λ rib. rib.name) ribs.now name.now }
{
    ribs.iter().position(|rib| name == &rib.name)
}

/// The prefix-set of this name.
#[tactic(auto, unfolding(conf_tree::specs::Flat::prefix_set_id))]
pub(crate) fn prefix_set_id(conf: &Conf, name: &Text) -> Option<SetId>
    requires { HasOrderedSets conf.now }
    ensures { result ≡ prefix_set_id conf.now name.now }
{
    let place = prefix_set_place(conf.prefix_sets.as_slice(), name)?;
    set_at(SetKind::Prefix, place)
}

fn prefix_set_place(sets: &[PrefixSetConf], name: &Text) -> Option<usize>
    requires { IsStrictlySortedBy (on (λ s. s.name) text_cmp) sets.now }
    ensures { result ≡ place_of (λ s. s.name) sets.now name.now }
{
    sets.binary_search_by(|set| set.name.cmp(name)).ok()
}

/// The as-set of this name.
#[tactic(auto, unfolding(conf_tree::specs::Flat::as_set_id))]
pub(crate) fn as_set_id(conf: &Conf, name: &Text) -> Option<SetId>
    requires { HasOrderedSets conf.now }
    ensures { result ≡ as_set_id conf.now name.now }
{
    let place = as_set_place(conf.as_sets.as_slice(), name)?;
    set_at(SetKind::As, place)
}

fn as_set_place(sets: &[AsSetConf], name: &Text) -> Option<usize>
    requires { IsStrictlySortedBy (on (λ s. s.name) text_cmp) sets.now }
    ensures { result ≡ place_of (λ s. s.name) sets.now name.now }
{
    sets.binary_search_by(|set| set.name.cmp(name)).ok()
}

/// The origin-set of this name.
#[tactic(auto, unfolding(conf_tree::specs::Flat::origin_set_id))]
pub(crate) fn origin_set_id(conf: &Conf, name: &Text) -> Option<SetId>
    requires { HasOrderedSets conf.now }
    ensures { result ≡ origin_set_id conf.now name.now }
{
    let place = origin_set_place(conf.origin_sets.as_slice(), name)?;
    set_at(SetKind::Origin, place)
}

fn origin_set_place(sets: &[OriginSetConf], name: &Text) -> Option<usize>
    requires { IsStrictlySortedBy (on (λ s. s.name) text_cmp) sets.now }
    ensures { result ≡ place_of (λ s. s.name) sets.now name.now }
{
    sets.binary_search_by(|set| set.name.cmp(name)).ok()
}

/// The set of a kind at a place, if the place is a number of 32 bits.
fn set_at(kind: SetKind, place: usize) -> Option<SetId>
    ensures { result ≡ option_map (λ at. record { kind = kind; at = at }) (below (2 ^ 32) place) }
{
    if place < 4294967296 {
        let at = place as u32;
        Some(SetId { kind, at })
    } else {
        None
    }
}
