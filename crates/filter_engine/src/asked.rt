//! What an evaluation has asked of validation, and what it was told.

ghost use Rattle.std.specs.Prelude.{◌≡◌, None};
ghost use Rattle.std.specs.List.{All};
ghost use Rattle.net_base.specs.Roa.{origin_validation};
ghost use Rattle.conf_tree.specs.declared.sets.SetKind.TheVariants as kinds;
ghost use Rattle.conf_tree.specs.Membership.{Names, in_origin_set};
ghost use Rattle.filter_engine.specs.Asked.{AreRight};

use crate::Context;
use conf_tree::{Members, SetId};
use net_base::Ovs;

/// How many answers of origin-sets are kept.
const KEPT: usize = 16;

/// The answers for the route of one evaluation. The path with which it began doesn't change, so neither do they.
#[derive(Clone, Copy, Debug, Drop)]
pub(crate) struct Asked {
    /// What origin validation said.
    pub(crate) ovs: Option<Ovs>,
    /// The places of origin-sets, and what they said: each at the rest of its place by `KEPT`, the one asked last where
    /// several have the same.
    pub(crate) origin_sets: [Option<(u32, bool)>; KEPT],
}

impl Asked {
    /// Nothing is asked at first.
    pub(crate) fn nothing() -> Asked
        ensures none { result.ovs ≡ None }
        ensures no_set { All (λ kept. kept ≡ None) result.origin_sets }
    {
        Asked {
            ovs: None,
            origin_sets: [None; KEPT],
        }
    }
}

/// What origin validation says of the route, asked of the sets the first time.
pub(crate) fn ovs<M: Members>(
    sets: &M,
    context: &Context,
    origin: Option<u32>,
    asked: &mut Asked,
) -> Ovs
    requires { AreRight (M.conf_of sets.now) context.now origin asked.old }
    ensures said { result ≡ origin_validation (M.conf_of sets.now).roas context.now.prefix origin }
    ensures kept { AreRight (M.conf_of sets.now) context.now origin asked.new }
{
    if let Some(said) = asked.ovs {
        return said;
    }
    let said = sets.ovs(context.prefix, origin);
    asked.ovs = Some(said);
    said
}

/// Whether an origin-set has the route, asked of the sets where its answer isn't kept.
#[tactic(auto, unfolding(conf_tree::specs::Membership::in_origin_set))]
pub(crate) fn in_origin_set<M: Members>(
    sets: &M,
    context: &Context,
    origin: Option<u32>,
    set: SetId,
    asked: &mut Asked,
) -> bool
    requires named { Names (M.conf_of sets.now) kinds.Origin set }
    requires right { AreRight (M.conf_of sets.now) context.now origin asked.old }
    ensures said { result ≡ in_origin_set (M.conf_of sets.now) set context.now.prefix origin }
    ensures kept { AreRight (M.conf_of sets.now) context.now origin asked.new }
{
    let place = set.at as usize % KEPT;
    match asked.origin_sets[place] {
        Some((at, said)) if at == set.at => said,
        _ => {
            let said = sets.in_origin_set(set, context.prefix, origin);
            asked.origin_sets[place] = Some((set.at, said));
            said
        }
    }
}
