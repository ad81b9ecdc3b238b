ghost use Rattle.std.specs.Prelude.{◌≡◌, ℕ, ◌≤◌, [], Bool, not, is_some, List, Option, Some, None};
ghost use Rattle.std.specs.List.{AllByRecursion};
ghost use Rattle.std.specs.List.Sorted.{IsStrictlySortedBy};
ghost use Rattle.std.specs.Ordering.{on};
ghost use Rattle.net_base.specs.declared.prefix.Prefix.{Prefix};
ghost use Rattle.net_base.specs.Order.{prefix_cmp};
ghost use Rattle.bgp_wire.specs.declared.open.OpenFacts.{OpenFacts};
ghost use Rattle.attr_model.specs.declared.attrs.Attrs.{Attrs};
ghost use Rattle.attr_model.specs.Routes.{route_at};
ghost use Rattle.attr_codec.specs.Width.{HaveWidth, IsNumber};
ghost use Rattle.conf_tree.specs.Readable.{IsReadable};
ghost use Rattle.conf_tree.specs.declared.conf.Conf.{Conf};
ghost use Rattle.conf_tree.specs.declared.conf.Network.{Network};
ghost use Rattle.conf_tree.specs.declared.neighbour.Neighbour.{Neighbour};
ghost use Rattle.decision.specs.declared.candidate.Candidate.{Candidate};
ghost use Rattle.route_world.specs.declared.world.World.{World};
ghost use Rattle.route_world.specs.declared.world.Session.{Session};
ghost use Rattle.route_world.specs.declared.world.Hops.{Hops};
ghost use Rattle.route_world.specs.World.{neighbour_at};
ghost use Rattle.route_world.specs.Import.{candidates, network_at};
ghost use Rattle.route_world.specs.Export.{export};
ghost use Rattle.route_world.specs.Loc.{loc};
ghost use Rattle.route_world.specs.Networks.{network_rows};
ghost use Rattle.route_world.specs.Same.{AreSameAt, HaveSameAnswers, hops_at};
ghost use Rattle.route_world.specs.Sent.{HaveWidthAt, HoldGood, IsGood, MayBeTold};
ghost use Rattle.route_world.specs.Tables.{best_at, told_at};

/// What a session is told of a prefix goes by the configuration, the neighbour and its facts, and the best of its RIB, and by
/// nothing else in a world.
pub fn told_goes_by_the_best()
    ensures { (one other : World) (session twin : Session) (prefix : Prefix) →
        one.conf ≡ other.conf → session.peer ≡ twin.peer → session.facts ≡ twin.facts →
        ((neighbour : Neighbour) → neighbour_at one.conf session.peer ≡ Some neighbour →
        best_at one neighbour.rib prefix ≡ best_at other neighbour.rib prefix) →
        told_at one session prefix ≡ told_at other twin prefix }
{}

/// A prefix that no session holds a route of, and that is no network, has no candidates.
pub fn unknown_prefixes_have_no_candidates()
    ensures { (world : World) (rib : ℕ) (prefix : Prefix) →
        network_at world.conf prefix ≡ None →
        AllByRecursion (λ (session : Session). route_at session.held prefix ≡ None) world.sessions →
        candidates world rib prefix ≡ [] }
{}

/// The candidates of a prefix go by the configuration, the sessions with their facts and their routes of that prefix, and the
/// answers for the next hops of these candidates. The next hops themselves don't go by the answers.
pub fn candidates_go_by_their_routes()
    ensures hops { (one other : World) (rib : ℕ) (prefix : Prefix) → AreSameAt prefix one other →
        hops_at one rib prefix ≡ hops_at other rib prefix }
    ensures candidates { (one other : World) (rib : ℕ) (prefix : Prefix) → AreSameAt prefix one other →
        HaveSameAnswers one other (hops_at one rib prefix) →
        candidates one rib prefix ≡ candidates other rib prefix }
{}

/// Valid attributes stay valid on their way into a RIB and out of it, and the next hop keeps the family of the prefix.
pub fn what_is_told_may_be_sent()
    ensures candidates { (world : World) (rib : ℕ) (prefix : Prefix) → HoldGood prefix world →
        AllByRecursion (λ (candidate : Candidate). IsGood prefix candidate.attrs.attrs) (candidates world rib prefix) }
    ensures export { (conf : Conf) (facts : OpenFacts) (neighbour : Neighbour) (prefix : Prefix) (best : Candidate) (attrs : Attrs) →
        IsGood prefix best.attrs.attrs → export conf facts neighbour prefix best ≡ Some attrs →
        MayBeTold facts.encoding neighbour prefix attrs }
    ensures told { (world : World) (session : Session) (neighbour : Neighbour) (prefix : Prefix) (attrs : Attrs) →
        HoldGood prefix world → neighbour_at world.conf session.peer ≡ Some neighbour → told_at world session prefix ≡ Some attrs →
        MayBeTold session.facts.encoding neighbour prefix attrs }
{}

/// Each number of what is told has its width, where the configuration is one that can be written, and where the numbers that
/// sessions say have theirs.
pub fn numbers_keep_their_width()
    ensures candidates { (world : World) (rib : ℕ) (prefix : Prefix) → IsReadable world.conf → HaveWidthAt prefix world →
        AllByRecursion (λ (candidate : Candidate). HaveWidth candidate.attrs.attrs) (candidates world rib prefix) }
    ensures export { (conf : Conf) (facts : OpenFacts) (neighbour : Neighbour) (prefix : Prefix) (best : Candidate) (attrs : Attrs) →
        IsReadable conf → IsNumber facts.asn → HaveWidth best.attrs.attrs → export conf facts neighbour prefix best ≡ Some attrs →
        HaveWidth attrs }
    ensures told { (world : World) (session : Session) (prefix : Prefix) (attrs : Attrs) → IsReadable world.conf →
        IsNumber session.facts.asn → HaveWidthAt prefix world → told_at world session prefix ≡ Some attrs → HaveWidth attrs }
{}

/// LOCAL_PREF is told exactly within the own AS, whatever the candidate.
pub fn local_pref_is_told_within_the_own_as()
    ensures { (conf : Conf) (facts : OpenFacts) (neighbour : Neighbour) (prefix : Prefix) (best : Candidate) (attrs : Attrs) →
        export conf facts neighbour prefix best ≡ Some attrs → is_some attrs.local_pref ≡ not facts.encoding.external }
{}

/// Without sessions the rows of each RIB are those of the networks.
pub fn loc_of_networks()
    ensures { (conf : Conf) (hops : Hops) (rib : ℕ) →
        IsStrictlySortedBy (on (λ (network : Network). network.prefix) prefix_cmp) conf.networks →
        loc (record { conf = conf; sessions = []; hops = hops }) rib ≡ network_rows conf }
{}
