ghost use Rattle.std.specs.Prelude.{◌≡◌, ℕ, List, [], None, Some, filter, true};
ghost use Rattle.net_base.specs.declared.addr.Addr.{Addr};
ghost use Rattle.net_base.specs.Order.{same_family};
ghost use Rattle.attr_model.specs.declared.attrs.Attrs.{Attrs};
ghost use Rattle.attr_model.specs.Valid.{IsValid};
ghost use Rattle.conf_tree.specs.declared.conf.Conf.{Conf};
ghost use Rattle.conf_tree.specs.declared.rule.Item.{Item};
ghost use Rattle.conf_tree.specs.Settled.{IsSettled};
ghost use Rattle.conf_tree.specs.declared.rule.Rule.{Rule};
ghost use Rattle.filter_engine.specs.declared.context.Context.{Context};
ghost use Rattle.filter_engine.specs.declared.verdict.Hop.{Hop};
ghost use Rattle.filter_engine.specs.declared.verdict.Hop.TheVariants.{Given};
ghost use Rattle.filter_engine.specs.IsFor.{is_for};
ghost use Rattle.filter_engine.specs.Items.{with_items, with_prepends};
ghost use Rattle.filter_engine.specs.Named.{AreNamed};
ghost use Rattle.filter_engine.specs.Verdict.{verdict};

/// A verdict goes by the sets of a configuration and by nothing else in it, and without rules no route passes.
pub fn verdict_goes_by_sets()
    ensures sets { (one other : Conf) (rules : List Rule) (context : Context) (attrs : Attrs) →
        one.prefix_sets ≡ other.prefix_sets → one.as_sets ≡ other.as_sets → one.origin_sets ≡ other.origin_sets → one.roas ≡ other.roas →
        verdict one rules context attrs ≡ verdict other rules context attrs }
    ensures none { (conf : Conf) (context : Context) (attrs : Attrs) → verdict conf [] context attrs ≡ None }
{}

/// A next hop that rules give has the family of the prefix: an address of another family changes nothing.
pub fn given_hop_has_the_family()
    ensures { (conf : Conf) (rules : List Rule) (context : Context) (attrs told : Attrs) (address : Addr) →
        verdict conf rules context attrs ≡ Some (told, Given address) → same_family address.family context.prefix.family ≡ true }
{}

/// Rules for another direction, RIB or neighbour change nothing: the verdict of those that are for the route is that of
/// all.
pub fn verdict_goes_by_rules_for_the_route()
    ensures { (conf : Conf) (rules : List Rule) (context : Context) (attrs : Attrs) →
        verdict conf (filter (is_for context) rules) context attrs ≡ verdict conf rules context attrs }
{}

/// Valid attributes stay valid: under the items of a set, as that of a neighbour or of a rule, under prepending, and where
/// rules let the route pass.
pub fn valid_attributes_stay_valid()
    ensures items { (context : Context) (attrs : Attrs) (items : List Item) → IsValid attrs → IsValid (with_items context attrs items) }
    ensures prepends { (asn times : ℕ) (attrs : Attrs) → IsValid attrs → IsValid (with_prepends asn times attrs) }
    ensures rules { (conf : Conf) (rules : List Rule) (context : Context) (attrs told : Attrs) (hop : Hop) →
        verdict conf rules context attrs ≡ Some (told, hop) → IsValid attrs → IsValid told }
{}

/// The rules of a configuration that has passed its checks name sets that there are, as an evaluation asks of them.
pub fn settled_rules_name_sets()
    ensures { (conf : Conf) → IsSettled conf → AreNamed conf conf.rules }
{}
