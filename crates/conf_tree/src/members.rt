ghost use Rattle.std.specs.Prelude.{◌≡◌};
ghost use Rattle.conf_tree.specs.declared.conf.Conf.{Conf};
ghost use Rattle.conf_tree.specs.declared.sets.SetKind.TheVariants as kinds;
ghost use Rattle.conf_tree.specs.Membership.{Names, in_prefix_set, in_prefix_set_or_longer, in_as_set, in_origin_set};
ghost use Rattle.net_base.specs.Roa.{origin_validation};

use crate::SetId;
use net_base::{Ovs, Prefix};

/// The sets of a configuration, asked for what they hold: some entry of the set's list fits.
///
/// None of the calls takes memory.
pub trait Members {
    /// The configuration whose sets these are.
    ghost conf_of: { Self → Conf };

    /// Whether some entry of a prefix-set covers the prefix and has its length in its range.
    fn in_prefix_set(&self, set: SetId, prefix: Prefix) -> bool
        requires { Names (conf_of self.now) kinds.Prefix set }
        ensures { result ≡ in_prefix_set (conf_of self.now) set prefix };

    /// Whether some entry of a prefix-set covers the prefix, whatever the range of its lengths.
    fn in_prefix_set_or_longer(&self, set: SetId, prefix: Prefix) -> bool
        requires { Names (conf_of self.now) kinds.Prefix set }
        ensures { result ≡ in_prefix_set_or_longer (conf_of self.now) set prefix };

    /// Whether a number stands in an as-set.
    fn in_as_set(&self, set: SetId, asn: u32) -> bool
        requires { Names (conf_of self.now) kinds.As set }
        ensures { result ≡ in_as_set (conf_of self.now) set asn };

    /// Whether an entry of an origin-set matches a route of this prefix and origin.
    fn in_origin_set(&self, set: SetId, prefix: Prefix, origin: Option<u32>) -> bool
        requires { Names (conf_of self.now) kinds.Origin set }
        ensures { result ≡ in_origin_set (conf_of self.now) set prefix origin };

    /// What origin validation says of a route against the roa-set (RFC 6811, section 2).
    fn ovs(&self, prefix: Prefix, origin: Option<u32>) -> Ovs
        ensures { result ≡ origin_validation (conf_of self.now).roas prefix origin };
}
