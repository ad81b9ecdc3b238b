//! Lists in order, each item once.

ghost use Rattle.std.specs.Prelude.{◌≡◌};
ghost use Rattle.std.specs.Ordering.{nat_cmp};
ghost use Rattle.attr_model.specs.Valid.{large_cmp};
ghost use Rattle.attr_codec.specs.Ascending.{ascending};

/// Puts communities in order, and leaves each once.
pub(crate) fn order_communities(communities: &mut Vec<u32>)
    ensures { communities.new.items ≡ ascending nat_cmp communities.old.items }
{
    communities.sort_unstable();
    communities.dedup();
}

/// Puts large communities in order, and leaves each once.
pub(crate) fn order_larges(larges: &mut Vec<(u32, u32, u32)>)
    ensures { larges.new.items ≡ ascending large_cmp larges.old.items }
{
    larges.sort_unstable();
    larges.dedup();
}
