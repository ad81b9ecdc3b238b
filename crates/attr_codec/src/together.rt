//! What the attributes of a field say together, made from what each says.

ghost use Rattle.std.specs.Prelude.{◌≡◌, IfOk};
ghost use Rattle.attr_codec.specs.Parts.{numbers_said, with_as4_path, paths_said, lists_said, partial_bit, partial_bits};

use crate::communities::{communities, large};
use crate::cut_field::CutField;
use crate::flag::PARTIAL;
use crate::join::join_paths;
use crate::parts::{Lists, Numbers, Paths};
use crate::said::{Flags, Said};
use crate::unknown::unknown;
use crate::{kind, values};
use attr_model::Path;
use net_base::{Items, NoMemory};
use std::alloc::Global;

pub(crate) fn numbers(external: bool, field: &CutField<'_>) -> Numbers
    ensures { result ≡ numbers_said external field.now }
{
    let med = values::number(field, kind::MED, Flags::Optional);
    let local_pref = values::local_pref(external, field);
    let atomic = values::atomic(field);
    let malformed = med.is_malformed() || local_pref.is_malformed() || atomic.is_malformed();
    Numbers {
        med: med.value(),
        local_pref: local_pref.value(),
        atomic: atomic.value().is_some(),
        malformed,
    }
}

// AS_PATH, with AS4_PATH where that came and isn't ignored.
fn join(
    alloc: Global,
    ignored: bool,
    path: Said<Path>,
    as4_path: Option<Path>,
) -> Result<Option<Path>, NoMemory>
    ensures { IfOk result (λ joined. joined ≡ with_as4_path ignored path as4_path) }
{
    match (path, as4_path) {
        (Said::Value(path), Some(as4_path)) if !ignored => {
            Ok(Some(join_paths(alloc, path, &as4_path)?))
        }
        (Said::Value(path), _) => Ok(Some(path)),
        (Said::Nothing | Said::Malformed, _) => Ok(None),
    }
}

pub(crate) fn paths(alloc: Global, as4: bool, field: &CutField<'_>) -> Result<Paths, NoMemory>
    ensures { IfOk result (λ paths. paths ≡ paths_said as4 field.now) }
{
    let path = values::path(alloc, as4, field)?;
    let as4_path = values::as4_path(alloc, as4, field)?;
    let aggregator = values::aggregator(as4, field);
    let as4_aggregator = values::as4_aggregator(as4, field);
    let malformed_path = path.is_malformed() || as4_path.is_malformed();
    let malformed_aggregator = aggregator.is_malformed() || as4_aggregator.is_malformed();
    let aggregator = aggregator.value();
    let as4_aggregator = as4_aggregator.value();
    let ignored = values::is_as4_ignored(aggregator, as4_aggregator);
    Ok(Paths {
        path: join(alloc, ignored, path, as4_path.value())?,
        aggregator: values::join_aggregators(aggregator, as4_aggregator),
        malformed: malformed_path || malformed_aggregator,
    })
}

pub(crate) fn lists(alloc: Global, field: &CutField<'_>) -> Result<Lists, NoMemory>
    ensures { IfOk result (λ lists. lists ≡ lists_said field.now) }
{
    let communities = communities(alloc, field)?;
    let large = large(alloc, field)?;
    let malformed = communities.is_malformed() || large.is_malformed();
    Ok(Lists {
        communities: communities.value().unwrap_or(Items::new(alloc)),
        large: large.value().unwrap_or(Items::new(alloc)),
        unknown: unknown(alloc, field)?,
        malformed,
    })
}

// A bit for the partial bit of a type, where its attribute counts.
fn bit(counts: bool, kind: u8, bit: u8, field: &CutField<'_>) -> u8
    ensures { result ≡ partial_bit counts kind bit field.now }
{
    match field.first(kind) {
        Some(attribute) if counts && attribute.flags & PARTIAL != 0 => bit,
        _ => 0,
    }
}

/// The partial bits of AGGREGATOR (1), COMMUNITIES (2) and LARGE_COMMUNITY (4).
pub(crate) fn partial(paths: &Paths, lists: &Lists, field: &CutField<'_>) -> u8
    ensures { result ≡ partial_bits paths.now lists.now field.now }
{
    bit(paths.aggregator.is_some(), kind::AGGREGATOR, 1, field)
        + bit(!lists.communities.is_empty(), kind::COMMUNITIES, 2, field)
        + bit(!lists.large.is_empty(), kind::LARGE_COMMUNITY, 4, field)
}
