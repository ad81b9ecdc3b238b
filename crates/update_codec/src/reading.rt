//! Reading an UPDATE.

ghost use Rattle.std.specs.Prelude.{◌≡◌, ◌++◌, not, ◌&&◌, Some, None, IfOk, OnOk, MatchResult, []};
ghost use Rattle.net_base.specs.declared.addr.Family.TheVariants.{V4};
ghost use Rattle.attr_codec.specs.Gives.{Gives};
ghost use Rattle.attr_codec.specs.Prefixes.{prefixes_of};
ghost use Rattle.update_codec.specs.Update.{or_fault, field_at, withdrawn_at, agreed, unreach_prefixes, reach_prefixes, group, groups_of, has_hop, updated, update_of, update_says};

use crate::update::{GroupList, Update};
use attr_codec::{ReadAttrs, UpdateFault, read_attrs, read_prefixes};
use attr_model::Attrs;
use bgp_wire::Encoding;
use net_base::{Addr, Family, Items, NoMemory, PrefixList};
use std::alloc::Global;
use wire_buf::{Cursor, Short};

type Reach = (Family, Addr, PrefixList);

// A field behind its length of two bytes, and the bytes behind it.
fn field_of(bytes: &[u8]) -> Result<(&[u8], &[u8]), Short>
    ensures { MatchResult result (λ field. field_at bytes.now ≡ Some (field.0.now, field.1.now)) (λ _. field_at bytes.now ≡ None) }
{
    let mut left = Cursor::new(bytes);
    let size = left.u16()?;
    let field = left.bytes(usize::from(size))?;
    Ok((field, left.rest()))
}

// The field of withdrawn routes, which leaves at least the two bytes of the next length.
fn withdrawn_of(body: &[u8]) -> Result<(&[u8], &[u8]), Short>
    ensures { MatchResult result (λ field. withdrawn_at body.now ≡ Some (field.0.now, field.1.now)) (λ _. withdrawn_at body.now ≡ None) }
{
    let (field, rest) = field_of(body)?;
    if rest.len() < 2 {
        return Err(Short);
    }
    Ok((field, rest))
}

// The IPv4 prefixes of a plain field.
fn prefixes(alloc: Global, field: &[u8]) -> Result<PrefixList, UpdateFault>
    ensures { Gives result (or_fault 10 (prefixes_of V4 field.now)) }
{
    match read_prefixes(alloc, Family::V4, field)? {
        Some(prefixes) => Ok(prefixes),
        None => Err(UpdateFault::Notify(10)),
    }
}

// Prefixes of a family, where it is agreed.
fn agreed_prefixes(alloc: Global, is_agreed: bool, prefixes: PrefixList) -> PrefixList
    ensures { result ≡ agreed is_agreed prefixes }
{
    if is_agreed {
        prefixes
    } else {
        Items::new(alloc)
    }
}

// Puts a group behind others, where it has prefixes.
fn push_group(groups: &mut GroupList, attrs: Attrs, prefixes: PrefixList) -> Result<(), NoMemory>
    ensures { OnOk result (groups.new ≡ groups.old ++ group attrs prefixes) }
{
    if prefixes.is_empty() {
        return Ok(());
    }
    groups.push((attrs, prefixes))
}

fn with_hop(attrs: Attrs, hop: Addr) -> Attrs
    ensures { result ≡ record attrs { hop = hop } }
{
    let mut attrs = attrs;
    attrs.hop = hop;
    attrs
}

// The groups of attributes with prefixes. Attributes are copied only where both fields have prefixes.
fn groups(
    alloc: Global,
    attrs: Attrs,
    plain: PrefixList,
    reach: Option<Reach>,
) -> Result<GroupList, NoMemory>
    ensures { IfOk result (λ groups. groups ≡ groups_of attrs plain reach) }
{
    let mut groups = Items::new(alloc);
    let Some((_, hop, prefixes)) = reach else {
        push_group(&mut groups, attrs, plain)?;
        return Ok(groups);
    };
    if !prefixes.is_empty() {
        if !plain.is_empty() {
            push_group(&mut groups, attrs.clone()?, plain)?;
        }
        push_group(&mut groups, with_hop(attrs, hop), prefixes)?;
    } else {
        push_group(&mut groups, attrs, plain)?;
    }
    Ok(groups)
}

// The prefixes of a message whose announced ones count as withdrawn.
fn all_withdrawn(
    alloc: Global,
    withdrawn: PrefixList,
    plain: PrefixList,
    reach: Option<Reach>,
) -> Result<Update, NoMemory>
    ensures { IfOk result (λ update. update ≡ record { withdrawn = withdrawn ++ plain ++ reach_prefixes reach; announced = [] }) }
{
    let mut withdrawn = withdrawn;
    withdrawn.extend_from_slice(plain.as_slice())?;
    if let Some((_, _, prefixes)) = reach {
        withdrawn.extend_from_slice(prefixes.as_slice())?;
    }
    Ok(Update {
        withdrawn,
        announced: Items::new(alloc),
    })
}

// The update, whose announced prefixes count as withdrawn where an attribute is malformed or lacks.
fn update(
    alloc: Global,
    withdrawn: PrefixList,
    plain: PrefixList,
    attrs: Option<Attrs>,
    good: bool,
    reach: Option<Reach>,
) -> Result<Update, NoMemory>
    ensures { IfOk result (λ update. update ≡ updated withdrawn plain attrs good reach) }
{
    match attrs {
        Some(attrs) if good => Ok(Update {
            withdrawn,
            announced: groups(alloc, attrs, plain, reach)?,
        }),
        _ => all_withdrawn(alloc, withdrawn, plain, reach),
    }
}

fn hop_is_there(plain: &PrefixList, hop: Option<Addr>) -> bool
    ensures { result ≡ has_hop plain.now hop }
{
    plain.is_empty() || hop.is_some()
}

// The withdrawn prefixes, with those of MP_UNREACH_NLRI behind them.
fn with_unreach(
    withdrawn: PrefixList,
    unreach: Option<(Family, PrefixList)>,
) -> Result<PrefixList, NoMemory>
    ensures { IfOk result (λ list. list ≡ withdrawn ++ unreach_prefixes unreach) }
{
    let mut withdrawn = withdrawn;
    if let Some((_, prefixes)) = unreach {
        withdrawn.extend_from_slice(prefixes.as_slice())?;
    }
    Ok(withdrawn)
}

// What the three fields say together.
fn together(
    alloc: Global,
    enc: Encoding,
    withdrawn: PrefixList,
    said: ReadAttrs,
    plain: PrefixList,
) -> Result<Update, NoMemory>
    ensures { IfOk result (λ update. update ≡ update_of enc withdrawn said plain) }
{
    let ReadAttrs {
        attrs,
        withdraw,
        next_hop,
        reach,
        unreach,
    } = said;
    let plain = agreed_prefixes(alloc, enc.v4, plain);
    let withdrawn = with_unreach(agreed_prefixes(alloc, enc.v4, withdrawn), unreach)?;
    let good = !withdraw && hop_is_there(&plain, next_hop);
    update(alloc, withdrawn, plain, attrs, good, reach)
}

/// Reads the body of an UPDATE (RFC 4271 section 4.3) by what was agreed with the peer.
///
/// `UpdateFault::Notify` comes exactly where the first fault in the order of the bytes is to be answered by a
/// NOTIFICATION, with its sub code: 1 where a length passes the body, 10 for a prefix of a plain field that isn't
/// whole, and those of `read_attrs`. Plain prefixes are dropped where IPv4 isn't agreed. Where an attribute is malformed, or
/// ORIGIN, AS_PATH or, for plain prefixes, NEXT_HOP is missing, all announced prefixes count as withdrawn
/// (RFC 7606 section 2).
#[tactic(auto, unfolding(crate::specs::Update::update_says))]
pub fn read_update(alloc: Global, enc: Encoding, body: &[u8]) -> Result<Update, UpdateFault>
    ensures { Gives result (update_says enc body.now) }
{
    let Ok((withdrawn, rest)) = withdrawn_of(body) else {
        return Err(UpdateFault::Notify(1));
    };
    let withdrawn = prefixes(alloc, withdrawn)?;
    let Ok((attributes, plain)) = field_of(rest) else {
        return Err(UpdateFault::Notify(1));
    };
    let said = read_attrs(alloc, enc, attributes)?;
    let plain = prefixes(alloc, plain)?;
    Ok(together(alloc, enc, withdrawn, said, plain)?)
}
