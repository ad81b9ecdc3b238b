//! All choices of one member from each of some lists.
ghost use Rattle.std.specs.Prelude.{◌≡◌, ◌++◌, ◌∷◌, [], IfOk, OnOk};
ghost use Rattle.conf_tree.specs.Flat.{choices, chosen, followed_by};

use conf_tree::Condition;
use net_base::{Items, NoMemory};
use std::alloc::Global;

/// A value of which there may be more than one.
pub(crate) trait Duplicate: Drop {
    /// The same value once more.
    fn duplicate(&self, alloc: Global) -> Result<Self, NoMemory>
        ensures { IfOk result (λ copy. copy ≡ self.now) };
}

impl Duplicate for Condition {
    fn duplicate(&self, _alloc: Global) -> Result<Self, NoMemory> {
        Ok(*self)
    }
}

impl Duplicate for Items<Condition> {
    fn duplicate(&self, alloc: Global) -> Result<Self, NoMemory> {
        Items::from_slice(alloc, self.as_slice())
    }
}

/// All choices of one member from each list, those of the first list outermost.
pub(crate) fn choices<T: Duplicate>(
    alloc: Global,
    lists: &[Items<T>],
) -> Result<Vec<Items<T>>, NoMemory>
    ensures { IfOk result (λ all. all.items ≡ choices lists.now) }
{
    let mut fronts = Vec::new(alloc);
    fronts.push(Items::new(alloc))?;
    for list in lists {
        fronts = chosen(alloc, &fronts, list.as_slice())?;
    }
    Ok(fronts)
}

/// Each of the choices so far, followed by each member of one more list.
fn chosen<T: Duplicate>(
    alloc: Global,
    fronts: &[Items<T>],
    list: &[T],
) -> Result<Vec<Items<T>>, NoMemory>
    ensures { IfOk result (λ all. all.items ≡ chosen fronts.now list.now) }
{
    let mut all = Vec::new(alloc);
    for front in fronts {
        add_followed(alloc, &mut all, front, list)?;
    }
    Ok(all)
}

/// Adds one choice, followed by each member of a list.
#[tactic(auto, unfolding(conf_tree::specs::Flat::followed_by))]
fn add_followed<T: Duplicate>(
    alloc: Global,
    all: &mut Vec<Items<T>>,
    front: &Items<T>,
    list: &[T],
) -> Result<(), NoMemory>
    ensures { OnOk result (all.new.items ≡ all.old.items ++ followed_by list.now front.now) }
{
    for one in list {
        let followed = followed(alloc, front, one)?;
        all.push(followed)?;
    }
    Ok(())
}

/// A list, followed by one entry more.
fn followed<T: Duplicate>(alloc: Global, front: &Items<T>, one: &T) -> Result<Items<T>, NoMemory>
    ensures { IfOk result (λ list. list ≡ front.now ++ one.now ∷ []) }
{
    let mut list = duplicate_all(alloc, front)?;
    list.push(one.duplicate(alloc)?)?;
    Ok(list)
}

fn duplicate_all<T: Duplicate>(alloc: Global, list: &Items<T>) -> Result<Items<T>, NoMemory>
    ensures { IfOk result (λ copy. copy ≡ list.now) }
{
    let mut copy = Items::new(alloc);
    for entry in list.as_slice() {
        copy.push(entry.duplicate(alloc)?)?;
    }
    Ok(copy)
}
