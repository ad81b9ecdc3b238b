ghost use Rattle.std.specs.Prelude.{◌≡◌, ◌==◌, ◌≤◌, [], length, nat_lt, position, IfOk, IfErr, OnOk, OnErr};
ghost use Rattle.std.specs.List.{insert, position_or_len};
ghost use Rattle.adj_rib_in.specs.Row.{attrs_of, put, without, IsInOrder};

use attr_model::AttrRef;
use std::alloc::Global;
use std::marker::Model;
use std::mem;

/// The route of one session to a prefix.
#[derive(Drop)]
pub struct Entry {
    /// The number of the session that announced it.
    pub session: u32,
    /// Its attributes.
    pub attrs: AttrRef,
}

/// The routes to one prefix, one of a session at most, which contracts see as the list in order of session.
#[derive(Drop)]
pub(crate) struct Row {
    entries: Vec<Entry>,
}

impl Model for Row {
    ghost use Rattle.std.specs.Prelude.{List};
    ghost use Rattle.adj_rib_in.specs.declared.row.Entry.{Entry};
    ghost use Rattle.adj_rib_in.specs.Row.{IsInOrder};

    ghost Value = { List Entry };

    ghost view = { λ row. row.entries.items };

    ghost invariant = { λ row. IsInOrder row.entries.items };
}

impl Row {
    /// A row without routes, which takes no memory.
    pub(crate) fn new(alloc: Global) -> Self
        ensures { result ≡ [] }
    {
        Row {
            entries: Vec::new(alloc),
        }
    }

    /// The routes in order of session.
    pub(crate) fn as_slice(&self) -> &[Entry]
        ensures row { result.now ≡ self.now }
        ensures in_order { IsInOrder result.now }
    {
        self.entries.as_slice()
    }

    /// Whether there is no route.
    pub(crate) fn is_empty(&self) -> bool
        ensures { result ≡ (length self.now == 0) }
    {
        self.entries.is_empty()
    }

    /// Puts the route in the place of the one that its session had, which comes back. Where memory is refused, the
    /// row is as it was and the route comes back.
    pub(crate) fn put(&mut self, entry: Entry) -> Result<Option<AttrRef>, AttrRef>
        ensures row { OnOk result (self.new ≡ put entry self.old) }
        ensures old { IfOk result (λ old. old ≡ attrs_of entry.session self.old) }
        ensures same { OnErr result (self.new ≡ self.old) }
        ensures back { IfErr result (λ attrs. attrs ≡ entry.attrs) }
    {
        let at = place_of(self.entries.as_slice(), entry.session);
        if at < self.entries.len() {
            let old = mem::replace(&mut self.entries[at], entry);
            return Ok(Some(old.attrs));
        }
        let place = place_for(self.entries.as_slice(), entry.session);
        insert_at(&mut self.entries, place, entry)?;
        Ok(None)
    }

    /// Takes the route of a session out.
    pub(crate) fn take(&mut self, session: u32) -> Option<AttrRef>
        ensures row { self.new ≡ without session self.old }
        ensures value { result ≡ attrs_of session self.old }
        ensures in_order { IsInOrder self.old }
    {
        let at = place_of(self.entries.as_slice(), session);
        if at < self.entries.len() {
            return Some(self.entries.remove(at).attrs);
        }
        None
    }
}

/// Puts a route in front of the one at a place. Where memory is refused, the list is as it was and the route comes back.
fn insert_at(entries: &mut Vec<Entry>, place: usize, entry: Entry) -> Result<(), AttrRef>
    requires { place ≤ length entries.old.items }
    ensures ok { OnOk result (entries.new.items ≡ insert entries.old.items place entry) }
    ensures same { OnErr result (entries.new.items ≡ entries.old.items) }
    ensures back { IfErr result (λ attrs. attrs ≡ entry.attrs) }
{
    match entries.insert(place, entry) {
        Ok(()) => Ok(()),
        Err(failed) => Err(failed.value.attrs),
    }
}

/// Where the route of a session stands, or the length where it has none. A prefix has a route of each neighbour at most,
/// and whoever asks for a row walks it all, so this walks it too.
#[tactic(auto, using(crate::proofs::Rows::place_is))]
fn place_of(entries: &[Entry], session: u32) -> usize
    ensures { result ≡ position_or_len (λ entry. entry.session == session) entries.now }
{
    first_of(entries, session).unwrap_or(entries.len())
}

/// Where the route of a session stands.
fn first_of(entries: &[Entry], session: u32) -> Option<usize>
    ensures { result ≡ position (λ entry. entry.session == session) entries.now }
{
    entries.iter().position(|entry| entry.session == session)
}

/// Where a new route of a session goes.
#[tactic(auto, using(crate::proofs::Rows::place_is))]
fn place_for(entries: &[Entry], session: u32) -> usize
    ensures { result ≡ position_or_len (λ entry. nat_lt session entry.session) entries.now }
{
    first_above(entries, session).unwrap_or(entries.len())
}

/// Where the first route of a greater session stands.
fn first_above(entries: &[Entry], session: u32) -> Option<usize>
    ensures { result ≡ position (λ entry. nat_lt session entry.session) entries.now }
{
    entries.iter().position(|entry| session < entry.session)
}
