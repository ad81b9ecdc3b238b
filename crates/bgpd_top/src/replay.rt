ghost use Rattle.event_text.specs.Held.{held_event};
ghost use Rattle.std.specs.Prelude.{◌≢◌, ◌≡◌, ◌+◌, ◌<◌, ◌≤◌, ◌^◌, ℕ, List, Option, Some, None, Ok, Err, true, false, IfOk, IfErr, IfSome, OnOk, OnErr, IsOk, option_map, ◌∷◌, [], IsErrOf};
ghost use Rattle.io_edge.specs.Reading.{lines_ahead, fault_ahead, Ends};
ghost use Rattle.io_edge.specs.FileLines.{file_limit};
ghost use Rattle.bgpd_top.specs.Faults.{of_line, CountsWorld, IsNoBadEvent};
ghost use Rattle.event_text.specs.Grammar.{is_skipped, is_reload, no_more, with_event, FileEvents, Ended, BadEvent, TooLong};

use crate::world::WorldFault;
use core_msgs::Event;
use event_text::{EventFault, LinesHeld, is_reload, is_skipped, read_event};
use io_edge::{Lines, Source, read_line};
use net_base::{Bytes, NoMemory};
use std::alloc::Global;

/// A reader of the events of an event file.
#[derive(Debug, Drop)]
pub struct EventReader {
    lines: Lines,
    /// How many lines were read.
    count: u32,
    ghost counted: { count ≤ lines.passed },
}

impl EventReader {
    ghost use Rattle.bgpd_top.specs.Reader.{IsFresh, reader_lines, reader_fault, reader_passed, reader_front, reader_asks, to_come, reader_count, is_spent_reader, EndsTooLong, before_head, come_after};
    ghost use Rattle.event_text.specs.Held.{wants_more};
    ghost use Rattle.bgpd_top.specs.Ahead.{held_then_come, events_to_come};

    /// A reader at the beginning of a file.
    pub fn new(alloc: Global) -> Result<Self, NoMemory>
        ensures ahead { IfOk result (λ reader. IsFresh reader) }
    {
        Ok(EventReader {
            lines: Lines::new(alloc)?,
            count: 0,
        })
    }

    /// Whether the next event may want a read of the source. Where it doesn't, all of the event came already.
    pub fn asks(&self) -> bool
        ensures { result ≡ reader_asks self.now }
    {
        match self.lines.front() {
            None => true,
            Some(line) => is_skipped(line) || is_reload(line),
        }
    }

    /// The next line.
    #[tactic(auto, using(crate::proofs::Asking::no_read_fault))]
    fn next_line<S: Source>(&mut self, source: &mut S) -> Result<Option<Bytes>, WorldFault>
        requires { is_spent_reader self.old ≡ false }
        ensures line { IfOk result (λ answer. IfSome answer (λ line.
            reader_lines self.old (S.left source.old) ≡ option_map (λ others. line ∷ others) (reader_lines self.new (S.left source.new)))) }
        ensures fault { OnOk result (reader_fault self.new (S.left source.new) ≡ reader_fault self.old (S.left source.old)) }
        ensures end { result ≡ Ok None → Ends (reader_lines self.old (S.left source.old)) (reader_fault self.old (S.left source.old)) None }
        ensures too_long { result ≡ Err WorldFault.TooLong → EndsTooLong (reader_lines self.old (S.left source.old)) (reader_fault self.old (S.left source.old)) }
        ensures no_bad_event { IfErr result IsNoBadEvent }
        ensures number { IfOk result (λ answer. IfSome answer (λ _. reader_count self.new ≡ reader_count self.old + 1)) }
        ensures at_end { result ≡ Ok None → reader_count self.new ≡ reader_count self.old }
        ensures further { IfOk result (λ answer. IfSome answer (λ _. reader_passed self.old < reader_passed self.new)) }
        ensures within { IfOk result (λ answer. IfSome answer (λ _. reader_passed self.new ≤ file_limit)) }
        ensures small { IfOk result (λ answer. IfSome answer (λ _. reader_count self.new ≤ file_limit)) }
        ensures live { OnOk result (is_spent_reader self.new ≡ false) }
        ensures whole { (line : List ℕ) → reader_front self.old ≡ Some line →
            (result ≢ Err WorldFault.ReadFault) × IfOk result (λ answer. answer ≡ Some line) }
        ensures counts { CountsWorld (S.faults source.old) (S.faults source.new) result }
    {
        let Some(line) = read_line(&mut self.lines, source)? else {
            return Ok(None);
        };
        self.count += 1;
        Ok(Some(line))
    }

    /// The next line that isn't passed over.
    #[tactic(auto, using(crate::proofs::Coming::skip, crate::proofs::Coming::ended, crate::proofs::Coming::too_long, crate::proofs::Asking::asks_no_more))]
    fn next_head<S: Source>(&mut self, source: &mut S) -> Result<Option<Bytes>, WorldFault>
        requires { is_spent_reader self.old ≡ false }
        ensures head { IfOk result (λ answer. IfSome answer (λ head. (is_skipped head ≡ false) × (0 < reader_count self.new)
            × (to_come self.old (S.left source.old) ≡ before_head head (reader_count self.new) (reader_lines self.new (S.left source.new)) (reader_fault self.new (S.left source.new))))) }
        ensures end { result ≡ Ok None → IfSome (to_come self.old (S.left source.old)) (λ file. file ≡ no_more Ended) }
        ensures too_long { result ≡ Err WorldFault.TooLong → IfSome (to_come self.old (S.left source.old)) (λ file. file ≡ no_more TooLong) }
        ensures no_bad_event { IfErr result IsNoBadEvent }
        ensures further { IfOk result (λ answer. IfSome answer (λ _. reader_count self.old < reader_count self.new)) }
        ensures small { IfOk result (λ answer. IfSome answer (λ _. reader_count self.new ≤ file_limit)) }
        ensures live { OnOk result (is_spent_reader self.new ≡ false) }
        ensures counts { CountsWorld (S.faults source.old) (S.faults source.new) result }
        ensures asked { reader_asks self.old ≡ false → (result ≢ Err WorldFault.ReadFault) × IfOk result (λ answer. IfSome answer (λ head. is_reload head ≡ false)) }
    {
        let Some(line) = self.next_line(source)? else {
            return Ok(None);
        };
        if !is_skipped(line.as_slice()) {
            return Ok(Some(line));
        }
        self.head_behind(source)
    }

    /// The next line that isn't passed over, behind one that is.
    #[tactic(auto, using(crate::proofs::Coming::skip, crate::proofs::Coming::ended, crate::proofs::Coming::too_long))]
    fn head_behind<S: Source>(&mut self, source: &mut S) -> Result<Option<Bytes>, WorldFault>
        requires { is_spent_reader self.old ≡ false }
        ensures head { IfOk result (λ answer. IfSome answer (λ head. (is_skipped head ≡ false) × (0 < reader_count self.new)
            × (to_come self.old (S.left source.old) ≡ before_head head (reader_count self.new) (reader_lines self.new (S.left source.new)) (reader_fault self.new (S.left source.new))))) }
        ensures end { result ≡ Ok None → IfSome (to_come self.old (S.left source.old)) (λ file. file ≡ no_more Ended) }
        ensures too_long { result ≡ Err WorldFault.TooLong → IfSome (to_come self.old (S.left source.old)) (λ file. file ≡ no_more TooLong) }
        ensures no_bad_event { IfErr result IsNoBadEvent }
        ensures further { IfOk result (λ answer. IfSome answer (λ _. reader_count self.old < reader_count self.new)) }
        ensures small { IfOk result (λ answer. IfSome answer (λ _. reader_count self.new ≤ file_limit)) }
        ensures live { OnOk result (is_spent_reader self.new ≡ false) }
        ensures counts { CountsWorld (S.faults source.old) (S.faults source.new) result }
    {
        while let Some(line) = self.next_line(source)? {
            if !is_skipped(line.as_slice()) {
                return Ok(Some(line));
            }
        }
        Ok(None)
    }

    /// Takes the lines that belong to the event of the lines held, and reads nothing where it is whole.
    fn complete<S: Source>(
        &mut self,
        held: &mut LinesHeld,
        source: &mut S,
    ) -> Result<(), WorldFault>
        requires live { is_spent_reader self.old ≡ false }
        requires last { held.old.last ≡ reader_count self.old }
        requires small { reader_count self.old ≤ file_limit }
        ensures same { OnOk result (come_after held.old self.old (S.left source.old) ≡ come_after held.new self.new (S.left source.new)) }
        ensures whole { OnOk result (wants_more held.new ≡ false) }
        ensures last { OnOk result (held.new.last ≡ reader_count self.new) }
        ensures further { OnOk result (reader_count self.old ≤ reader_count self.new) }
        ensures within { OnOk result (reader_count self.new ≤ file_limit) }
        ensures bad_event { (number : ℕ) → result ≡ Err (WorldFault.BadEvent number) →
            IfSome (come_after held.old self.old (S.left source.old)) (λ file. file ≡ no_more (BadEvent number)) }
        ensures too_long { result ≡ Err WorldFault.TooLong → IfSome (come_after held.old self.old (S.left source.old)) (λ file. file ≡ no_more TooLong) }
        ensures live { OnOk result (is_spent_reader self.new ≡ false) }
        ensures counts { CountsWorld (S.faults source.old) (S.faults source.new) result }
        ensures asked { wants_more held.old ≡ false → IsOk result }
    {
        if !held.wants_more() {
            return Ok(());
        }
        self.fill(held, source)
    }

    /// Takes the lines that belong to the event of the lines held.
    #[tactic(auto, using(crate::proofs::Coming::more, crate::proofs::Coming::cut, crate::proofs::Coming::unended))]
    fn fill<S: Source>(&mut self, held: &mut LinesHeld, source: &mut S) -> Result<(), WorldFault>
        requires live { is_spent_reader self.old ≡ false }
        requires last { held.old.last ≡ reader_count self.old }
        requires small { reader_count self.old ≤ file_limit }
        ensures same { OnOk result (come_after held.old self.old (S.left source.old) ≡ come_after held.new self.new (S.left source.new)) }
        ensures whole { OnOk result (wants_more held.new ≡ false) }
        ensures last { OnOk result (held.new.last ≡ reader_count self.new) }
        ensures further { OnOk result (reader_count self.old ≤ reader_count self.new) }
        ensures within { OnOk result (reader_count self.new ≤ file_limit) }
        ensures bad_event { (number : ℕ) → result ≡ Err (WorldFault.BadEvent number) →
            IfSome (come_after held.old self.old (S.left source.old)) (λ file. file ≡ no_more (BadEvent number)) }
        ensures too_long { result ≡ Err WorldFault.TooLong → IfSome (come_after held.old self.old (S.left source.old)) (λ file. file ≡ no_more TooLong) }
        ensures live { OnOk result (is_spent_reader self.new ≡ false) }
        ensures counts { CountsWorld (S.faults source.old) (S.faults source.new) result }
    {
        while held.wants_more() {
            let Some(line) = self.next_line(source)? else {
                return Err(WorldFault::BadEvent(held.last));
            };
            held.push(line.as_slice())?;
        }
        Ok(())
    }

    /// The next event of the file, or None at its end.
    ///
    /// `BadEvent` comes exactly at the first line that isn't of the grammar of events, and `TooLong` exactly where a
    /// line or the file passes its limit before that. `ReadFault` comes only where the source's count of faults rose,
    /// and only where the reader asked.
    #[tactic(auto, using(crate::proofs::Coming::begin, crate::proofs::Coming::done, crate::proofs::Coming::bad, crate::proofs::Asking::wants_no_more))]
    pub fn next<S: Source>(
        &mut self,
        alloc: Global,
        source: &mut S,
    ) -> Result<Option<Event>, WorldFault>
        requires { is_spent_reader self.old ≡ false }
        ensures event { IfOk result (λ answer. IfSome answer (λ event.
            to_come self.old (S.left source.old) ≡ option_map (with_event event) (to_come self.new (S.left source.new)))) }
        ensures end { result ≡ Ok None → IfSome (to_come self.old (S.left source.old)) (λ file. file ≡ no_more Ended) }
        ensures bad_event { (number : ℕ) → result ≡ Err (WorldFault.BadEvent number) →
            IfSome (to_come self.old (S.left source.old)) (λ file. file ≡ no_more (BadEvent number)) }
        ensures too_long { result ≡ Err WorldFault.TooLong → IfSome (to_come self.old (S.left source.old)) (λ file. file ≡ no_more TooLong) }
        ensures further { IfOk result (λ answer. IfSome answer (λ _. reader_count self.old < reader_count self.new)) }
        ensures small { IfOk result (λ answer. IfSome answer (λ _. reader_count self.new ≤ file_limit)) }
        ensures live { OnOk result (is_spent_reader self.new ≡ false) }
        ensures asked { reader_asks self.old ≡ false → result ≢ Err WorldFault.ReadFault }
        ensures counts { CountsWorld (S.faults source.old) (S.faults source.new) result }
    {
        let Some(head) = self.next_head(source)? else {
            return Ok(None);
        };
        let mut held = LinesHeld::new(alloc, self.count, head);
        self.complete(&mut held, source)?;
        let event = read_held(alloc, &held)?;
        Ok(Some(event))
    }
}

/// Reads the event that the lines held are.
fn read_held(alloc: Global, held: &LinesHeld) -> Result<Event, WorldFault>
    ensures event { IfOk result (λ event. held_event held.now ≡ Ok event) }
    ensures bad_event { (number : ℕ) → result ≡ Err (WorldFault.BadEvent number) → held_event held.now ≡ Err number }
    ensures no_limit { result ≢ Err WorldFault.TooLong }
    ensures no_read { result ≢ Err WorldFault.ReadFault }
{
    match read_event(alloc, held) {
        Ok(event) => Ok(event),
        Err(EventFault::BadEvent(line)) => Err(WorldFault::BadEvent(line)),
        Err(EventFault::NoMemory) => Err(WorldFault::NoMemory),
    }
}
