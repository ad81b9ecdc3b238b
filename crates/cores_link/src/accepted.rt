ghost use Rattle.run_record.specs.Answers.{IsRefusal};
ghost use Rattle.std.specs.Prelude.{◌≡◌, ◌+◌, ◌<◌, ◌≤◌, ◌^◌, ◌∷◌, [], true, map, IfOk, IsOk, IsTrue, ◌↔◌};
ghost use Rattle.run_record.specs.Answers.{only, refused, reload_reports, are_show_rib, AnswersShowRib};

use crate::reader;
use attr_model::{RouteList, RouteRow};
use conf_tree::Conf;
use core_msgs::{Answer, Event, Line, LineList, PartName, Refusal, Row, WordList};
use net_base::{Bytes, ConfError, Items, NoMemory};
use route_world::network_rows;
use std::alloc::Global;

/// The configuration of the last reload that was accepted.
#[derive(Drop)]
pub struct Accepted {
    conf: Conf,
    /// How many reloads were accepted.
    generation: u32,
    /// Whether the last of them isn't done yet.
    under_way: bool,
}

impl Accepted {
    ghost use Rattle.cores_link.specs.Generations.{accepted_generation};
    ghost use Rattle.cores_link.specs.Standing.{AcceptedBy, Follows};
    ghost use Rattle.cores_link.specs.Routers.{IsReload};
    ghost use Rattle.core_msgs.specs.declared.event.Event.TheVariants.{Reload, Settle, Ctl};
    ghost use Rattle.run_record.specs.Run.{History, under_way};

    /// The empty configuration, with nothing under way.
    pub fn new(alloc: Global) -> Self
        ensures { AcceptedBy result [] }
    {
        Accepted {
            conf: Conf::empty(alloc),
            generation: 0,
            under_way: false,
        }
    }

    /// The generation of the reload that is under way.
    pub fn under_way(&self) -> Option<u32>
        ensures { (h : History) → AcceptedBy self.now h → result ≡ under_way h }
    {
        if self.under_way {
            Some(self.generation)
        } else {
            None
        }
    }

    /// Answers an event. A reload is always answered.
    pub fn answer(&mut self, alloc: Global, event: &Event) -> Result<Answer, NoMemory>
        requires { accepted_generation self.old + 1 < 2 ^ 32 }
        ensures follows { IfOk result (Follows self.old self.new event.now) }
        ensures refused { IfOk result (λ answer. IsRefusal answer → self.new ≡ self.old) }
        ensures reload { IsReload event.now → IsOk result }
        ensures counted { accepted_generation self.new ≤ accepted_generation self.old + 1 }
    {
        match event {
            Event::Reload(text) => Ok(self.reload(alloc, text)),
            Event::Settle => self.settle(alloc),
            Event::Ctl(words) => self.control(alloc, words),
            _ => Ok(refused(alloc, Refusal::NotBuilt)),
        }
    }

    /// Takes the configuration of a text, unless a reload is under way or the text has a fault.
    pub fn reload(&mut self, alloc: Global, text: &Bytes) -> Answer
        requires { accepted_generation self.old + 1 < 2 ^ 32 }
        ensures follows { Follows self.old self.new (Reload text.now) result }
        ensures refused { IsRefusal result → self.new ≡ self.old }
        ensures counted { accepted_generation self.new ≤ accepted_generation self.old + 1 }
    {
        if self.under_way {
            return refused(alloc, Refusal::UnderWay(self.generation));
        }
        match reader::read(alloc, text.as_slice()) {
            Ok(conf) => self.accept(alloc, conf),
            Err(ConfError::Fault(fault)) => only(alloc, Line::RefusedText(fault)),
            Err(ConfError::NoMemory) => refused(alloc, Refusal::NoMemory),
        }
    }

    /// Does what is left to do, and reports it.
    pub fn settle(&mut self, alloc: Global) -> Result<Answer, NoMemory>
        ensures follows { IfOk result (Follows self.old self.new Settle) }
        ensures done { IfOk result (λ answer. IsRefusal answer → self.new ≡ self.old) }
        ensures counted { accepted_generation self.new ≡ accepted_generation self.old }
    {
        let reports = reload_reports(alloc, self.under_way())?;
        self.under_way = false;
        Ok(Answer {
            lines: reports,
            last: Line::Quiet,
        })
    }

    /// Answers a control command, which changes nothing.
    pub fn control(&self, alloc: Global, words: &WordList) -> Result<Answer, NoMemory>
        ensures { IfOk result (Follows self.now self.now (Ctl words.now)) }
    {
        if !are_show_rib(words.as_slice()) {
            return Ok(refused(alloc, Refusal::NotBuilt));
        }
        let answer = self.show_rib(alloc)?;
        Ok(answer)
    }

    fn show_rib(&self, alloc: Global) -> Result<Answer, NoMemory>
        ensures { IfOk result (λ answer. (h : History) → AcceptedBy self.now h → AnswersShowRib h answer) }
    {
        if self.under_way {
            return Ok(only(alloc, Line::Pending(PartName::Reload)));
        }
        let routes = network_rows(alloc, &self.conf)?;
        Ok(Answer {
            lines: route_lines(alloc, routes)?,
            last: Line::Ok,
        })
    }

    fn accept(&mut self, alloc: Global, conf: Conf) -> Answer
        requires { accepted_generation self.old + 1 < 2 ^ 32 }
        ensures answer { result ≡ record { lines = []; last = Line.OkGeneration (accepted_generation self.old + 1) } }
        ensures taken { self.new ≡ record { conf = conf; generation = accepted_generation self.old + 1; under_way = true } }
    {
        self.conf = conf;
        self.generation += 1;
        self.under_way = true;
        only(alloc, Line::OkGeneration(self.generation))
    }
}

/// An answer of one line.
fn only(alloc: Global, last: Line) -> Answer
    ensures { result ≡ only last }
{
    Answer {
        lines: Items::new(alloc),
        last,
    }
}

fn refused(alloc: Global, why: Refusal) -> Answer
    ensures { result ≡ refused why }
{
    only(alloc, Line::Refused(why))
}

/// What the parts report of a reload that is under way: the session core, the decision core, the end.
fn reload_reports(alloc: Global, under_way: Option<u32>) -> Result<LineList, NoMemory>
    ensures { IfOk result (λ lines. lines ≡ reload_reports under_way) }
{
    let mut lines = Items::new(alloc);
    if let Some(generation) = under_way {
        lines.push(Line::AppliedSession(generation))?;
        lines.push(Line::AppliedDecision(generation))?;
        lines.push(Line::Reloaded(generation))?;
    }
    Ok(lines)
}

fn are_show_rib(words: &[Bytes]) -> bool
    ensures { result ≡ are_show_rib words.now }
{
    match words {
        [first, second] => {
            first.as_slice() == b"show".as_slice() && second.as_slice() == b"rib".as_slice()
        }
        _ => false,
    }
}

/// Each route as a line.
fn route_lines(alloc: Global, routes: RouteList) -> Result<LineList, NoMemory>
    ensures { IfOk result (λ lines. lines ≡ map (λ route. Line.Row (Row.Route route)) routes) }
{
    let lines = lines_of_routes(alloc, routes.into_vec())?;
    Ok(Items::from_vec(lines))
}

fn lines_of_routes(alloc: Global, routes: Vec<RouteRow>) -> Result<Vec<Line>, NoMemory>
    ensures { IfOk result (λ lines. lines.items ≡ map (λ route. Line.Row (Row.Route route)) routes.items) }
{
    routes
        .into_iter()
        .map(|route| Line::Row(Row::Route(route)))
        .collect(alloc)
}
