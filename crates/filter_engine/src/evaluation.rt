ghost use Rattle.std.specs.Prelude.{◌≡◌, ◌+◌, ◌↔◌, IsTrue, IfOk, OnOk, List, ◌∷◌, unwrap_or, None, true, false, if◌then◌else◌};
ghost use Rattle.conf_tree.specs.declared.rule.Rule.{Rule};
ghost use Rattle.std.specs.List.{All};
ghost use Rattle.attr_model.specs.declared.attrs.Attrs.{Attrs};
ghost use Rattle.attr_model.specs.Path.{origin_as};
ghost use Rattle.attr_model.specs.Valid.{IsValid};
ghost use Rattle.filter_engine.specs.Asked.{AreRight};
ghost use Rattle.filter_engine.specs.Conditions.{rule_matches};
ghost use Rattle.filter_engine.specs.Named.{AreNamed, IsNamed};
ghost use Rattle.filter_engine.specs.Skips.{IsBuilt};
ghost use Rattle.filter_engine.specs.Verdict.{IsValidVerdict, Says, begun, decided, evaluated, outcome, taken, verdict};
ghost use Rattle.filter_engine.specs.Progress.{course_of};

use crate::asked::Asked;
use crate::items::{apply_set, choose_hop};
use crate::rule_test::{all_hold, is_for};
use crate::skips::{SkipTable, least};
use crate::{Context, Hop, Steps, Verdict};
use attr_model::Attrs;
use conf_tree::{Action, Members, Rule, RuleList};
use net_base::NoMemory;
use std::alloc::Global;
use std::sync::ledger::Ledger;

/// How far an evaluation has come.
#[derive(Debug, Drop)]
pub(crate) struct Progress {
    /// The attributes, where a set was applied to them.
    changed: Option<Attrs>,
    hop: Hop,
    passes: bool,
}

impl Progress {
    /// No set is applied, and nothing decided.
    fn begun() -> Progress
        ensures unchanged { result.changed ≡ None }
        ensures unset { result.hop ≡ Hop.Unset }
        ensures denied { result.passes ≡ false }
        ensures begun { (route : Attrs) → course_of route result ≡ begun route }
    {
        Progress {
            changed: None,
            hop: Hop::Unset,
            passes: false,
        }
    }
}

/// What the rules decide of a route (bgpd.conf(5), FILTER). They are read in order. The set of each rule that matches
/// is applied at once, so that later rules see the changed route; `ovs` and `origin-set` go by the path as it came.
/// The last `allow` or `deny` that matches decides, and a `quick` rule that matches is the last. Where none decides,
/// the route doesn't pass. The answer is Same exactly where no attribute differs at the end. Where the attributes of
/// the route are valid, so are those of the answer.
#[tactic(auto, unfolding(crate::specs::Verdict::verdict))]
pub fn evaluate<M: Members, L: Ledger>(
    alloc: Global,
    rules: &RuleList,
    sets: &M,
    context: &Context,
    route: &Attrs,
    steps: &mut Steps<L>,
) -> Result<Verdict, NoMemory>
    requires { AreNamed (M.conf_of sets.now) rules.now }
    ensures verdict { IfOk result (Says route.now (verdict (M.conf_of sets.now) rules.now context.now route.now)) }
    ensures counted { steps.new ≡ steps.old + 1 }
    ensures valid { IsValid route.now → IfOk result IsValidVerdict }
{
    steps.tick();
    let origin = route.path.origin_as(context.own_as);
    let progress = walk(alloc, rules.as_slice(), sets, context, origin, route)?;
    Ok(verdict_of(route, progress))
}

/// The rules in order, up to the first quick one that matches.
#[tactic(auto, unfolding(crate::specs::Verdict::evaluated))]
fn walk<M: Members>(
    alloc: Global,
    rules: &[Rule],
    sets: &M,
    context: &Context,
    origin: Option<u32>,
    route: &Attrs,
) -> Result<Progress, NoMemory>
    requires { AreNamed (M.conf_of sets.now) rules.now }
    ensures { IfOk result (λ progress. course_of route.now progress ≡ evaluated (M.conf_of sets.now) context.now origin rules.now (begun route.now)) }
{
    let mut progress = Progress::begun();
    let mut asked = Asked::nothing();
    for rule in rules {
        if follow(
            alloc,
            sets,
            context,
            origin,
            route,
            rule,
            &mut progress,
            &mut asked,
        )? {
            return Ok(progress);
        }
    }
    Ok(progress)
}

/// What the rules decide of a route, as `evaluate` says, where the table was built from them. Rules for another
/// direction, RIB or neighbour cost nothing.
#[tactic(auto, unfolding(crate::specs::Verdict::verdict))]
pub fn evaluate_skipping<M: Members, L: Ledger>(
    alloc: Global,
    table: &SkipTable,
    rules: &RuleList,
    sets: &M,
    context: &Context,
    route: &Attrs,
    steps: &mut Steps<L>,
) -> Result<Verdict, NoMemory>
    requires named { AreNamed (M.conf_of sets.now) rules.now }
    requires built { IsBuilt table.now rules.now }
    ensures verdict { IfOk result (Says route.now (verdict (M.conf_of sets.now) rules.now context.now route.now)) }
    ensures counted { steps.new ≡ steps.old + 1 }
    ensures valid { IsValid route.now → IfOk result IsValidVerdict }
{
    steps.tick();
    let origin = route.path.origin_as(context.own_as);
    let rules = rules.as_slice();
    let progress = walk_skipping(alloc, table, rules, sets, context, origin, route)?;
    Ok(verdict_of(route, progress))
}

/// The rules that can be for the route, in order, up to the first quick one that matches.
#[tactic(auto, unfolding(crate::specs::Verdict::evaluated))]
fn walk_skipping<M: Members>(
    alloc: Global,
    table: &SkipTable,
    rules: &[Rule],
    sets: &M,
    context: &Context,
    origin: Option<u32>,
    route: &Attrs,
) -> Result<Progress, NoMemory>
    requires named { AreNamed (M.conf_of sets.now) rules.now }
    requires built { IsBuilt table.now rules.now }
    ensures { IfOk result (λ progress. course_of route.now progress ≡ evaluated (M.conf_of sets.now) context.now origin rules.now (begun route.now)) }
{
    let mut progress = Progress::begun();
    let mut asked = Asked::nothing();
    let buckets = table.asked(context);
    let mut places = table.first(&buckets);
    let mut at = least(&places, rules.len());
    while at < rules.len() {
        if follow(
            alloc,
            sets,
            context,
            origin,
            route,
            &rules[at],
            &mut progress,
            &mut asked,
        )? {
            return Ok(progress);
        }
        table.go_on(&buckets, &mut places, at);
        at = least(&places, rules.len());
    }
    Ok(progress)
}

/// One rule of an evaluation: what it does where it matches. Whether it is the last, since it matches and is quick.
#[tactic(auto, unfolding(crate::specs::Verdict::evaluated))]
fn follow<M: Members>(
    alloc: Global,
    sets: &M,
    context: &Context,
    origin: Option<u32>,
    route: &Attrs,
    rule: &Rule,
    progress: &mut Progress,
    asked: &mut Asked,
) -> Result<bool, NoMemory>
    requires named { All (IsNamed (M.conf_of sets.now)) rule.now.conditions }
    requires right { AreRight (M.conf_of sets.now) context.now origin asked.old }
    ensures step { IfOk result (λ last. (rest : List Rule) → evaluated (M.conf_of sets.now) context.now origin (rule.now ∷ rest) (course_of route.now progress.old)
        ≡ (if last then course_of route.now progress.new else evaluated (M.conf_of sets.now) context.now origin rest (course_of route.now progress.new))) }
    ensures kept { AreRight (M.conf_of sets.now) context.now origin asked.new }
{
    if !matches(sets, context, origin, route, progress, rule, asked) {
        return Ok(false);
    }
    take(alloc, rule, context, route, progress)?;
    Ok(rule.quick)
}

/// Whether a rule matches the route as it stands.
fn matches<M: Members>(
    sets: &M,
    context: &Context,
    origin: Option<u32>,
    route: &Attrs,
    progress: &Progress,
    rule: &Rule,
    asked: &mut Asked,
) -> bool
    requires named { All (IsNamed (M.conf_of sets.now)) rule.now.conditions }
    requires right { AreRight (M.conf_of sets.now) context.now origin asked.old }
    ensures value { result ≡ rule_matches (M.conf_of sets.now) context.now origin (course_of route.now progress.now).attrs progress.now.hop rule.now }
    ensures kept { AreRight (M.conf_of sets.now) context.now origin asked.new }
{
    if !is_for(context, rule) {
        return false;
    }
    let attrs = current(progress, route);
    let conditions = rule.conditions.as_slice();
    all_hold(
        sets,
        context,
        origin,
        attrs,
        progress.hop,
        conditions,
        asked,
    )
}

/// The attributes as they stand.
fn current<'a>(progress: &'a Progress, route: &'a Attrs) -> &'a Attrs
    ensures { result.now ≡ (course_of route.now progress.now).attrs }
{
    match &progress.changed {
        Some(attrs) => attrs,
        None => route,
    }
}

/// Applies the set of a rule that matches, and decides by its action.
fn take(
    alloc: Global,
    rule: &Rule,
    context: &Context,
    route: &Attrs,
    progress: &mut Progress,
) -> Result<(), NoMemory>
    ensures { OnOk result (course_of route.now progress.new ≡ taken context.now (course_of route.now progress.old) rule.now) }
{
    if !rule.set.is_empty() {
        let mut attrs = match progress.changed.take() {
            Some(attrs) => attrs,
            None => route.clone()?,
        };
        apply_set(alloc, &rule.set, context, &mut attrs)?;
        progress.changed = Some(attrs);
        progress.hop = choose_hop(&rule.set, context, progress.hop);
    }
    progress.passes = decide(rule.action, progress.passes);
    Ok(())
}

/// `match` decides nothing.
fn decide(action: Action, passes: bool) -> bool
    ensures { result ≡ decided action passes }
{
    match action {
        Action::Allow => true,
        Action::Deny => false,
        Action::Match => passes,
    }
}

/// Whether no attribute differs.
fn are_same(one: &Attrs, other: &Attrs) -> bool
    ensures { IsTrue result ↔ (one.now ≡ other.now) }
{
    *one == *other
}

/// The verdict of an evaluation that has ended.
fn verdict_of(route: &Attrs, progress: Progress) -> Verdict
    ensures { Says route.now (outcome (course_of route.now progress)) result }
{
    let Progress {
        changed,
        hop,
        passes,
    } = progress;
    if !passes {
        return Verdict::Deny;
    }
    match changed {
        None => Verdict::Same(hop),
        Some(attrs) if are_same(&attrs, route) => Verdict::Same(hop),
        Some(attrs) => Verdict::Changed(attrs, hop),
    }
}
