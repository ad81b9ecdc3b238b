ghost use Rattle.std.specs.Prelude.{◌≡◌, ◌++◌, OnOk, flat_map, codes, decimal};
ghost use Rattle.conf_tree.specs.Canonical.{if_set, if_given, action_word, direction_word, peer_text, path_word, ovs_word, family_word, condition_text, condition_behind, prefix_set_name, as_set_name, origin_set_name, large_pattern_text, rib_behind, rule_head, rule_line};

use crate::items::{print_large_pattern, print_pattern, print_set_behind};
use crate::printed::Printed;
use crate::sets::print_range;
use crate::words::{
    print_as_set_name, print_origin_set_name, print_prefix_set_name, print_quoted, print_rib_name,
};
use conf_tree::{Action, Condition, Conf, Direction, LargePattern, PathPart, Peer, Rule, SetId};
use net_base::{Family, NoMemory, Ovs};

fn action_word(action: Action) -> &'static str
    ensures { result.now ≡ action_word action }
{
    match action {
        Action::Allow => "allow",
        Action::Deny => "deny",
        Action::Match => "match",
    }
}

fn direction_word(direction: Direction) -> &'static str
    ensures { result.now ≡ direction_word direction }
{
    match direction {
        Direction::From => "from",
        Direction::To => "to",
    }
}

fn path_word(part: PathPart) -> &'static str
    ensures { result.now ≡ path_word part }
{
    match part {
        PathPart::Any => "AS",
        PathPart::Source => "source-as",
        PathPart::Transit => "transit-as",
        PathPart::Peer => "peer-as",
    }
}

fn ovs_word(ovs: Ovs) -> &'static str
    ensures { result.now ≡ ovs_word ovs }
{
    match ovs {
        Ovs::Valid => "valid",
        Ovs::Invalid => "invalid",
        Ovs::NotFound => "not-found",
    }
}

fn family_word(family: Family) -> &'static str
    ensures { result.now ≡ family_word family }
{
    match family {
        Family::V4 => "inet",
        Family::V6 => "inet6",
    }
}

#[tactic(auto, unfolding(conf_tree::specs::Canonical::peer_text))]
fn print_peer(text: &mut Printed, peer: &Peer) -> Result<(), NoMemory>
    ensures { OnOk result (text.new ≡ text.old ++ peer_text peer.now) }
{
    match peer {
        Peer::Any => text.push(b"any"),
        Peer::Ebgp => text.push(b"ebgp"),
        Peer::Ibgp => text.push(b"ibgp"),
        Peer::Address(address) => write!(text, "{address}"),
        Peer::Group(name) => {
            text.push(b"group ")?;
            print_quoted(text, name.as_slice())
        }
        Peer::As(asn) => write!(text, "AS {asn}"),
    }
}

fn print_longer(text: &mut Printed, conf: &Conf, set: SetId) -> Result<(), NoMemory>
    ensures { OnOk result (text.new ≡ text.old ++ (codes "prefix-set " ++ (prefix_set_name conf.now set.at ++ codes " or-longer"))) }
{
    text.push(b"prefix-set ")?;
    print_prefix_set_name(text, conf, set.at)?;
    text.push(b" or-longer")
}

fn print_in_prefix_set(text: &mut Printed, conf: &Conf, set: SetId) -> Result<(), NoMemory>
    ensures { OnOk result (text.new ≡ text.old ++ (codes "prefix-set " ++ prefix_set_name conf.now set.at)) }
{
    text.push(b"prefix-set ")?;
    print_prefix_set_name(text, conf, set.at)
}

fn print_in_origin_set(text: &mut Printed, conf: &Conf, set: SetId) -> Result<(), NoMemory>
    ensures { OnOk result (text.new ≡ text.old ++ (codes "origin-set " ++ origin_set_name conf.now set.at)) }
{
    text.push(b"origin-set ")?;
    print_origin_set_name(text, conf, set.at)
}

fn print_large_community(text: &mut Printed, pattern: LargePattern) -> Result<(), NoMemory>
    ensures { OnOk result (text.new ≡ text.old ++ (codes "large-community " ++ large_pattern_text pattern)) }
{
    text.push(b"large-community ")?;
    print_large_pattern(text, pattern)
}

fn print_max_as_len(text: &mut Printed, most: u16) -> Result<(), NoMemory>
    ensures { OnOk result (text.new ≡ text.old ++ (codes "max-as-len " ++ decimal most)) }
{
    write!(text, "max-as-len {most}")
}

fn print_path_set(
    text: &mut Printed,
    conf: &Conf,
    part: PathPart,
    set: SetId,
) -> Result<(), NoMemory>
    ensures { OnOk result (text.new ≡ text.old ++ (path_word part ++ (codes " as-set " ++ as_set_name conf.now set.at))) }
{
    write!(text, "{} as-set ", path_word(part))?;
    print_as_set_name(text, conf, set.at)
}

#[tactic(auto, unfolding(conf_tree::specs::Canonical::condition_text))]
fn print_condition(text: &mut Printed, conf: &Conf, condition: Condition) -> Result<(), NoMemory>
    ensures { OnOk result (text.new ≡ text.old ++ condition_text conf.now condition) }
{
    match condition {
        Condition::Prefix(range) => {
            text.push(b"prefix ")?;
            print_range(text, range)
        }
        Condition::PrefixSet(set) => print_in_prefix_set(text, conf, set),
        Condition::PrefixSetOrLonger(set) => print_longer(text, conf, set),
        Condition::PathNumber(part, asn) => write!(text, "{} {asn}", path_word(part)),
        Condition::PathSet(part, set) => print_path_set(text, conf, part, set),
        Condition::OriginSet(set) => print_in_origin_set(text, conf, set),
        Condition::Ovs(ovs) => write!(text, "ovs {}", ovs_word(ovs)),
        Condition::Community(pattern) => {
            text.push(b"community ")?;
            print_pattern(text, pattern)
        }
        Condition::LargeCommunity(pattern) => print_large_community(text, pattern),
        Condition::MaxAsLen(most) => print_max_as_len(text, most),
        Condition::NextHop(address) => write!(text, "nexthop {address}"),
        Condition::Family(family) => write!(text, "{}", family_word(family)),
    }
}

fn print_conditions(
    text: &mut Printed,
    conf: &Conf,
    conditions: &[Condition],
) -> Result<(), NoMemory>
    ensures { OnOk result (text.new ≡ text.old ++ flat_map (condition_behind conf.now) conditions.now) }
{
    for condition in conditions {
        text.push(b" ")?;
        print_condition(text, conf, *condition)?;
    }
    Ok(())
}

fn print_quick(text: &mut Printed, quick: bool) -> Result<(), NoMemory>
    ensures { OnOk result (text.new ≡ text.old ++ if_set quick (codes " quick")) }
{
    if quick { text.push(b" quick") } else { Ok(()) }
}

#[tactic(auto, unfolding(conf_tree::specs::Canonical::rib_behind))]
fn print_rib_behind(text: &mut Printed, conf: &Conf, rib: Option<u8>) -> Result<(), NoMemory>
    ensures { OnOk result (text.new ≡ text.old ++ if_given (rib_behind conf.now) rib) }
{
    match rib {
        Some(number) => {
            text.push(b" rib ")?;
            print_rib_name(text, conf, number)
        }
        None => Ok(()),
    }
}

/// What stands before the conditions.
#[tactic(auto, unfolding(conf_tree::specs::Canonical::rule_head))]
fn print_head(text: &mut Printed, conf: &Conf, rule: &Rule) -> Result<(), NoMemory>
    ensures { OnOk result (text.new ≡ text.old ++ rule_head conf.now rule.now) }
{
    text.push(action_word(rule.action).as_bytes())?;
    print_quick(text, rule.quick)?;
    print_rib_behind(text, conf, rule.rib)?;
    write!(text, " {} ", direction_word(rule.direction))?;
    print_peer(text, &rule.peer)
}

#[tactic(auto, unfolding(conf_tree::specs::Canonical::rule_line))]
fn print_rule(text: &mut Printed, conf: &Conf, rule: &Rule) -> Result<(), NoMemory>
    ensures { OnOk result (text.new ≡ text.old ++ rule_line conf.now rule.now) }
{
    print_head(text, conf, rule)?;
    print_conditions(text, conf, rule.conditions.as_slice())?;
    print_set_behind(text, rule.set.as_slice())?;
    text.push(b"\n")
}

/// The rules.
pub fn print_rules(text: &mut Printed, conf: &Conf) -> Result<(), NoMemory>
    ensures { OnOk result (text.new ≡ text.old ++ flat_map (rule_line conf.now) conf.now.rules) }
{
    for rule in conf.rules.as_slice() {
        print_rule(text, conf, rule)?;
    }
    Ok(())
}
