//! Which rules an evaluation can pass over.

ghost use Rattle.std.specs.Prelude.{◌≡◌, ℕ, ◌<◌, ◌≤◌, ◌+◌, ◌*◌, ◌%◌, ◌^◌, IfOk, length, map, slice_index};
ghost use Rattle.filter_engine.specs.Skips.{AreLinked, AreNext, IsBuilt, IsNext, bucket, bucket_of, group_number, name_number, narrow_way, peer_number, wanted, way_number, wide_way};

use crate::Context;
use conf_tree::{Direction, Peer, Rule, RuleList, Text};
use net_base::{Addr, NoMemory};
use std::alloc::Global;

/// How many buckets a route can ask for: five kinds of neighbours, for its RIB and for each RIB.
pub(crate) const ASKED: usize = 10;

/// A prime below 2^32, by which addresses and names are numbered.
const PRIME: u64 = 4_294_967_291;

/// The rules by direction, RIB and neighbours, so that an evaluation goes from one rule that can match to the next one.
/// Each rule stands in a bucket by these three; rules of different neighbours may share one.
#[derive(Debug, Drop)]
pub struct SkipTable {
    /// The bucket of each rule.
    buckets: Vec<usize>,
    /// The first rule of each bucket, or the count of rules where there is none.
    heads: Vec<usize>,
    /// The next rule in the bucket of each rule, or the count of rules where there is none.
    next: Vec<usize>,
}

impl SkipTable {
    /// The table of some rules. It takes some five numbers a rule, and time that is linear in the rules.
    pub fn build(alloc: Global, rules: &RuleList) -> Result<SkipTable, NoMemory>
        ensures { IfOk result (λ table. IsBuilt table rules.now) }
    {
        let rules = rules.as_slice();
        let count = 2 * rules.len() + 1;
        let buckets = buckets_of(alloc, count, rules)?;
        let mut heads = vec![in alloc; rules.len(); count]?;
        let mut next = vec![in alloc; rules.len(); rules.len()]?;
        link(&buckets, &mut heads, &mut next);
        Ok(SkipTable {
            buckets,
            heads,
            next,
        })
    }

    /// The buckets of the rules that can be for a route.
    pub(crate) fn asked(&self, context: &Context) -> [usize; ASKED]
        requires { 0 < length self.now.heads.items }
        ensures { result ≡ wanted (length self.now.heads.items) context.now }
    {
        let count = self.heads.len();
        let wide = wide_way(context);
        let narrow = narrow_way(context);
        let kind = if context.external { 1 } else { 2 };
        let address = address_number(context.peer);
        let group = group_number(&context.group);
        let asn = as_number(context.peer_as);
        [
            bucket(count, wide, 0),
            bucket(count, wide, kind),
            bucket(count, wide, address),
            bucket(count, wide, group),
            bucket(count, wide, asn),
            bucket(count, narrow, 0),
            bucket(count, narrow, kind),
            bucket(count, narrow, address),
            bucket(count, narrow, group),
            bucket(count, narrow, asn),
        ]
    }

    /// The first rule in each of these buckets.
    pub(crate) fn first(&self, asked: &[usize; ASKED]) -> [usize; ASKED]
        requires linked { AreLinked 0 self.now.buckets.items self.now.heads.items self.now.next.items }
        requires within { (k : ℕ) → k < 10 → slice_index asked.now k < length self.now.heads.items }
        ensures { AreNext self.now.buckets.items asked.now 0 result }
    {
        let mut places = [0; ASKED];
        for i in 0..ASKED {
            places[i] = self.head(asked[i]);
        }
        places
    }

    /// The first rule in a bucket.
    fn head(&self, asked: usize) -> usize
        requires linked { AreLinked 0 self.now.buckets.items self.now.heads.items self.now.next.items }
        requires within { asked < length self.now.heads.items }
        ensures { IsNext self.now.buckets.items asked 0 result }
    {
        self.heads[asked]
    }

    /// The places behind a rule: where they are that rule's, they go on to the next rule in its bucket.
    pub(crate) fn go_on(&self, asked: &[usize; ASKED], places: &mut [usize; ASKED], at: usize)
        requires within { at < length self.now.buckets.items }
        requires linked { AreLinked 0 self.now.buckets.items self.now.heads.items self.now.next.items }
        requires next { AreNext self.now.buckets.items asked.now at places.old }
        ensures { AreNext self.now.buckets.items asked.now (at + 1) places.new }
    {
        for i in 0..ASKED {
            places[i] = self.behind(asked[i], places[i], at);
        }
    }

    /// The place behind a rule.
    #[tactic(auto, using(crate::proofs::Linking::stays, crate::proofs::Linking::goes))]
    fn behind(&self, asked: usize, place: usize, at: usize) -> usize
        requires within { at < length self.now.buckets.items }
        requires linked { AreLinked 0 self.now.buckets.items self.now.heads.items self.now.next.items }
        requires next { IsNext self.now.buckets.items asked at place }
        ensures { IsNext self.now.buckets.items asked (at + 1) result }
    {
        if place == at { self.next[at] } else { place }
    }
}

/// The first of some places, or the count of rules where that is less.
pub(crate) fn least(places: &[usize; ASKED], count: usize) -> usize
    ensures low { (k : ℕ) → k < 10 → result ≤ slice_index places.now k }
    ensures high { (from : ℕ) → from ≤ count → ((k : ℕ) → k < 10 → from ≤ slice_index places.now k) → from ≤ result }
    ensures within { result ≤ count }
{
    let mut least = count;
    for place in places {
        least = least.min(*place);
    }
    least
}

/// The bucket of each rule.
fn buckets_of(alloc: Global, count: usize, rules: &[Rule]) -> Result<Vec<usize>, NoMemory>
    requires { 0 < count }
    ensures { IfOk result (λ buckets. buckets.items ≡ map (bucket_of count) rules.now) }
{
    let mut buckets = Vec::new(alloc);
    for rule in rules {
        buckets.push(bucket_of(count, rule))?;
    }
    Ok(buckets)
}

fn bucket_of(count: usize, rule: &Rule) -> usize
    requires { 0 < count }
    ensures { result ≡ bucket_of count rule.now }
{
    bucket(
        count,
        way_number(rule.direction, rule.rib),
        peer_number(&rule.peer),
    )
}

/// The bucket of a way and of the number of a neighbour.
#[tactic(auto, unfolding(crate::specs::Skips::bucket))]
fn bucket(count: usize, way: u64, number: u64) -> usize
    requires way { way ≤ 257 }
    requires number { number < 2 ^ 36 }
    requires some { 0 < count }
    ensures value { result ≡ bucket count way number }
    ensures within { result < count }
{
    (way + 512 * number) as usize % count
}

/// Links the rules from the last to the first.
fn link(buckets: &[usize], heads: &mut [usize], next: &mut [usize])
    requires { AreLinked (length buckets.now) buckets.now heads.old next.old }
    ensures linked { AreLinked 0 buckets.now heads.new next.new }
    ensures count { length heads.new ≡ length heads.old }
{
    let mut at = buckets.len();
    while 0 < at {
        at -= 1;
        link_one(buckets, heads, next, at);
    }
}

/// Puts a rule in front of its bucket.
#[tactic(auto, using(crate::proofs::Linking::linked_more))]
fn link_one(buckets: &[usize], heads: &mut [usize], next: &mut [usize], at: usize)
    requires within { at < length buckets.now }
    requires behind { AreLinked (at + 1) buckets.now heads.old next.old }
    ensures linked { AreLinked at buckets.now heads.new next.new }
    ensures count { length heads.new ≡ length heads.old }
{
    let bucket = buckets[at];
    next[at] = heads[bucket];
    heads[bucket] = at;
}

/// The RIB of the routes that come in, 256 for each RIB, 257 for routes that go out.
fn way_number(direction: Direction, rib: Option<u8>) -> u64
    ensures value { result ≡ way_number direction rib }
    ensures within { result ≤ 257 }
{
    match (direction, rib) {
        (Direction::To, _) => 257,
        (Direction::From, None) => 256,
        (Direction::From, Some(rib)) => u64::from(rib),
    }
}

/// The way of rules for each RIB.
fn wide_way(context: &Context) -> u64
    ensures value { result ≡ wide_way context.now }
    ensures within { result ≤ 257 }
{
    if context.to { 257 } else { 256 }
}

/// The way of rules for one RIB.
fn narrow_way(context: &Context) -> u64
    ensures value { result ≡ narrow_way context.now }
    ensures within { result ≤ 257 }
{
    if context.to {
        257
    } else {
        u64::from(context.rib)
    }
}

/// The number of the neighbours that a rule is for.
fn peer_number(peer: &Peer) -> u64
    ensures value { result ≡ peer_number peer.now }
    ensures within { result < 2 ^ 36 }
{
    match peer {
        Peer::Any => 0,
        Peer::Ebgp => 1,
        Peer::Ibgp => 2,
        Peer::Address(address) => address_number(*address),
        Peer::Group(name) => text_number(name),
        Peer::As(asn) => as_number(*asn),
    }
}

fn address_number(address: Addr) -> u64
    ensures value { result ≡ 3 + 8 * (address.bits % 4294967291) }
    ensures within { result < 2 ^ 36 }
{
    3 + 8 * (address.bits % u128::from(PRIME)) as u64
}

fn as_number(asn: u32) -> u64
    ensures value { result ≡ 5 + 8 * asn }
    ensures within { result < 2 ^ 36 }
{
    5 + 8 * u64::from(asn)
}

fn group_number(group: &Option<Text>) -> u64
    ensures value { result ≡ group_number group.now }
    ensures within { result < 2 ^ 36 }
{
    match group {
        None => 0,
        Some(name) => text_number(name),
    }
}

fn text_number(name: &Text) -> u64
    ensures value { result ≡ 4 + 8 * name_number name.now }
    ensures within { result < 2 ^ 36 }
{
    4 + 8 * name_number(name.as_slice())
}

/// The number of a name, by its bytes.
fn name_number(name: &[u8]) -> u64
    ensures value { result ≡ name_number name.now }
    ensures within { result < 4294967291 }
{
    let mut number = 0;
    for byte in name {
        number = (number * 31 + u64::from(*byte)) % PRIME;
    }
    number
}
