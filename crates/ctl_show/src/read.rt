ghost use Rattle.std.specs.Prelude.{◌≡◌, ◌≤◌, IfOk, ◌<◌, ◌^◌, length, [], ◌∷◌};
ghost use Rattle.net_base.specs.declared.addr.Addr.{Addr};
ghost use Rattle.ctl_show.specs.Commands.{run, is_of, peer_at, number_at, found, longest, forms, show_forms, rib_forms, fib_forms, neighbour_forms, command_of, ReadsCommand};

use crate::pieces::{Piece, fits, read_number};
use core_msgs::{CtlCommand, SessionAction, WordList};
use net_base::{Addr, Bytes, Items, NoMemory};
use std::alloc::Global;
use thiserror::Error;

/// Why words are no control command.
#[derive(Clone, Copy, Debug, PartialEq, Eq, Error)]
pub enum CtlFault {
    /// The word with this number, counted from 1, can't follow those before it, or is missing.
    #[error("bad word {0}")]
    BadWord(u32),
    /// Memory was refused.
    #[error("out of memory")]
    NoMemory,
}

impl From<NoMemory> for CtlFault {
    ghost use Rattle.ctl_show.specs.declared.read.CtlFault.TheVariants.{NoMemory};

    ghost from_gives = { λ _ fault. fault ≡ NoMemory };

    fn from(_: NoMemory) -> Self {
        CtlFault::NoMemory
    }
}

/// Reads a control command from its words.
///
/// `BadWord` comes exactly where the words are no command: at the first word that can't follow those before it, and
/// one past the last where words are missing.
pub fn read_ctl(alloc: Global, words: &WordList) -> Result<CtlCommand, CtlFault>
    ensures { ReadsCommand (command_of words.now) result }
{
    let words = words.as_slice();
    match find(alloc, words)? {
        Some(command) => Ok(command),
        None => Err(CtlFault::BadWord(longest_run(words) + 1)),
    }
}

/// The command that the words are, if they are one.
#[tactic(auto, using(crate::proofs::Runs::found_show, crate::proofs::Runs::found_rib, crate::proofs::Runs::found_fib, crate::proofs::Runs::found_last))]
fn find(alloc: Global, words: &[Bytes]) -> Result<Option<CtlCommand>, NoMemory>
    ensures { IfOk result (λ command. command ≡ found forms words.now) }
{
    if let Some(command) = find_show(words) {
        return Ok(Some(command));
    }
    if let Some(command) = find_rib(alloc, words)? {
        return Ok(Some(command));
    }
    if let Some(command) = find_fib(words) {
        return Ok(Some(command));
    }
    Ok(find_neighbour(words))
}

/// The command of the words, if it is a show of something else than a RIB.
fn find_show(words: &[Bytes]) -> Option<CtlCommand>
    ensures { result ≡ found show_forms words.now }
{
    if is_of(&[Piece::Show, Piece::Summary], words) {
        return Some(CtlCommand::ShowSummary);
    }
    if is_of(&[Piece::Show, Piece::Neighbor], words) {
        return Some(CtlCommand::ShowNeighbour(None));
    }
    if is_of(&[Piece::Show, Piece::Neighbor, Piece::Peer], words) {
        if let Some(peer) = peer_at(2, words) {
            return Some(CtlCommand::ShowNeighbour(Some(peer)));
        }
    }
    if is_of(&[Piece::Show, Piece::Sets], words) {
        return Some(CtlCommand::ShowSets);
    }
    if is_of(&[Piece::Show, Piece::Tables], words) {
        return Some(CtlCommand::ShowTables);
    }
    if is_of(&[Piece::Show, Piece::Nexthop], words) {
        return Some(CtlCommand::ShowNexthop);
    }
    if is_of(&[Piece::Show, Piece::Fib], words) {
        return Some(CtlCommand::ShowFib(None));
    }
    if is_of(
        &[Piece::Show, Piece::Fib, Piece::Table, Piece::Number],
        words,
    ) {
        if let Some(number) = number_at(3, words) {
            return Some(CtlCommand::ShowFib(Some(number)));
        }
    }
    None
}

/// The command of the words, if it is a show of a RIB.
fn find_rib(alloc: Global, words: &[Bytes]) -> Result<Option<CtlCommand>, NoMemory>
    ensures { IfOk result (λ command. command ≡ found rib_forms words.now) }
{
    if is_of(&[Piece::Show, Piece::Rib], words) {
        return Ok(Some(CtlCommand::ShowRib(None)));
    }
    if is_of(&[Piece::Show, Piece::Rib, Piece::Table, Piece::Name], words) {
        if let Some(name) = words.get(3) {
            let name = Items::from_slice(alloc, name.as_slice())?;
            return Ok(Some(CtlCommand::ShowRib(Some(name))));
        }
    }
    if is_of(&[Piece::Show, Piece::Rib, Piece::In], words) {
        return Ok(Some(CtlCommand::ShowRibIn));
    }
    if is_of(&[Piece::Show, Piece::Rib, Piece::Out], words) {
        return Ok(Some(CtlCommand::ShowRibOut));
    }
    if is_of(&[Piece::Show, Piece::Rib, Piece::Memory], words) {
        return Ok(Some(CtlCommand::ShowRibMemory));
    }
    Ok(None)
}

/// The command of the words, if it couples kernel tables.
fn find_fib(words: &[Bytes]) -> Option<CtlCommand>
    ensures { result ≡ found fib_forms words.now }
{
    if is_of(&[Piece::Fib, Piece::Couple], words) {
        return Some(CtlCommand::Couple(None, true));
    }
    if is_of(&[Piece::Fib, Piece::Decouple], words) {
        return Some(CtlCommand::Couple(None, false));
    }
    if is_of(
        &[Piece::Fib, Piece::Table, Piece::Number, Piece::Couple],
        words,
    ) {
        if let Some(number) = number_at(2, words) {
            return Some(CtlCommand::Couple(Some(number), true));
        }
    }
    if is_of(
        &[Piece::Fib, Piece::Table, Piece::Number, Piece::Decouple],
        words,
    ) {
        if let Some(number) = number_at(2, words) {
            return Some(CtlCommand::Couple(Some(number), false));
        }
    }
    None
}

/// The command of the words, if something is done to a neighbour's session.
fn find_neighbour(words: &[Bytes]) -> Option<CtlCommand>
    ensures { result ≡ found neighbour_forms words.now }
{
    if is_of(&[Piece::Neighbor, Piece::Peer, Piece::Up], words) {
        if let Some(peer) = peer_at(1, words) {
            return Some(CtlCommand::Neighbour(peer, SessionAction::Up));
        }
    }
    if is_of(&[Piece::Neighbor, Piece::Peer, Piece::Down], words) {
        if let Some(peer) = peer_at(1, words) {
            return Some(CtlCommand::Neighbour(peer, SessionAction::Down));
        }
    }
    if is_of(&[Piece::Neighbor, Piece::Peer, Piece::Clear], words) {
        if let Some(peer) = peer_at(1, words) {
            return Some(CtlCommand::Neighbour(peer, SessionAction::Clear));
        }
    }
    if is_of(&[Piece::Neighbor, Piece::Peer, Piece::Refresh], words) {
        if let Some(peer) = peer_at(1, words) {
            return Some(CtlCommand::Neighbour(peer, SessionAction::Refresh));
        }
    }
    None
}

/// The address that is the word with this number, counted from 0.
fn peer_at(n: usize, words: &[Bytes]) -> Option<Addr>
    ensures { result ≡ peer_at n words.now }
{
    match words.get(n) {
        Some(word) => Addr::read_bytes(word.as_slice()).ok(),
        None => None,
    }
}

/// The number that is the word with this number, counted from 0.
fn number_at(n: usize, words: &[Bytes]) -> Option<u32>
    ensures { result ≡ number_at n words.now }
{
    match words.get(n) {
        Some(word) => read_number(word.as_slice()),
        None => None,
    }
}

/// Whether the words are a command of these pieces.
fn is_of(pieces: &[Piece], words: &[Bytes]) -> bool
    ensures { result ≡ is_of pieces.now words.now }
{
    run(pieces, words) == pieces.len() && words.len() == pieces.len()
}

/// How many words, from the first on, follow a command of these pieces.
#[tactic(auto, unfolding(crate::specs::Commands::run))]
fn run(pieces: &[Piece], words: &[Bytes]) -> usize
    ensures value { result ≡ run pieces.now words.now }
    ensures within { result ≤ length pieces.now }
{
    let mut count = 0;
    while count < pieces.len()
        && count < words.len()
        && fits(pieces[count], words[count].as_slice())
    {
        count += 1;
    }
    count
}

/// The longest run of words, from the first on, that follow some command.
fn longest_run(words: &[Bytes]) -> u32
    ensures value { result ≡ longest forms 0 words.now }
    ensures within { result ≤ 4 }
{
    let show = longest_show(0, words);
    let rib = longest_rib(show, words);
    let fib = longest_fib(rib, words);
    longest_neighbour(fib, words) as u32
}

/// The longest run that follows a show of something else than a RIB, if it is longer than this.
fn longest_show(most: usize, words: &[Bytes]) -> usize
    requires { most ≤ 4 }
    ensures value { result ≡ longest show_forms most words.now }
    ensures within { result ≤ 4 }
{
    let most = most.max(run(&[Piece::Show, Piece::Summary], words));
    let most = most.max(run(&[Piece::Show, Piece::Neighbor], words));
    let most = most.max(run(&[Piece::Show, Piece::Neighbor, Piece::Peer], words));
    let most = most.max(run(&[Piece::Show, Piece::Sets], words));
    let most = most.max(run(&[Piece::Show, Piece::Tables], words));
    let most = most.max(run(&[Piece::Show, Piece::Nexthop], words));
    let most = most.max(run(&[Piece::Show, Piece::Fib], words));
    let most = most.max(run(
        &[Piece::Show, Piece::Fib, Piece::Table, Piece::Number],
        words,
    ));
    most
}

/// The longest run that follows a show of a RIB, if it is longer than this.
fn longest_rib(most: usize, words: &[Bytes]) -> usize
    requires { most ≤ 4 }
    ensures value { result ≡ longest rib_forms most words.now }
    ensures within { result ≤ 4 }
{
    let most = most.max(run(&[Piece::Show, Piece::Rib], words));
    let most = most.max(run(&[Piece::Show, Piece::Rib, Piece::Table, Piece::Name], words));
    let most = most.max(run(&[Piece::Show, Piece::Rib, Piece::In], words));
    let most = most.max(run(&[Piece::Show, Piece::Rib, Piece::Out], words));
    let most = most.max(run(&[Piece::Show, Piece::Rib, Piece::Memory], words));
    most
}

/// The longest run that follows a command on kernel tables, if it is longer than this.
fn longest_fib(most: usize, words: &[Bytes]) -> usize
    requires { most ≤ 4 }
    ensures value { result ≡ longest fib_forms most words.now }
    ensures within { result ≤ 4 }
{
    let most = most.max(run(&[Piece::Fib, Piece::Couple], words));
    let most = most.max(run(&[Piece::Fib, Piece::Decouple], words));
    let most = most.max(run(
        &[Piece::Fib, Piece::Table, Piece::Number, Piece::Couple],
        words,
    ));
    let most = most.max(run(
        &[Piece::Fib, Piece::Table, Piece::Number, Piece::Decouple],
        words,
    ));
    most
}

/// The longest run that follows a command on a neighbour, if it is longer than this.
fn longest_neighbour(most: usize, words: &[Bytes]) -> usize
    requires { most ≤ 4 }
    ensures value { result ≡ longest neighbour_forms most words.now }
    ensures within { result ≤ 4 }
{
    let most = most.max(run(&[Piece::Neighbor, Piece::Peer, Piece::Up], words));
    let most = most.max(run(&[Piece::Neighbor, Piece::Peer, Piece::Down], words));
    let most = most.max(run(&[Piece::Neighbor, Piece::Peer, Piece::Clear], words));
    let most = most.max(run(&[Piece::Neighbor, Piece::Peer, Piece::Refresh], words));
    most
}
