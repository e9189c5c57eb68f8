//! The lines of the setup.
ghost use Rattle.std.specs.Prelude.{◌≡◌, ◌≤◌, ◌==◌, [], codes, IfOk, IfSome};
ghost use Rattle.std.specs.List.{list_any};
ghost use Rattle.script_text.specs.Words.{words, first};
ghost use Rattle.script_text.specs.Script.{is_setup_word};
ghost use Rattle.script_text.specs.Reading.{number_for, new_server, servers_from, enough_for, group_of, group_said, acts_said, said_as, said_at};

use crate::part::number_in;
use crate::stage::Stage;
use crate::word::{Words, spells};
use std::alloc::Global;
use xfs_base::{GroupSetup, List, Mem, Setup};

/// What a line of the setup says.
#[derive(Drop)]
pub enum Said {
    /// The version.
    Version,
    /// How many clients there are.
    Clients(u8),
    /// How many managers there are.
    Managers(u8),
    /// How many storage servers there are.
    Servers(u8),
    /// A group.
    Group(GroupSetup),
    /// How many clean blocks a client caches.
    Cache(u16),
    /// That the acts are printed.
    Acts,
}

/// The number that a line gives to a name.
fn number_for(name: &[u8], least: u32, limit: u32, line: &[u8]) -> Option<u32>
    ensures exact { result ≡ number_for name.now least limit (words line.now) }
    ensures range { IfSome result (λ n. n ≤ limit) }
{
    let mut words = Words::of(line);
    if !spells(words.next(), name) || words.is_end() {
        return None;
    }
    let number = words.next();
    if !words.is_end() {
        return None;
    }
    number_in(least, limit, number)
}

/// Whether one of these numbers is this one.
fn has(numbers: &[u8], number: u8) -> bool
    ensures { result ≡ list_any (λ n. n == number) numbers.now }
{
    numbers.iter().any(|n| *n == number)
}

/// A server of so many that is none of these.
fn new_server(servers: u8, taken: &[u8], word: &[u8]) -> Option<u8>
    ensures { result ≡ new_server servers taken.now word.now }
{
    match number_in(1, servers as u32, word) {
        None => None,
        Some(number) => {
            let server = number as u8;
            if has(taken, server) {
                None
            } else {
                Some(server)
            }
        }
    }
}

/// The servers of a group.
fn servers_from(alloc: Global, servers: u8, words: &mut Words) -> Mem<Option<List<u8>>>
    ensures { IfOk result (λ group. group ≡ servers_from servers [] words.old) }
{
    let mut group = List::new(alloc);
    while !words.is_end() {
        match new_server(servers, group.as_slice(), words.next()) {
            None => return Ok(None),
            Some(server) => group.push(server)?,
        }
    }
    Ok(Some(group))
}

/// A group of as many servers as one of this parity may have.
fn enough_for(parity: u8, servers: Option<List<u8>>) -> Option<GroupSetup>
    requires { parity ≤ 2 }
    ensures { result ≡ enough_for parity servers }
{
    match servers {
        None => None,
        Some(servers) => {
            if parity as usize + 2 <= servers.len() && servers.len() <= 8 {
                Some(GroupSetup { servers, parity })
            } else {
                None
            }
        }
    }
}

/// The group that a line names.
fn group_of(alloc: Global, servers: u8, line: &[u8]) -> Mem<Option<GroupSetup>>
    ensures { IfOk result (λ group. group ≡ group_of servers (words line.now)) }
{
    let mut words = Words::of(line);
    let name = words.next();
    if spells(name, b"group") {
        Ok(enough_for(1, servers_from(alloc, servers, &mut words)?))
    } else if spells(name, b"group2") {
        Ok(enough_for(2, servers_from(alloc, servers, &mut words)?))
    } else {
        Ok(None)
    }
}

/// What a line says of a group, up to the eighth.
fn group_said(alloc: Global, setup: &Setup, line: &[u8]) -> Mem<Option<Said>>
    ensures { IfOk result (λ said. said ≡ group_said setup.now (words line.now)) }
{
    if setup.groups.len() >= 8 {
        return Ok(None);
    }
    match group_of(alloc, setup.servers, line)? {
        None => Ok(None),
        Some(group) => Ok(Some(Said::Group(group))),
    }
}

/// Whether a line says that the acts are printed.
fn acts_said(line: &[u8]) -> Option<Said>
    ensures { result ≡ acts_said (words line.now) }
{
    let mut words = Words::of(line);
    if spells(words.next(), b"acts") && words.is_end() {
        Some(Said::Acts)
    } else {
        None
    }
}

/// The number of a line that gives one to `cache`.
fn cache_said(line: &[u8]) -> Option<Said>
    ensures { result ≡ said_as (λ n. Said.Cache n) (number_for (codes "cache") 1 1024 (words line.now)) }
{
    match number_for(b"cache", 1, 1024, line) {
        None => None,
        Some(number) => Some(Said::Cache(number as u16)),
    }
}

/// What a line behind the first group says.
fn later_said(alloc: Global, setup: &Setup, line: &[u8]) -> Mem<Option<Said>>
    ensures { IfOk result (λ said. said ≡ said_at (Stage.Groups) setup.now (words line.now)) }
{
    match group_said(alloc, setup, line)? {
        Some(said) => Ok(Some(said)),
        None => match cache_said(line) {
            Some(said) => Ok(Some(said)),
            None => Ok(acts_said(line)),
        },
    }
}

/// What a line of the setup says, where it may stand; none where it is none, or may not stand.
pub fn said_at(alloc: Global, stage: Stage, setup: &Setup, line: &[u8]) -> Mem<Option<Said>>
    ensures { IfOk result (λ said. said ≡ said_at stage setup.now (words line.now)) }
{
    match stage {
        Stage::Version => match number_for(b"xfs", 1, 1, line) {
            None => Ok(None),
            Some(_) => Ok(Some(Said::Version)),
        },
        Stage::Clients => match number_for(b"clients", 1, 8, line) {
            None => Ok(None),
            Some(number) => Ok(Some(Said::Clients(number as u8))),
        },
        Stage::Managers => match number_for(b"managers", 1, 4, line) {
            None => Ok(None),
            Some(number) => Ok(Some(Said::Managers(number as u8))),
        },
        Stage::Servers => match number_for(b"servers", 3, 12, line) {
            None => Ok(None),
            Some(number) => Ok(Some(Said::Servers(number as u8))),
        },
        Stage::FirstGroup => group_said(alloc, setup, line),
        Stage::Groups => later_said(alloc, setup, line),
        Stage::Cached => Ok(acts_said(line)),
        Stage::Items => Ok(None),
    }
}

/// Whether a word begins lines of the setup.
fn is_setup_word(word: &[u8]) -> bool
    ensures { result ≡ is_setup_word word.now }
{
    spells(word, b"xfs")
        || spells(word, b"clients")
        || spells(word, b"managers")
        || spells(word, b"servers")
        || spells(word, b"group")
        || spells(word, b"group2")
        || spells(word, b"cache")
        || spells(word, b"acts")
}

/// Whether a line begins with a word that begins lines of the setup.
pub fn begins_setup(line: &[u8]) -> bool
    ensures { result ≡ is_setup_word (first (words line.now)) }
{
    let mut words = Words::of(line);
    is_setup_word(words.next())
}
