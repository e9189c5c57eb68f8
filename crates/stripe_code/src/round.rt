//! One round of asking servers for the fragments of a segment.
ghost use Rattle.std.specs.Prelude.{◌≡◌, ◌-◌, ◌<◌, ◌==◌, ◌&&◌, IsTrue, IfOk, OnOk, Option, Some, None, length, filter, not, is_some, count_by, unwrap_or};
ghost use Rattle.std.specs.List.{list_any};
ghost use Rattle.stripe_code.specs.Joined.{HasLengths, too_many, joined, missing_from};
ghost use Rattle.stripe_code.specs.Round.{asks, has_answered, all_answered, unanswered, anew, round_take, len_in, bytes_in, missing_in, parts_in, count_of, state_of, is_as_before, fits, told_fits};
ghost use Rattle.stripe_code.specs.Stripe.{IsCut, part_len};

use crate::cutting::part_len;
use crate::{JoinError, join};
use std::alloc::{AllocError, Global};
use std::marker::Model;
use xfs_base::{Copied, Fragment, List, Mem};

/// What a server told.
#[derive(Drop)]
pub enum Told {
    /// That it holds this fragment.
    Held(Fragment),
    /// That it holds none of the segment, and its generation.
    Missing(u32),
}

/// What one server told of the segment.
pub struct Answer {
    /// The server.
    pub server: u8,
    /// What it told.
    pub told: Told,
}

impl Drop for Answer {
    fn drop(self) {
        let Answer { server: _, told } = self;
        drop(told);
    }
}

/// How a round stands.
#[derive(Drop)]
pub enum RoundState {
    /// Fragments of as many indexes as the text has pieces are in: the text.
    Read(List<u8>),
    /// All servers have answered, and fewer are in: the servers that miss it, in the order in which they
    /// answered, each with its generation.
    Short(List<(u8, u32)>),
    /// Neither.
    Waiting,
}

/// One round: so many servers, and what they told so far. Of each server the first answer counts, of
/// each index the first fragment.
pub struct Round {
    n: u8,
    parity: u8,
    servers: List<u8>,
    answers: List<Answer>,
}

impl Drop for Round {
    fn drop(self) {
        let Round {
            n: _,
            parity: _,
            servers,
            answers,
        } = self;
        drop(servers);
        drop(answers);
    }
}

impl Model for Round {
    ghost use Rattle.stripe_code.specs.Round.{RoundSoFar, IsRound};

    ghost Value = { RoundSoFar };

    ghost view = { λ r. record { n = r.n; parity = r.parity; servers = r.servers; answers = r.answers } };

    ghost invariant = { λ r. IsRound (record { n = r.n; parity = r.parity; servers = r.servers; answers = r.answers }) };
}

impl Round {
    ghost use Rattle.stripe_code.specs.Round.{round_start};

    /// A round over these servers for a segment that was cut for n members with this parity: 1 or 2, and n
    /// from parity + 2 to 8. The servers should differ, one for each member; nothing here tests it, and of
    /// one that stands twice an answer counts once. Only memory can be wanting.
    pub fn start(alloc: Global, n: u8, parity: u8, servers: &[u8]) -> Mem<Round>
        requires { IsCut n parity }
        ensures { IfOk result (λ round. round ≡ round_start n parity servers.now) }
    {
        Ok(Round {
            n,
            parity,
            servers: List::from_vec(Vec::from_slice(alloc, servers)?),
            answers: List::new(alloc),
        })
    }

    /// Takes what a server of the round told, and says how the round stands. A fragment must be one that
    /// `fits`. After want of memory nothing is said of the round.
    pub fn take(&mut self, alloc: Global, server: u8, told: Told) -> Mem<RoundState>
        requires asked { IsTrue (asks self.old server) }
        requires one_of_it { IsTrue (told_fits self.old told) }
        ensures taken { OnOk result (self.new ≡ round_take self.old server told) }
        ensures stands { IfOk result (λ state. state ≡ state_of self.new) }
    {
        self.note(server, told)?;
        self.state(alloc)
    }

    /// Whether the server is one of the round's.
    pub fn asks(&self, server: u8) -> bool
        ensures { result ≡ asks self.now server }
    {
        is_one_of(self.servers.as_slice(), server)
    }

    /// Whether the server has answered.
    pub fn has_answered(&self, server: u8) -> bool
        ensures { result ≡ has_answered self.now.answers server }
    {
        is_among(self.answers.as_slice(), server)
    }

    /// Whether a fragment can be one of the segment's: its index is below n, the length that it says of
    /// the segment is that of the fragments taken before, and it is as long as that asks.
    pub fn fits(&self, fragment: &Fragment) -> bool
        ensures { result ≡ fits self.now fragment.now }
    {
        let len = fragment.meta.len;
        let before = len_of(self.answers.as_slice());
        fragment.meta.index < self.n
            && is_as_before(before, len)
            && fragment.bytes.len() == part_len(len as usize, self.pieces())
    }

    /// The servers that have not answered, in order.
    pub fn unanswered(&self, alloc: Global) -> Mem<List<u8>>
        ensures { IfOk result (λ left. left ≡ unanswered self.now) }
    {
        still_to_answer(alloc, self.answers.as_slice(), self.servers.as_slice())
    }

    /// The same round before any answer.
    pub fn anew(&self, alloc: Global) -> Mem<Round>
        ensures { IfOk result (λ round. round ≡ anew self.now) }
    {
        Round::start(alloc, self.n, self.parity, self.servers.as_slice())
    }

    /// The number of parity fragments.
    pub fn parity(&self) -> u8
        ensures { result ≡ self.now.parity }
    {
        self.parity
    }

    /// Into how many pieces the text was cut.
    fn pieces(&self) -> usize
        ensures count { result ≡ count_of self.now }
        ensures some { 0 < result }
    {
        usize::from(self.n - self.parity)
    }

    /// Keeps what a server told, where it is the first that it tells.
    #[tactic(auto, unfolding(crate::specs::Round::round_take))]
    fn note(&mut self, server: u8, told: Told) -> Mem<()>
        requires { IsTrue (told_fits self.old told) }
        ensures { OnOk result (self.new ≡ round_take self.old server told) }
    {
        if self.has_answered(server) {
            drop(told);
            return Ok(());
        }
        self.answers.push(Answer { server, told })?;
        Ok(())
    }

    /// How the round stands.
    fn state(&self, alloc: Global) -> Mem<RoundState>
        ensures { IfOk result (λ state. state ≡ state_of self.now) }
    {
        let parts = parts_of(alloc, self.answers.as_slice(), self.n)?;
        self.state_by(alloc, parts.as_slice())
    }

    /// How the round stands where these parts are in.
    #[tactic(auto, unfolding(crate::specs::Round::state_of))]
    fn state_by(&self, alloc: Global, parts: &[Option<List<u8>>]) -> Mem<RoundState>
        requires { parts.now ≡ parts_in self.now.n self.now.answers }
        ensures { IfOk result (λ state. state ≡ state_of self.now) }
    {
        let answers = self.answers.as_slice();
        if self.pieces() <= there(parts) {
            let len = len_or_zero(answers);
            let text = joined_text(alloc, parts, self.parity, len)?;
            return Ok(RoundState::Read(text));
        }
        if all_answered(answers, self.servers.as_slice()) {
            let pairs = missing_of(alloc, answers)?;
            return Ok(RoundState::Short(pairs));
        }
        Ok(RoundState::Waiting)
    }
}

/// The text that parts join to. Enough is there, so that only memory can be wanting.
fn joined_text(alloc: Global, parts: &[Option<List<u8>>], parity: u8, len: u32) -> Mem<List<u8>>
    requires size { IsCut (length parts.now) parity }
    requires lengths { HasLengths (part_len len (length parts.now - parity)) parts.now }
    requires enough { too_many parity (missing_from 0 parts.now) ≡ None }
    ensures { IfOk result (λ text. text ≡ joined parts.now parity len) }
{
    match join(alloc, parts, parity, len as usize) {
        Ok(text) => Ok(text),
        Err(_) => Err(AllocError),
    }
}

fn is_among(answers: &[Answer], server: u8) -> bool
    ensures { result ≡ has_answered answers.now server }
{
    for answer in answers {
        if answer.server == server {
            return true;
        }
    }
    false
}

fn is_one_of(servers: &[u8], server: u8) -> bool
    ensures { result ≡ list_any (λ s. s == server) servers.now }
{
    for asked in servers {
        if *asked == server {
            return true;
        }
    }
    false
}

fn all_answered(answers: &[Answer], servers: &[u8]) -> bool
    ensures { result ≡ all_answered answers.now servers.now }
{
    for server in servers {
        if !is_among(answers, *server) {
            return false;
        }
    }
    true
}

/// The servers that have not answered, in order.
fn still_to_answer(alloc: Global, answers: &[Answer], servers: &[u8]) -> Mem<List<u8>>
    ensures { IfOk result (λ left. left ≡ filter (λ server. not (has_answered answers.now server)) servers.now) }
{
    let mut left = List::new(alloc);
    for server in servers {
        if !is_among(answers, *server) {
            left.push(*server)?;
        }
    }
    Ok(left)
}

/// The length of the segment, as the first fragment says.
fn len_of(answers: &[Answer]) -> Option<u32>
    ensures { result ≡ len_in answers.now }
{
    for answer in answers {
        if let Told::Held(fragment) = &answer.told {
            return Some(fragment.meta.len);
        }
    }
    None
}

fn len_or_zero(answers: &[Answer]) -> u32
    ensures { result ≡ unwrap_or (len_in answers.now) 0 }
{
    match len_of(answers) {
        Some(len) => len,
        None => 0,
    }
}

fn is_as_before(before: Option<u32>, len: u32) -> bool
    ensures { result ≡ is_as_before before len }
{
    match before {
        None => true,
        Some(before) => len == before,
    }
}

/// The bytes of the first fragment of this index.
fn bytes_of(alloc: Global, answers: &[Answer], index: u8) -> Mem<Option<List<u8>>>
    ensures { IfOk result (λ bytes. bytes ≡ bytes_in index answers.now) }
{
    for answer in answers {
        if let Told::Held(fragment) = &answer.told {
            if fragment.meta.index == index {
                let bytes = Vec::from_slice(alloc, fragment.bytes.as_slice())?;
                return Ok(Some(List::from_vec(bytes)));
            }
        }
    }
    Ok(None)
}

/// By index, the bytes that are in.
fn parts_of(alloc: Global, answers: &[Answer], n: u8) -> Mem<List<Option<List<u8>>>>
    ensures { IfOk result (λ parts. parts ≡ parts_in n answers.now) }
{
    let mut parts = List::new(alloc);
    for index in 0..n {
        let bytes = bytes_of(alloc, answers, index)?;
        parts.push(bytes)?;
    }
    Ok(parts)
}

/// How many parts are there.
fn there(parts: &[Option<List<u8>>]) -> usize
    ensures { result ≡ count_by is_some parts.now }
{
    let mut count = 0;
    for part in parts {
        if part.is_some() {
            count += 1;
        }
    }
    count
}

/// The servers that miss the segment, with their generations.
fn missing_of(alloc: Global, answers: &[Answer]) -> Mem<List<(u8, u32)>>
    ensures { IfOk result (λ pairs. pairs ≡ missing_in answers.now) }
{
    let mut pairs = List::new(alloc);
    for answer in answers {
        if let Told::Missing(generation) = answer.told {
            pairs.push((answer.server, generation))?;
        }
    }
    Ok(pairs)
}
