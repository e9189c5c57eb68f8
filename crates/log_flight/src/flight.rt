//! A segment that is not settled.
ghost use Rattle.std.specs.Prelude.{◌≡◌, ◌<◌, length, slice_set, IfOk, true};
ghost use Rattle.segment_format.specs.declared.segment.Segment.{Segment};
ghost use Rattle.segment_format.specs.Text.{KeepsLimits};
ghost use Rattle.stripe_code.specs.Stripe.{IsCut};
ghost use Rattle.log_flight.specs.Fate.{is_lost, lost_count, is_done, all_done, fate_of};
ghost use Rattle.log_flight.specs.Flights.{none_noted, is_noted, is_of, is_member, flight_note};
ghost use Rattle.log_flight.specs.Fragments.{flight_fragment};

use crate::fragments::fragments_over;
use group_map::{Group, GroupMap, Member};
use segment_format::Segment;
use std::alloc::Global;
use std::marker::Model;
use xfs_base::{Fragment, List, Mem, SegName};

/// What becomes of a segment in flight.
#[derive(Clone, Copy)]
pub enum Fate {
    /// More of its members are lost than its group has parity: it is striped anew.
    Restripe,
    /// Each of its members is noted or lost: it is settled.
    Settle,
    /// Neither yet.
    Wait,
}

/// A segment that is not settled: over which group it lies, and for each place whether the server is known
/// to hold the fragment. It keeps the fragments, so that one that is sent again shares its bytes.
pub struct Flight {
    segment: Segment,
    group: Group,
    noted: [bool; 8],
    fragments: List<Fragment>,
}

impl Drop for Flight {
    fn drop(self) {
        let Flight {
            segment,
            group,
            noted: _,
            fragments,
        } = self;
        drop(segment);
        drop(group);
        drop(fragments);
    }
}

impl Model for Flight {
    ghost use Rattle.log_flight.specs.Flights.{FlightState};
    ghost use Rattle.log_flight.specs.Flown.{IsFlown};

    ghost Value = { FlightState };

    ghost view = { λ f. record { segment = f.segment; group = f.group; noted = f.noted } };

    ghost invariant = { λ f. IsFlown (record { segment = f.segment; group = f.group; noted = f.noted }) f.fragments };
}

impl Flight {
    /// A segment whose fragments are yet to be sent. The segment keeps the limits of a text, and the group is
    /// one that a text is cut over: its parity is 1 or 2, and it has 8 members at most, of which at least 2
    /// are not for parity.
    pub fn launch(alloc: Global, segment: Segment, group: Group) -> Mem<Flight>
        requires limits { KeepsLimits segment }
        requires cut { IsCut (length group.members) group.parity }
        ensures { IfOk result (λ f. f ≡ record { segment = segment; group = group; noted = none_noted }) }
    {
        let fragments = fragments_over(alloc, &segment, &group)?;
        Ok(Flight {
            segment,
            group,
            noted: [false; 8],
            fragments,
        })
    }

    /// The segment.
    pub fn segment(&self) -> &Segment
        ensures { result.now ≡ self.now.segment }
    {
        &self.segment
    }

    /// The segment, and nothing else. It keeps the limits of a text.
    pub fn into_segment(self) -> Segment
        ensures segment { result ≡ self.segment }
        ensures limits { KeepsLimits result }
    {
        let Flight {
            segment,
            group,
            noted: _,
            fragments,
        } = self;
        drop(group);
        drop(fragments);
        segment
    }

    /// For each place whether the fragment is noted.
    pub fn noted(&self) -> [bool; 8]
        ensures { result ≡ self.now.noted }
    {
        self.noted
    }

    /// The same, with the fragment at this place noted.
    pub fn noted_with(&self, index: u8) -> [bool; 8]
        ensures { result ≡ slice_set self.now.noted index true }
    {
        noted_with(&self.noted, index)
    }

    /// The fragment at this place is noted.
    pub fn note(&mut self, index: u8)
        ensures { self.new ≡ flight_note self.old index }
    {
        self.noted = noted_with(&self.noted, index);
    }

    /// Whether a server's answer is of this flight: by name, place and generation.
    pub fn is_of(&self, name: SegName, index: u8, generation: u32) -> bool
        ensures { result ≡ is_of self.now name index generation }
    {
        name.is_same(self.segment.name)
            && is_member(self.group.members.as_slice(), index, generation)
    }

    /// What becomes of the flight where these fragments are noted.
    pub fn fate(&self, groups: &GroupMap, noted: &[bool; 8]) -> Fate
        ensures { result ≡ fate_of groups.now (record self.now { noted = noted.now }) }
    {
        let members = self.group.members.as_slice();
        if usize::from(self.group.parity) < lost_count(groups, members) {
            Fate::Restripe
        } else if all_done(groups, noted, members) {
            Fate::Settle
        } else {
            Fate::Wait
        }
    }

    /// The members over which the segment is striped, by place.
    pub fn members(&self) -> &[Member]
        ensures { result.now ≡ self.now.group.members }
    {
        self.group.members.as_slice()
    }

    /// Whether the fragment at this place is noted.
    pub fn has_noted(&self, place: usize) -> bool
        ensures { result ≡ is_noted self.now.noted place }
    {
        is_noted(&self.noted, place)
    }

    /// The fragment at this place, which shares its bytes.
    pub fn fragment(&self, alloc: Global, place: usize) -> Mem<Fragment>
        requires { place < length self.now.group.members }
        ensures { IfOk result (λ fragment. fragment ≡ flight_fragment self.now.segment self.now.group place) }
    {
        self.fragments.as_slice()[place].copy(alloc)
    }
}

// Whether the member at this place is of this generation.
fn is_member(members: &[Member], index: u8, generation: u32) -> bool
    ensures { result ≡ is_member members.now index generation }
{
    match members.get(usize::from(index)) {
        Some(member) => generation == member.generation,
        None => false,
    }
}

fn is_lost(groups: &GroupMap, member: Member) -> bool
    ensures { result ≡ is_lost groups.now member }
{
    1 <= member.server
        && member.server <= groups.servers()
        && member.generation < groups.generation(member.server)
}

fn lost_count(groups: &GroupMap, members: &[Member]) -> usize
    ensures { result ≡ lost_count groups.now members.now }
{
    let mut count = 0;
    for member in members {
        if is_lost(groups, *member) {
            count += 1;
        }
    }
    count
}

// Whether each member is noted or lost.
fn all_done(groups: &GroupMap, noted: &[bool; 8], members: &[Member]) -> bool
    ensures { result ≡ all_done groups.now noted.now members.now 0 }
{
    for (place, member) in members.iter().enumerate() {
        if !is_done(groups, noted, *member, place) {
            return false;
        }
    }
    true
}

fn is_done(groups: &GroupMap, noted: &[bool; 8], member: Member, place: usize) -> bool
    ensures { result ≡ is_done groups.now noted.now member place }
{
    is_noted(noted, place) || is_lost(groups, member)
}

fn is_noted(noted: &[bool; 8], place: usize) -> bool
    ensures { result ≡ is_noted noted.now place }
{
    place < noted.len() && noted[place]
}

fn noted_with(noted: &[bool; 8], index: u8) -> [bool; 8]
    ensures { result ≡ slice_set noted.now index true }
{
    let mut noted = *noted;
    let place = usize::from(index);
    if place < noted.len() {
        noted[place] = true;
    }
    noted
}
