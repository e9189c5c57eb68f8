//! What clients that are back have lost.
ghost use Rattle.std.specs.Prelude.{◌≡◌, ◌==◌, ◌&&◌, OnOk, IfOk, map};
ghost use Rattle.std.specs.List.{fold, list_any};
ghost use Rattle.version_model.specs.Effects.{holds_flight};
ghost use Rattle.transcript.specs.Falls.{falls_start, count_of, of_client, without, add_version, falls_tell, settling_fall, target_of, settle_fall, settling_settle, settled_by, fallen_at, comes_back, falls_take};

use std::alloc::Global;
use std::collections::BTreeMap;
use std::marker::Model;
use version_model::{Act, Fall, FallTold};
use xfs_base::{BlockId, List, Mem, SegName};

/// A block whose history got shorter, and the version to which it fell.
#[derive(Clone, Copy, PartialEq, Eq)]
pub struct Fallen {
    /// The block.
    pub block: BlockId,
    /// The version.
    pub ver: u64,
}

/// The number of versions of each block, the falls that wait until their client is back, and what a
/// client that came back has lost, until its restart is answered.
#[derive(Drop)]
pub struct Falls {
    versions: BTreeMap<BlockId, u64>,
    told: BTreeMap<u8, List<FallTold>>,
    fallen: BTreeMap<u8, List<Fallen>>,
}

impl Model for Falls {
    ghost use Rattle.transcript.specs.Falls.{FallsState};

    ghost Value = { FallsState };

    ghost view = { λ f. record { versions = f.versions.entries; told = f.told.entries; fallen = f.fallen.entries } };
}

/// Whether a chain holds a segment of this number and incarnation.
fn has_segment(chain: &[SegName], seq: u32, inc: u32) -> bool
    ensures { result ≡ list_any (λ s. (s.seq == seq) && (s.pass.inc == inc)) chain.now }
{
    chain
        .iter()
        .any(|seg| seg.seq == seq && seg.pass.inc == inc)
}

/// Whether a chain holds the segment that was in flight.
fn holds_flight(chain: &[SegName], flight: Option<(u32, u32)>) -> bool
    ensures { result ≡ holds_flight chain.now flight }
{
    match flight {
        None => false,
        Some((seq, inc)) => has_segment(chain, seq, inc),
    }
}

/// The version to which a block falls.
fn target_of(fall: Fall, held: bool) -> u64
    ensures { result ≡ target_of fall held }
{
    if held { fall.high } else { fall.low }
}

/// How many versions a block has.
fn count_of(versions: &BTreeMap<BlockId, u64>, block: BlockId) -> u64
    ensures { result ≡ count_of versions.now.entries block }
{
    match versions.get(&block) {
        Some(count) => *count,
        None => 0,
    }
}

/// A block has one version more.
fn add_version(versions: &mut BTreeMap<BlockId, u64>, block: BlockId) -> Mem<()>
    ensures { OnOk result (versions.new.entries ≡ add_version versions.old.entries block) }
{
    let count = count_of(versions, block).saturating_add(1);
    versions.insert(block, count)?;
    Ok(())
}

/// What waits of a client leaves the table.
fn take_told(alloc: Global, told: &mut BTreeMap<u8, List<FallTold>>, client: u8) -> List<FallTold>
    ensures found { result ≡ of_client told.old.entries client }
    ensures rest { told.new.entries ≡ without told.old.entries client }
{
    match told.remove(&client) {
        Some(waiting) => waiting,
        None => List::new(alloc),
    }
}

/// What a client has lost leaves the table.
fn take_fallen(alloc: Global, fallen: &mut BTreeMap<u8, List<Fallen>>, client: u8) -> List<Fallen>
    ensures found { result ≡ of_client fallen.old.entries client }
    ensures rest { fallen.new.entries ≡ without fallen.old.entries client }
{
    match fallen.remove(&client) {
        Some(fallen) => fallen,
        None => List::new(alloc),
    }
}

/// How many versions each block has while falls are settled, and which of them fell.
#[derive(Drop)]
struct Settling {
    versions: BTreeMap<BlockId, u64>,
    fallen: BTreeMap<BlockId, u64>,
}

impl Model for Settling {
    ghost use Rattle.transcript.specs.Falls.{Settling as State};

    ghost Value = { State };

    ghost view = { λ s. record { versions = s.versions.entries; fallen = s.fallen.entries } };
}

impl Settling {
    /// A block falls to a version; it is noted where it had more.
    fn fall(&mut self, block: BlockId, ver: u64) -> Mem<()>
        ensures { OnOk result (self.new ≡ settling_fall block ver self.old) }
    {
        if ver < count_of(&self.versions, block) {
            self.versions.insert(block, ver)?;
            self.fallen.insert(block, ver)?;
        }
        Ok(())
    }

    /// A block falls to its high version where the segment in flight was adopted, else to its low one.
    fn settle_fall(&mut self, fall: Fall, held: bool) -> Mem<()>
        ensures { OnOk result (self.new ≡ settle_fall held self.old fall) }
    {
        self.fall(fall.block, target_of(fall, held))
    }

    /// Blocks fall to their high versions where the segment in flight was adopted, else to their low ones.
    fn fall_each(&mut self, falls: &[Fall], held: bool) -> Mem<()>
        ensures { OnOk result (self.new ≡ fold (settle_fall held) self.old falls.now) }
    {
        for fall in falls {
            self.settle_fall(*fall, held)?;
        }
        Ok(())
    }

    /// The blocks of one crash fall.
    fn settle(&mut self, told: &FallTold, chain: &[SegName]) -> Mem<()>
        ensures { OnOk result (self.new ≡ settling_settle chain.now self.old told.now) }
    {
        let held = holds_flight(chain, told.flight);
        self.fall_each(told.falls.as_slice(), held)
    }

    /// The blocks of all crashes that wait fall.
    fn settle_each(&mut self, waiting: &[FallTold], chain: &[SegName]) -> Mem<()>
        ensures { OnOk result (self.new ≡ fold (settling_settle chain.now) self.old waiting.now) }
    {
        for told in waiting {
            self.settle(told, chain)?;
        }
        Ok(())
    }
}

/// The blocks that fell, as a list.
fn listed(alloc: Global, fallen: &BTreeMap<BlockId, u64>) -> Mem<List<Fallen>>
    ensures { IfOk result (λ list. list ≡ map fallen_at fallen.now.entries) }
{
    let mut list = List::new(alloc);
    for (block, ver) in fallen {
        list.push(Fallen {
            block: *block,
            ver: *ver,
        })?;
    }
    Ok(list)
}

impl Falls {
    /// Before the first act. It takes no memory.
    pub fn start(alloc: Global) -> Falls
        ensures { result ≡ falls_start }
    {
        Falls {
            versions: BTreeMap::new(alloc),
            told: BTreeMap::new(alloc),
            fallen: BTreeMap::new(alloc),
        }
    }

    fn tell(self, alloc: Global, client: u8, fall: FallTold) -> Mem<Falls>
        ensures { IfOk result (λ falls. falls ≡ falls_tell self client fall) }
    {
        let mut told = self.told;
        let mut waiting = take_told(alloc, &mut told, client);
        waiting.push(fall)?;
        told.insert(client, waiting)?;
        Ok(Falls {
            versions: self.versions,
            told,
            fallen: self.fallen,
        })
    }

    /// A client is back: all that waits of it falls.
    fn back(self, alloc: Global, client: u8, chain: &[SegName]) -> Mem<Falls>
        ensures { IfOk result (λ falls. falls ≡ comes_back self client (settled_by self client chain.now)) }
    {
        let mut told = self.told;
        let waiting = take_told(alloc, &mut told, client);
        let mut settling = Settling {
            versions: self.versions,
            fallen: BTreeMap::new(alloc),
        };
        settling.settle_each(waiting.as_slice(), chain)?;
        let mut fallen = self.fallen;
        fallen.insert(client, listed(alloc, &settling.fallen)?)?;
        Ok(Falls {
            versions: settling.versions,
            told,
            fallen,
        })
    }

    fn write(self, block: BlockId) -> Mem<Falls>
        ensures { IfOk result (λ falls. falls ≡ record self { versions = add_version self.versions block }) }
    {
        let mut versions = self.versions;
        add_version(&mut versions, block)?;
        Ok(Falls {
            versions,
            told: self.told,
            fallen: self.fallen,
        })
    }

    /// Notes an act.
    pub fn take(self, alloc: Global, act: &Act) -> Mem<Falls>
        ensures { IfOk result (λ falls. falls ≡ falls_take self act.now) }
    {
        match act {
            Act::Wrote {
                client: _,
                block,
                value: _,
            } => self.write(*block),
            Act::Fell {
                client,
                flight,
                falls,
            } => {
                let falls = falls.copy(alloc)?;
                let told = FallTold {
                    flight: *flight,
                    falls,
                };
                self.tell(alloc, *client, told)
            }
            Act::Back { client, chain } => self.back(alloc, *client, chain.as_slice()),
            _ => Ok(self),
        }
    }

    /// Hands out what a client that came back has lost, by block.
    pub fn hand_out(&mut self, alloc: Global, client: u8) -> List<Fallen>
        ensures fallen { result ≡ of_client self.old.fallen client }
        ensures rest { self.new ≡ record self.old { fallen = without self.old.fallen client } }
    {
        take_fallen(alloc, &mut self.fallen, client)
    }
}
