//! The ends of the rings of one node.
ghost use Rattle.std.specs.Prelude.{◌≡◌, ◌+◌, ◌<◌, ◌≤◌, ◌⊎◌, [], ◌∷◌, ◌++◌, MatchOption, IfOk, OnOk, slice_get, Some, length};
ghost use Rattle.std.specs.List.{Contains};
ghost use Rattle.rtrb.specs.Ring.{IsPair, SameProducer, known_free, received, sent};
ghost use Rattle.live_links.specs.declared.letter.Letter.{Letter as One};
ghost use Rattle.live_links.specs.Ends.{AreStill, AtEach, KnowsRow, Out, RowPairs, Sends, StillIn, StillOut, StillRow, TookAt, TookOne};

use crate::Letter;
use crate::look::look_row;
use rtrb::{Consumer, Producer};
use std::alloc::Global;
use std::marker::Model;
use std::sync::Arc;
use std::sync::atomic::{AtomicU64, Ordering};
use world_base::Cluster;
use xfs_base::{List, Mem};

/// How many packets were pushed to a node, or were to be: a hint, by which it knows when to look at its rings again. No
/// clause speaks of it.
pub type Mail = Arc<AtomicU64, Global>;

/// No packet was pushed yet.
fn no_mail(alloc: Global) -> Mem<Mail> {
    let mail = Arc::new(alloc, AtomicU64::new(0))?;
    Ok(mail)
}

/// The ends by which a node sends, in order of those that receive, with their mail.
pub struct Outs {
    ends: Vec<Producer<Letter>>,
    mails: Vec<Mail>,
}

impl Drop for Outs {
    fn drop(self) {
        let Outs { ends, mails } = self;
        drop(ends);
        drop(mails);
    }
}

impl Model for Outs {
    ghost use Rattle.std.specs.Prelude.{List as Seq};
    ghost use Rattle.live_links.specs.Ends.{Out};

    ghost Value = { Seq Out };

    ghost view = { λ o. o.ends.items };
}

/// The ends by which a node receives, in order of those that send. Which of them is asked first moves on with
/// each packet, so that a node that sends much keeps no other waiting. None is asked while no mail came since all were
/// found empty.
pub struct Ins {
    ends: Vec<Consumer<Letter>>,
    first: usize,
    mail: Mail,
    seen: u64,
}

impl Drop for Ins {
    fn drop(self) {
        let Ins {
            ends,
            first: _,
            mail,
            seen: _,
        } = self;
        drop(ends);
        drop(mail);
    }
}

impl Model for Ins {
    ghost use Rattle.std.specs.Prelude.{List as Seq};
    ghost use Rattle.live_links.specs.Ends.{In};

    ghost Value = { Seq In };

    ghost view = { λ i. i.ends.items };
}

/// Pushes a packet on a ring. It is lost where the ring is full.
fn push_on(end: &mut Producer<Letter>, letter: Letter)
    ensures same { SameProducer end.old end.new }
    ensures room { known_free end.old ≤ known_free end.new + 1 }
    ensures pushed { (sent end.new ≡ sent end.old ++ letter ∷ []) ⊎ ((sent end.new ≡ sent end.old) × (known_free end.old ≡ 0)) }
{
    match end.push(letter) {
        Ok(()) => {}
        Err(_) => {}
    }
}

/// Tells the node at a place that there is mail.
fn tell_mail(mails: &[Mail], place: usize) {
    match mails.get(place) {
        None => {}
        Some(mail) => {
            mail.fetch_add(1, Ordering::SeqCst);
        }
    }
}

/// Pushes a packet on the ring to its node. It is lost where there is none, or where the ring is full.
fn push_to(cluster: Cluster, ends: &mut Vec<Producer<Letter>>, mails: &[Mail], letter: Letter)
    ensures { Sends cluster ends.old.items (letter ∷ []) ends.new.items }
{
    let place = match cluster.place(letter.packet.as_packet().to) {
        None => return,
        Some(place) => place,
    };
    if place < ends.len() {
        push_on(&mut ends[place], letter);
        tell_mail(mails, place);
    }
}

/// Pushes packets, in their order.
fn push_each(
    cluster: Cluster,
    ends: &mut Vec<Producer<Letter>>,
    mails: &[Mail],
    letters: List<Letter>,
)
    ensures { Sends cluster ends.old.items letters ends.new.items }
{
    for letter in letters.into_vec() {
        push_to(cluster, ends, mails, letter);
    }
}

/// Pops a packet of the first of these rings that has one, and says which that is.
fn pop_among(ends: &mut Vec<Consumer<Letter>>, from: usize, upto: usize) -> Option<(usize, Letter)>
    requires { upto ≤ length ends.old.items }
    ensures { MatchOption result (AreStill ends.old.items ends.new.items) (λ r. TookAt ends.old.items r.0 r.1 ends.new.items) }
{
    for place in from..upto {
        match ends[place].pop() {
            Ok(letter) => return Some((place, letter)),
            Err(_) => {}
        }
    }
    None
}

/// Pops a packet of the first ring that has one, from the one at a place on and round to it, and says which
/// that is.
fn pop_round(ends: &mut Vec<Consumer<Letter>>, first: usize) -> Option<(usize, Letter)>
    ensures { MatchOption result (AreStill ends.old.items ends.new.items) (λ r. TookAt ends.old.items r.0 r.1 ends.new.items) }
{
    let count = ends.len();
    let first = usize::min(first, count);
    match pop_among(ends, first, count) {
        Some(popped) => Some(popped),
        None => pop_among(ends, 0, first),
    }
}

/// Compares what was received with what was sent.
fn look_one(out: &mut Producer<Letter>, end: &mut Consumer<Letter>)
    requires { IsPair out.old end.old }
    ensures out { StillOut 0 out.old out.new }
    ensures end { StillIn 0 end.old end.new }
    ensures known { (l : One) → Contains (received end.old) l → Contains (sent out.old) l }
{
    end.slots_beside(out);
}

fn look_at(outs: &mut Vec<Producer<Letter>>, place: usize, end: &mut Consumer<Letter>)
    requires within { place < length outs.old.items }
    requires pair { (o : Out) → slice_get outs.old.items place ≡ Some o → IsPair o end.old }
    ensures outs { AtEach StillOut outs.old.items outs.new.items }
    ensures end { StillIn 0 end.old end.new }
    ensures known { (o : Out) (l : One) → slice_get outs.old.items place ≡ Some o → Contains (received end.old) l → Contains (sent o) l }
{
    look_one(&mut outs[place], end);
}

impl Outs {
    /// Compares what was sent by the end at a place with what the other end received.
    pub(crate) fn look(&mut self, place: usize, end: &mut Consumer<Letter>)
        requires within { place < length self.old }
        requires pair { (o : Out) → slice_get self.old place ≡ Some o → IsPair o end.old }
        ensures outs { AtEach StillOut self.old self.new }
        ensures end { StillIn 0 end.old end.new }
        ensures known { (o : Out) (l : One) → slice_get self.old place ≡ Some o → Contains (received end.old) l → Contains (sent o) l }
    {
        look_at(&mut self.ends, place, end);
    }

    /// No end. It takes no memory.
    pub(crate) fn none(alloc: Global) -> Outs
        ensures { result ≡ [] }
    {
        Outs {
            ends: Vec::new(alloc),
            mails: Vec::new(alloc),
        }
    }

    /// Adds the end to the next one who receives, with that one's mail.
    pub(crate) fn add(&mut self, end: Producer<Letter>, mail: Mail) -> Mem<()>
        ensures { OnOk result (self.new ≡ self.old ++ end ∷ []) }
    {
        self.ends.push(end)?;
        self.mails.push(mail)?;
        Ok(())
    }

    /// Pushes packets, in their order, each on the ring to its node. One is lost where there is no such ring,
    /// or where the ring is full: none is where there is known to be room for all.
    pub fn push_all(&mut self, cluster: Cluster, letters: List<Letter>)
        ensures { Sends cluster self.old letters self.new }
    {
        push_each(cluster, &mut self.ends, self.mails.as_slice(), letters);
    }
}

impl Ins {
    /// Compares what was received at a place with what was sent to it.
    pub(crate) fn look(&mut self, place: usize, outs: &mut Vec<Outs>)
        requires { RowPairs place self.old outs.old.items }
        ensures ends { AtEach StillIn self.old self.new }
        ensures outs { AtEach StillRow outs.old.items outs.new.items }
        ensures known { KnowsRow place self.old outs.old.items }
    {
        look_row(place, &mut self.ends, outs);
    }

    /// No end, and no mail.
    pub(crate) fn none(alloc: Global) -> Mem<Ins>
        ensures { IfOk result (λ ins. ins ≡ []) }
    {
        let mail = no_mail(alloc)?;
        Ok(Ins {
            ends: Vec::new(alloc),
            first: 0,
            mail,
            seen: 0,
        })
    }

    /// The mail of who receives here.
    pub(crate) fn mail(&self) -> Mem<Mail> {
        let mail = self.mail.clone()?;
        Ok(mail)
    }

    /// Whether no mail came since all rings were found empty.
    pub fn is_quiet(&self) -> bool {
        self.mail.load(Ordering::SeqCst) == self.seen
    }

    /// Adds the end of the next one who sends.
    pub(crate) fn add(&mut self, end: Consumer<Letter>) -> Mem<()>
        ensures { OnOk result (self.new ≡ self.old ++ end ∷ []) }
    {
        self.ends.push(end)?;
        Ok(())
    }

    /// Takes the oldest packet of one of the rings that has one; none where no mail came since all were empty. No packet is
    /// given out twice, and none is dropped: one ring gave just this packet, and no other ring gave any.
    pub fn pop(&mut self) -> Option<Letter>
        ensures { MatchOption result (AreStill self.old self.new) (λ letter. TookOne self.old letter self.new) }
    {
        let count = self.mail.load(Ordering::SeqCst);
        let quiet = count == self.seen;
        if quiet {
            return None;
        }
        match pop_round(&mut self.ends, self.first) {
            None => {
                self.seen = count;
                None
            }
            Some((place, letter)) => {
                self.first = place.saturating_add(1);
                Some(letter)
            }
        }
    }
}
