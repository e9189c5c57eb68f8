//! What applications called and were replied, once both ends of their rings are in one thread.
ghost use Rattle.std.specs.Prelude.{◌≡◌, ◌++◌, ◌∷◌, [], ℕ, List as Seq, length, All, IfOk, IsTrue, OnOk};
ghost use Rattle.rtrb.specs.Ring.{IsPair, received, sent};
ghost use Rattle.live_links.specs.Ending.{IsEnded};
ghost use Rattle.live_links.specs.Parts.{AreParts};
ghost use Rattle.mounts.specs.Replies.{AreFirst, AreSaid, replied_at};

use crate::starting::take_last;
use crate::{Application, MountName, MountedCell, Reply};
use live_links::{Cell, Parts};
use live_run::turned_round;
use rtrb::{Consumer, Producer};
use std::alloc::{AllocError, Global};
use world_base::Member;
use xfs_base::{List, Mem};

/// What applications called and were replied, in order of clients.
pub(crate) struct Told {
    pub(crate) calls: List<List<u32>>,
    pub(crate) replies: List<List<Reply>>,
}

impl Drop for Told {
    fn drop(self) {
        let Told { calls, replies } = self;
        drop(calls);
        drop(replies);
    }
}

impl Told {
    /// Those of no application. It takes no memory.
    fn none(alloc: Global) -> Told
        ensures { (result.calls ≡ []) × (result.replies ≡ []) }
    {
        Told {
            calls: List::new(alloc),
            replies: List::new(alloc),
        }
    }

    /// Adds what the next application called and was replied.
    fn add(&mut self, calls: List<u32>, replies: List<Reply>) -> Mem<()>
        ensures { OnOk result ((self.new.calls ≡ self.old.calls ++ calls ∷ []) × (self.new.replies ≡ self.old.replies ++ replies ∷ [])) }
    {
        self.calls.push(calls)?;
        self.replies.push(replies)?;
        Ok(())
    }

    /// The two lists. It takes no memory.
    pub(crate) fn into_lists(self) -> (List<List<u32>>, List<List<Reply>>)
        ensures { (result.0 ≡ self.calls) × (result.1 ≡ self.replies) }
    {
        let Told { calls, replies } = self;
        (calls, replies)
    }
}

/// The replies that were taken and those that are still on their ring.
fn all_replies(ring: Producer<Reply>, end: Consumer<Reply>, taken: List<Reply>) -> Mem<List<Reply>>
    requires pair { IsPair ring end }
    requires taken { taken ≡ received end }
    ensures { IfOk result (λ all. all ≡ sent ring) }
{
    let mut ring = ring;
    let mut end = end;
    let mut all = taken;
    let count = end.slots_beside(&mut ring);
    for _ in 0..count {
        let reply = end.pop_known();
        all.push(reply)?;
    }
    Ok(all)
}

/// The calls that came are the first of those that were made.
fn compare_calls(ring: Producer<u32>, end: Consumer<u32>)
    requires { IsPair ring end }
    ensures { (known : Seq ℕ) × (received end ++ known ≡ sent ring) }
{
    let mut ring = ring;
    let mut end = end;
    end.slots_beside(&mut ring);
}

/// Whether an application stands at the place of a client.
fn is_of<N: Member, R: MountName>(application: &Application<R>, client: &MountedCell<N, R>) -> bool
    ensures { IsTrue result → client.now.cell.journal.place ≡ application.now.place }
{
    client.cell.place() == application.place
}

/// The cell of a client, and what its application called and was replied. An application
/// of another client is answered like want of memory: no type says at which place it stands.
fn settle<N: Member, R: MountName>(
    client: MountedCell<N, R>,
    application: Application<R>,
) -> Mem<(Cell<N, R>, List<u32>, List<Reply>)>
    ensures cell { IfOk result (λ r. r.0 ≡ client.cell) }
    ensures calls { IfOk result (λ r. AreFirst R.script client.cell.journal.place client.cell.journal.moments r.1) }
    ensures replies { IfOk result (λ r. r.2 ≡ replied_at N.transition N.first R.script client.cell.journal.place client.cell.journal.moments) }
{
    if !is_of(&application, &client) {
        return Err(AllocError);
    }
    let (mount, calls, taken) = application.into_parts();
    let (cell, port) = client.into_parts();
    let (call, replied) = mount.into_ends();
    let (called, reply) = port.into_ends();
    compare_calls(call, called);
    let replies = all_replies(reply, replied, taken)?;
    Ok((cell, calls, replies))
}

/// Takes the cells of clients apart, which have ended as the run has, and tells what their applications called and were
/// replied. There have to be as many applications.
pub(crate) fn clients_apart<N: Member, R: MountName>(
    alloc: Global,
    clients: Vec<MountedCell<N, R>>,
    applications: Vec<Application<R>>,
    full: bool,
) -> Mem<(Parts<N>, Told)>
    requires { All (λ c. IsEnded N.transition N.first R.script full c.cell.journal.place c.cell.journal.moments) clients.items }
    ensures full { IfOk result (λ r. r.0.full ≡ full) }
    ensures parts { IfOk result (λ r. AreParts N.transition N.first R.script R.outs r.0.full r.0.journals.items r.0.nodes r.0.outs.items r.0.ins.items) }
    ensures count { IfOk result (λ r. length r.0.journals.items ≡ length clients.items) }
    ensures replies { IfOk result (λ r. length r.1.replies ≡ length clients.items) }
    ensures told { IfOk result (λ r. AreSaid N.transition N.first R.script r.0.journals.items r.1.calls r.1.replies) }
{
    let mut parts = Parts::none(alloc, full);
    let mut told = Told::none(alloc);
    let mut left = turned_round(applications);
    for client in clients {
        let application = take_last(&mut left)?;
        let (cell, calls, replies) = settle(client, application)?;
        parts.add(cell)?;
        told.add(calls, replies)?;
    }
    Ok((parts, told))
}
