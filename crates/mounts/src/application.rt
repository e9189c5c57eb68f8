//! An application: whoever calls the items of a client.
ghost use Rattle.std.specs.Prelude.{◌≡◌, ◌==◌, ◌&&◌, ◌+◌, ◌<◌, ◌↔◌, nat_le, true, [], length, IfOk, IsTrue, OnOk};
ghost use Rattle.rtrb.specs.Ring.{SameConsumer, producer_capacity, received, sent};
ghost use Rattle.live_links.specs.Facts.{dues_at};
ghost use Rattle.mounts.specs.Ports.{IsFreshMount, IsMountAt, items_to};
ghost use Rattle.mounts.specs.Turns.{GoesOn, Takes, application_call, may_call};

use crate::bell::Bell;
use crate::{Mount, MountName, Reply};
use std::alloc::{AllocError, Global};
use std::marker::PhantomData;
use std::sync::Arc;
use world_base::Due;
use xfs_base::{Gate, List, Mem};

/// The application of a client of the run R, with what it called and what it was replied. Its type says what is true
/// of it at all times: its mount is joined to the port of its client, and it called the client's items in their order,
/// each once.
#[derive(Drop)]
pub struct Application<R: MountName> {
    /// The client's place.
    pub(crate) place: usize,
    client: u8,
    pub(crate) mount: Mount,
    dues: List<Due>,
    pub(crate) calls: List<u32>,
    pub(crate) replies: List<Reply>,
    of: PhantomData<R>,
    ghost named: { ∥ IsMountAt R.ports place mount ∥₁ },
    ghost dues_are: { dues ≡ dues_at R.script place },
    ghost slots_are: { producer_capacity mount.calls ≡ length dues },
    ghost calls_are: { calls ≡ sent mount.calls },
    ghost items_are: { calls ≡ items_to (length calls) },
    ghost replies_are: { replies ≡ received mount.replies },
}

/// The number of the item behind so many.
fn number_behind(count: usize) -> Mem<u32>
    ensures { IfOk result (λ number. number ≡ count + 1) }
{
    if count < 4_294_967_295 {
        Ok(count as u32 + 1)
    } else {
        Err(AllocError)
    }
}

/// Takes a reply behind those that were taken, and says whether there was one.
fn take_one(mount: &mut Mount, replies: &mut List<Reply>) -> Mem<bool>
    requires { replies.old ≡ received mount.old.replies }
    ensures calls { mount.new.calls ≡ mount.old.calls }
    ensures ring { SameConsumer mount.old.replies mount.new.replies }
    ensures taken { OnOk result (replies.new ≡ received mount.new.replies) }
    ensures took { IfOk result (λ took. Takes took replies.old replies.new) }
{
    match mount.reply() {
        None => Ok(false),
        Some(reply) => {
            replies.push(reply)?;
            Ok(true)
        }
    }
}

impl<R: MountName> Application<R> {
    /// The application of the client at a place, that has called nothing yet. The client's number is told to the gate.
    pub(crate) fn start(
        alloc: Global,
        place: usize,
        client: u8,
        mount: Mount,
        dues: List<Due>,
    ) -> Application<R>
        requires fresh { IsFreshMount mount }
        requires named { IsMountAt R.ports place mount }
        requires dues { dues ≡ dues_at R.script place }
        requires slots { producer_capacity mount.calls ≡ length dues }
    {
        Application {
            place,
            client,
            mount,
            dues,
            calls: List::new(alloc),
            replies: List::new(alloc),
            of: PhantomData,
        }
    }

    /// What rings when it is replied.
    pub(crate) fn bell(&self) -> Mem<Arc<Bell, Global>> {
        self.mount.bell()
    }

    /// Whether it has called all items and was replied as often.
    pub fn is_over(&self) -> bool
        ensures { result ≡ ((length self.now.calls == length (dues_at R.script self.now.place)) && nat_le (length (dues_at R.script self.now.place)) (length self.now.replies)) }
    {
        self.calls.len() == self.dues.len() && self.dues.len() <= self.replies.len()
    }

    /// Whether there is an item that it hasn't called.
    fn has_more(&self) -> bool
        ensures { IsTrue result ↔ (length self.now.calls < length self.now.dues) }
    {
        self.calls.len() < self.dues.len()
    }

    /// Whether it may call the next item now: there is one, and all calls before were replied, or it is a crash.
    fn may_call(&self) -> bool
        ensures { result ≡ may_call self.now.dues (length self.now.calls) (length self.now.replies) }
    {
        match self.dues.get(self.calls.len()) {
            None => false,
            Some(due) => due.free || self.calls.len() <= self.replies.len(),
        }
    }

    /// Takes a reply, and says whether there was one.
    fn take(self) -> Mem<(Application<R>, bool)>
        ensures place { IfOk result (λ r. r.0.place ≡ self.place) }
        ensures calls { IfOk result (λ r. r.0.calls ≡ self.calls) }
        ensures taken { IfOk result (λ r. Takes r.1 self.replies r.0.replies) }
    {
        let mut mount = self.mount;
        let mut replies = self.replies;
        let taken = take_one(&mut mount, &mut replies)?;
        let application = Application {
            place: self.place,
            client: self.client,
            mount,
            dues: self.dues,
            calls: self.calls,
            replies,
            of: PhantomData,
        };
        Ok((application, taken))
    }

    /// Calls the next item, where there is one.
    fn call(self) -> Mem<Application<R>>
        ensures place { IfOk result (λ a. a.place ≡ self.place) }
        ensures replies { IfOk result (λ a. a.replies ≡ self.replies) }
        ensures called { IfOk result (λ a. length self.calls < length self.dues → a.calls ≡ application_call true self.calls) }
    {
        if !self.has_more() {
            return Ok(self);
        }
        let item = number_behind(self.calls.len())?;
        let mut calls = self.calls;
        calls.push(item)?;
        let mut mount = self.mount;
        mount.call(item);
        let caller = Application {
            place: self.place,
            client: self.client,
            mount,
            dues: self.dues,
            calls,
            replies: self.replies,
            of: PhantomData,
        };
        Ok(caller)
    }

    /// Takes a reply if there is one, and calls the next item if it may; says whether it did either. The gate is told
    /// of a call after it.
    pub fn go_on<G: Gate>(self, gate: &G) -> Mem<(Application<R>, bool)>
        ensures place { IfOk result (λ r. r.0.place ≡ self.place) }
        ensures goes_on { IfOk result (λ r. GoesOn (dues_at R.script self.place) r.1 self.calls r.0.calls self.replies r.0.replies) }
    {
        let (listener, taken) = self.take()?;
        if !listener.may_call() {
            return Ok((listener, taken));
        }
        let client = listener.client;
        let caller = listener.call()?;
        gate.called(client);
        Ok((caller, true))
    }

    /// Its mount, what it called, and what it was replied. It takes no memory.
    pub(crate) fn into_parts(self) -> (Mount, List<u32>, List<Reply>)
        ensures { (result.0 ≡ self.mount) × (result.1 ≡ self.calls) × (result.2 ≡ self.replies) }
    {
        (self.mount, self.calls, self.replies)
    }
}
