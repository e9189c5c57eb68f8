//! The phases of a client.
ghost use Rattle.std.specs.Prelude.{◌≡◌};
ghost use Rattle.client_node.specs.Phases.{is_serving, lasting_of, opening_of};

use client_serving::{Lasting, Serving};
use log_owner::Opening;
use std::alloc::Global;
use std::mem;
use xfs_base::List;

/// What a client has: in each phase what outlives a crash, and in each what exists in it alone.
#[derive(Drop)]
pub enum Phase {
    /// It has crashed.
    Down(Lasting),
    /// It opens its log again.
    Opening(Lasting, Opening),
    /// It serves.
    Serving(Serving),
}

impl Phase {
    // A client that is down and has nothing to do: it stands in while a phase is handed on.
    fn idle(alloc: Global) -> Phase {
        Phase::Down(Lasting::start(1, List::new(alloc)))
    }

    /// The phase, which is handed on: until `turn_to` another stands in for it.
    pub(crate) fn take(&mut self, alloc: Global) -> Phase
        ensures { result ≡ self.old }
    {
        mem::replace(self, Phase::idle(alloc))
    }

    /// What a client has that opens its log, which is handed on: until `turn_to` another phase stands in. None in
    /// any other phase.
    pub(crate) fn take_opening(&mut self, alloc: Global) -> Option<(Lasting, Opening)>
        ensures { result ≡ opening_of self.old }
    {
        match self.take(alloc) {
            Phase::Down(lasting) => {
                drop(lasting);
                None
            }
            Phase::Opening(lasting, opening) => Some((lasting, opening)),
            Phase::Serving(serving) => {
                drop(serving);
                None
            }
        }
    }

    /// The client is in this phase from now on.
    pub(crate) fn turn_to(&mut self, phase: Phase)
        ensures { self.new ≡ phase }
    {
        drop(mem::replace(self, phase));
    }

    /// Whether the client serves.
    pub(crate) fn is_serving(&self) -> bool
        ensures { result ≡ is_serving self.now }
    {
        matches!(self, Phase::Serving(_))
    }

    /// What outlives a crash.
    pub fn lasting(&self) -> &Lasting
        ensures { result.now ≡ lasting_of self.now }
    {
        match self {
            Phase::Down(lasting) => lasting,
            Phase::Opening(lasting, _) => lasting,
            Phase::Serving(serving) => &serving.lasting,
        }
    }
}
