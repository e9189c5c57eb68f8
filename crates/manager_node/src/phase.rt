//! Where a manager stands.
ghost use Rattle.std.specs.Prelude.{◌≡◌};
ghost use Rattle.manager_node.specs.Phases.{idle, is_serving, lasting_of, phase_has_room, waiting_of};

use manager_serving::Serving;
use manager_slots::Lasting;
use node_base::{Items, Questions};
use std::alloc::Global;
use std::mem;
use xfs_base::List;

/// What a manager has: in each phase what outlives a crash, and in each what exists in it alone.
#[derive(Drop)]
pub(crate) enum Phase {
    /// It has crashed.
    Down(Lasting),
    /// It has started again, and awaits the Welcome to this question.
    Waiting(Lasting, u32),
    /// It serves.
    Serving(Serving),
}

impl Phase {
    // A manager that is down and has nothing to do: it stands in while a phase is handed on.
    fn idle(alloc: Global) -> Phase
        ensures { result ≡ idle }
    {
        Phase::Down(Lasting {
            number: 1,
            inc: 1,
            questions: Questions::new(),
            items: Items::start(List::new(alloc)),
        })
    }

    /// The phase, which is handed on: until `turn_to` another stands in for it.
    pub fn take(&mut self, alloc: Global) -> Phase
        ensures taken { result ≡ self.old }
        ensures leaves { self.new ≡ idle }
    {
        mem::replace(self, Phase::idle(alloc))
    }

    /// What a manager has that awaits its Welcome, which is handed on: until `turn_to` another phase stands in. None
    /// in any other phase.
    pub fn take_waiting(&mut self, alloc: Global) -> Option<(Lasting, u32)>
        ensures taken { result ≡ waiting_of self.old }
        ensures leaves { self.new ≡ idle }
    {
        match self.take(alloc) {
            Phase::Waiting(lasting, hello) => Some((lasting, hello)),
            other => {
                drop(other);
                None
            }
        }
    }

    /// The manager is in this phase from now on.
    pub fn turn_to(&mut self, phase: Phase)
        ensures { self.new ≡ phase }
    {
        drop(mem::replace(self, phase));
    }

    /// Whether the manager serves.
    pub fn is_serving(&self) -> bool
        ensures { result ≡ is_serving self.now }
    {
        matches!(self, Phase::Serving(_))
    }

    /// What outlives a crash.
    pub fn lasting(&self) -> &Lasting
        ensures { result.now ≡ lasting_of self.now }
    {
        match self {
            Phase::Down(lasting) => lasting,
            Phase::Waiting(lasting, _) => lasting,
            Phase::Serving(serving) => &serving.lasting,
        }
    }

    /// Whether each counter is at least 65,536 below its end.
    pub fn has_room(&self) -> bool
        ensures { result ≡ phase_has_room self.now }
    {
        match self {
            Phase::Down(lasting) => lasting.has_room(),
            Phase::Waiting(lasting, _) => lasting.has_room(),
            Phase::Serving(serving) => serving.has_room(),
        }
    }
}
