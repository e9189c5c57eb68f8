//! Whether a server is stopped, and stops that wait.
ghost use Rattle.std.specs.Prelude.{◌≡◌};
ghost use Rattle.disk_shelf.specs.Stops.{is_answered, is_there, passes_after};
ghost use Rattle.disk_play.specs.Courses.{counts, fate_by, fate_for, passes_for, running, stop_after, stop_for};

use disk_shelf::Ask;

/// Whether a server is stopped, and how many writes and syncs of its disk a stop that waits still lets pass; none where none
/// waits.
#[derive(Clone, Copy, PartialEq, Eq)]
pub struct Stop {
    /// Whether it is stopped: then it takes no event.
    pub stopped: bool,
    /// How many writes and syncs pass before the one within which it stops; none where no stop waits.
    pub passes: Option<u32>,
}

/// Whether writes and syncs of a change count for a stop: those of a store, a fence and a deletion do.
fn counts(ask: &Ask) -> bool
    ensures { result ≡ counts ask.now }
{
    match ask {
        Ask::Store(_, _) => true,
        Ask::Fence(_, _) => true,
        Ask::Delete(_) => true,
        Ask::Fill(_) => false,
        Ask::Lose => false,
        Ask::Welcome(_) => false,
    }
}

/// Whether a change is answered where so many writes and syncs pass.
fn is_answered(passes: Option<u32>) -> bool
    ensures { result ≡ is_answered passes }
{
    match passes {
        None => true,
        Some(passes) => passes >= 4,
    }
}

/// How many are left after a change that is answered.
fn passes_after(passes: Option<u32>) -> Option<u32>
    ensures { result ≡ passes_after passes }
{
    match passes {
        None => None,
        Some(passes) => Some(passes.saturating_sub(4)),
    }
}

/// Whether a change is on the disk where so many pass, answered or not.
fn is_there(passes: Option<u32>) -> bool
    ensures { result ≡ is_there passes }
{
    match passes {
        None => true,
        Some(passes) => passes >= 2,
    }
}

/// What of an event counts.
#[derive(Clone, Copy, PartialEq, Eq)]
pub enum Fate {
    /// All that it did.
    Answered,
    /// All but its packets, which don't go out.
    Unanswered,
    /// Nothing: it didn't happen.
    Lost,
}

/// What of an event counts whose change is answered or not, and there or not.
fn fate_by(answered: bool, there: bool) -> Fate
    ensures { result ≡ fate_by answered there }
{
    if answered {
        return Fate::Answered;
    }
    if there { Fate::Unanswered } else { Fate::Lost }
}

impl Stop {
    /// A server that runs, and for which no stop waits.
    pub fn running() -> Stop
        ensures { result ≡ running }
    {
        Stop {
            stopped: false,
            passes: None,
        }
    }

    /// How many writes and syncs of a change pass; none where no stop waits for it.
    pub fn passes_for(self, ask: &Ask) -> Option<u32>
        ensures { result ≡ passes_for self ask.now }
    {
        if counts(ask) { self.passes } else { None }
    }

    // A server after a change of its shelf: stopped, where too few were left, or with so many less.
    fn after(self, ask: &Ask) -> Stop
        ensures { result ≡ stop_after self ask.now }
    {
        if !counts(ask) {
            return self;
        }
        if !is_answered(self.passes) {
            return Stop {
                stopped: true,
                passes: None,
            };
        }
        Stop {
            stopped: self.stopped,
            passes: passes_after(self.passes),
        }
    }

    /// What is left of it after an event with this change of the shelf.
    pub fn left_by(self, call: &Option<Ask>) -> Stop
        ensures { result ≡ stop_for self call.now }
    {
        match call {
            None => self,
            Some(call) => self.after(call),
        }
    }

    /// What counts of an event with this change of the shelf.
    pub fn fate_for(self, call: &Option<Ask>) -> Fate
        ensures { result ≡ fate_for self call.now }
    {
        match call {
            None => Fate::Answered,
            Some(call) => {
                let passes = self.passes_for(call);
                fate_by(is_answered(passes), is_there(passes))
            }
        }
    }
}
