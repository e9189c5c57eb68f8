//! A client whose call is open has asked for what it lacks, and asks again. It has no code of the product: each function below stands for the law that its
//! contract states. `specs/Waits.antt` of `headline` says what it lacks, and what it sends again.

ghost use Rattle.run_answers.specs.wait_law.Again.{EachTickAsksAgain};
ghost use Rattle.run_answers.specs.wait_law.Runs.{EachRunWantsAgain, EachRunsCallsWait};
ghost use Rattle.run_answers.specs.wait_law.Waits.{EachEventWaits, EachStartWaits};

use node_slots::client_law::puts_off_what_is_dirty;

/// What an event leaves of the open call of a client, after any events, and so in every run of a script: it awaits what it lacks. At a read it holds nothing of the
/// block, and a want of a copy stands, or a fetch. At a write it may not write the block, and a want to own it stands, or it is to give the block up once its
/// newest version is settled; or no segment can hold what it would write. At a sync a segment is in flight. But for the ends of counters; for a call of which 4,096
/// calls on blocks were answered in the event, which its acts tell; and for an event that has no call go on, as the Begin of an item that is refused, which leaves
/// the call as it stood. At the start no call is open.
pub fn open_calls_have_asked()
    ensures starts { EachStartWaits }
    ensures events { EachEventWaits }
    ensures runs { EachRunsCallsWait }
{
    puts_off_what_is_dirty();
}

/// Time passes at a client that serves, with counters far from their ends: each want that is out is sent once more, to the manager that its slot is promised to, with
/// the same number and mode and one repetition more. But where a want was sent so often that its count is at the end of its type, none is. (What it says again
/// besides, `what_is_unanswered_is_said_again` has.)
pub fn wants_are_sent_again()
    ensures events { EachTickAsksAgain }
    ensures runs { EachRunWantsAgain }
{}
