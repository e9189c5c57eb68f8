//! How many items of a node are unanswered.
ghost use Rattle.std.specs.Prelude.{◌≡◌};
ghost use Rattle.std.specs.List.{count_by};
ghost use Rattle.disk_play.specs.Courses.{is_answer_of, is_begin_of, unanswered_of};

use play::Player;
use version_model::Act;
use world_base::Event;
use xfs_base::NodeId;

/// Whether this is the begin of an item of a node.
fn is_begin_of(node: NodeId, event: &Event) -> bool
    ensures { result ≡ is_begin_of node event.now }
{
    match event {
        Event::Begin(actor) => *actor == node,
        Event::Deliver(_) => false,
        Event::Tick(_) => false,
    }
}

/// How many items of a node were begun.
fn begins_of(node: NodeId, events: &[Event]) -> u64
    ensures { result ≡ count_by (is_begin_of node) events.now }
{
    let mut count: u64 = 0;
    for event in events {
        count += u64::from(is_begin_of(node, event));
    }
    count
}

/// Whether an act answers an item of a node.
fn is_answer_of(node: NodeId, act: &Act) -> bool
    ensures { result ≡ is_answer_of node act.now }
{
    match act {
        Act::Answered {
            node: actor,
            item: _,
            answer: _,
        } => *actor == node,
        _ => false,
    }
}

/// How many items of a node were answered.
fn answers_of(node: NodeId, acts: &[Act]) -> u64
    ensures { result ≡ count_by (is_answer_of node) acts.now }
{
    let mut count: u64 = 0;
    for act in acts {
        count += u64::from(is_answer_of(node, act));
    }
    count
}

/// How many items of a node were begun and have no answer.
pub fn unanswered_of<N>(node: NodeId, player: &Player<N>) -> u64
    ensures { result ≡ unanswered_of node player.now }
{
    let begun = begins_of(node, player.events.as_slice());
    let answered = answers_of(node, player.world.acts.as_slice());
    begun.saturating_sub(answered)
}
