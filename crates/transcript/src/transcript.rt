//! The text of an estate.
ghost use Rattle.std.specs.Prelude.{◌≡◌, ◌++◌, [], Some, IfOk, OnOk};
ghost use Rattle.transcript.specs.Numbers.{next_of, numbers_next, behind_line};
ghost use Rattle.transcript.specs.Replies.{replies_of, reply_of};
ghost use Rattle.transcript.specs.Text.{fall_text, fell_text, reply_text, line_text, lines_text, asked_text, end_text, text_of};

use crate::falls::Fallen;
use crate::numbers::Numbers;
use crate::replies::{Replies, Reply, answer_at, items_in, open_items};
use act_text::add_answer;
use act_text::piece::{add_block, add_marked, add_number};
use script_text::Line;
use std::alloc::Global;
use version_model::Act;
use world_base::{Estate, actor_of};
use xfs_base::{Mem, NodeId, Text};

/// Appends that a block fell.
fn add_fall(alloc: Global, text: &mut Text, fall: Fallen) -> Mem<()>
    ensures { OnOk result (text.new ≡ text.old ++ fall_text fall) }
{
    text.add(b" fell ")?;
    add_block(alloc, text, fall.block)?;
    add_marked(alloc, text, b" v", fall.ver)
}

/// Appends what a restarted client has lost.
fn add_fallen(alloc: Global, text: &mut Text, fallen: &[Fallen]) -> Mem<()>
    ensures { OnOk result (text.new ≡ text.old ++ fell_text fallen.now) }
{
    for fall in fallen {
        add_fall(alloc, text, *fall)?;
    }
    Ok(())
}

/// Appends an item's answer.
fn add_reply(alloc: Global, text: &mut Text, acts: &[Act], reply: &Reply) -> Mem<()>
    ensures { OnOk result (text.new ≡ text.old ++ reply_text acts.now (Some reply.now)) }
{
    match answer_at(acts, reply.place) {
        None => Ok(()),
        Some(answer) => {
            add_answer(alloc, text, answer)?;
            add_fallen(alloc, text, reply.fallen.as_slice())
        }
    }
}

/// Appends the answer of the next item of a node, or that it has none.
fn add_next(
    alloc: Global,
    text: &mut Text,
    acts: &[Act],
    replies: &Replies,
    numbers: &mut Numbers,
    node: NodeId,
) -> Mem<()>
    ensures text { OnOk result (text.new ≡ text.old ++ reply_text acts.now (reply_of replies.now (record { node = node; number = next_of numbers.old node }))) }
    ensures numbers { OnOk result (numbers.new ≡ numbers_next numbers.old node) }
{
    let name = numbers.next(node)?;
    match replies.reply(name) {
        None => text.add(b"open"),
        Some(reply) => add_reply(alloc, text, acts, reply),
    }
}

/// Appends the line of a script's line, where it is an item.
fn add_line(
    alloc: Global,
    text: &mut Text,
    acts: &[Act],
    replies: &Replies,
    numbers: &mut Numbers,
    line: &Line,
) -> Mem<()>
    ensures text { OnOk result (text.new ≡ text.old ++ line_text acts.now replies.now (next_of numbers.old) line.now) }
    ensures numbers { OnOk result (numbers.new ≡ behind_line numbers.old line.now) }
{
    match actor_of(&line.work) {
        None => Ok(()),
        Some(node) => {
            add_number(alloc, text, u64::from(line.number))?;
            text.add(b" ")?;
            add_next(alloc, text, acts, replies, numbers, node)?;
            text.add(b"\n")
        }
    }
}

/// Appends the lines of all items.
fn add_lines(alloc: Global, text: &mut Text, acts: &[Act], lines: &[Line]) -> Mem<()>
    ensures { OnOk result (text.new ≡ text.old ++ lines_text acts.now (replies_of acts.now) [] lines.now) }
{
    let replies = Replies::of(alloc, acts)?;
    let mut numbers = Numbers::new(alloc);
    for line in lines {
        add_line(alloc, text, acts, &replies, &mut numbers, line)?;
    }
    Ok(())
}

/// Appends the lines of all acts, where they are asked for.
fn add_acts(alloc: Global, text: &mut Text, asked: bool, acts: &[Act]) -> Mem<()>
    ensures { OnOk result (text.new ≡ text.old ++ asked_text asked acts.now) }
{
    if asked {
        act_text::add_acts(alloc, text, acts)
    } else {
        Ok(())
    }
}

/// Appends the end line.
fn add_end(alloc: Global, text: &mut Text, items: u64, unanswered: u64) -> Mem<()>
    ensures { OnOk result (text.new ≡ text.old ++ end_text items unanswered) }
{
    add_marked(alloc, text, b"end ", items)?;
    add_marked(alloc, text, b" ", unanswered)?;
    text.add(b"\n")
}

/// The text of an estate: by line number, the answer of each item; the acts, where the script asks for
/// them; and the end line, with how many items there are and how many of them are open.
#[tactic(auto, unfolding(crate::specs::Text::text_of))]
pub fn text<N>(alloc: Global, estate: &Estate<N>) -> Mem<Text>
    ensures { IfOk result (λ text. text ≡ text_of estate.now) }
{
    let acts = estate.world.acts.as_slice();
    let mut text = Text::new(alloc);
    add_lines(alloc, &mut text, acts, estate.script.lines.as_slice())?;
    add_acts(alloc, &mut text, estate.script.setup.acts, acts)?;
    add_end(alloc, &mut text, items_in(estate), open_items(estate))?;
    Ok(text)
}
