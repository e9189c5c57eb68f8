//! Which act answers which item.
ghost use Rattle.std.specs.Prelude.{◌≡◌, IfOk, MatchOption, Some, None};
ghost use Rattle.std.specs.List.{count_by};
ghost use Rattle.transcript.specs.Replies.{replies_of, reply_of, gathering_answer, gathering_take, handed_out, handing_out, answer_at, is_item, is_answer, items_in, open_items};

use crate::falls::{Fallen, Falls};
use script_text::Line;
use std::alloc::Global;
use std::collections::BTreeMap;
use std::marker::Model;
use version_model::{Act, Answer};
use world_base::{Estate, actor_of};
use xfs_base::{List, Mem, NodeId};

/// An item of a node's list.
#[derive(Clone, Copy, PartialEq, Eq, PartialOrd, Ord)]
pub struct ItemName {
    /// The node.
    pub node: NodeId,
    /// Its number in the list, from 1.
    pub number: u32,
}

/// The answer of an item.
pub struct Reply {
    /// The place of the act that answers.
    pub place: usize,
    /// What the node that came back has lost, by block.
    pub fallen: List<Fallen>,
}

impl Drop for Reply {
    fn drop(self) {
        let Reply { place: _, fallen } = self;
        drop(fallen);
    }
}

/// The answers of all items. Contracts see them in order of items.
pub struct Replies {
    table: BTreeMap<ItemName, Reply>,
}

impl Drop for Replies {
    fn drop(self) {
        let Replies { table } = self;
        drop(table);
    }
}

impl Model for Replies {
    ghost use Rattle.transcript.specs.Replies.{Table};

    ghost Value = { Table };

    ghost view = { λ r. r.table.entries };
}

/// The answers among the acts so far, and what clients that are back have lost.
#[derive(Drop)]
struct Gathering {
    table: BTreeMap<ItemName, Reply>,
    falls: Falls,
}

impl Model for Gathering {
    ghost use Rattle.transcript.specs.Replies.{RepliesState};

    ghost Value = { RepliesState };

    ghost view = { λ g. record { table = g.table.entries; falls = g.falls } };
}

/// What a node has lost that now answers.
fn handed_out(alloc: Global, falls: &mut Falls, node: NodeId) -> List<Fallen>
    ensures fallen { result ≡ handed_out falls.old node }
    ensures rest { falls.new ≡ handing_out falls.old node }
{
    match node {
        NodeId::Client(client) => falls.hand_out(alloc, client),
        _ => List::new(alloc),
    }
}

impl Gathering {
    /// Notes the act at a place.
    fn take(self, alloc: Global, place: usize, act: &Act) -> Mem<Gathering>
        ensures { IfOk result (λ gathering. gathering ≡ gathering_take self place act.now) }
    {
        match act {
            Act::Answered {
                node,
                item,
                answer: _,
            } => {
                let name = ItemName {
                    node: *node,
                    number: *item,
                };
                self.answer(alloc, place, name)
            }
            _ => Ok(Gathering {
                table: self.table,
                falls: self.falls.take(alloc, act)?,
            }),
        }
    }

    /// Notes that the act at a place answers an item.
    fn answer(self, alloc: Global, place: usize, name: ItemName) -> Mem<Gathering>
        ensures { IfOk result (λ gathering. gathering ≡ gathering_answer self name place) }
    {
        let mut falls = self.falls;
        let fallen = handed_out(alloc, &mut falls, name.node);
        let mut table = self.table;
        table.insert(name, Reply { place, fallen })?;
        Ok(Gathering { table, falls })
    }
}

impl Replies {
    /// The answers among some acts.
    pub fn of(alloc: Global, acts: &[Act]) -> Mem<Replies>
        ensures { IfOk result (λ replies. replies ≡ replies_of acts.now) }
    {
        let mut gathering = Gathering {
            table: BTreeMap::new(alloc),
            falls: Falls::start(alloc),
        };
        for place in 0..acts.len() {
            gathering = gathering.take(alloc, place, &acts[place])?;
        }
        Ok(Replies {
            table: gathering.table,
        })
    }

    /// The answer of an item, if it has one.
    pub fn reply(&self, name: ItemName) -> Option<&Reply>
        ensures { MatchOption result (reply_of self.now name ≡ None) (λ reply. reply_of self.now name ≡ Some reply.now) }
    {
        self.table.get(&name)
    }
}

/// What the act at a place answers.
pub fn answer_at(acts: &[Act], place: usize) -> Option<&Answer>
    ensures { MatchOption result (answer_at acts.now place ≡ None) (λ answer. answer_at acts.now place ≡ Some answer.now) }
{
    match acts.get(place) {
        Some(
            Act::Answered {
                node: _,
                item: _,
                answer,
            },
        ) => Some(answer),
        _ => None,
    }
}

/// Whether a line is an item.
fn is_item(line: &Line) -> bool
    ensures { result ≡ is_item line.now }
{
    actor_of(&line.work).is_some()
}

/// How many of some lines are items.
fn count_items(lines: &[Line]) -> u64
    ensures { result ≡ count_by is_item lines.now }
{
    let mut count: u64 = 0;
    for line in lines {
        if is_item(line) {
            count += 1;
        }
    }
    count
}

/// How many of some acts answer an item.
fn count_answers(acts: &[Act]) -> u64
    ensures { result ≡ count_by is_answer acts.now }
{
    let mut count: u64 = 0;
    for act in acts {
        if matches!(act, Act::Answered { .. }) {
            count += 1;
        }
    }
    count
}

/// How many lines of a script are items.
pub fn items_in<N>(estate: &Estate<N>) -> u64
    ensures { result ≡ items_in estate.now }
{
    count_items(estate.script.lines.as_slice())
}

/// How many items of an estate have no answer.
pub fn open_items<N>(estate: &Estate<N>) -> u64
    ensures { result ≡ open_items estate.now }
{
    items_in(estate).saturating_sub(count_answers(estate.world.acts.as_slice()))
}
