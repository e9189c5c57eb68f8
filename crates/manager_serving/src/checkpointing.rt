//! How a manager writes a checkpoint of its slots.
ghost use Rattle.std.specs.Prelude.{◌≡◌, ◌++◌, OnOk, Some, fold};
ghost use Rattle.std.specs.List.{flat_map};
ghost use Rattle.node_base.specs.declared.effects.Effect.TheVariants.{Send};
ghost use Rattle.manager_slots.specs.Numbers.{risen};
ghost use Rattle.manager_slots.specs.SlotTable.{slot_table_name};
ghost use Rattle.manager_serving.specs.Checkpoints.{checkpointing_store, give_parts, await_answer, register, writer_says, writer_says_each, writer_takes, on_settled, log_says, log_says_each, serving_write, on_stored, begin_slot, next_slot, on_checkpoint, awaits, count_kept, end_waiting, checkpointing_count, on_ckpt_ack, send_done, checkpointing_tell_again, serving_tell_again};

use crate::serving::Serving;
use checkpoint::{In, Out};
use log_owner::name_of;
use log_owner::sending::send_store;
use node_base::Effects;
use segment_format::Item;
use std::alloc::Global;
use std::mem;
use version_model::{Act, Answer};
use wire_msg::{Body, CkptAck, CkptDone, Shared, Stored};
use xfs_base::{End, List, Mem, NodeId};

/// A checkpoint that is under way.
#[derive(Drop)]
pub struct Checkpointing {
    /// The slot that is looked at next, 0 to 8.
    pub next: u8,
    /// How many slots the registry has taken.
    pub count: u32,
    /// What awaits the registry's answer.
    pub done: Option<CkptDone>,
}

impl Serving {
    /// A checkpoint of all slots that are managed begins.
    #[tactic(auto, unfolding(crate::specs::Checkpoints::on_checkpoint))]
    pub fn on_checkpoint(&mut self, alloc: Global, effects: &mut Effects, number: u32) -> Mem<()>
        ensures state { OnOk result (self.new ≡ (on_checkpoint self.old number).state) }
        ensures effects { OnOk result (effects.new ≡ effects.old ++ (on_checkpoint self.old number).outs) }
    {
        if self.lasting.items.open().is_some() {
            return effects.answer(number, Answer::Busy);
        }
        self.lasting.items.wait(number);
        let job = Checkpointing {
            next: 0,
            count: 0,
            done: None,
        };
        drop(mem::replace(&mut self.checkpoint, Some(job)));
        self.next_slot(alloc, effects)
    }

    /// A server holds a fragment of the segment in flight.
    pub fn on_stored(&mut self, alloc: Global, effects: &mut Effects, stored: Stored) -> Mem<()>
        ensures state { OnOk result (self.new ≡ (on_stored self.old stored).state) }
        ensures effects { OnOk result (effects.new ≡ effects.old ++ (on_stored self.old stored).outs) }
    {
        let Stored {
            name,
            index,
            generation,
        } = stored;
        let input = client_log::In::Acked {
            name,
            index,
            generation,
        };
        self.write(alloc, effects, input)
    }

    /// The registry answers a checkpoint of a slot: the next slot is looked for.
    #[tactic(auto, unfolding(crate::specs::Checkpoints::on_ckpt_ack))]
    pub fn on_ckpt_ack(&mut self, alloc: Global, effects: &mut Effects, ack: CkptAck) -> Mem<()>
        ensures state { OnOk result (self.new ≡ (on_ckpt_ack self.old ack).state) }
        ensures effects { OnOk result (effects.new ≡ effects.old ++ (on_ckpt_ack self.old ack).outs) }
    {
        if !awaits(&self.checkpoint, ack.ask) {
            return Ok(());
        }
        let input = In::Ack {
            epoch: ack.epoch,
            number: self.dones,
        };
        let outs = self.writer.take(alloc, input)?;
        if outs.is_empty() {
            drop(outs);
            return Ok(());
        }
        count_all(&mut self.checkpoint, outs.as_slice());
        drop(outs);
        self.next_slot(alloc, effects)
    }

    /// The log of checkpoints takes an input, and what it says is done.
    #[tactic(auto, unfolding(crate::specs::Checkpoints::serving_write))]
    pub fn write(&mut self, alloc: Global, effects: &mut Effects, input: client_log::In) -> Mem<()>
        ensures state { OnOk result (self.new ≡ (serving_write self.old input).state) }
        ensures effects { OnOk result (effects.new ≡ effects.old ++ (serving_write self.old input).outs) }
    {
        let outs = self.log.take(alloc, input)?;
        self.log_says_each(alloc, effects, outs)
    }

    #[tactic(auto, unfolding(crate::specs::Checkpoints::log_says_each))]
    fn log_says_each(
        &mut self,
        alloc: Global,
        effects: &mut Effects,
        outs: List<client_log::Out>,
    ) -> Mem<()>
        ensures state { OnOk result (self.new ≡ (log_says_each self.old outs).state) }
        ensures effects { OnOk result (effects.new ≡ effects.old ++ (log_says_each self.old outs).outs) }
    {
        for out in outs.into_vec() {
            self.log_says(alloc, effects, out)?;
        }
        Ok(())
    }

    #[tactic(auto, unfolding(crate::specs::Checkpoints::log_says))]
    fn log_says(&mut self, alloc: Global, effects: &mut Effects, out: client_log::Out) -> Mem<()>
        ensures state { OnOk result (self.new ≡ (log_says self.old out).state) }
        ensures effects { OnOk result (effects.new ≡ effects.old ++ (log_says self.old out).outs) }
    {
        match out {
            client_log::Out::Send { fragment, member } => send_store(effects, fragment, member),
            client_log::Out::Settled { end, .. } => self.on_settled(alloc, effects, end),
        }
    }

    // A segment of a checkpoint is settled.
    #[tactic(auto, unfolding(crate::specs::Checkpoints::on_settled))]
    fn on_settled(&mut self, alloc: Global, effects: &mut Effects, end: End) -> Mem<()>
        ensures state { OnOk result (self.new ≡ (on_settled self.old end).state) }
        ensures effects { OnOk result (effects.new ≡ effects.old ++ (on_settled self.old end).outs) }
    {
        let seg = name_of(self.lasting.log(), end);
        effects.act(Act::Filed { seg })?;
        self.writer_takes(alloc, effects, In::Settled { end })
    }

    // The next slot that is managed is begun; where there is none the item is answered.
    #[tactic(auto, unfolding(crate::specs::Checkpoints::next_slot))]
    fn next_slot(&mut self, alloc: Global, effects: &mut Effects) -> Mem<()>
        ensures state { OnOk result (self.new ≡ (next_slot self.old).state) }
        ensures effects { OnOk result (effects.new ≡ effects.old ++ (next_slot self.old).outs) }
    {
        let Some(job) = self.checkpoint.take() else {
            return Ok(());
        };
        let Checkpointing { next, count, done } = job;
        match self.slots.next_active(next) {
            Some(slot) => {
                let next = slot.saturating_add(1);
                let job = Checkpointing { next, count, done };
                drop(mem::replace(&mut self.checkpoint, Some(job)));
                self.begin_slot(alloc, effects, slot)
            }
            None => {
                drop(done);
                self.lasting.answer(effects, Answer::Count(count))
            }
        }
    }

    // The checkpoint of a slot is begun, by its rows and its horizon of this moment.
    #[tactic(auto, unfolding(crate::specs::Checkpoints::begin_slot))]
    fn begin_slot(&mut self, alloc: Global, effects: &mut Effects, slot: u8) -> Mem<()>
        ensures state { OnOk result (self.new ≡ (begin_slot self.old slot).state) }
        ensures effects { OnOk result (effects.new ≡ effects.old ++ (begin_slot self.old slot).outs) }
    {
        match self.slots.begin(alloc, slot)? {
            Some(input) => self.writer_takes(alloc, effects, input),
            None => Ok(()),
        }
    }

    // The writer takes an input, and what it says is done.
    #[tactic(auto, unfolding(crate::specs::Checkpoints::writer_takes))]
    fn writer_takes(&mut self, alloc: Global, effects: &mut Effects, input: In) -> Mem<()>
        ensures state { OnOk result (self.new ≡ (writer_takes self.old input).state) }
        ensures effects { OnOk result (effects.new ≡ effects.old ++ (writer_takes self.old input).outs) }
    {
        let outs = self.writer.take(alloc, input)?;
        self.writer_says_each(alloc, effects, outs)
    }

    #[tactic(auto, unfolding(crate::specs::Checkpoints::writer_says_each))]
    fn writer_says_each(&mut self, alloc: Global, effects: &mut Effects, outs: List<Out>) -> Mem<()>
        ensures state { OnOk result (self.new ≡ (writer_says_each self.old outs).state) }
        ensures effects { OnOk result (effects.new ≡ effects.old ++ (writer_says_each self.old outs).outs) }
    {
        for out in outs.into_vec() {
            self.writer_says(alloc, effects, out)?;
        }
        Ok(())
    }

    #[tactic(auto, unfolding(crate::specs::Checkpoints::writer_says))]
    fn writer_says(&mut self, alloc: Global, effects: &mut Effects, out: Out) -> Mem<()>
        ensures state { OnOk result (self.new ≡ (writer_says self.old out).state) }
        ensures effects { OnOk result (effects.new ≡ effects.old ++ (writer_says self.old out).outs) }
    {
        match out {
            Out::Parts { items } => self.give_parts(alloc, effects, items),
            Out::Done {
                slot,
                epoch,
                parts,
                horizon,
            } => {
                let ask = self.lasting.questions.draw();
                let done = CkptDone {
                    slot,
                    epoch,
                    ask,
                    parts,
                    horizon,
                };
                self.register(alloc, effects, done)
            }
            Out::Kept | Out::Stale { .. } => Ok(()),
        }
    }

    // The items go to the log. Nothing is in flight, so that nothing is settled by it.
    #[tactic(auto, unfolding(crate::specs::Checkpoints::give_parts))]
    fn give_parts(&mut self, alloc: Global, effects: &mut Effects, items: List<Item>) -> Mem<()>
        ensures state { OnOk result (self.new ≡ (give_parts self.old items).state) }
        ensures effects { OnOk result (effects.new ≡ effects.old ++ (give_parts self.old items).outs) }
    {
        let outs = self.log.take(alloc, client_log::In::Parts(items))?;
        store_each(effects, outs)
    }

    // The registry is told of a slot's checkpoint.
    #[tactic(auto, unfolding(crate::specs::Checkpoints::register))]
    fn register(&mut self, alloc: Global, effects: &mut Effects, done: CkptDone) -> Mem<()>
        ensures state { OnOk result (self.new ≡ (register self.old done).state) }
        ensures effects { OnOk result (effects.new ≡ effects.old ++ (register self.old done).outs) }
    {
        match self.tell_done(alloc, effects, &done) {
            Ok(()) => {
                await_answer(&mut self.checkpoint, done);
                Ok(())
            }
            Err(error) => {
                drop(done);
                Err(error)
            }
        }
    }

    #[tactic(auto, unfolding(crate::specs::Checkpoints::register))]
    fn tell_done(&mut self, alloc: Global, effects: &mut Effects, done: &CkptDone) -> Mem<()>
        ensures state { OnOk result
            (self.new ≡ record self.old { slots = slot_table_name self.old.slots done.now.slot done.now.epoch done.now.parts; dones = risen self.old.dones }) }
        ensures effects { OnOk result (effects.new ≡ effects.old ++ (register self.old done.now).outs) }
    {
        self.slots
            .name(done.slot, done.epoch, done.parts.copy(alloc)?);
        send_done(alloc, effects, done)?;
        self.dones = self.dones.saturating_add(1);
        Ok(())
    }

    /// Time passes: what awaits the registry's answer is said again.
    #[tactic(auto, unfolding(crate::specs::Checkpoints::serving_tell_again))]
    pub fn tell_again(&mut self, alloc: Global, effects: &mut Effects) -> Mem<()>
        ensures state { OnOk result (self.new ≡ (serving_tell_again self.old).state) }
        ensures effects { OnOk result (effects.new ≡ effects.old ++ (serving_tell_again self.old).outs) }
    {
        tell_again(alloc, effects, &self.checkpoint)
    }
}

// The registry is told of a checkpoint.
fn send_done(alloc: Global, effects: &mut Effects, done: &CkptDone) -> Mem<()>
    ensures { OnOk result (effects.new ≡ effects.old ++ send_done (Some done.now)) }
{
    let done = Shared::of(alloc, done.copy(alloc)?)?;
    effects.send(NodeId::Registry, Body::CkptDone(done))
}

fn tell_again(alloc: Global, effects: &mut Effects, checkpoint: &Option<Checkpointing>) -> Mem<()>
    ensures { OnOk result (effects.new ≡ effects.old ++ checkpointing_tell_again checkpoint.now) }
{
    match checkpoint {
        Some(
            Checkpointing {
                done: Some(done),
                ..
            },
        ) => send_done(alloc, effects, done),
        _ => Ok(()),
    }
}

// Whether a checkpoint awaits the registry's answer to this question.
fn awaits(checkpoint: &Option<Checkpointing>, ask: u32) -> bool
    ensures { result ≡ awaits checkpoint.now ask }
{
    match checkpoint {
        Some(
            Checkpointing {
                done: Some(done),
                ..
            },
        ) => done.ask == ask,
        _ => false,
    }
}

// The registry's answer to a slot's checkpoint is awaited.
fn await_answer(checkpoint: &mut Option<Checkpointing>, done: CkptDone)
    ensures { checkpoint.new ≡ await_answer done checkpoint.old }
{
    match checkpoint {
        Some(job) => drop(mem::replace(&mut job.done, Some(done))),
        None => drop(done),
    }
}

fn count_all(checkpoint: &mut Option<Checkpointing>, outs: &[Out])
    ensures { checkpoint.new ≡ fold checkpointing_count checkpoint.old outs.now }
{
    for out in outs {
        count(checkpoint, out);
    }
}

// What the registry's answer says of a slot.
#[tactic(auto, unfolding(crate::specs::Checkpoints::checkpointing_count))]
fn count(checkpoint: &mut Option<Checkpointing>, out: &Out)
    ensures { checkpoint.new ≡ checkpointing_count checkpoint.old out.now }
{
    match out {
        Out::Kept => count_kept(checkpoint),
        Out::Stale { .. } => end_waiting(checkpoint),
        Out::Parts { .. } | Out::Done { .. } => {}
    }
}

fn count_kept(checkpoint: &mut Option<Checkpointing>)
    ensures { checkpoint.new ≡ count_kept checkpoint.old }
{
    if let Some(job) = checkpoint {
        job.count = job.count.saturating_add(1);
        drop(job.done.take());
    }
}

fn end_waiting(checkpoint: &mut Option<Checkpointing>)
    ensures { checkpoint.new ≡ end_waiting checkpoint.old }
{
    if let Some(job) = checkpoint {
        drop(job.done.take());
    }
}

// The fragments of a segment are sent.
fn store_each(effects: &mut Effects, outs: List<client_log::Out>) -> Mem<()>
    ensures { OnOk result (effects.new ≡ effects.old ++ flat_map checkpointing_store outs) }
{
    for out in outs.into_vec() {
        store(effects, out)?;
    }
    Ok(())
}

#[tactic(auto, unfolding(crate::specs::Checkpoints::checkpointing_store))]
fn store(effects: &mut Effects, out: client_log::Out) -> Mem<()>
    ensures { OnOk result (effects.new ≡ effects.old ++ checkpointing_store out) }
{
    match out {
        client_log::Out::Send { fragment, member } => send_store(effects, fragment, member),
        client_log::Out::Settled { .. } => Ok(()),
    }
}
