//! The tokens of a client: their state, their start, and what they take.
ghost use Rattle.std.specs.Prelude.{◌≡◌, length, OnOk, IfOk};
ghost use Rattle.xfs_base.specs.Limits.{slot_count};
ghost use Rattle.token_client.specs.State.{tokens_start};
ghost use Rattle.token_client.specs.Transition.{transition};

use crate::input::In;
use crate::output::Out;
use crate::table::Table;
use std::alloc::Global;
use std::marker::Model;
use xfs_base::limits::BY_SLOT;
use xfs_base::{Crosses, List, Mem};

/// The tokens of a client. Contracts see them as a record of their parts (`specs/State.antt`).
pub struct Tokens {
    pub(crate) inc: u32,
    pub(crate) epochs: [u32; BY_SLOT],
    pub(crate) req: u32,
    pub(crate) blocks: Table,
}

impl Drop for Tokens {
    fn drop(self) {
        let Tokens {
            inc: _,
            epochs: _,
            req: _,
            blocks,
        } = self;
        drop(blocks);
    }
}

impl Model for Tokens {
    ghost use Rattle.token_client.specs.State.{TokensState};

    ghost Value = { TokensState };

    ghost view = { λ a. record { inc = a.inc; epochs = a.epochs; req = a.req; blocks = a.blocks } };
}

impl Crosses for Tokens {}

impl Tokens {
    /// No block is known, and nothing was asked. The epochs are those that the slots are promised to.
    pub fn start(alloc: Global, inc: u32, epochs: List<u32>) -> Mem<Tokens>
        requires { length epochs ≡ slot_count }
        ensures { IfOk result (λ tokens. tokens ≡ tokens_start inc epochs) }
    {
        let mut promised = [0_u32; BY_SLOT];
        promised.copy_from_slice(epochs.as_slice());
        Ok(Tokens {
            inc,
            epochs: promised,
            req: 0,
            blocks: Table::new(alloc),
        })
    }

    /// What the tokens do on an input, as `specs/Transition.antt` says for each of them. An input whose
    /// tests fail changes nothing and gives nothing; so does one that would raise a counter past the end
    /// of its type.
    pub fn take(&mut self, alloc: Global, input: In) -> Mem<List<Out>>
        ensures state { OnOk result (self.new ≡ (transition self.old input).state) }
        ensures outs { IfOk result (λ outs. outs ≡ (transition self.old input).outs) }
    {
        let mut outs = List::new(alloc);
        match input {
            In::Need { block, mode } => self.on_need(&mut outs, block, mode)?,
            In::Granted {
                block,
                stamp,
                inc,
                req,
                mode,
                entry,
            } => self.on_granted(&mut outs, block, stamp, inc, req, mode, entry)?,
            In::Supplied {
                block,
                stamp,
                inc,
                req,
                ver,
                value,
            } => self.on_supplied(&mut outs, block, stamp, inc, req, ver, value)?,
            In::Forwarded { block, stamp, ver } => {
                self.on_forwarded(alloc, &mut outs, block, stamp, ver)?
            }
            In::Recalled { block, stamp, keep } => self.on_recalled(&mut outs, block, stamp, keep)?,
            In::Wrote { block, value } => self.on_wrote(block, value)?,
            In::Settled { block, ver } => self.on_settled(block, ver)?,
            In::Fetched { block, value } => self.on_fetched(&mut outs, block, value)?,
            In::Evict { block } => self.on_evict(block)?,
            In::Reask { block } => self.on_reask(&mut outs, block)?,
            In::Quit { block } => self.on_quit(block)?,
            In::Promise { slot, epoch } => self.on_promise(alloc, &mut outs, slot, epoch)?,
            In::Tick => self.on_tick(alloc, &mut outs)?,
        }
        Ok(outs)
    }
}
