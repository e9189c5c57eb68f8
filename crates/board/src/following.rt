//! What a board does for the leaders of others.
ghost use Rattle.std.specs.Prelude.{◌≡◌, ◌++◌, ◌≤◌, length, OnOk};
ghost use Rattle.xfs_base.specs.Limits.{u32_end};
ghost use Rattle.board.specs.Transition.{answer, board_raise, on_prepare, install, on_install, append, on_append};

use crate::board::Board;
use crate::command::Command;
use crate::output::Out;
use crate::packet::BoardBody;
use std::alloc::Global;
use xfs_base::{List, Mem, copy_each};

impl Board {
    // It says how much it has accepted.
    fn answer(&self, outs: &mut List<Out>, to: u8) -> Mem<()>
        requires { length self.now.list ≤ u32_end }
        ensures { OnOk result (outs.new ≡ outs.old ++ (answer self.now to).outs) }
    {
        let count = self.list.len() as u32;
        self.send(outs, to, BoardBody::Accepted(self.ballot, count))
    }

    // Its promise is of this ballot; where that is a rise it leads no longer.
    fn raise(&mut self, ballot: u32)
        ensures { self.new ≡ board_raise self.old ballot }
    {
        self.leads = self.leads && self.promised == ballot;
        self.promised = ballot;
    }

    #[tactic(auto, unfolding(crate::specs::Transition::on_prepare))]
    pub(crate) fn on_prepare(
        &mut self,
        alloc: Global,
        outs: &mut List<Out>,
        from: u8,
        ballot: u32,
    ) -> Mem<()>
        ensures state { OnOk result (self.new ≡ (on_prepare self.old from ballot).state) }
        ensures outs { OnOk result (outs.new ≡ outs.old ++ (on_prepare self.old from ballot).outs) }
    {
        if ballot < self.promised {
            return Ok(());
        }
        let list = copy_each(alloc, &self.list)?;
        self.send(outs, from, BoardBody::Promised(ballot, self.ballot, list))?;
        self.raise(ballot);
        Ok(())
    }

    #[tactic(auto, unfolding(crate::specs::Transition::install))]
    fn install(
        &mut self,
        outs: &mut List<Out>,
        from: u8,
        ballot: u32,
        list: List<Command>,
    ) -> Mem<()>
        requires own { length self.old.list ≤ u32_end }
        requires theirs { length list ≤ u32_end }
        ensures state { OnOk result (self.new ≡ (install self.old from ballot list).state) }
        ensures outs { OnOk result (outs.new ≡ outs.old ++ (install self.old from ballot list).outs) }
    {
        if self.ballot < ballot {
            self.ballot = ballot;
            self.list = list;
            return self.answer(outs, from);
        }
        if self.ballot != ballot {
            return Ok(());
        }
        self.answer(outs, from)
    }

    #[tactic(auto, unfolding(crate::specs::Transition::on_install))]
    pub(crate) fn on_install(
        &mut self,
        outs: &mut List<Out>,
        from: u8,
        ballot: u32,
        list: List<Command>,
    ) -> Mem<()>
        requires own { length self.old.list ≤ u32_end }
        requires theirs { length list ≤ u32_end }
        ensures state { OnOk result (self.new ≡ (on_install self.old from ballot list).state) }
        ensures outs { OnOk result (outs.new ≡ outs.old ++ (on_install self.old from ballot list).outs) }
    {
        if ballot < self.promised {
            return Ok(());
        }
        self.raise(ballot);
        self.install(outs, from, ballot, list)
    }

    #[tactic(auto, unfolding(crate::specs::Transition::append))]
    fn append(&mut self, outs: &mut List<Out>, from: u8, count: u32, command: Command) -> Mem<()>
        requires { length self.old.list ≤ u32_end }
        ensures state { OnOk result (self.new ≡ (append self.old from count command).state) }
        ensures outs { OnOk result (outs.new ≡ outs.old ++ (append self.old from count command).outs) }
    {
        let count = count as usize;
        if self.list.len() + 1 == count {
            self.list.push(command)?;
            return self.answer(outs, from);
        }
        if self.list.len() < count {
            return Ok(());
        }
        self.answer(outs, from)
    }

    #[tactic(auto, unfolding(crate::specs::Transition::on_append))]
    pub(crate) fn on_append(
        &mut self,
        outs: &mut List<Out>,
        from: u8,
        ballot: u32,
        count: u32,
        command: Command,
    ) -> Mem<()>
        requires { length self.old.list ≤ u32_end }
        ensures state { OnOk result (self.new ≡ (on_append self.old from ballot count command).state) }
        ensures outs { OnOk result (outs.new ≡ outs.old ++ (on_append self.old from ballot count command).outs) }
    {
        if self.promised != ballot || self.ballot != ballot {
            return Ok(());
        }
        self.append(outs, from, count, command)
    }
}
