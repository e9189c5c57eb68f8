//! What an opening keeps wherever it stands.
ghost use Rattle.std.specs.Prelude.{◌≡◌, ◌++◌, ◌∷◌, [], ◌<◌, IfOk, OnOk, Some, None, max};
ghost use Rattle.xfs_base.specs.Limits.{u32_end};
ghost use Rattle.log_scan.specs.declared.output.Out.TheVariants.{Hello};
ghost use Rattle.log_scan.specs.ScanState.{opening_begin};
ghost use Rattle.log_scan.specs.Transition.{can_ask, opening_ask_anew, opening_rise, server_count, awaits, awaited};

use crate::Out;
use crate::listing::{Listing, has_list};
use group_map::GroupMap;
use std::alloc::Global;
use xfs_base::{List, LogId, Mem};

/// What an opening keeps wherever it stands.
pub struct Opening {
    /// The log.
    pub log: LogId,
    /// The incarnation in which its owner opens it.
    pub inc: u32,
    /// The number of the last question.
    pub ask: u32,
    /// The horizon: nothing of the log with a lower number is needed.
    pub low: u32,
    /// The stripe groups, once they are known.
    pub groups: Option<GroupMap>,
}

impl Drop for Opening {
    fn drop(self) {
        let Opening {
            log: _,
            inc: _,
            ask: _,
            low: _,
            groups,
        } = self;
        drop(groups);
    }
}

impl Opening {
    /// Before anything is known, with a question of number 1 to be asked.
    pub(crate) fn begin(log: LogId, inc: u32) -> Opening
        ensures { result ≡ opening_begin log inc }
    {
        Opening {
            log,
            inc,
            ask: 1,
            low: 1,
            groups: None,
        }
    }

    /// Whether a question can have a number after the last one.
    pub(crate) fn can_ask(&self) -> bool
        ensures { result ≡ can_ask self.now }
    {
        self.ask < u32::MAX
    }

    /// Asks the registry by a further question.
    pub(crate) fn ask_anew(&mut self, outs: &mut List<Out>) -> Mem<()>
        requires { self.old.ask < u32_end }
        ensures opening { OnOk result (self.new ≡ opening_ask_anew self.old) }
        ensures outs { OnOk result (outs.new ≡ outs.old ++ Hello self.new.ask ∷ []) }
    {
        self.ask += 1;
        outs.push(Out::Hello { ask: self.ask })?;
        Ok(())
    }

    /// Takes a horizon, where it is greater.
    pub(crate) fn rise(&mut self, least: u32)
        ensures { self.new ≡ opening_rise self.old least }
    {
        self.low = self.low.max(least);
    }

    /// Whether this is a server whose list is not in.
    pub(crate) fn awaits(&self, lists: &[Listing], server: u8) -> bool
        ensures { result ≡ awaits self.now.groups lists.now server }
    {
        1 <= server && server <= server_count(&self.groups) && !has_list(server, lists)
    }

    /// The servers whose lists are not in, in order.
    pub(crate) fn awaited(&self, alloc: Global, lists: &[Listing]) -> Mem<List<u8>>
        ensures { IfOk result (λ servers. servers ≡ awaited self.now.groups lists.now) }
    {
        let mut servers = List::new(alloc);
        for before in 0..server_count(&self.groups) {
            if self.awaits(lists, before + 1) {
                servers.push(before + 1)?;
            }
        }
        Ok(servers)
    }
}

fn server_count(groups: &Option<GroupMap>) -> u8
    ensures { result ≡ server_count groups.now }
{
    match groups {
        None => 0,
        Some(groups) => groups.servers(),
    }
}
