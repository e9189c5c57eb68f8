//! The manager.
ghost use Rattle.std.specs.Prelude.{◌≡◌, ◌++◌, IfOk, IfSome, OnOk};
ghost use Rattle.node_base.specs.Setups.{IsSetup};
ghost use Rattle.manager_node.specs.Phases.{is_serving, on_begin, waiting_of};
ghost use Rattle.node_base.specs.Maps.{forgotten};
ghost use Rattle.manager_node.specs.Events.{manager_start, takes_welcome, on_waiting, manager_deliver, on_time, happens, manager_step};
ghost use Rattle.manager_serving.specs.Serving as servings;

use crate::beginning::{begin_down, begin_serving, begin_waiting};
use crate::phase::Phase;
use group_map::GroupMap;
use log_owner::sending::send_hello;
use manager_serving::Serving;
use manager_slots::Lasting;
use node_base::{Effects, Items, Maps, Peers, Questions, groups_of, is_well_formed};
use std::alloc::Global;
use version_model::{Act, Work};
use wire_msg::{Body, Do, Packet, Welcome};
use xfs_base::{List, Mem, NodeId, Setup};

/// A manager: of each of its slots it has the tokens and the index.
pub struct Manager {
    pub(crate) peers: Peers,
    pub(crate) phase: Phase,
}

// It is let go of here once, and not part by part wherever a node of any kind is held; its phase by a call, so
// that each part of it is dropped in one proof.
impl Drop for Manager {
    fn drop(self) {
        let Manager { peers: _, phase } = self;
        drop(phase);
    }
}

impl Manager {
    /// Whether it serves: it neither is down nor awaits its Welcome.
    pub fn is_serving(&self) -> bool
        ensures { result ≡ is_serving self.now.phase }
    {
        self.phase.is_serving()
    }

    /// A manager at the start of a run: it manages its slots, in which nothing has happened.
    pub fn start(alloc: Global, number: u8, setup: &Setup, items: List<Work>) -> Mem<Manager>
        requires { IsSetup setup.now }
        ensures { IfOk result (λ manager. manager ≡ manager_start number setup.now items) }
    {
        let groups = groups_of(alloc, setup)?;
        let lasting = Lasting {
            number,
            inc: 1,
            questions: Questions::new(),
            items: Items::start(items),
        };
        Ok(Manager {
            peers: Peers::of(setup),
            phase: Phase::Serving(Serving::start(alloc, lasting, setup.managers, groups)?),
        })
    }

    // An event, with what the world sees of it.
    pub(crate) fn turn(&mut self, alloc: Global, what: &Do) -> Mem<(List<Packet>, List<Act>)>
        ensures state { OnOk result (self.new ≡ (manager_step self.old what.now).node) }
        ensures packets { IfOk result (λ parts. parts.0 ≡ (manager_step self.old what.now).packets) }
        ensures acts { IfOk result (λ parts. parts.1 ≡ (manager_step self.old what.now).acts) }
    {
        let node = NodeId::Manager(self.phase.lasting().number);
        let mut effects = Effects::new(alloc);
        self.happens(alloc, &mut effects, what)?;
        effects.into_parts(alloc, node)
    }

    // Where a counter isn't at least 65,536 below its end, the event changes nothing.
    #[tactic(auto, unfolding(crate::specs::Events::happens))]
    fn happens(&mut self, alloc: Global, effects: &mut Effects, what: &Do) -> Mem<()>
        ensures state { OnOk result (self.new ≡ record self.old { phase = (happens self.old what.now).state }) }
        ensures effects { OnOk result (effects.new ≡ effects.old ++ (happens self.old what.now).outs) }
    {
        if !self.phase.has_room() {
            return Ok(());
        }
        match what {
            Do::Begin => begin_next(alloc, effects, &mut self.phase),
            Do::Deliver(packet) => self.deliver(alloc, effects, packet.as_packet()),
            Do::Tick => on_time(alloc, effects, &mut self.phase),
        }
    }

    // A packet comes. A manager that is down takes none, and one that awaits its Welcome takes that alone.
    #[tactic(auto, unfolding(crate::specs::Events::manager_deliver))]
    fn deliver(&mut self, alloc: Global, effects: &mut Effects, packet: &Packet) -> Mem<()>
        ensures state { OnOk result (self.new ≡ record self.old { phase = (manager_deliver self.old.peers self.old.phase packet.now).state }) }
        ensures effects { OnOk result (effects.new ≡ effects.old ++ (manager_deliver self.old.peers self.old.phase packet.now).outs) }
    {
        if !is_well_formed(self.peers, packet) {
            return Ok(());
        }
        let peers = self.peers;
        let phase = &mut self.phase;
        match phase {
            Phase::Down(_) => Ok(()),
            Phase::Waiting(_, _) => wait_here(alloc, effects, peers, phase, &packet.body),
            Phase::Serving(serving) => serving.hear(alloc, effects, peers.clients, packet),
        }
    }
}

// The next item begins. It is a function of its own, here and below, so that only such events pay for the room of
// a phase that is handed on.
fn begin_next(alloc: Global, effects: &mut Effects, phase: &mut Phase) -> Mem<()>
    ensures state { OnOk result (phase.new ≡ (on_begin phase.old).state) }
    ensures effects { OnOk result (effects.new ≡ effects.old ++ (on_begin phase.old).outs) }
{
    let begun = on_begin(alloc, effects, phase.take(alloc))?;
    phase.turn_to(begun);
    Ok(())
}

// The next item begins.
fn on_begin(alloc: Global, effects: &mut Effects, phase: Phase) -> Mem<Phase>
    ensures state { IfOk result (λ after. after ≡ (on_begin phase).state) }
    ensures effects { OnOk result (effects.new ≡ effects.old ++ (on_begin phase).outs) }
{
    match phase {
        Phase::Down(lasting) => begin_down(effects, lasting),
        Phase::Waiting(lasting, hello) => begin_waiting(effects, lasting, hello),
        Phase::Serving(serving) => begin_serving(alloc, effects, serving),
    }
}

// A body comes to a manager that awaits its Welcome.
fn wait_here(
    alloc: Global,
    effects: &mut Effects,
    peers: Peers,
    phase: &mut Phase,
    body: &Body,
) -> Mem<()>
    ensures state { OnOk result (IfSome (waiting_of phase.old) (λ w. phase.new ≡ (on_waiting peers w.0 w.1 body.now).state)) }
    ensures effects { OnOk result
        (IfSome (waiting_of phase.old) (λ w. effects.new ≡ effects.old ++ (on_waiting peers w.0 w.1 body.now).outs)) }
{
    match phase.take_waiting(alloc) {
        Some((lasting, hello)) => {
            let after = on_waiting(alloc, effects, peers, lasting, hello, body)?;
            phase.turn_to(after);
            Ok(())
        }
        None => Ok(()),
    }
}

// What it becomes: where this is the Welcome that it awaits it serves, and takes over the slots that are given to it.
#[tactic(auto, unfolding(crate::specs::Events::on_welcome))]
fn on_waiting(
    alloc: Global,
    effects: &mut Effects,
    peers: Peers,
    lasting: Lasting,
    hello: u32,
    body: &Body,
) -> Mem<Phase>
    ensures state { IfOk result (λ after. after ≡ (on_waiting peers lasting hello body.now).state) }
    ensures effects { OnOk result (effects.new ≡ effects.old ++ (on_waiting peers lasting hello body.now).outs) }
{
    match body {
        Body::Welcome(welcome) if takes_welcome(peers, &lasting, hello, welcome) => {
            let mut serving = again(alloc, peers, lasting, &welcome.news.groups)?;
            match serving.on_news(alloc, effects, peers.clients, &welcome.news) {
                Ok(()) => Ok(Phase::Serving(serving)),
                Err(error) => {
                    drop(serving);
                    Err(error)
                }
            }
        }
        _ => Ok(Phase::Waiting(lasting, hello)),
    }
}

// Whether these are the maps that a manager awaits that has started again.
fn takes_welcome(peers: Peers, lasting: &Lasting, hello: u32, welcome: &Welcome) -> bool
    ensures { result ≡ takes_welcome peers lasting.now hello welcome.now }
{
    welcome.inc == lasting.inc
        && welcome.ask == hello
        && Maps::forgotten(peers.servers).fits(&welcome.news)
}

// A manager that has started again, and is about to take these groups.
fn again(alloc: Global, peers: Peers, lasting: Lasting, groups: &GroupMap) -> Mem<Serving>
    ensures { IfOk result (λ serving. serving ≡ servings.again lasting (forgotten peers.servers) groups.now) }
{
    match groups.copy(alloc) {
        Ok(groups) => Serving::again(alloc, lasting, Maps::forgotten(peers.servers), groups),
        Err(error) => {
            drop(lasting);
            Err(error)
        }
    }
}

// Time passes: a manager that awaits its Welcome asks for the maps again.
#[tactic(auto, unfolding(crate::specs::Events::on_time))]
fn on_time(alloc: Global, effects: &mut Effects, phase: &mut Phase) -> Mem<()>
    ensures state { OnOk result (phase.new ≡ (on_time phase.old).state) }
    ensures effects { OnOk result (effects.new ≡ effects.old ++ (on_time phase.old).outs) }
{
    match phase {
        Phase::Down(_) => Ok(()),
        Phase::Waiting(lasting, hello) => send_hello(effects, lasting.inc, *hello),
        Phase::Serving(serving) => serving.on_tick(alloc, effects),
    }
}
