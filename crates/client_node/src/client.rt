//! The client as a node: what each event makes of it.
ghost use Rattle.std.specs.Prelude.{◌≡◌, ◌++◌, ℕ, IfOk, IfSome, OnOk};
ghost use Rattle.client_node.specs.declared.phase.Phase.TheVariants.{Opening as Opens};
ghost use Rattle.client_node.specs.Phases.{client_step, on_begin, on_deliver, client_deliver, client_tick, client_has_room, is_serving, opening_of, takes};
ghost use Rattle.client_node.specs.Starting.{client_start};
ghost use Rattle.node_base.specs.Setups.{IsSetup};
ghost use Rattle.segment_format.specs.Format.{IsLog};

use crate::Phase;
use crate::beginning::{begin_down, begin_opening, begin_serving};
use crate::returning::phase_after;
use crate::room::phase_has_room;
use crate::serving::serves_first;
use client_running::run;
use client_serving::{Lasting, Serving};
use log_owner::Opening;
use node_base::{Effects, Peers, groups_of, has_room, is_well_formed};
use std::alloc::Global;
use version_model::{Act, Work};
use wire_msg::{Actor, Do, Packet};
use xfs_base::{Crosses, List, Mem, NodeId, Setup};

/// A client.
pub struct Client {
    peers: Peers,
    cache: u16,
    phase: Phase,
}

// It is let go of here once, and not part by part wherever a node of any kind is held; its phase by a call, so
// that each part of it is dropped in one proof.
impl Drop for Client {
    fn drop(self) {
        let Client {
            peers: _,
            cache: _,
            phase,
        } = self;
        drop(phase);
    }
}

impl Actor for Client {
    ghost use Rattle.client_node.specs.Phases.{client_step};
    ghost use Rattle.client_node.specs.Clocks.{client_sends_clock_0};

    ghost transition = { client_step };

    fn step(&mut self, alloc: Global, what: &Do) -> Mem<(List<Packet>, List<Act>)> {
        self.turn(alloc, what)
    }

    ghost no_clock = { client_sends_clock_0 };
}

impl Crosses for Client {}

impl Client {
    /// The client of this number at the start, with its items.
    pub fn start(alloc: Global, number: u8, setup: &Setup, items: List<Work>) -> Mem<Client>
        requires log { IsLog number }
        requires setup { IsSetup setup.now }
        ensures { IfOk result (λ client. client ≡ client_start number setup.now items) }
    {
        let groups = groups_of(alloc, setup)?;
        let lasting = Lasting::start(number, items);
        let serving = serves_first(alloc, lasting, setup.managers, setup.cache, groups)?;
        Ok(Client {
            peers: Peers::of(setup),
            cache: setup.cache,
            phase: Phase::Serving(serving),
        })
    }

    /// Whether it serves: it neither is down nor opens its log.
    pub fn is_serving(&self) -> bool
        ensures { result ≡ is_serving self.now.phase }
    {
        self.phase.is_serving()
    }

    // Whether each counter is at least 65,536 below its end.
    fn has_room(&self) -> bool
        ensures { result ≡ client_has_room self.now }
    {
        let lasting = self.phase.lasting();
        has_room(lasting.inc) && (has_room(lasting.questions.last) && phase_has_room(&self.phase))
    }

    // An event, with what the world sees of it.
    fn turn(&mut self, alloc: Global, what: &Do) -> Mem<(List<Packet>, List<Act>)>
        ensures state { OnOk result (self.new ≡ (client_step self.old what.now).node) }
        ensures packets { IfOk result (λ parts. parts.0 ≡ (client_step self.old what.now).packets) }
        ensures acts { IfOk result (λ parts. parts.1 ≡ (client_step self.old what.now).acts) }
    {
        let node = NodeId::Client(self.phase.lasting().number);
        let mut effects = Effects::new(alloc);
        self.takes(alloc, &mut effects, what)?;
        effects.into_parts(alloc, node)
    }

    // An event is taken where each counter is at least 65,536 below its end.
    fn takes(&mut self, alloc: Global, effects: &mut Effects, what: &Do) -> Mem<()>
        ensures client { OnOk result (self.new ≡ record self.old { phase = (takes self.old what.now).state }) }
        ensures effects { OnOk result (effects.new ≡ effects.old ++ (takes self.old what.now).outs) }
    {
        if !self.has_room() {
            return Ok(());
        }
        match what {
            Do::Begin => begin_next(alloc, effects, self.peers, &mut self.phase),
            Do::Deliver(packet) => self.deliver(alloc, effects, packet.as_packet()),
            Do::Tick => tick(alloc, effects, self.cache, &mut self.phase),
        }
    }

    // A packet comes. One that isn't well formed is dropped, and a client that is down takes none. At one that
    // serves the open call is looked at then.
    #[tactic(auto, unfolding(crate::specs::Phases::on_deliver))]
    fn deliver(&mut self, alloc: Global, effects: &mut Effects, packet: &Packet) -> Mem<()>
        ensures phase { OnOk result
            (self.new ≡ record self.old { phase = (client_deliver self.old.peers self.old.cache self.old.phase packet.now).state }) }
        ensures effects { OnOk result (effects.new ≡ effects.old ++ (client_deliver self.old.peers self.old.cache self.old.phase packet.now).outs) }
    {
        if !is_well_formed(self.peers, packet) {
            return Ok(());
        }
        match &mut self.phase {
            Phase::Down(_) => Ok(()),
            Phase::Opening(_, _) => hear_here(alloc, effects, self.cache, &mut self.phase, packet),
            Phase::Serving(serving) => {
                serving.take(alloc, effects, packet)?;
                run(alloc, effects, serving)
            }
        }
    }
}

// The next item begins. It is a function of its own, here and below, so that only such events pay for the room of
// a phase that is handed on.
fn begin_next(alloc: Global, effects: &mut Effects, peers: Peers, phase: &mut Phase) -> Mem<()>
    ensures phase { OnOk result (phase.new ≡ (on_begin peers.servers phase.old).state) }
    ensures effects { OnOk result (effects.new ≡ effects.old ++ (on_begin peers.servers phase.old).outs) }
{
    let begun = begin(alloc, effects, peers, phase.take(alloc))?;
    phase.turn_to(begun);
    Ok(())
}

// The next item begins. What isn't held on is dropped by a call, here and below, so that each part of it is
// dropped in one proof.
fn begin(alloc: Global, effects: &mut Effects, peers: Peers, phase: Phase) -> Mem<Phase>
    ensures phase { IfOk result (λ after. after ≡ (on_begin peers.servers phase).state) }
    ensures effects { OnOk result (effects.new ≡ effects.old ++ (on_begin peers.servers phase).outs) }
{
    match phase {
        Phase::Down(lasting) => {
            let mut lasting = lasting;
            match begin_down(alloc, effects, peers.servers, &mut lasting) {
                Ok(Some(opening)) => Ok(Phase::Opening(lasting, opening)),
                Ok(None) => Ok(Phase::Down(lasting)),
                Err(error) => {
                    drop(lasting);
                    Err(error)
                }
            }
        }
        Phase::Opening(lasting, opening) => begin_to_open(effects, lasting, opening),
        Phase::Serving(serving) => {
            let mut serving = serving;
            match begin_serving(alloc, effects, peers.servers, &mut serving) {
                Ok(true) => Ok(Phase::Down(serving.into_lasting())),
                Ok(false) => Ok(Phase::Serving(serving)),
                Err(error) => {
                    drop(serving);
                    Err(error)
                }
            }
        }
    }
}

// The next item begins at a client that opens its log.
fn begin_to_open(effects: &mut Effects, lasting: Lasting, opening: Opening) -> Mem<Phase>
    ensures phase { IfOk result (λ after. (servers : ℕ) → after ≡ (on_begin servers (Opens lasting opening)).state) }
    ensures effects { OnOk result ((servers : ℕ) → effects.new ≡ effects.old ++ (on_begin servers (Opens lasting opening)).outs) }
{
    let mut lasting = lasting;
    match begin_opening(effects, &mut lasting) {
        Ok(true) => {
            drop(opening);
            Ok(Phase::Down(lasting))
        }
        Ok(false) => Ok(Phase::Opening(lasting, opening)),
        Err(error) => {
            drop(lasting);
            drop(opening);
            Err(error)
        }
    }
}

// A packet comes to a client that opens its log.
#[tactic(auto, unfolding(crate::specs::Phases::on_deliver))]
fn hear_here(
    alloc: Global,
    effects: &mut Effects,
    cache: u16,
    phase: &mut Phase,
    packet: &Packet,
) -> Mem<()>
    ensures phase { OnOk result (IfSome (opening_of phase.old) (λ o. phase.new ≡ (on_deliver cache (Opens o.0 o.1) packet.now).state)) }
    ensures effects { OnOk result
        (IfSome (opening_of phase.old) (λ o. effects.new ≡ effects.old ++ (on_deliver cache (Opens o.0 o.1) packet.now).outs)) }
{
    let Some((lasting, opening)) = phase.take_opening(alloc) else {
        return Ok(());
    };
    let mut lasting = lasting;
    match opening.take(alloc, effects, &mut lasting.questions, packet) {
        Ok(progress) => {
            phase.turn_to(phase_after(alloc, effects, lasting, cache, progress)?);
            Ok(())
        }
        Err(error) => {
            drop(lasting);
            Err(error)
        }
    }
}

// Time passes. At a client that serves the open call is looked at then.
#[tactic(auto, unfolding(crate::specs::Phases::client_tick))]
fn tick(alloc: Global, effects: &mut Effects, cache: u16, phase: &mut Phase) -> Mem<()>
    ensures phase { OnOk result (phase.new ≡ (client_tick cache phase.old).state) }
    ensures effects { OnOk result (effects.new ≡ effects.old ++ (client_tick cache phase.old).outs) }
{
    match phase {
        Phase::Down(_) => Ok(()),
        Phase::Opening(_, _) => tick_here(alloc, effects, cache, phase),
        Phase::Serving(serving) => {
            serving.tick(alloc, effects)?;
            run(alloc, effects, serving)
        }
    }
}

// Time passes at a client that opens its log.
#[tactic(auto, unfolding(crate::specs::Phases::client_tick))]
fn tick_here(alloc: Global, effects: &mut Effects, cache: u16, phase: &mut Phase) -> Mem<()>
    ensures phase { OnOk result (IfSome (opening_of phase.old) (λ o. phase.new ≡ (client_tick cache (Opens o.0 o.1)).state)) }
    ensures effects { OnOk result
        (IfSome (opening_of phase.old) (λ o. effects.new ≡ effects.old ++ (client_tick cache (Opens o.0 o.1)).outs)) }
{
    let Some((lasting, opening)) = phase.take_opening(alloc) else {
        return Ok(());
    };
    let mut lasting = lasting;
    match opening.tick(alloc, effects, &mut lasting.questions) {
        Ok(progress) => {
            phase.turn_to(phase_after(alloc, effects, lasting, cache, progress)?);
            Ok(())
        }
        Err(error) => {
            drop(lasting);
            Err(error)
        }
    }
}
