//! The registry as a node.
ghost use Rattle.std.specs.Prelude.{◌≡◌, ◌++◌, ◌∷◌, [], IfOk, OnOk};
ghost use Rattle.std.specs.List.{flat_map};
ghost use Rattle.wire_msg.specs.declared.body.Body.TheVariants.{Welcome as Welcoming};
ghost use Rattle.node_base.specs.declared.effects.Effect.TheVariants.{Send};
ghost use Rattle.node_base.specs.Beginning.{work_at};
ghost use Rattle.node_base.specs.Setups.{IsSetup};
ghost use Rattle.registry_node.specs.Events.{registry_start, news_of, tell_all, say_one_moved, on_move, say_one_changed, welcome_of, welcomes, on_hello, say_one_kept, on_done, move_of, on_begin, on_packet, takes, registry_step};

use node_base::{Effects, Items, Peers, has_room, is_well_formed};
use registry::{Board, In, Out};
use std::alloc::Global;
use version_model::{Act, Answer, Work};
use wire_msg::{Actor, Body, CkptAck, CkptDone, Do, Hello, News, Packet, Shared, Welcome};
use xfs_base::{Crosses, List, Mem, NodeId, Setup};

/// The registry: it gives out the maps, and changes them when a manager starts again, a server loses its
/// disk, a slot is moved, or a checkpoint is written.
pub struct RegistryNode {
    peers: Peers,
    items: Items,
    board: Board,
}

// It is let go of here once, and not part by part wherever a node of any kind is held.
impl Drop for RegistryNode {
    fn drop(self) {
        let RegistryNode {
            peers: _,
            items: _,
            board: _,
        } = self;
    }
}

impl Actor for RegistryNode {
    ghost use Rattle.registry_node.specs.Events.{registry_step};
    ghost use Rattle.registry_node.specs.Clocks.{registry_sends_clock_0};

    ghost transition = { registry_step };

    fn step(&mut self, alloc: Global, what: &Do) -> Mem<(List<Packet>, List<Act>)> {
        self.turn(alloc, what)
    }

    ghost no_clock = { registry_sends_clock_0 };
}

impl RegistryNode {
    /// The registry at the start of a run.
    pub fn start(alloc: Global, _number: u8, setup: &Setup, items: List<Work>) -> Mem<RegistryNode>
        requires { IsSetup setup.now }
        ensures { IfOk result (λ node. node ≡ registry_start setup.now items) }
    {
        Ok(RegistryNode {
            peers: Peers::of(setup),
            items: Items::start(items),
            board: Board::start(alloc, setup)?,
        })
    }

    /// The maps.
    pub fn board(&self) -> &Board
        ensures { result.now ≡ self.now.board }
    {
        &self.board
    }

    // An event, with what the world sees of it.
    fn turn(&mut self, alloc: Global, what: &Do) -> Mem<(List<Packet>, List<Act>)>
        ensures state { OnOk result (self.new ≡ (registry_step self.old what.now).node) }
        ensures packets { IfOk result (λ parts. parts.0 ≡ (registry_step self.old what.now).packets) }
        ensures acts { IfOk result (λ parts. parts.1 ≡ (registry_step self.old what.now).acts) }
    {
        let mut effects = Effects::new(alloc);
        self.takes(alloc, &mut effects, what)?;
        effects.into_parts(alloc, NodeId::Registry)
    }

    // An event is taken where each counter is at least 65,536 below its end.
    fn takes(&mut self, alloc: Global, effects: &mut Effects, what: &Do) -> Mem<()>
        ensures state { OnOk result (self.new ≡ (takes self.old what.now).state) }
        ensures effects { OnOk result (effects.new ≡ effects.old ++ (takes self.old what.now).outs) }
    {
        if !has_room(self.board.version()) {
            return Ok(());
        }
        match what {
            Do::Begin => self.on_begin(alloc, effects),
            Do::Deliver(packet) => self.on_packet(alloc, effects, packet.as_packet()),
            Do::Tick => self.tell_all(alloc, effects),
        }
    }

    #[tactic(auto, unfolding(crate::specs::Events::on_begin))]
    fn on_begin(&mut self, alloc: Global, effects: &mut Effects) -> Mem<()>
        ensures state { OnOk result (self.new ≡ (on_begin self.old).state) }
        ensures effects { OnOk result (effects.new ≡ effects.old ++ (on_begin self.old).outs) }
    {
        let Some(number) = self.items.begin() else {
            return Ok(());
        };
        match move_at(&self.items, number) {
            Some((slot, manager)) => self.on_move(alloc, effects, number, slot, manager),
            None => Ok(()),
        }
    }

    #[tactic(auto, unfolding(crate::specs::Events::on_packet))]
    fn on_packet(&mut self, alloc: Global, effects: &mut Effects, packet: &Packet) -> Mem<()>
        ensures state { OnOk result (self.new ≡ (on_packet self.old packet.now).state) }
        ensures effects { OnOk result (effects.new ≡ effects.old ++ (on_packet self.old packet.now).outs) }
    {
        if !is_well_formed(self.peers, packet) {
            return Ok(());
        }
        match &packet.body {
            Body::Hello(hello) => self.on_hello(alloc, effects, packet.from, *hello),
            Body::CkptDone(done) => self.on_done(alloc, effects, packet.from, done),
            _ => Ok(()),
        }
    }

    // A slot goes to a manager.
    #[tactic(auto, unfolding(crate::specs::Events::on_move))]
    fn on_move(
        &mut self,
        alloc: Global,
        effects: &mut Effects,
        number: u32,
        slot: u8,
        manager: u8,
    ) -> Mem<()>
        ensures state { OnOk result (self.new ≡ (on_move self.old number slot manager).state) }
        ensures effects { OnOk result (effects.new ≡ effects.old ++ (on_move self.old number slot manager).outs) }
    {
        let outs = self.board.take(alloc, In::Reassign { slot, manager })?;
        self.say_moved(alloc, effects, number, outs.as_slice())
    }

    fn say_moved(&self, alloc: Global, effects: &mut Effects, number: u32, outs: &[Out]) -> Mem<()>
        ensures { OnOk result (effects.new ≡ effects.old ++ flat_map (say_one_moved self.now number) outs.now) }
    {
        for out in outs {
            self.say_one_moved(alloc, effects, number, out)?;
        }
        Ok(())
    }

    fn say_one_moved(&self, alloc: Global, effects: &mut Effects, number: u32, out: &Out) -> Mem<()>
        ensures { OnOk result (effects.new ≡ effects.old ++ say_one_moved self.now number out.now) }
    {
        match out {
            Out::Changed => self.tell_all(alloc, effects),
            Out::Epoch { epoch } => effects.answer(number, Answer::Epoch(*epoch)),
            Out::Kept { epoch: _ } => Ok(()),
        }
    }

    // A node asks for the maps, and may tell of a restart or a loss.
    #[tactic(auto, unfolding(crate::specs::Events::on_hello))]
    fn on_hello(
        &mut self,
        alloc: Global,
        effects: &mut Effects,
        from: NodeId,
        hello: Hello,
    ) -> Mem<()>
        ensures state { OnOk result (self.new ≡ (on_hello self.old from hello).state) }
        ensures effects { OnOk result (effects.new ≡ effects.old ++ (on_hello self.old from hello).outs) }
    {
        let node = from;
        let inc = hello.inc;
        let outs = self.board.take(alloc, In::Hello { node, inc })?;
        self.welcomes(alloc, effects, from, hello, outs.as_slice())
    }

    // Changed maps go to all nodes first, and then to who asked.
    fn welcomes(
        &self,
        alloc: Global,
        effects: &mut Effects,
        from: NodeId,
        hello: Hello,
        outs: &[Out],
    ) -> Mem<()>
        ensures { OnOk result (effects.new ≡ effects.old ++ welcomes self.now from hello outs.now) }
    {
        self.say_changed(alloc, effects, outs)?;
        self.say_welcome(alloc, effects, from, hello)
    }

    fn say_welcome(
        &self,
        alloc: Global,
        effects: &mut Effects,
        from: NodeId,
        hello: Hello,
    ) -> Mem<()>
        ensures { OnOk result (effects.new ≡ effects.old ++ Send from (Welcoming (welcome_of self.now hello)) ∷ []) }
    {
        let welcome = self.welcome(alloc, hello)?;
        effects.send(from, Body::Welcome(Shared::of(alloc, welcome)?))
    }

    fn welcome(&self, alloc: Global, hello: Hello) -> Mem<Welcome>
        ensures { IfOk result (λ welcome. welcome ≡ welcome_of self.now hello) }
    {
        Ok(Welcome {
            inc: hello.inc,
            ask: hello.ask,
            news: self.news(alloc)?,
        })
    }

    fn say_changed(&self, alloc: Global, effects: &mut Effects, outs: &[Out]) -> Mem<()>
        ensures { OnOk result (effects.new ≡ effects.old ++ flat_map (say_one_changed self.now) outs.now) }
    {
        for out in outs {
            self.say_one_changed(alloc, effects, out)?;
        }
        Ok(())
    }

    fn say_one_changed(&self, alloc: Global, effects: &mut Effects, out: &Out) -> Mem<()>
        ensures { OnOk result (effects.new ≡ effects.old ++ say_one_changed self.now out.now) }
    {
        match out {
            Out::Changed => self.tell_all(alloc, effects),
            _ => Ok(()),
        }
    }

    // A manager has written a checkpoint.
    #[tactic(auto, unfolding(crate::specs::Events::on_done))]
    fn on_done(
        &mut self,
        alloc: Global,
        effects: &mut Effects,
        from: NodeId,
        done: &CkptDone,
    ) -> Mem<()>
        ensures state { OnOk result (self.new ≡ (on_done self.old from done.now).state) }
        ensures effects { OnOk result (effects.new ≡ effects.old ++ (on_done self.old from done.now).outs) }
    {
        let input = In::Done {
            slot: done.slot,
            epoch: done.epoch,
            parts: done.parts.copy(alloc)?,
            horizon: done.horizon.copy(alloc)?,
        };
        let outs = self.board.take(alloc, input)?;
        say_kept(effects, from, done, outs.as_slice())
    }

    // The maps go to all other nodes.
    fn tell_all(&self, alloc: Global, effects: &mut Effects) -> Mem<()>
        ensures { OnOk result (effects.new ≡ effects.old ++ tell_all self.now) }
    {
        let body = Body::MapNews(Shared::of(alloc, self.news(alloc)?)?);
        effects.send_others(alloc, NodeId::Registry, self.peers, &body)
    }

    fn news(&self, alloc: Global) -> Mem<News>
        ensures { IfOk result (λ news. news ≡ news_of self.now.board) }
    {
        Ok(News {
            version: self.board.version(),
            slots: self.board.slots(alloc)?,
            groups: self.board.groups().copy(alloc)?,
        })
    }
}

impl Crosses for RegistryNode {}

// The slot and the manager of an item that moves one.
fn move_at(items: &Items, number: u32) -> Option<(u8, u8)>
    ensures { result ≡ move_of (work_at items.now number) }
{
    match items.work(number) {
        Some(Work::Move { slot, manager }) => Some((*slot, *manager)),
        _ => None,
    }
}

fn say_kept(effects: &mut Effects, from: NodeId, done: &CkptDone, outs: &[Out]) -> Mem<()>
    ensures { OnOk result (effects.new ≡ effects.old ++ flat_map (say_one_kept from done.now) outs.now) }
{
    for out in outs {
        say_one_kept(effects, from, done, out)?;
    }
    Ok(())
}

fn say_one_kept(effects: &mut Effects, from: NodeId, done: &CkptDone, out: &Out) -> Mem<()>
    ensures { OnOk result (effects.new ≡ effects.old ++ say_one_kept from done.now out.now) }
{
    match out {
        Out::Kept { epoch } => {
            let ack = CkptAck {
                slot: done.slot,
                epoch: *epoch,
                ask: done.ask,
            };
            effects.send(from, Body::CkptAck(ack))
        }
        _ => Ok(()),
    }
}
