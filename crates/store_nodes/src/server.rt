//! A storage server as a node.
ghost use Rattle.std.specs.Prelude.{◌≡◌, ◌++◌, ◌∷◌, [], IfOk, OnOk};
ghost use Rattle.node_base.specs.Beginning.{work_at};
ghost use Rattle.node_base.specs.Setups.{IsSetup};
ghost use Rattle.store_nodes.specs.ServerEvents.{server_start, hello_of, takes_news, on_news, on_welcome, asks_for_maps, hears, on_body, on_packet, on_lose, on_rebuild, wish_of, on_begin, hello_again, on_tick, is_far_from_ends, takes, server_step};

use fragment_store::Shelf;
use group_rebuild::{In, Rebuild};
use node_base::{
    Asked, Effects, Items, Maps, Peers, Questions, groups_of, has_room, is_well_formed,
    names_known_groups, server_in,
};
use std::alloc::Global;
use std::mem;
use version_model::{Act, Answer, Work};
use wire_msg::{Actor, Body, Do, Hello, News, Packet, Welcome};
use xfs_base::{Crosses, List, Mem, NodeId, Setup};

/// A storage server: it keeps fragments of stripes on its shelf, and fills it again from the other servers
/// once its disk was lost.
pub struct Server {
    pub(crate) number: u8,
    pub(crate) peers: Peers,
    pub(crate) items: Items,
    pub(crate) maps: Maps,
    pub(crate) questions: Questions,
    pub(crate) shelf: Shelf,
    pub(crate) hello: Option<u32>,
    pub(crate) rebuilding: Option<Rebuilding>,
}

// It is let go of here once, and not part by part wherever a node of any kind is held.
impl Drop for Server {
    fn drop(self) {
        let Server {
            number: _,
            peers: _,
            items: _,
            maps: _,
            questions: _,
            shelf: _,
            hello: _,
            rebuilding: _,
        } = self;
    }
}

/// A rebuild that is under way: the question under which the lists are asked for, and that of the round
/// that is under way.
pub struct Rebuilding {
    pub(crate) rebuild: Rebuild,
    pub(crate) lists: u32,
    pub(crate) fetches: Asked,
}

impl Drop for Rebuilding {
    fn drop(self) {
        let Rebuilding {
            rebuild,
            lists: _,
            fetches: _,
        } = self;
        drop(rebuild);
    }
}

/// What an item of a server asks for.
#[derive(Clone, Copy, PartialEq, Eq)]
pub enum Wish {
    /// The disk is lost.
    Lose,
    /// The shelf is to be filled again.
    Rebuild,
    /// Nothing that a server does.
    Other,
}

impl Actor for Server {
    ghost use Rattle.store_nodes.specs.ServerEvents.{server_step};
    ghost use Rattle.store_nodes.specs.Clocks.{server_sends_clock_0};

    ghost transition = { server_step };

    fn step(&mut self, alloc: Global, what: &Do) -> Mem<(List<Packet>, List<Act>)> {
        self.turn(alloc, what)
    }

    ghost no_clock = { server_sends_clock_0 };
}

impl Crosses for Server {}

impl Crosses for Rebuilding {}

impl Server {
    /// A server at the start of a run, with nothing on its shelf.
    pub fn start(alloc: Global, number: u8, setup: &Setup, items: List<Work>) -> Mem<Server>
        requires { IsSetup setup.now }
        ensures { IfOk result (λ server. server ≡ server_start number setup.now items) }
    {
        Ok(Server {
            number,
            peers: Peers::of(setup),
            items: Items::start(items),
            maps: Maps::start(groups_of(alloc, setup)?),
            questions: Questions::new(),
            shelf: Shelf::new(alloc),
            hello: None,
            rebuilding: None,
        })
    }

    /// What the server keeps.
    pub fn shelf(&self) -> &Shelf
        ensures { result.now ≡ self.now.shelf }
    {
        &self.shelf
    }

    // An event, with what the world sees of it.
    fn turn(&mut self, alloc: Global, what: &Do) -> Mem<(List<Packet>, List<Act>)>
        ensures state { OnOk result (self.new ≡ (server_step self.old what.now).node) }
        ensures packets { IfOk result (λ parts. parts.0 ≡ (server_step self.old what.now).packets) }
        ensures acts { IfOk result (λ parts. parts.1 ≡ (server_step self.old what.now).acts) }
    {
        let node = NodeId::Server(self.number);
        let mut effects = Effects::new(alloc);
        self.takes(alloc, &mut effects, what)?;
        effects.into_parts(alloc, node)
    }

    // An event is taken where each counter is at least 65,536 below its end.
    fn takes(&mut self, alloc: Global, effects: &mut Effects, what: &Do) -> Mem<()>
        ensures state { OnOk result (self.new ≡ (takes self.old what.now).state) }
        ensures effects { OnOk result (effects.new ≡ effects.old ++ (takes self.old what.now).outs) }
    {
        if !self.is_far_from_ends() {
            return Ok(());
        }
        match what {
            Do::Begin => self.on_begin(alloc, effects),
            Do::Deliver(packet) => self.on_packet(alloc, effects, packet.as_packet()),
            Do::Tick => self.on_tick(alloc, effects),
        }
    }

    fn is_far_from_ends(&self) -> bool
        ensures { result ≡ is_far_from_ends self.now }
    {
        has_room(self.shelf.generation())
            && has_room(self.questions.last)
            && has_room(self.maps.version)
    }

    #[tactic(auto, unfolding(crate::specs::ServerEvents::on_begin))]
    fn on_begin(&mut self, alloc: Global, effects: &mut Effects) -> Mem<()>
        ensures state { OnOk result (self.new ≡ (on_begin self.old).state) }
        ensures effects { OnOk result (effects.new ≡ effects.old ++ (on_begin self.old).outs) }
    {
        let Some(number) = self.items.begin() else {
            return Ok(());
        };
        match wish_at(&self.items, number) {
            Wish::Lose => self.on_lose(alloc, effects, number),
            Wish::Rebuild => self.on_rebuild(alloc, effects, number),
            Wish::Other => Ok(()),
        }
    }

    #[tactic(auto, unfolding(crate::specs::ServerEvents::on_packet))]
    fn on_packet(&mut self, alloc: Global, effects: &mut Effects, packet: &Packet) -> Mem<()>
        ensures state { OnOk result (self.new ≡ (on_packet self.old packet.now).state) }
        ensures effects { OnOk result (effects.new ≡ effects.old ++ (on_packet self.old packet.now).outs) }
    {
        if !is_well_formed(self.peers, packet) {
            return Ok(());
        }
        self.on_body(alloc, effects, packet.from, &packet.body)
    }

    fn on_body(
        &mut self,
        alloc: Global,
        effects: &mut Effects,
        from: NodeId,
        body: &Body,
    ) -> Mem<()>
        ensures state { OnOk result (self.new ≡ (on_body self.old from body.now).state) }
        ensures effects { OnOk result (effects.new ≡ effects.old ++ (on_body self.old from body.now).outs) }
    {
        match body {
            Body::MapNews(news) => self.on_news(alloc, effects, news),
            Body::Welcome(welcome) => self.on_welcome(alloc, effects, welcome),
            _ if names_known_groups(&self.maps, body) => self.hears(alloc, effects, from, body),
            _ => self.asks_for_maps(effects),
        }
    }

    fn hears(&mut self, alloc: Global, effects: &mut Effects, from: NodeId, body: &Body) -> Mem<()>
        ensures state { OnOk result (self.new ≡ (hears self.old from body.now).state) }
        ensures effects { OnOk result (effects.new ≡ effects.old ++ (hears self.old from body.now).outs) }
    {
        match body {
            Body::Store(store) => self.on_store(alloc, effects, from, store),
            Body::Fetch(fetch) => self.on_fetch(alloc, effects, from, *fetch),
            Body::Fence(fence) => self.on_fence(alloc, effects, from, *fence),
            Body::List(list) => self.on_list(alloc, effects, from, *list),
            Body::Delete(delete) => self.on_delete(alloc, effects, from, *delete),
            Body::Listed(listed) => self.on_listed(alloc, effects, server_in(from), listed),
            Body::Fragment(found) => self.on_found(alloc, effects, server_in(from), found),
            Body::Missing(missing) => self.on_missing(alloc, effects, server_in(from), *missing),
            _ => Ok(()),
        }
    }

    // The disk is lost: a rebuild that is under way is cut, and the next generation begins with nothing.
    #[tactic(auto, unfolding(crate::specs::ServerEvents::on_lose))]
    fn on_lose(&mut self, alloc: Global, effects: &mut Effects, number: u32) -> Mem<()>
        ensures state { OnOk result (self.new ≡ (on_lose self.old number).state) }
        ensures effects { OnOk result (effects.new ≡ effects.old ++ (on_lose self.old number).outs) }
    {
        self.items.answer(effects, Answer::Cut)?;
        drop(self.rebuilding.take());
        let lost = mem::replace(&mut self.shelf, Shelf::new(alloc)).lose();
        drop(mem::replace(&mut self.shelf, lost));
        effects.answer(number, Answer::Done)?;
        let ask = self.questions.draw();
        self.hello = Some(ask);
        self.say_hello(effects, ask)
    }

    // The shelf is to be filled again.
    #[tactic(auto, unfolding(crate::specs::ServerEvents::on_rebuild))]
    fn on_rebuild(&mut self, alloc: Global, effects: &mut Effects, number: u32) -> Mem<()>
        ensures state { OnOk result (self.new ≡ (on_rebuild self.old number).state) }
        ensures effects { OnOk result (effects.new ≡ effects.old ++ (on_rebuild self.old number).outs) }
    {
        if self.items.open().is_some() {
            return effects.answer(number, Answer::Busy);
        }
        let Some(groups) = self.maps.copy_groups(alloc)? else {
            return Ok(());
        };
        self.items.wait(number);
        let rebuilding = Rebuilding {
            rebuild: Rebuild::start(alloc, self.number, groups)?,
            lists: self.questions.draw(),
            fetches: Asked::new(),
        };
        drop(mem::replace(&mut self.rebuilding, Some(rebuilding)));
        self.rebuilds(alloc, effects, In::Tick)
    }

    // The maps come.
    fn on_news(&mut self, alloc: Global, effects: &mut Effects, news: &News) -> Mem<()>
        ensures state { OnOk result (self.new ≡ (on_news self.old news.now).state) }
        ensures effects { OnOk result (effects.new ≡ effects.old ++ (on_news self.old news.now).outs) }
    {
        if !self.maps.fits(news) {
            return Ok(());
        }
        self.takes_news(alloc, effects, news)
    }

    #[tactic(auto, unfolding(crate::specs::ServerEvents::takes_news))]
    fn takes_news(&mut self, alloc: Global, effects: &mut Effects, news: &News) -> Mem<()>
        ensures state { OnOk result (self.new ≡ (takes_news self.old news.now).state) }
        ensures effects { OnOk result (effects.new ≡ effects.old ++ (takes_news self.old news.now).outs) }
    {
        if !self.maps.take(alloc, news)? {
            return Ok(());
        }
        let groups = news.groups.copy(alloc)?;
        self.rebuilds(alloc, effects, In::Maps(groups))
    }

    // The registry answers a Hello of this generation, under whichever question: none is said again.
    #[tactic(auto, unfolding(crate::specs::ServerEvents::on_welcome))]
    fn on_welcome(&mut self, alloc: Global, effects: &mut Effects, welcome: &Welcome) -> Mem<()>
        ensures state { OnOk result (self.new ≡ (on_welcome self.old welcome.now).state) }
        ensures effects { OnOk result (effects.new ≡ effects.old ++ (on_welcome self.old welcome.now).outs) }
    {
        if welcome.inc != self.shelf.generation() || !self.maps.fits(&welcome.news) {
            return Ok(());
        }
        self.hello = None;
        self.takes_news(alloc, effects, &welcome.news)
    }

    // A packet names a group that is not known.
    #[tactic(auto, unfolding(crate::specs::ServerEvents::asks_for_maps))]
    fn asks_for_maps(&mut self, effects: &mut Effects) -> Mem<()>
        ensures state { OnOk result (self.new ≡ (asks_for_maps self.old).state) }
        ensures effects { OnOk result (effects.new ≡ effects.old ++ (asks_for_maps self.old).outs) }
    {
        let ask = self.questions.draw();
        self.say_hello(effects, ask)
    }

    fn say_hello(&self, effects: &mut Effects, ask: u32) -> Mem<()>
        ensures { OnOk result (effects.new ≡ effects.old ++ hello_of self.now.shelf ask ∷ []) }
    {
        let inc = self.shelf.generation();
        effects.send(NodeId::Registry, Body::Hello(Hello { inc, ask }))
    }

    // What is unanswered is said again.
    #[tactic(auto, unfolding(crate::specs::ServerEvents::on_tick))]
    fn on_tick(&mut self, alloc: Global, effects: &mut Effects) -> Mem<()>
        ensures state { OnOk result (self.new ≡ (on_tick self.old).state) }
        ensures effects { OnOk result (effects.new ≡ effects.old ++ (on_tick self.old).outs) }
    {
        self.hello_again(effects)?;
        self.rebuilds(alloc, effects, In::Tick)
    }

    fn hello_again(&self, effects: &mut Effects) -> Mem<()>
        ensures { OnOk result (effects.new ≡ effects.old ++ hello_again self.now self.now.hello) }
    {
        match self.hello {
            Some(ask) => self.say_hello(effects, ask),
            None => Ok(()),
        }
    }
}

// What an item asks for.
fn wish_at(items: &Items, number: u32) -> Wish
    ensures { result ≡ wish_of (work_at items.now number) }
{
    match items.work(number) {
        Some(Work::Lose { server: _ }) => Wish::Lose,
        Some(Work::Rebuild { server: _ }) => Wish::Rebuild,
        _ => Wish::Other,
    }
}
