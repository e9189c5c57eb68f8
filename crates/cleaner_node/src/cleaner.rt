//! The cleaner as a node.
ghost use Rattle.std.specs.Prelude.{◌≡◌, ◌++◌, IfOk, OnOk};
ghost use Rattle.node_base.specs.Setups.{IsSetup};
ghost use Rattle.cleaner_node.specs.CleanerEvents.{first_life, cleaner_start, crash, next_life, say_back, back, after_opening, restart_in, restart, wish_at, cleaner_answer, begin_down, begin_opening, begin_serving, down_wishes, opening_wishes, serving_wishes, on_begin, cleaner_hear, on_deliver, on_time, happens, phase_has_room, opening_of, is_serving, takes, cleaner_step};
ghost use Rattle.cleaner_node.specs.declared.cleaner.Phase.TheVariants.{Opening as Opens};

use cleaner_job::Lasting;
use cleaner_job::starting::cleaner_log;
use cleaner_serving::Emptying;
use log_owner::{Opened, Opening, Owner, Progress};
use node_base::{Effects, Items, Peers, Questions, groups_of, is_well_formed};
use std::alloc::Global;
use std::mem;
use version_model::{Act, Answer, Work};
use wire_msg::{Actor, Do, Packet};
use xfs_base::{Crosses, List, Mem, NodeId, Setup};

/// The cleaner: it empties old segments, whose live blocks it moves to a log of its own.
pub struct Cleaner {
    pub(crate) peers: Peers,
    pub(crate) phase: Phase,
}

// It is let go of here once, and not part by part wherever a node of any kind is held; its phase by a call, so
// that each part of it is dropped in one proof.
impl Drop for Cleaner {
    fn drop(self) {
        let Cleaner { peers: _, phase } = self;
        drop(phase);
    }
}

/// What the cleaner has: in each phase what outlives a crash, and in each what exists in it alone.
#[derive(Drop)]
pub enum Phase {
    /// It has crashed.
    Down(Lasting),
    /// It has started again, and opens its log.
    Opening(Lasting, Opening),
    /// It serves.
    Serving(Emptying),
}

/// What an item asks for.
#[derive(Clone, Copy, PartialEq, Eq)]
pub enum Wish {
    /// That the cleaner crashes.
    Crash,
    /// That it starts again.
    Restart,
    /// That it empties at most so many segments.
    Clean(u32),
}

impl Actor for Cleaner {
    ghost use Rattle.cleaner_node.specs.CleanerEvents.{cleaner_step};
    ghost use Rattle.cleaner_node.specs.CleanerClocks.{cleaner_sends_clock_0};

    ghost transition = { cleaner_step };

    fn step(&mut self, alloc: Global, what: &Do) -> Mem<(List<Packet>, List<Act>)> {
        self.turn(alloc, what)
    }

    ghost no_clock = { cleaner_sends_clock_0 };
}

impl Crosses for Phase {}

impl Crosses for Cleaner {}

impl Cleaner {
    /// The cleaner at the start of a run: its log is empty.
    pub fn start(alloc: Global, _number: u8, setup: &Setup, items: List<Work>) -> Mem<Cleaner>
        requires { IsSetup setup.now }
        ensures { IfOk result (λ cleaner. cleaner ≡ cleaner_start setup.now items) }
    {
        match groups_of(alloc, setup) {
            Ok(groups) => {
                let lasting = first_life(items);
                let emptying = Emptying::start(alloc, lasting, setup.managers, groups)?;
                Ok(Cleaner {
                    peers: Peers::of(setup),
                    phase: Phase::Serving(emptying),
                })
            }
            Err(error) => {
                drop(items);
                Err(error)
            }
        }
    }
}

impl Cleaner {
    /// Whether it serves: it neither is down nor opens its log.
    pub fn is_serving(&self) -> bool
        ensures { result ≡ is_serving self.now.phase }
    {
        match &self.phase {
            Phase::Down(_) => false,
            Phase::Opening(_, _) => false,
            Phase::Serving(_) => true,
        }
    }

    // An event, with what the world sees of it.
    fn turn(&mut self, alloc: Global, what: &Do) -> Mem<(List<Packet>, List<Act>)>
        ensures state { OnOk result (self.new ≡ (cleaner_step self.old what.now).node) }
        ensures packets { IfOk result (λ parts. parts.0 ≡ (cleaner_step self.old what.now).packets) }
        ensures acts { IfOk result (λ parts. parts.1 ≡ (cleaner_step self.old what.now).acts) }
    {
        let mut effects = Effects::new(alloc);
        takes(alloc, &mut effects, self.peers, &mut self.phase, what)?;
        effects.into_parts(alloc, NodeId::Cleaner)
    }
}

impl Phase {
    // A cleaner that is down and has nothing to do: it stands in while a phase is handed on.
    fn idle(alloc: Global) -> Phase {
        Phase::Down(first_life(List::new(alloc)))
    }

    // The phase, which is handed on: until `turn_to` another stands in for it.
    fn take(&mut self, alloc: Global) -> Phase
        ensures { result ≡ self.old }
    {
        mem::replace(self, Phase::idle(alloc))
    }

    // What a cleaner has that opens its log, which is handed on: until `turn_to` another phase stands in. None in
    // any other phase.
    fn take_opening(&mut self, alloc: Global) -> Option<(Lasting, Opening)>
        ensures { result ≡ opening_of self.old }
    {
        match self.take(alloc) {
            Phase::Down(lasting) => {
                drop(lasting);
                None
            }
            Phase::Opening(lasting, opening) => Some((lasting, opening)),
            Phase::Serving(emptying) => {
                drop(emptying);
                None
            }
        }
    }

    // The cleaner is in this phase from now on.
    fn turn_to(&mut self, phase: Phase)
        ensures { self.new ≡ phase }
    {
        drop(mem::replace(self, phase));
    }

    // Whether each counter is at least 65,536 below its end.
    fn has_room(&self) -> bool
        ensures { result ≡ phase_has_room self.now }
    {
        match self {
            Phase::Down(lasting) => lasting.has_room(),
            Phase::Opening(lasting, opening) => { lasting.has_room() && opening.has_room() }
            Phase::Serving(emptying) => emptying.has_room(),
        }
    }
}

fn first_life(items: List<Work>) -> Lasting
    ensures { result ≡ first_life items }
{
    Lasting {
        inc: 1,
        questions: Questions::new(),
        items: Items::start(items),
    }
}

// An event is taken where each counter is at least 65,536 below its end.
fn takes(
    alloc: Global,
    effects: &mut Effects,
    peers: Peers,
    phase: &mut Phase,
    what: &Do,
) -> Mem<()>
    ensures phase { OnOk result (phase.new ≡ (takes peers phase.old what.now).state) }
    ensures effects { OnOk result (effects.new ≡ effects.old ++ (takes peers phase.old what.now).outs) }
{
    if !phase.has_room() {
        return Ok(());
    }
    happens(alloc, effects, peers, phase, what)
}

fn happens(
    alloc: Global,
    effects: &mut Effects,
    peers: Peers,
    phase: &mut Phase,
    what: &Do,
) -> Mem<()>
    ensures phase { OnOk result (phase.new ≡ (happens peers phase.old what.now).state) }
    ensures effects { OnOk result (effects.new ≡ effects.old ++ (happens peers phase.old what.now).outs) }
{
    match what {
        Do::Begin => {
            let begun = on_begin(alloc, effects, peers.servers, phase.take(alloc))?;
            phase.turn_to(begun);
            Ok(())
        }
        Do::Deliver(packet) => on_deliver(alloc, effects, peers, phase, packet.as_packet()),
        Do::Tick => on_time(alloc, effects, phase),
    }
}

// What an item asks for.
fn wish_at(items: &Items, number: u32) -> Wish
    ensures { result ≡ wish_at items.now number }
{
    match items.work(number) {
        Some(Work::Crash { node: _ }) => Wish::Crash,
        Some(Work::Restart { node: _ }) => Wish::Restart,
        Some(Work::Clean { count }) => Wish::Clean(*count),
        _ => Wish::Clean(0),
    }
}

// The next item begins.
#[tactic(auto, unfolding(crate::specs::CleanerEvents::on_begin))]
fn on_begin(alloc: Global, effects: &mut Effects, servers: u8, phase: Phase) -> Mem<Phase>
    ensures phase { IfOk result (λ p. p ≡ (on_begin servers phase).state) }
    ensures effects { OnOk result (effects.new ≡ effects.old ++ (on_begin servers phase).outs) }
{
    match phase {
        Phase::Down(lasting) => begin_down(alloc, effects, servers, lasting),
        Phase::Opening(lasting, opening) => begin_opening(effects, lasting, opening),
        Phase::Serving(emptying) => begin_serving(alloc, effects, emptying),
    }
}

fn begin_down(alloc: Global, effects: &mut Effects, servers: u8, lasting: Lasting) -> Mem<Phase>
    ensures phase { IfOk result (λ p. p ≡ (begin_down servers lasting).state) }
    ensures effects { OnOk result (effects.new ≡ effects.old ++ (begin_down servers lasting).outs) }
{
    let mut lasting = lasting;
    let Some(number) = lasting.items.begin() else {
        return Ok(Phase::Down(lasting));
    };
    let wish = wish_at(&lasting.items, number);
    down_wishes(alloc, effects, servers, lasting, number, wish)
}

fn down_wishes(
    alloc: Global,
    effects: &mut Effects,
    servers: u8,
    lasting: Lasting,
    number: u32,
    wish: Wish,
) -> Mem<Phase>
    ensures phase { IfOk result (λ p. p ≡ (down_wishes servers lasting number wish).state) }
    ensures effects { OnOk result (effects.new ≡ effects.old ++ (down_wishes servers lasting number wish).outs) }
{
    match wish {
        Wish::Restart => restart(alloc, effects, servers, lasting, number),
        Wish::Crash | Wish::Clean(_) => {
            answer(effects, Phase::Down(lasting), number, Answer::Down)
        }
    }
}

fn begin_opening(effects: &mut Effects, lasting: Lasting, opening: Opening) -> Mem<Phase>
    ensures phase { IfOk result (λ p. p ≡ (begin_opening lasting opening).state) }
    ensures effects { OnOk result (effects.new ≡ effects.old ++ (begin_opening lasting opening).outs) }
{
    let mut lasting = lasting;
    let Some(number) = lasting.items.begin() else {
        return Ok(Phase::Opening(lasting, opening));
    };
    let wish = wish_at(&lasting.items, number);
    opening_wishes(effects, lasting, opening, number, wish)
}

fn opening_wishes(
    effects: &mut Effects,
    lasting: Lasting,
    opening: Opening,
    number: u32,
    wish: Wish,
) -> Mem<Phase>
    ensures phase { IfOk result (λ p. p ≡ (opening_wishes lasting opening number wish).state) }
    ensures effects { OnOk result (effects.new ≡ effects.old ++ (opening_wishes lasting opening number wish).outs) }
{
    match wish {
        Wish::Crash => {
            drop(opening);
            crash(effects, lasting, number)
        }
        Wish::Restart => answer(
            effects,
            Phase::Opening(lasting, opening),
            number,
            Answer::Up,
        ),
        Wish::Clean(_) => answer(
            effects,
            Phase::Opening(lasting, opening),
            number,
            Answer::Down,
        ),
    }
}

fn begin_serving(alloc: Global, effects: &mut Effects, emptying: Emptying) -> Mem<Phase>
    ensures phase { IfOk result (λ p. p ≡ (begin_serving emptying).state) }
    ensures effects { OnOk result (effects.new ≡ effects.old ++ (begin_serving emptying).outs) }
{
    let mut emptying = emptying;
    let Some(number) = emptying.lasting.items.begin() else {
        return Ok(Phase::Serving(emptying));
    };
    let wish = wish_at(&emptying.lasting.items, number);
    serving_wishes(alloc, effects, emptying, number, wish)
}

fn serving_wishes(
    alloc: Global,
    effects: &mut Effects,
    emptying: Emptying,
    number: u32,
    wish: Wish,
) -> Mem<Phase>
    ensures phase { IfOk result (λ p. p ≡ (serving_wishes emptying number wish).state) }
    ensures effects { OnOk result (effects.new ≡ effects.old ++ (serving_wishes emptying number wish).outs) }
{
    match wish {
        Wish::Crash => crash(effects, emptying.into_lasting(), number),
        Wish::Restart => answer(effects, Phase::Serving(emptying), number, Answer::Up),
        Wish::Clean(count) => {
            let mut emptying = emptying;
            // It is dropped by a call, here and below, so that each part of it is dropped in one proof.
            match emptying.on_clean(alloc, effects, number, count) {
                Ok(()) => Ok(Phase::Serving(emptying)),
                Err(error) => {
                    drop(emptying);
                    Err(error)
                }
            }
        }
    }
}

// The item is answered at its begin, and nothing changes.
fn answer(effects: &mut Effects, phase: Phase, number: u32, answer: Answer) -> Mem<Phase>
    ensures phase { IfOk result (λ p. p ≡ (cleaner_answer phase number answer).state) }
    ensures effects { OnOk result (effects.new ≡ effects.old ++ (cleaner_answer phase number answer).outs) }
{
    match effects.answer(number, answer) {
        Ok(()) => Ok(phase),
        Err(error) => {
            drop(phase);
            Err(error)
        }
    }
}

// The cleaner crashes: the item that is open is cut.
#[tactic(auto, unfolding(crate::specs::CleanerEvents::crash))]
fn crash(effects: &mut Effects, lasting: Lasting, number: u32) -> Mem<Phase>
    ensures phase { IfOk result (λ p. p ≡ (crash lasting number).state) }
    ensures effects { OnOk result (effects.new ≡ effects.old ++ (crash lasting number).outs) }
{
    let mut lasting = lasting;
    lasting.items.answer(effects, Answer::Cut)?;
    effects.answer(number, Answer::Done)?;
    Ok(Phase::Down(lasting))
}

// The next incarnation begins: it opens its log.
#[tactic(auto, unfolding(crate::specs::CleanerEvents::restart))]
fn restart(
    alloc: Global,
    effects: &mut Effects,
    servers: u8,
    lasting: Lasting,
    number: u32,
) -> Mem<Phase>
    ensures phase { IfOk result (λ p. p ≡ (restart servers lasting number).state) }
    ensures effects { OnOk result (effects.new ≡ effects.old ++ (restart servers lasting number).outs) }
{
    restart_in(alloc, effects, servers, next_life(lasting, number))
}

// The next incarnation, whose restart is not answered yet.
fn next_life(lasting: Lasting, number: u32) -> Lasting
    ensures { result ≡ next_life lasting number }
{
    let mut lasting = lasting;
    lasting.inc = lasting.inc.saturating_add(1);
    lasting.items.wait(number);
    lasting
}

fn restart_in(alloc: Global, effects: &mut Effects, servers: u8, lasting: Lasting) -> Mem<Phase>
    ensures phase { IfOk result (λ p. p ≡ (restart_in servers lasting).state) }
    ensures effects { OnOk result (effects.new ≡ effects.old ++ (restart_in servers lasting).outs) }
{
    let mut lasting = lasting;
    let owner = Owner {
        log: cleaner_log(),
        inc: lasting.inc,
    };
    let opening = Opening::start(alloc, effects, &mut lasting.questions, owner, servers)?;
    Ok(Phase::Opening(lasting, opening))
}

// A packet comes.
#[tactic(auto, unfolding(crate::specs::CleanerEvents::on_deliver))]
fn on_deliver(
    alloc: Global,
    effects: &mut Effects,
    peers: Peers,
    phase: &mut Phase,
    packet: &Packet,
) -> Mem<()>
    ensures phase { OnOk result (phase.new ≡ (on_deliver peers phase.old packet.now).state) }
    ensures effects { OnOk result (effects.new ≡ effects.old ++ (on_deliver peers phase.old packet.now).outs) }
{
    if !is_well_formed(peers, packet) {
        return Ok(());
    }
    hear(alloc, effects, phase, packet)
}

// A cleaner that is down takes no packet.
#[tactic(auto, unfolding(crate::specs::CleanerEvents::cleaner_hear))]
fn hear(alloc: Global, effects: &mut Effects, phase: &mut Phase, packet: &Packet) -> Mem<()>
    ensures phase { OnOk result (phase.new ≡ (cleaner_hear phase.old packet.now).state) }
    ensures effects { OnOk result (effects.new ≡ effects.old ++ (cleaner_hear phase.old packet.now).outs) }
{
    match phase {
        Phase::Down(_) => Ok(()),
        Phase::Opening(_, _) => match phase.take_opening(alloc) {
            Some((lasting, opening)) => {
                let after = hear_opening(alloc, effects, lasting, opening, packet)?;
                phase.turn_to(after);
                Ok(())
            }
            None => Ok(()),
        },
        Phase::Serving(emptying) => emptying.on_packet(alloc, effects, packet),
    }
}

// A packet comes to a cleaner that opens its log.
#[tactic(auto, unfolding(crate::specs::CleanerEvents::cleaner_hear))]
fn hear_opening(
    alloc: Global,
    effects: &mut Effects,
    lasting: Lasting,
    opening: Opening,
    packet: &Packet,
) -> Mem<Phase>
    ensures phase { IfOk result (λ p. p ≡ (cleaner_hear (Opens lasting opening) packet.now).state) }
    ensures effects { OnOk result (effects.new ≡ effects.old ++ (cleaner_hear (Opens lasting opening) packet.now).outs) }
{
    let mut lasting = lasting;
    let progress = opening.take(alloc, effects, &mut lasting.questions, packet)?;
    after_opening(alloc, effects, lasting, progress)
}

// Time passes.
#[tactic(auto, unfolding(crate::specs::CleanerEvents::on_time))]
fn on_time(alloc: Global, effects: &mut Effects, phase: &mut Phase) -> Mem<()>
    ensures phase { OnOk result (phase.new ≡ (on_time phase.old).state) }
    ensures effects { OnOk result (effects.new ≡ effects.old ++ (on_time phase.old).outs) }
{
    match phase {
        Phase::Down(_) => Ok(()),
        Phase::Opening(_, _) => match phase.take_opening(alloc) {
            Some((lasting, opening)) => {
                let after = ask_again(alloc, effects, lasting, opening)?;
                phase.turn_to(after);
                Ok(())
            }
            None => Ok(()),
        },
        Phase::Serving(emptying) => emptying.on_tick(alloc, effects),
    }
}

// Time passes at a cleaner that opens its log.
#[tactic(auto, unfolding(crate::specs::CleanerEvents::on_time))]
fn ask_again(alloc: Global, effects: &mut Effects, lasting: Lasting, opening: Opening) -> Mem<Phase>
    ensures phase { IfOk result (λ p. p ≡ (on_time (Opens lasting opening)).state) }
    ensures effects { OnOk result (effects.new ≡ effects.old ++ (on_time (Opens lasting opening)).outs) }
{
    let mut lasting = lasting;
    let progress = opening.tick(alloc, effects, &mut lasting.questions)?;
    after_opening(alloc, effects, lasting, progress)
}

// The phase after an event of an opening.
#[tactic(auto, unfolding(crate::specs::CleanerEvents::after_opening))]
fn after_opening(
    alloc: Global,
    effects: &mut Effects,
    lasting: Lasting,
    progress: Progress,
) -> Mem<Phase>
    ensures phase { IfOk result (λ p. p ≡ (after_opening lasting progress).state) }
    ensures effects { OnOk result (effects.new ≡ effects.old ++ (after_opening lasting progress).outs) }
{
    match progress {
        Progress::Opening(opening) => Ok(Phase::Opening(lasting, opening)),
        Progress::Opened(opened) => back(alloc, effects, lasting, opened),
        Progress::Lost(seg) => {
            let mut lasting = lasting;
            lasting.items.answer(effects, Answer::Lost(seg))?;
            Ok(Phase::Down(lasting))
        }
    }
}

// The log is open: the cleaner serves again.
fn back(alloc: Global, effects: &mut Effects, lasting: Lasting, opened: Opened) -> Mem<Phase>
    ensures phase { IfOk result (λ p. p ≡ (back lasting opened).state) }
    ensures effects { OnOk result (effects.new ≡ effects.old ++ (back lasting opened).outs) }
{
    let mut emptying = Emptying::back(lasting, opened);
    match say_back(alloc, effects, &mut emptying) {
        Ok(()) => Ok(Phase::Serving(emptying)),
        Err(error) => {
            drop(emptying);
            Err(error)
        }
    }
}

// All slots are told of the log, and the restart is answered.
fn say_back(alloc: Global, effects: &mut Effects, emptying: &mut Emptying) -> Mem<()>
    ensures state { OnOk result (emptying.new ≡ (say_back emptying.old).state) }
    ensures effects { OnOk result (effects.new ≡ effects.old ++ (say_back emptying.old).outs) }
{
    emptying.push_all(alloc, effects)?;
    emptying.lasting.items.answer(effects, Answer::Done)
}
