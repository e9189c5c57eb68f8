//! A job of the cleaner, with the questions of the node under which its questions are out.
ghost use Rattle.std.specs.Prelude.{◌≡◌, IfOk, OnOk, Some};
ghost use Rattle.cleaner_job.specs.Hands.{take_in_hand};
ghost use Rattle.cleaner_job.specs.Jobs.{ask_of, drawn_unless, note_greeted, is_whole, dropped, lists_of, usages_of, hand_of, check_of, is_out, read_over, job_hear, job_confirmed, job_check, note_moved, note_read, job_start, hand_moved, hello_of};

use crate::hand::{Hand, take_in_hand};
use group_map::GroupMap;
use node_base::Questions;
use segment_reading::Next;
use std::alloc::Global;
use stripe_cleaner::Cleaning;
use stripe_code::Told;
use xfs_base::{BlockId, Crosses, Mem, SegRef};

/// A job of the cleaner.
pub struct Job {
    /// The job.
    pub cleaning: Cleaning,
    /// The question under which the maps are asked for, until it is answered.
    pub hello: Option<u32>,
    /// The question under which the servers are asked for their lists.
    pub lists: Option<u32>,
    /// The question under which the managers are asked for their counts.
    pub usages: Option<u32>,
    /// The segment in hand.
    pub hand: Option<Hand>,
}

impl Drop for Job {
    fn drop(self) {
        let Job {
            cleaning,
            hello: _,
            lists: _,
            usages: _,
            hand,
        } = self;
        drop(cleaning);
        drop(hand);
    }
}

impl Crosses for Job {}

impl Job {
    /// A job of so many segments that has asked nothing.
    pub fn start(alloc: Global, count: u32) -> Mem<Job>
        ensures { IfOk result (λ job. job ≡ job_start count) }
    {
        Ok(Job {
            cleaning: Cleaning::start(alloc, count)?,
            hello: None,
            lists: None,
            usages: None,
            hand: None,
        })
    }

    /// A segment is the one in hand from now on.
    pub fn hold(
        &mut self,
        alloc: Global,
        groups: &Option<GroupMap>,
        questions: &mut Questions,
        seg: SegRef,
    ) -> Mem<()>
        ensures job { OnOk result (self.new ≡ record self.old { hand = (take_in_hand groups.now questions.old self.old.hand seg).hand }) }
        ensures questions { OnOk result (questions.new ≡ (take_in_hand groups.now questions.old self.old.hand seg).questions) }
    {
        take_in_hand(alloc, groups, questions, &mut self.hand, seg)
    }

    /// A server tells of its fragment of the segment in hand.
    #[tactic(auto, unfolding(crate::specs::Jobs::job_hear))]
    pub fn hear(
        &mut self,
        alloc: Global,
        groups: &GroupMap,
        ask: u32,
        server: u8,
        told: Told,
    ) -> Mem<Next>
        ensures state { OnOk result (self.new ≡ (job_hear self.old groups.now ask server told).state) }
        ensures next { IfOk result (λ next. next ≡ (job_hear self.old groups.now ask server told).next) }
    {
        match &mut self.hand {
            None => {
                drop(told);
                Ok(Next::Wait)
            }
            Some(hand) => hand.hear(alloc, groups, ask, server, told),
        }
    }

    /// What there is to ask between two rounds of its reading is answered.
    #[tactic(auto, unfolding(crate::specs::Jobs::job_confirmed))]
    pub fn confirmed(&mut self, alloc: Global, ask: u32) -> Mem<Next>
        ensures state { OnOk result (self.new ≡ (job_confirmed self.old ask).state) }
        ensures next { IfOk result (λ next. next ≡ (job_confirmed self.old ask).next) }
    {
        match &mut self.hand {
            None => Ok(Next::Wait),
            Some(hand) => hand.confirmed(alloc, ask),
        }
    }

    /// The question under which the maps are asked for: the one that is out, or a new one.
    pub fn ask_maps(&mut self, questions: &mut Questions) -> u32
        ensures job { self.new ≡ record self.old { hello = Some (ask_of self.old.hello questions.old) } }
        ensures questions { questions.new ≡ drawn_unless self.old.hello questions.old }
        ensures ask { result ≡ ask_of self.old.hello questions.old }
    {
        let ask = ask_of(self.hello, questions);
        self.hello = Some(ask);
        ask
    }

    /// The question under which the servers are asked for their lists: the one that is out, or a new one.
    pub fn ask_lists(&mut self, questions: &mut Questions) -> u32
        ensures job { self.new ≡ record self.old { lists = Some (ask_of self.old.lists questions.old) } }
        ensures questions { questions.new ≡ drawn_unless self.old.lists questions.old }
        ensures ask { result ≡ ask_of self.old.lists questions.old }
    {
        let ask = ask_of(self.lists, questions);
        self.lists = Some(ask);
        ask
    }

    /// The question under which the managers are asked for their counts: the one that is out, or a new one.
    pub fn ask_usages(&mut self, questions: &mut Questions) -> u32
        ensures job { self.new ≡ record self.old { usages = Some (ask_of self.old.usages questions.old) } }
        ensures questions { questions.new ≡ drawn_unless self.old.usages questions.old }
        ensures ask { result ≡ ask_of self.old.usages questions.old }
    {
        let ask = ask_of(self.usages, questions);
        self.usages = Some(ask);
        ask
    }

    /// The question of a check of a block, where a segment is in hand.
    #[tactic(auto, unfolding(crate::specs::Jobs::job_check))]
    pub fn check(&mut self, questions: &mut Questions, block: BlockId) -> Mem<Option<u32>>
        ensures job { OnOk result (self.new ≡ (job_check self.old questions.old block).job) }
        ensures questions { OnOk result (questions.new ≡ (job_check self.old questions.old block).questions) }
        ensures ask { IfOk result (λ ask. ask ≡ (job_check self.old questions.old block).ask) }
    {
        match &mut self.hand {
            None => Ok(None),
            Some(hand) => {
                let ask = hand.check(questions, block)?;
                Ok(Some(ask))
            }
        }
    }

    /// The segment in hand is read, or lost.
    pub fn end_reading(&mut self)
        ensures { self.new ≡ record self.old { hand = read_over self.old.hand } }
    {
        if let Some(hand) = &mut self.hand {
            drop(hand.reading.take());
        }
    }

    /// What was live in the segment in hand is moved.
    pub fn note_moved(&mut self)
        ensures { self.new ≡ record self.old { hand = hand_moved self.old.hand } }
    {
        if let Some(hand) = &mut self.hand {
            hand.moved = true;
        }
    }

    /// The segment in hand is dropped.
    pub fn note_dropped(&mut self)
        ensures { self.new ≡ record self.old { hand = dropped self.old.hand } }
    {
        if let Some(hand) = &mut self.hand {
            hand.dropped = true;
        }
    }

    /// Whether the segment in hand is not dropped yet.
    pub fn is_whole(&self) -> bool
        ensures { result ≡ is_whole self.now.hand }
    {
        match &self.hand {
            None => false,
            Some(hand) => !hand.dropped,
        }
    }
}

// The question that is out, or a new one.
fn ask_of(question: Option<u32>, questions: &mut Questions) -> u32
    ensures ask { result ≡ ask_of question questions.old }
    ensures questions { questions.new ≡ drawn_unless question questions.old }
{
    match question {
        Some(ask) => ask,
        None => questions.draw(),
    }
}

/// The question under which the maps are asked for.
pub fn hello_of(job: &Option<Job>) -> Option<u32>
    ensures { result ≡ hello_of job.now }
{
    match job {
        Some(job) => job.hello,
        None => None,
    }
}

/// The question under which the servers are asked for their lists.
pub fn lists_of(job: &Option<Job>) -> Option<u32>
    ensures { result ≡ lists_of job.now }
{
    match job {
        Some(job) => job.lists,
        None => None,
    }
}

/// The question under which the managers are asked for their counts.
pub fn usages_of(job: &Option<Job>) -> Option<u32>
    ensures { result ≡ usages_of job.now }
{
    match job {
        Some(job) => job.usages,
        None => None,
    }
}

/// The question of the newest check of a block.
pub fn check_of(job: &Option<Job>, block: BlockId) -> Option<u32>
    ensures { result ≡ check_of (hand_of job.now) block }
{
    match job {
        Some(job) => match &job.hand {
            Some(hand) => hand.asked(block),
            None => None,
        },
        None => None,
    }
}

/// Whether a question is the one that is out.
pub fn is_out(question: Option<u32>, ask: u32) -> bool
    ensures { result ≡ is_out question ask }
{
    match question {
        Some(out) => out == ask,
        None => false,
    }
}

/// The question under which the maps are asked for is answered.
pub fn note_greeted(job: &mut Option<Job>)
    ensures { job.new ≡ note_greeted job.old }
{
    if let Some(job) = job {
        job.hello = None;
    }
}

/// The segment in hand is read, or lost.
pub fn note_read(job: &mut Option<Job>)
    ensures { job.new ≡ note_read job.old }
{
    if let Some(job) = job {
        job.end_reading();
    }
}

/// What was live in the segment in hand is moved.
pub fn note_moved(job: &mut Option<Job>)
    ensures { job.new ≡ note_moved job.old }
{
    if let Some(job) = job {
        job.note_moved();
    }
}
