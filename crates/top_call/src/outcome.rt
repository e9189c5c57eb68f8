//! What a call of the program answers.
ghost use Rattle.std.specs.Prelude.{◌≡◌};
ghost use Rattle.top_call.specs.Told.{with_boards, with_disks, with_replies};

use board_world::BoardEvent;
use disk_shelf::MemDisk;
use mounts::Reply;
use world_base::Estate;
use xfs_base::List;

/// What the program answers.
pub struct Outcome<N> {
    /// 0: done. 1: all was written, and an item is unanswered or the journal is not legal. 2: the words are
    /// no form. 3: the input is no script or no journal. 4: a read failed. 5: a write failed. 7: want of
    /// memory.
    pub status: u8,
    /// The run that was played; there where its text or its counts were to be written, with status 0, 1 or 5.
    pub estate: Option<Estate<N>>,
    /// What happened to nodes and boards; there exactly where the words are `boards` and the run is there.
    pub boards: Option<List<BoardEvent>>,
    /// The disks of the servers, in their order; there exactly where the word is `disks` and the run is there.
    pub disks: Option<List<MemDisk>>,
    /// For each client the items that its application called, in that order; there exactly where the words are `mount W`
    /// and the run is there.
    pub calls: Option<List<List<u32>>>,
    /// For each client what its application was replied, in that order; there where the calls are.
    pub replies: Option<List<List<Reply>>>,
}

impl<N: Drop> Drop for Outcome<N> {
    fn drop(self) {
        let Outcome {
            status: _,
            estate,
            boards,
            disks,
            calls,
            replies,
        } = self;
        drop(estate);
        drop(boards);
        drop(disks);
        drop(calls);
        drop(replies);
    }
}

impl<N: Drop> Outcome<N> {
    /// This outcome with what happened to nodes and boards, where there is a run.
    pub(crate) fn with_boards(mut self, events: List<BoardEvent>) -> Outcome<N>
        ensures { result ≡ with_boards self events }
    {
        match &self.estate {
            Some(_) => self.boards = Some(events),
            None => self.boards = None,
        }
        self
    }

    /// This outcome with the disks of the servers, where there is a run.
    pub(crate) fn with_disks(mut self, all: List<MemDisk>) -> Outcome<N>
        ensures { result ≡ with_disks self all }
    {
        match &self.estate {
            Some(_) => self.disks = Some(all),
            None => self.disks = None,
        }
        self
    }

    /// This outcome with what applications called and were replied, where there is a run.
    pub(crate) fn with_replies(
        mut self,
        all_calls: List<List<u32>>,
        all_replies: List<List<Reply>>,
    ) -> Outcome<N>
        ensures { result ≡ with_replies self all_calls all_replies }
    {
        match &self.estate {
            Some(_) => {
                self.calls = Some(all_calls);
                self.replies = Some(all_replies);
            }
            None => {
                self.calls = None;
                self.replies = None;
            }
        }
        self
    }
}
