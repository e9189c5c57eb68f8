//! What of the cleaner outlives a crash.
ghost use Rattle.std.specs.Prelude.{◌≡◌};
ghost use Rattle.cleaner_job.specs.Lasting.{lasting_has_room};

use node_base::{Items, Questions, has_room};
use xfs_base::Crosses;

/// What of the cleaner outlives a crash.
pub struct Lasting {
    /// How often it was started: its incarnation.
    pub inc: u32,
    /// The numbers of its questions.
    pub questions: Questions,
    /// What it is to do.
    pub items: Items,
}

impl Drop for Lasting {
    fn drop(self) {
        let Lasting {
            inc: _,
            questions: _,
            items,
        } = self;
        drop(items);
    }
}

impl Crosses for Lasting {}

impl Lasting {
    /// Whether each counter is at least 65,536 below its end.
    pub fn has_room(&self) -> bool
        ensures { result ≡ lasting_has_room self.now }
    {
        has_room(self.inc) && has_room(self.questions.last)
    }
}
