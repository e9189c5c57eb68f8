//! Where an opening stands.
ghost use Rattle.std.specs.Prelude.{◌≡◌};
ghost use Rattle.log_scan.specs.Transition.{is_between, awaits_welcome};

use crate::listing::Listing;
use segment_format::Segment;
use segment_reading::Reading;
use xfs_base::{End, List};

/// The chain as far as it is read back.
#[derive(Drop)]
pub struct Backward {
    /// The newest segment that is kept, or that none is; the log goes on behind its number.
    pub start: End,
    /// The segment that is read next.
    pub next: End,
    /// The segments that were read, newest first.
    pub chain: List<Segment>,
}

/// Where an opening stands.
#[derive(Drop)]
pub enum Stage {
    /// The first Welcome is awaited.
    Hails,
    /// The lists of the other servers are awaited; these are in, in the order in which they came.
    Gathers(List<Listing>),
    /// All lists are in, and the Welcome that was asked for after the last of them is awaited.
    Asks(List<Listing>),
    /// The chain is read back.
    Reads {
        /// What was read, and what is next.
        backward: Backward,
        /// The reading of the next segment; none where its group is not known yet.
        reading: Option<Reading>,
    },
    /// All is read, or a segment is lost.
    Over,
}

impl Stage {
    /// Whether the registry's answer to the last question is awaited.
    pub(crate) fn awaits_welcome(&self) -> bool
        ensures { result ≡ awaits_welcome self.now }
    {
        match self {
            Stage::Hails => true,
            Stage::Gathers(_) => false,
            Stage::Asks(_) => true,
            Stage::Reads {
                backward: _,
                reading,
            } => is_between(reading),
            Stage::Over => false,
        }
    }
}

// Whether a reading asks no servers.
fn is_between(reading: &Option<Reading>) -> bool
    ensures { result ≡ is_between reading.now }
{
    match reading {
        None => true,
        Some(reading) => !reading.stage().is_asking(),
    }
}
