//! Laws of what the tokens of a client do, over every list of inputs. Each function's contract is a law;
//! `specs/Laws.antt` says it in full.
ghost use Rattle.token_client.specs.Laws.{StaysSound, StampsNeverFall, NumbersRise, OpensByNeed, DirtyVersionsNeverFall};
ghost use Rattle.token_client.specs.Readings.{EndedWantTakesNothing, DirtyKeepsItsStamp, PromiseDrops, QuitEnds};

/// Whatever is taken from the start: a block with a want or a fetch isn't owned, is clean, and isn't being
/// given up; the settled version is at most the block's, and a dirty block is owned; a recall that is put
/// off is of the promised epoch, with a stamp above the block's; and the blocks stand in their order.
pub fn stays_sound()
    ensures { StaysSound }
{}

/// The stamp of a block never falls.
pub fn stamps_never_fall()
    ensures { StampsNeverFall }
{}

/// The number of the last want never falls.
pub fn numbers_rise()
    ensures { NumbersRise }
{}

/// A want or a fetch is open only where one was open before, or a call needed that block since.
pub fn opens_by_need()
    ensures { OpensByNeed }
{}

/// No input lowers the version of a dirty block, so what of it is in flight is at most the block's version.
pub fn dirty_versions_never_fall()
    ensures { DirtyVersionsNeverFall }
{}

/// A block without a want takes no grant and no supply: an ended want accepts nothing.
pub fn ended_want_takes_nothing()
    ensures { EndedWantTakesNothing }
{}

/// A recall of a dirty block leaves its stamp, mode, versions and value: the stamp rises only once the
/// block is given up.
pub fn dirty_keeps_its_stamp()
    ensures { DirtyKeepsItsStamp }
{}

/// A promise that is taken leaves no fetch and no put-off recall in its slot.
pub fn promise_drops()
    ensures { PromiseDrops }
{}

/// A block whose call answers that it is lost has neither a want nor a fetch.
pub fn quit_ends()
    ensures { QuitEnds }
{}
