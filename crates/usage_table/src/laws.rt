//! What holds over any list of calls.
ghost use Rattle.std.specs.Prelude.{◌≡◌, ◌+◌, List, []};
ghost use Rattle.xfs_base.specs.declared.segment.SegName.{SegName};
ghost use Rattle.usage_table.specs.Counts.{count_of};
ghost use Rattle.usage_table.specs.Shifts.{Shift, after_shifts, AreSound, arrivals, departures};

/// After any list of shifts, each of which took a block from a segment that had one, the count of each
/// segment is what counting from scratch over all of them gives: its arrivals, less its departures.
pub fn counts_from_scratch()
    ensures { (shifts : List Shift) (seg : SegName) → AreSound [] shifts
        → count_of (after_shifts [] shifts) seg + departures seg shifts ≡ arrivals seg shifts }
{}
