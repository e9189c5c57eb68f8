//! What all cells of one run agree on.
use std::marker::Brand;

/// The name of a run: what stands before its first event. Each call that runs nodes by worker threads picks
/// one.
pub trait RunName {
    ghost use Rattle.std.specs.Prelude.{List as Seq};
    ghost use Rattle.script_text.specs.declared.script.Script.{Script};
    ghost use Rattle.live_links.specs.Ends.{Out};

    /// What the nodes are to do.
    ghost script: { Script };

    /// The ends by which each node sends, as they were made: by sender, then by receiver.
    ghost outs: { Seq (Seq Out) };
}

impl RunName for Brand {
    ghost use Rattle.std.specs.Prelude.{[], false};

    ghost script = { record { setup = record { clients = 1; managers = 1; servers = 3; groups = []; cache = 1; acts = false }; lines = [] } };

    ghost outs = { [] };
}
