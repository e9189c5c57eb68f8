//! What holds of every opening. Each function stands for the law that its contract states; a call of it
//! does nothing. A history is what an opening took, oldest first.
ghost use Rattle.std.specs.Prelude.{◌≡◌, ℕ, List, Some};
ghost use Rattle.std.specs.List.{AllByRecursion};
ghost use Rattle.xfs_base.specs.declared.fragment.FragMeta.{FragMeta};
ghost use Rattle.xfs_base.specs.declared.segment.LogId.{LogId};
ghost use Rattle.log_scan.specs.declared.input.In.{In};
ghost use Rattle.log_scan.specs.declared.listing.Listing.{Listing};
ghost use Rattle.log_scan.specs.Linked.{IsPicked, TellsLinked, state_after, KeepsStart, TellsStart};
ghost use Rattle.log_scan.specs.Pick.{counting, newest};
ghost use Rattle.log_scan.specs.ScanState.{ScanState, scan_start};
ghost use Rattle.log_scan.specs.Transition.{transition};

/// What is picked is listed and not below the horizon, and of all that is none is of a newer incarnation,
/// of the same incarnation and a greater number, or of the same number too and a greater attempt.
pub fn none_is_newer()
    ensures { (low : ℕ) (lists : List Listing) (picked : FragMeta) → newest (counting low lists) ≡ Some picked → IsPicked low lists picked }
{}

/// Whatever an opening takes, the chain that it tells hangs together: its newest segment is the one that
/// the end names, each other is the prior of the one above it, and the number at which the log goes on,
/// the one after the end's, is above each of them.
pub fn chain_is_linked()
    ensures { (log : LogId) (inc : ℕ) (history : List In) (input : In)
        → AllByRecursion (TellsLinked log) (transition (state_after (scan_start log inc) history) input).outs }
{}

/// The registry is asked for the Welcome by which it is picked when the lists of all servers are in, and it
/// is picked from these; while the chain is read its start stays as it was picked, and what is told in the
/// end is that the log goes on behind it.
pub fn start_is_kept()
    ensures stage { (s : ScanState) (input : In) → KeepsStart s input (transition s input).state.stage }
    ensures told { (s : ScanState) (input : In) → AllByRecursion (TellsStart s input) (transition s input).outs }
{}
