//! What an event of a node makes of a quiet run where a client reads a block that it doesn't hold: it asks for a copy, is granted one, and fetches it from the
//! members of a group where the block lies in a log; definitions and proofs about them. It has no code: the function below has an empty body, and its contract is
//! a law.
#![tactic(auto)]

ghost use Rattle.quiet_reads.specs.Laws.{HeldFragmentsAreTold};

/// What a server of a quiet run is asked for it tells.
///
/// - `told`: a client that fetches the fragment of a segment from a server that holds it is told it, and the server stays as it is.
pub fn held_fragments_are_told()
    ensures told { HeldFragmentsAreTold }
{}
