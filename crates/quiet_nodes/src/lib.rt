//! The nodes of a quiet run, each event of theirs exactly: what a client does where its next item begins, at a Grant, a Stored, a DeltaAck; what a manager does at a
//! Want and at Deltas; what a server does at a Store; and how layers of packets lead from one scene of all nodes to the next. It has no code: the function
//! below has an empty body, and its contract is a law.
#![tactic(auto)]

ghost use Rattle.core_world.specs.AnyNode.{any_step};
ghost use Rattle.quiet_flow.specs.Follow.{IsBlind};

/// No node looks at the clock of a packet: whatever it is, the node does the same at its delivery. So a run is told by the flow of packets alone.
pub fn clocks_are_not_read()
    ensures blind { IsBlind any_step }
{}
