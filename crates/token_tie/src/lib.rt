//! The token machines are steps of the abstract token protocol: what a client's tokens and a manager's slot do on each input, seen at one block, is a list of
//! steps of the client, or of the reigning manager, whose guards the machine itself meets. What a machine can't know is a premise: that packets were sent,
//! and what is assumed of logs, which is handed on by its name. It has no code: each function below has an empty body, and its contract is a law.
#![tactic(auto)]

ghost use Rattle.token_tie.specs.Epochs.{SuppliesNewest, RestartShows, ActivationShows, ActivationManages, ReportsBelieved};
ghost use Rattle.token_tie.specs.Inputs.{TakesInputs, OwnsAndWrites, OwnsAndDeclines, SettlesBlocks};
ghost use Rattle.token_tie.specs.SlotInputs.{SlotTakes};

/// What a client's tokens do on an input is a list of steps of that client, which tell of the block just the write that the input is, if it is one.
///
/// - `takes`: every input, of this block or another, but for a granted Own of this block and news that a version of it is settled.
/// - `owns`: a granted Own of this block, with the write of the waiting call in the same event.
/// - `declines`: the same, where the call finds its version changed and the block is evicted at once.
/// - `settles`: a settled segment, which is a step at every block, with what the tokens are told of this one.
pub fn client_inputs()
    ensures takes { TakesInputs }
    ensures owns { OwnsAndWrites }
    ensures declines { OwnsAndDeclines }
    ensures settles { SettlesBlocks }
{}

/// What a slot does on an input, in any state that it reaches from a start at which owners are alone, is a list of steps of the reigning manager, which tell no
/// act.
pub fn slot_inputs()
    ensures { SlotTakes }
{}

/// What forwards, returns, takeovers and reports rest on.
///
/// - `supplies`: who serves a Forward supplies the history's value of that version, where holders have the newest.
/// - `restart`: a client that returns is seen as one that holds and asks nothing, in its new incarnation and under its new promise.
/// - `activation_of_client`, `activation_of_slot`: when a later epoch begins to reign, clients are seen as before, and the slot that starts is seen as the
///   new manager.
/// - `reports`: what each client holds is believed once all have reported.
pub fn epochs()
    ensures supplies { SuppliesNewest }
    ensures restart { RestartShows }
    ensures activation_of_client { ActivationShows }
    ensures activation_of_slot { ActivationManages }
    ensures reports { ReportsBelieved }
{}
