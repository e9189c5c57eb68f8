//! What an event of the registry is made of. It has no code: the function below has an empty body, and its contract is a law.
//! `specs/registry_moves/Moves.antt` lists the moves.

ghost use Rattle.node_moves.specs.registry_moves.Moves.{RegistryEventsAreMoves};

/// Whatever happens to the registry, its board takes what came or what an item asks for, or nothing; and then all that it does is of the board as that left it:
/// it tells the maps, welcomes who said Hello, acknowledges a checkpoint, or answers an item with an epoch.
pub fn registry_events_are_moves()
    ensures { RegistryEventsAreMoves }
{}
