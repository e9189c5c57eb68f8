//! What an event makes of the items of its node. It has no code: the function below has an empty body, and its contract is a law. `specs/item_moves/Moves.antt`
//! lists the moves, and `specs/item_moves/Events.antt` says of each kind of node what it makes.

ghost use Rattle.serving_moves.specs.item_moves.Events.{ClientsMoveItems, ManagersMoveItems, ServersMoveItems, TheCleanerMovesItems, TheRegistryMovesItems};

/// Whatever comes to a node of any kind: an item begins only by a Begin, and is the next one; it is answered at once, or waits, or is left aside; the open item
/// is answered only where it ends as its kind does, or a segment is lost, which is said before, or it is cut as the node falls; and no other item is answered.
/// That a segment is lost only a manager says, a client that serves, and one that scans its log.
pub fn events_move_items()
    ensures clients { ClientsMoveItems }
    ensures managers { ManagersMoveItems }
    ensures servers { ServersMoveItems }
    ensures cleaner { TheCleanerMovesItems }
    ensures registry { TheRegistryMovesItems }
{}
