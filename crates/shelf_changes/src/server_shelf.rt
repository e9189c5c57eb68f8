//! What an event changes of a server's shelf. It has no code: the function below has an empty body, and its contract is a law.
//! `specs/Changes.antt` lists the calls.

ghost use Rattle.shelf_changes.specs.Changes.{EventsChangeByOne};

/// Whatever happens to a storage server, its shelf is then what it was, or what one call makes of it: a store of the fragment that
/// came, which the shelf doesn't refuse; a fence or a deletion that came; a fragment that is filled in as what came for the rebuild
/// ends a round of it; or the loss of the disk, as an item begins.
pub fn server_events_change_a_shelf_by_one_call()
    ensures { EventsChangeByOne }
{}
