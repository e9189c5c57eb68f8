//! Nodes that may keep a shelf.
ghost use Rattle.std.specs.Prelude.{◌≡◌, MatchOption, None, Some};
ghost use Rattle.shelved_nodes.specs.Shelves.{ShelvesChange, first_shelf};

use fragment_store::Shelf;
use world_base::Member;

/// A node of a world that may keep a shelf: a server does, and no other node. At each event its shelf changes by one call at
/// most.
pub trait Shelved: Member {
    ghost use Rattle.std.specs.Prelude.{Option, List as Seq};
    ghost use Rattle.fragment_store.specs.ShelfState.{ShelfState};
    ghost use Rattle.version_model.specs.declared.work.Work.{Work};
    ghost use Rattle.wire_msg.specs.declared.packet.Do.{Do};
    ghost use Rattle.xfs_base.specs.declared.node.NodeId.{NodeId};
    ghost use Rattle.xfs_base.specs.declared.setup.Setup.{Setup};

    /// What it keeps; none where it keeps no shelf.
    ghost shelf_of: { Self → Option ShelfState };

    /// Its shelf, where it keeps one. Takes no memory.
    fn shelf(&self) -> Option<&Shelf>
        ensures { MatchOption result (shelf_of self.now ≡ None) (λ shelf. shelf_of self.now ≡ Some shelf.now) };

    /// An event changes the shelf by one call at most.
    ghost changes_by_one: { (node : Self) (what : Do) → ShelvesChange what (shelf_of node) (shelf_of (Self.transition node what).node) };

    /// Before the first event a server has an empty shelf, and no other node has one.
    ghost begins_empty: { (node : NodeId) (setup : Setup) (items : Seq Work) → shelf_of (Self.first node setup items) ≡ first_shelf node };
}
