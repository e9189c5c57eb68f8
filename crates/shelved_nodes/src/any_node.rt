//! A node of any kind, as one that may keep a shelf.
use crate::Shelved;
use core_world::AnyNode;
use fragment_store::Shelf;

impl Shelved for AnyNode {
    ghost use Rattle.shelved_nodes.specs.AnyShelf.{any_first_shelf, any_shelf, any_shelf_changes};

    ghost shelf_of = { any_shelf };

    fn shelf(&self) -> Option<&Shelf> {
        match self {
            AnyNode::Client(_) => None,
            AnyNode::Manager(_) => None,
            AnyNode::Server(node) => Some(node.shelf()),
            AnyNode::Cleaner(_) => None,
            AnyNode::Registry(_) => None,
        }
    }

    ghost changes_by_one = { any_shelf_changes };

    ghost begins_empty = { any_first_shelf };
}
