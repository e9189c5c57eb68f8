//! How far a script is read.
use crate::Line;
use xfs_base::{List, Setup};

/// Which line may come next.
#[derive(Clone, Copy)]
pub enum Stage {
    /// `xfs 1`.
    Version,
    /// `clients N`.
    Clients,
    /// `managers N`.
    Managers,
    /// `servers N`.
    Servers,
    /// The first group.
    FirstGroup,
    /// A further group, `cache N`, `acts` or an item.
    Groups,
    /// `acts` or an item.
    Cached,
    /// An item.
    Items,
}

/// What the lines so far say.
#[derive(Drop)]
pub struct Place {
    /// Which line may come next.
    pub stage: Stage,
    /// The setup so far.
    pub setup: Setup,
    /// How many bytes of texts are still free.
    pub room: usize,
    /// The items so far.
    pub items: List<Line>,
}
