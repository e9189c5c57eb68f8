//! What is held, in every run of the nodes' world: of each block, what of it is settled (`settled_law`), that a sync means settled (`sync_law`), and what
//! managers believe that clients hold (`belief_law`); of each filed segment, its fragments at servers, each at its place, by which it is read back
//! (`stripe_law`); and where the cleaner comes back, that just one of its incarnation is filed (`boot_law`). It has no code of the product: its functions call
//! the laws that they stand on, and their contracts are laws.
#![tactic(auto)]

pub mod belief_law;
pub mod boot_law;
pub mod settled_law;
pub mod stripe_law;
pub mod sync_law;
