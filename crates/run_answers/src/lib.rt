//! What a run's answers say, in every run of the nodes: each item is answered at most once, by its own node, after its Begin (`once_law`), what a client
//! answers it has acted (`act_law`), what any node answers fits where it stands (`standing_law`), what is due as an item
//! begins is answered (`due_law`), clients act for their items alone (`own_law`), and so each run is linearizable
//! (`linear_law`) and calls find the versions that blocks have (`change_law`), items that begin in turn find no node busy
//! (`turn_law`), what a server, a manager, a client or a cleaner that serves, and the registry are asked is answered
//! (`reply_law`), a client whose call is open has asked for what it lacks (`wait_law`), what isn't acknowledged is said again
//! (`repeat_law`), logs are filed number by number (`file_law`), what is counted is so (`number_law`, `checkpoint_law`), and a
//! cleaning takes what is due (`clean_law`). It has no code of the product: its functions call the laws that they stand on,
//! and their contracts are laws.
//!
//! Each module is a law of its own: what it says of a run stands in the crate `headline`, what else it says in `specs/`, its lemmas in `proofs/`, below the
//! module's name.
#![tactic(auto)]

pub mod act_law;
pub mod change_law;
pub mod checkpoint_law;
pub mod clean_law;
pub mod due_law;
pub mod file_law;
pub mod linear_law;
pub mod number_law;
pub mod once_law;
pub mod own_law;
pub mod repeat_law;
pub mod reply_law;
pub mod standing_law;
pub mod turn_law;
pub mod wait_law;
