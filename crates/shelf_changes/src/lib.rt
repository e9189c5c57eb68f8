//! What an event changes of a server's shelf: one call of it at most makes the shelf after the event of the one before. So a shelf
//! that is kept beside the server, on a disk, can follow it event by event. It has no code of the product: its function has an
//! empty body, and its contract is a law.
#![tactic(auto)]

pub mod server_shelf;

pub use server_shelf::server_events_change_a_shelf_by_one_call;
