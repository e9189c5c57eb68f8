//! One of three boards that stand in the registry's place and agree on one list of commands: what it keeps, and what
//! it does on a command that is offered, a packet of another board, a beat, a stop and a start. `board_protocol` says
//! what three of them keep to, whatever is lost. This crate knows nothing of the registry: what it gives is what the
//! node sends or applies next.
#![tactic(auto)]

mod ballots;
pub mod board;
pub mod command;
mod comparing;
mod following;
pub mod input;
pub mod laws;
mod leading;
pub mod lengths;
pub mod offering;
pub mod output;
pub mod packet;
mod waiting;

pub use board::Board;
pub use command::Command;
pub use input::In;
pub use lengths::Lengths;
pub use output::Out;
pub use packet::{BoardBody, BoardPacket};
