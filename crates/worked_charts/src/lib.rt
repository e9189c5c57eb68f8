//! The marks of a run that were reckoned by hand, run as one test: of a script in which a packet is lost and
//! another is repeated. What the picture of a run shows, the clauses of `run_chart` say of every run; here it is
//! seen that a packet that is lost is one short arrow, and one that is repeated two arrows from one row. It stands
//! in a crate of its own, since a crate with a test is proved twice.
#![tactic(auto)]

pub mod marks;
#[cfg(test)]
mod tests;
