//! Runs by worker threads, as tests: what no contract says of them, that threads are at work, and that what comes by a ring
//! is taken. They stand in a crate of their own, since a crate with a test is proved twice.
#![tactic(auto)]

#[cfg(test)]
mod calls;
#[cfg(test)]
mod meeting;
#[cfg(test)]
mod tests;
#[cfg(test)]
mod waiting;
