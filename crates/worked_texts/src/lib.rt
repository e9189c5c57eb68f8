//! Texts that were worked outside the program, run as one test: scripts drawn and refused, and segments both ways.
//! What they show, the clauses of `script_text`, `script_print` and `segment_format` say; here it is seen that the
//! definitions which those clauses name are the ones that were meant. They stand in a crate of their own, since a
//! crate with a test is proved twice.
#![tactic(auto)]

#[cfg(test)]
mod scripts;
#[cfg(test)]
mod segments;
#[cfg(test)]
mod tests;
