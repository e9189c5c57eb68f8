//! Values that were worked outside the program, run as one test: sums and products of bytes, and stripes with each
//! pattern of missing fragments. What they show, the clauses of `parity_kernel` and `stripe_code` say; here it is
//! seen that the definitions which those clauses name are the ones that were meant. They stand in a crate of their
//! own, since a crate with a test is proved twice.
#![tactic(auto)]

#[cfg(test)]
mod products;
#[cfg(test)]
mod stripes;
#[cfg(test)]
mod tests;
