//! What is claimed of a run of the xFS nodes, in one place. `specs/Safe.antt` is the claim, in two records: `specs/Outside.antt` is what a caller or a reader of the
//! text sees, `specs/Inside.antt` what nodes keep inside, on which that rests. Each other file of `specs/` is a subject, and `specs/Lib.antt` lists them in the
//! order in which they are read. There are definitions alone: the nodes, machines, formats and plays of which they speak stand below, the laws that show them
//! above.
#![tactic(auto)]
