//! The law of the boards that stand in the registry's place: whatever is lost, repeated or reordered, and whichever boards stop and start, there is one list of
//! chosen commands, and a run with boards stands for a run of all nodes with one registry. `board_tie` ties the machine of one board to the abstract protocol. It has
//! no code: each function has an empty body, and its contract is a law.
#![tactic(auto)]

ghost use Rattle.board_law.specs.OneList.{BoardsHaveOneList, ChosenListsGrow, WhatTwoHadIsChosen};
ghost use Rattle.board_law.specs.OneRun.{RunsWithBoardsAreOneRun};

pub mod board_tie;

/// There is one list of chosen commands, at each moment of every run of the boards in which each packet of a board that comes was sent.
///
/// - `one`: what a board shows to be chosen stands at the front of it; what a board has applied is its front, and its registry is the one that this makes; what
///   its registry sent, the one registry that takes the whole list sends; and the boards are those of a moment of the abstract protocol, at which it is chosen.
/// - `grows`: it only grows.
/// - `whole`: a list that two boards had with one ballot, each at a moment of its own, stands at the front of it.
pub fn boards_have_one_list()
    ensures one { BoardsHaveOneList }
    ensures grows { ChosenListsGrow }
    ensures whole { WhatTwoHadIsChosen }
{}

/// A run with boards stands for one run: the events that it stands for are a run of the script, of all nodes with one registry, which took the chosen commands,
/// each once, in their order; and each packet that a board's registry sent, this registry sent.
pub fn runs_with_boards_are_one_run<N>()
    ensures { RunsWithBoardsAreOneRun N }
{}
