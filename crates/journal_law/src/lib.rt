//! The law of journals: what the text of a run prints of its acts is read as these very acts. It has no code: each function below has an empty body, and
//! its contract is a law.
#![tactic(auto)]

ghost use Rattle.journal_law.specs.Journals.{JournalsAreReadAsPrinted, VerdictsAreOnTheActs};
ghost use Rattle.journal_law.specs.Runs.{AreFrontsJudgedLegal, IsJudgedByItsActs, IsJudgedLegal, IsReadAsPrinted, IsSaidOfTheRun, LegalIsTheOneVerdict};
ghost use Rattle.journal_law.specs.Told.{ActsAreReadAsPrinted, ActsHaveOneLine, NoOtherActIsRead};

use world_base::Estate;

/// Which acts a line tells, and that it tells just one.
///
/// - `one_line`: an act whose numbers and values are within their ranges has one line.
/// - `read`: that line is read as that act.
/// - `no_others`: no other act is ever read.
pub fn acts_are_read_as_printed()
    ensures one_line { ActsHaveOneLine }
    ensures read { ActsAreReadAsPrinted }
    ensures no_others { NoOtherActIsRead }
{}

/// Lines of acts one after the other, with lines among them that tell none, of at most 1,048,576 bytes.
///
/// - `read`: they are read as just these acts, in their order.
/// - `judged`: what is said of them is the verdict on these acts, with the number of the line of the first that is not legal.
pub fn journals_are_read_as_printed()
    ensures read { JournalsAreReadAsPrinted }
    ensures judged { VerdictsAreOnTheActs }
{}

/// The text of a run whose script asks for the acts, of at most 1,048,576 bytes.
///
/// - `read`: it is read as just the run's acts, but for answers, in their order.
/// - `judged`: what is said of it is the verdict on these acts, with the number of the line of the first that is not legal.
/// - `said`: all acts of the run are legal where the verdict says so, and not where it names a line.
pub fn runs_are_read_as_printed<N>(estate: &Estate<N>)
    ensures read { IsReadAsPrinted estate.now }
    ensures judged { IsJudgedByItsActs estate.now }
    ensures said { IsSaidOfTheRun estate.now }
{}

/// The text of a run whose acts are legal.
///
/// - `whole`: it is said to be legal, where it is printed as above.
/// - `fronts`: so is the front of it that ends with acts that are legal, where each can be told and no answer of the run has a line feed.
/// - `only`: of bytes of which that is said nothing else is.
pub fn legal_runs_are_said_to_be<N>(estate: &Estate<N>)
    ensures whole { IsJudgedLegal estate.now }
    ensures fronts { AreFrontsJudgedLegal estate.now }
    ensures only { LegalIsTheOneVerdict }
{}
