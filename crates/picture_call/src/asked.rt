//! What the words of `xfs_picture` ask for.
ghost use Rattle.std.specs.Prelude.{◌≡◌, map, string_bytes};
ghost use Rattle.picture_call.specs.Asking.{asked_of, lines_between, lines_by, one_word, span_of, word_of};

use run_chart::Span;
use script_text::Line;
use script_text::word::number_of;

/// What is to be drawn.
#[derive(Clone, Copy, PartialEq, Eq)]
pub enum Asked {
    /// All that happened.
    All,
    /// What happened from the begin of the first item at or behind one line to that of the first behind another.
    Lines(u32, u32),
    /// All that happened with three boards in the registry's place.
    Boards,
    /// All that happened with servers that stop and keep their disk.
    Disks,
}

/// The lines from one number to another that doesn't stand before it.
fn lines_between(first: Option<u32>, last: Option<u32>) -> Option<Asked>
    ensures { result ≡ lines_between first last }
{
    match (first, last) {
        (Some(first), Some(last)) => {
            if first <= last {
                Some(Asked::Lines(first, last))
            } else {
                None
            }
        }
        _ => None,
    }
}

/// What three words ask for.
fn lines_by(word: &str, first: &String, last: &String) -> Option<Asked>
    ensures { result ≡ lines_by word.now (string_bytes first.now) (string_bytes last.now) }
{
    if word == "lines" {
        return lines_between(number_of(first.as_bytes()), number_of(last.as_bytes()));
    }
    None
}

/// What one word asks for.
fn one_word(word: &str) -> Option<Asked>
    ensures { result ≡ one_word word.now }
{
    if word == "boards" {
        return Some(Asked::Boards);
    }
    if word == "disks" {
        return Some(Asked::Disks);
    }
    None
}

/// What the words after the program's name ask for; none where they are no form.
pub fn read_words(words: &[String]) -> Option<Asked>
    ensures { result ≡ asked_of (map string_bytes words.now) }
{
    match words {
        [] => Some(Asked::All),
        [word] => one_word(word.as_str()),
        [word, first, last] => lines_by(word.as_str(), first, last),
        _ => None,
    }
}

impl Asked {
    /// Which events of a script's run are drawn.
    pub fn span(self, lines: &[Line]) -> Span
        ensures { result ≡ span_of self lines.now }
    {
        match self {
            Asked::All => Span::Whole,
            Asked::Lines(first, last) => Span::of_lines(lines, first, last),
            Asked::Boards => Span::Whole,
            Asked::Disks => Span::Whole,
        }
    }

    /// The word by which `xfs` plays what is to be drawn.
    pub fn word(self) -> &'static str
        ensures { result.now ≡ word_of self }
    {
        match self {
            Asked::All => "run",
            Asked::Lines(_, _) => "run",
            Asked::Boards => "boards",
            Asked::Disks => "disks",
        }
    }
}
