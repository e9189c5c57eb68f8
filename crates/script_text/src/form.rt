//! The forms of items: a table of which parts a line of each form has.
ghost use Rattle.std.specs.Prelude.{◌≡◌, ◌<◌, IfSome};
ghost use Rattle.std.specs.List.{position, list_all};
ghost use Rattle.script_text.specs.Words.{words};
ghost use Rattle.script_text.specs.Forms.{parts, verb, all_forms, is_digit, are_digits, is_numbered, looks, piece_of, behind_part, has_words, is_net};
ghost use Rattle.script_text.specs.Reading.{form_of};

use crate::word::{Words, spells};
use xfs_base::limits::{MAX_DELIVERIES, MAX_TEXT};

/// What a line asks for, by its words.
#[derive(Clone, Copy)]
pub enum Form {
    /// `cK bput INO BLK TEXT`
    Bput,
    /// `cK bget INO BLK`
    Bget,
    /// `cK sync`
    Sync,
    /// `cK mk PATH`
    Mk,
    /// `cK mkdir PATH`
    Mkdir,
    /// `cK put PATH OFF TEXT`
    Put,
    /// `cK get PATH OFF LEN`
    Get,
    /// `cK size PATH`
    Size,
    /// `cK ls PATH`
    Ls,
    /// `cK rm PATH`
    Rm,
    /// `cK mv PATH PATH`
    Mv,
    /// `cK crash`
    ClientCrash,
    /// `cK restart`
    ClientRestart,
    /// `cl crash`
    CleanerCrash,
    /// `cl restart`
    CleanerRestart,
    /// `cl clean N`
    Clean,
    /// `mK crash`
    ManagerCrash,
    /// `mK restart`
    ManagerRestart,
    /// `mK checkpoint`
    Checkpoint,
    /// `sK lose`
    Lose,
    /// `sK rebuild`
    Rebuild,
    /// `sK stop N`
    ServerStop,
    /// `sK start`
    ServerStart,
    /// `reg move SLOT mK`
    Move,
    /// `bK stop`
    BoardStop,
    /// `bK start`
    BoardStart,
    /// `net lose N`
    NetLose,
    /// `net again N`
    NetAgain,
    /// `net mix NUMBER`
    NetMix,
    /// `net hold`
    NetHold,
    /// `net go`
    NetGo,
    /// `net step N`
    NetStep,
}

/// A part of a line.
#[derive(Clone, Copy)]
pub enum Part {
    /// The word `cl`.
    Cleaner,
    /// The word `reg`.
    Registry,
    /// The word `net`.
    Network,
    /// The word that names what is asked for.
    Verb,
    /// A client: `c` and its number.
    Client,
    /// A manager: `m` and its number.
    Manager,
    /// A storage server: `s` and its number.
    Server,
    /// A board of the registry: `b` and its number.
    Board,
    /// A number, at least the first and at most the second.
    Number(u32, u32),
    /// A raw index number.
    Raw,
    /// A path.
    Path,
    /// The text of a block: the rest of the line.
    BlockText,
    /// A text for a file: the rest of the line.
    FileText,
}

/// All forms.
const FORMS: [Form; 32] = [
    Form::Bput,
    Form::Bget,
    Form::Sync,
    Form::Mk,
    Form::Mkdir,
    Form::Put,
    Form::Get,
    Form::Size,
    Form::Ls,
    Form::Rm,
    Form::Mv,
    Form::ClientCrash,
    Form::ClientRestart,
    Form::CleanerCrash,
    Form::CleanerRestart,
    Form::Clean,
    Form::ManagerCrash,
    Form::ManagerRestart,
    Form::Checkpoint,
    Form::Lose,
    Form::Rebuild,
    Form::ServerStop,
    Form::ServerStart,
    Form::Move,
    Form::BoardStop,
    Form::BoardStart,
    Form::NetLose,
    Form::NetAgain,
    Form::NetMix,
    Form::NetHold,
    Form::NetGo,
    Form::NetStep,
];

/// The parts of a line of this form, from left to right.
fn parts(form: Form) -> &'static [Part]
    ensures { result.now ≡ parts form }
{
    match form {
        Form::Bput => &[
            Part::Client,
            Part::Verb,
            Part::Raw,
            Part::Number(0, u32::MAX),
            Part::BlockText,
        ],
        Form::Bget => &[
            Part::Client,
            Part::Verb,
            Part::Number(0, u32::MAX),
            Part::Number(0, u32::MAX),
        ],
        Form::Sync | Form::ClientCrash | Form::ClientRestart => &[Part::Client, Part::Verb],
        Form::Mk | Form::Mkdir | Form::Size | Form::Ls | Form::Rm => &[
            Part::Client,
            Part::Verb,
            Part::Path,
        ],
        Form::Put => &[
            Part::Client,
            Part::Verb,
            Part::Path,
            Part::Number(0, u32::MAX),
            Part::FileText,
        ],
        Form::Get => &[
            Part::Client,
            Part::Verb,
            Part::Path,
            Part::Number(0, u32::MAX),
            Part::Number(0, MAX_TEXT as u32),
        ],
        Form::Mv => &[Part::Client, Part::Verb, Part::Path, Part::Path],
        Form::CleanerCrash | Form::CleanerRestart => &[Part::Cleaner, Part::Verb],
        Form::Clean => &[Part::Cleaner, Part::Verb, Part::Number(1, 100)],
        Form::ManagerCrash | Form::ManagerRestart | Form::Checkpoint => &[
            Part::Manager,
            Part::Verb,
        ],
        Form::Lose | Form::Rebuild | Form::ServerStart => &[Part::Server, Part::Verb],
        Form::ServerStop => &[Part::Server, Part::Verb, Part::Number(0, 1000)],
        Form::Move => &[
            Part::Registry,
            Part::Verb,
            Part::Number(0, 7),
            Part::Manager,
        ],
        Form::BoardStop | Form::BoardStart => &[Part::Board, Part::Verb],
        Form::NetLose | Form::NetAgain | Form::NetStep => &[
            Part::Network,
            Part::Verb,
            Part::Number(0, MAX_DELIVERIES),
        ],
        Form::NetMix => &[Part::Network, Part::Verb, Part::Number(0, 2147483647)],
        Form::NetHold | Form::NetGo => &[Part::Network, Part::Verb],
    }
}

/// The word that names what a form asks for.
fn verb(form: Form) -> &'static [u8]
    ensures { result.now ≡ verb form }
{
    match form {
        Form::Bput => b"bput",
        Form::Bget => b"bget",
        Form::Sync => b"sync",
        Form::Mk => b"mk",
        Form::Mkdir => b"mkdir",
        Form::Put => b"put",
        Form::Get => b"get",
        Form::Size => b"size",
        Form::Ls => b"ls",
        Form::Rm => b"rm",
        Form::Mv => b"mv",
        Form::ClientCrash | Form::CleanerCrash | Form::ManagerCrash => b"crash",
        Form::ClientRestart | Form::CleanerRestart | Form::ManagerRestart => b"restart",
        Form::Clean => b"clean",
        Form::Checkpoint => b"checkpoint",
        Form::Lose | Form::NetLose => b"lose",
        Form::Rebuild => b"rebuild",
        Form::ServerStop | Form::BoardStop => b"stop",
        Form::ServerStart | Form::BoardStart => b"start",
        Form::Move => b"move",
        Form::NetAgain => b"again",
        Form::NetMix => b"mix",
        Form::NetHold => b"hold",
        Form::NetGo => b"go",
        Form::NetStep => b"step",
    }
}

/// Whether a form speaks of the network.
pub fn is_net(form: Form) -> bool
    ensures { result ≡ is_net form }
{
    matches!(
        form,
        Form::NetLose | Form::NetAgain | Form::NetMix | Form::NetHold | Form::NetGo | Form::NetStep
    )
}

fn is_digit(b: u8) -> bool
    ensures { result ≡ is_digit b }
{
    b'0' <= b && b <= b'9'
}

fn all_digits(digits: &[u8]) -> bool
    ensures { result ≡ list_all is_digit digits.now }
{
    digits.iter().all(|b| is_digit(*b))
}

/// Whether these are digits, at least one.
fn are_digits(digits: &[u8]) -> bool
    ensures { result ≡ are_digits digits.now }
{
    match digits {
        [] => false,
        [_, ..] => all_digits(digits),
    }
}

/// Whether a word is this letter and then digits, at least one.
fn is_numbered(letter: u8, word: &[u8]) -> bool
    ensures { result ≡ is_numbered letter word.now }
{
    match word {
        [] => false,
        [b, digits @ ..] => *b == letter && are_digits(digits),
    }
}

/// Whether a word may stand for this part, whatever its number or its text.
fn looks(part: Part, verb: &[u8], word: &[u8]) -> bool
    ensures { result ≡ looks part verb.now word.now }
{
    match part {
        Part::Cleaner => spells(word, b"cl"),
        Part::Registry => spells(word, b"reg"),
        Part::Network => spells(word, b"net"),
        Part::Verb => spells(word, verb),
        Part::Client => is_numbered(b'c', word),
        Part::Manager => is_numbered(b'm', word),
        Part::Server => is_numbered(b's', word),
        Part::Board => is_numbered(b'b', word),
        _ => true,
    }
}

/// Takes what a part is spelled by: the rest of the line for a text, a word for every other.
pub fn take_piece<'a>(part: Part, words: &mut Words<'a>) -> &'a [u8]
    ensures piece { result.now ≡ piece_of part words.old }
    ensures left { words.new ≡ behind_part part words.old }
{
    match part {
        Part::BlockText => words.rest(),
        Part::FileText => words.rest(),
        _ => words.next(),
    }
}

/// Whether a line has the words of these parts, and no more.
fn has_words(parts: &[Part], verb: &[u8], line: &[u8]) -> bool
    ensures { result ≡ has_words verb.now parts.now (words line.now) }
{
    let mut words = Words::of(line);
    for part in parts {
        if words.is_end() {
            return false;
        }
        let piece = take_piece(*part, &mut words);
        if !looks(*part, verb, piece) {
            return false;
        }
    }
    words.is_end()
}

/// Whether a line has the words of a form.
fn is_of(form: Form, line: &[u8]) -> bool
    ensures { result ≡ has_words (verb form) (parts form) (words line.now) }
{
    has_words(parts(form), verb(form), line)
}

/// Where the form whose words a line has stands among all.
fn place_of(line: &[u8]) -> Option<usize>
    ensures place { result ≡ position (λ f. has_words (verb f) (parts f) (words line.now)) all_forms }
    ensures below { IfSome result (λ i. i < 32) }
{
    FORMS.iter().position(|form| is_of(*form, line))
}

/// The form whose words a line has; none where no form has them.
pub fn form_of(line: &[u8]) -> Option<Form>
    ensures { result ≡ form_of (words line.now) }
{
    match place_of(line) {
        None => None,
        Some(place) => Some(FORMS[place]),
    }
}
