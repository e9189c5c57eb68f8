//! The words of the command line.
ghost use Rattle.std.specs.Prelude.{◌≡◌, true, false, map, string_bytes, MatchOption, Some};
ghost use Rattle.script_text.specs.Reading.{number_in};
ghost use Rattle.top_call.specs.Commands.{drawn_of, command_of_word, command_live, command_drawn, command_of, is_live, HasFewTurns};

use script_text::word::number_of;

/// The most that the number of a generated script may be.
const MAX_NUMBER: u32 = 2_147_483_647;

/// The most turns of a generated script.
const MAX_TURNS: u32 = 2_000;

/// The most workers of a run.
const MAX_WORKERS: u32 = 16;

/// What the words ask for.
#[derive(Clone, Copy, PartialEq, Eq)]
pub enum Command {
    /// `run`: plays the script that is read.
    Run,
    /// `live W`: runs the script that is read by so many workers, 1 to 16.
    Live(u8),
    /// `mount W`: runs it so, with an application for each client that calls its items from a thread of its own.
    Mount(u8),
    /// `gen NUMBER N`: writes a generated script.
    Gen(Drawn),
    /// `big NUMBER N`: plays a generated script.
    Big(Drawn),
    /// `audit`: judges the journal that is read.
    Audit,
    /// `boards`: plays the script that is read with three boards in the registry's place.
    Boards,
    /// `disks`: plays the script that is read with servers that stop and keep their disk.
    Disks,
}

/// Which script is generated.
#[derive(Clone, Copy, PartialEq, Eq)]
pub struct Drawn {
    /// The number that draws it, at most 2,147,483,647.
    pub number: u32,
    /// How many turns it has, at most 2,000.
    pub turns: u32,
}

/// The number of a word, at most this.
fn number_within(limit: u32, word: &String) -> Option<u32>
    ensures { result ≡ number_in 0 limit (string_bytes word.now) }
{
    match number_of(word.as_bytes()) {
        None => None,
        Some(number) => { if number <= limit { Some(number) } else { None } }
    }
}

/// How many workers a word asks for.
fn workers_of(word: &String) -> Option<u8>
    ensures { result ≡ number_in 1 16 (string_bytes word.now) }
{
    match number_of(word.as_bytes()) {
        None => None,
        Some(number) => {
            if 1 <= number && number <= MAX_WORKERS {
                Some(number as u8)
            } else {
                None
            }
        }
    }
}

/// The generated script that two words name.
fn drawn_of(number: &String, turns: &String) -> Option<Drawn>
    ensures { result ≡ drawn_of (string_bytes number.now) (string_bytes turns.now) }
{
    match (
        number_within(MAX_NUMBER, number),
        number_within(MAX_TURNS, turns),
    ) {
        (Some(number), Some(turns)) => Some(Drawn { number, turns }),
        _ => None,
    }
}

/// What one word asks for.
fn command_of_word(word: &str) -> Option<Command>
    ensures { result ≡ command_of_word word.now }
{
    if word == "run" {
        return Some(Command::Run);
    }
    if word == "audit" {
        return Some(Command::Audit);
    }
    if word == "boards" {
        return Some(Command::Boards);
    }
    if word == "disks" {
        return Some(Command::Disks);
    }
    None
}

/// What two words ask for.
fn command_live(word: &str, workers: Option<u8>) -> Option<Command>
    ensures { result ≡ command_live word.now workers }
{
    let workers = workers?;
    if word == "live" {
        return Some(Command::Live(workers));
    }
    if word == "mount" {
        return Some(Command::Mount(workers));
    }
    None
}

/// What three words ask for.
fn command_drawn(word: &str, drawn: Option<Drawn>) -> Option<Command>
    ensures { result ≡ command_drawn word.now drawn }
{
    let drawn = drawn?;
    if word == "gen" {
        return Some(Command::Gen(drawn));
    }
    if word == "big" {
        return Some(Command::Big(drawn));
    }
    None
}

/// What the words after the program's name ask for; none where they are no form.
pub fn read_words(words: &[String]) -> Option<Command>
    ensures command { result ≡ command_of (map string_bytes words.now) }
    ensures few { HasFewTurns result }
{
    match words {
        [word] => command_of_word(word.as_str()),
        [word, workers] => command_live(word.as_str(), workers_of(workers)),
        [word, number, turns] => command_drawn(word.as_str(), drawn_of(number, turns)),
        _ => None,
    }
}

/// What the words ask for where they start threads; none where they are no form or start none.
pub fn threads_asked(words: &[String]) -> Option<Command>
    ensures { MatchOption result (is_live (command_of (map string_bytes words.now)) ≡ false)
        (λ command. (command_of (map string_bytes words.now) ≡ Some command) × (is_live (Some command) ≡ true)) }
{
    let command = read_words(words)?;
    match command {
        Command::Live(_) => Some(command),
        Command::Mount(_) => Some(command),
        Command::Run => None,
        Command::Gen(_) => None,
        Command::Big(_) => None,
        Command::Audit => None,
        Command::Boards => None,
        Command::Disks => None,
    }
}
