//! Reading a script.
ghost use Rattle.std.specs.Prelude.{◌≡◌, ◌⊎◌, ◌<◌, ◌≤◌, ◌+◌, ◌∷◌, length, IfOk, OnOk, IfErr, MatchResult};
ghost use Rattle.xfs_base.specs.Limits.{max_lines};
ghost use Rattle.script_text.specs.Lines.{lines};
ghost use Rattle.script_text.specs.Words.{words};
ghost use Rattle.script_text.specs.Script.{IsScriptOf, IsFirstBad, HasCause, start, is_silent, text_size, is_whole};
ghost use Rattle.script_text.specs.Reading.{LeadsTo, AnswersScript, is_past, behind_said, behind_item, read_other, read_words, read_at, refused, script_at, read_script};

use crate::item::{Item, read_item};
use crate::setup_lines::{Said, begins_setup, said_at};
use crate::stage::{Place, Stage};
use crate::unclosed::open_crash;
use crate::word::cut_at;
use crate::{Kind, Line, LineError, Script, ScriptError};
use std::alloc::Global;
use version_model::{FileCall, Work};
use xfs_base::limits::{MAX_BYTES, MAX_LINES};
use xfs_base::{List, Setup};

/// The most bytes of all texts together, 64 MiB.
const MAX_TEXTS: usize = 67_108_864;

/// The first line, and what stands behind its line feed.
pub fn first_line(bytes: &[u8]) -> (&[u8], &[u8])
    requires { 0 < length bytes.now }
    ensures line { lines bytes.now ≡ result.0.now ∷ lines result.1.now }
    ensures shorter { length result.1.now < length bytes.now }
    ensures within { length result.0.now ≤ length bytes.now }
    ensures more { 0 < length result.1.now → length result.0.now + 1 + length result.1.now ≤ length bytes.now }
{
    match cut_at(bytes, b'\n') {
        Some((line, rest)) => (line, rest),
        None => (bytes, &[]),
    }
}

/// Whether the line of this number, which ends at this place, is past a limit.
fn is_past(total: usize, number: u32, end: usize) -> bool
    ensures { result ≡ is_past total number end }
{
    number > MAX_LINES || total > MAX_BYTES && end > MAX_BYTES
}

/// The place before the first line.
fn start(alloc: Global) -> Place
    ensures { result ≡ start }
{
    Place {
        stage: Stage::Version,
        setup: Setup {
            clients: 0,
            managers: 0,
            servers: 0,
            groups: List::new(alloc),
            cache: 64,
            acts: false,
        },
        room: MAX_TEXTS,
        items: List::new(alloc),
    }
}

/// Whether a setup has all its lines but the optional ones.
fn is_whole(stage: Stage) -> bool
    ensures { result ≡ is_whole stage }
{
    matches!(stage, Stage::Groups | Stage::Cached | Stage::Items)
}

/// Whether a line says nothing.
fn is_silent(line: &[u8]) -> bool
    ensures { result ≡ is_silent line.now }
{
    match line {
        [] => true,
        [b, ..] => *b == b'#',
    }
}

/// How many bytes of texts an item takes.
fn text_size(work: &Work) -> usize
    ensures { result ≡ text_size work.now }
{
    match work {
        Work::Bput { value, .. } => match value.bytes() {
            None => 0,
            Some(bytes) => bytes.len(),
        },
        Work::File { call, .. } => match call {
            FileCall::Put { bytes, .. } => bytes.len(),
            _ => 0,
        },
        _ => 0,
    }
}

/// Notes what a line of the setup says.
fn note_said(place: &mut Place, said: Said) -> Result<(), LineError>
    ensures ok { OnOk result (place.new ≡ behind_said place.old said) }
    ensures err { IfErr result (λ error. error ≡ LineError.Memory) }
{
    match said {
        Said::Version => place.stage = Stage::Clients,
        Said::Clients(number) => {
            place.stage = Stage::Managers;
            place.setup.clients = number;
        }
        Said::Managers(number) => {
            place.stage = Stage::Servers;
            place.setup.managers = number;
        }
        Said::Servers(number) => {
            place.stage = Stage::FirstGroup;
            place.setup.servers = number;
        }
        Said::Group(group) => {
            place.stage = Stage::Groups;
            place.setup.groups.push(group)?;
        }
        Said::Cache(number) => {
            place.stage = Stage::Cached;
            place.setup.cache = number;
        }
        Said::Acts => {
            place.stage = Stage::Items;
            place.setup.acts = true;
        }
    }
    Ok(())
}

/// Notes an item.
fn note_item(place: &mut Place, number: u32, item: Item) -> Result<(), LineError>
    ensures ok { OnOk result (place.new ≡ behind_item number place.old item) }
    ensures err { IfErr result (λ error. error ≡ LineError.Memory) }
{
    place.stage = Stage::Items;
    place.room = place.room.saturating_sub(text_size(&item.work));
    place.items.push(Line {
        number,
        after: item.after,
        work: item.work,
    })?;
    Ok(())
}

/// Notes what a line says that is none of the setup.
fn take_other(alloc: Global, place: &mut Place, number: u32, line: &[u8]) -> Result<(), LineError>
    ensures { LeadsTo result place.new (read_other number place.old (words line.now)) }
{
    if !is_whole(place.stage) || begins_setup(line) {
        return Err(LineError::Bad(Kind::BadSetup));
    }
    let item = read_item(alloc, &place.setup, place.room, line)?;
    note_item(place, number, item)
}

/// Notes what a line says.
fn take_words(alloc: Global, place: &mut Place, number: u32, line: &[u8]) -> Result<(), LineError>
    ensures { LeadsTo result place.new (read_words number place.old (words line.now)) }
{
    match said_at(alloc, place.stage, &place.setup, line)? {
        Some(said) => note_said(place, said),
        None => take_other(alloc, place, number, line),
    }
}

/// Notes what a line says, which ends at this place of an input of so many bytes.
fn take_line(
    alloc: Global,
    place: &mut Place,
    total: usize,
    number: u32,
    end: usize,
    line: &[u8],
) -> Result<(), LineError>
    ensures { LeadsTo result place.new (read_at total number end line.now place.old) }
{
    if is_past(total, number, end) {
        return Err(LineError::Bad(Kind::TooLong));
    }
    if is_silent(line) {
        return Ok(());
    }
    take_words(alloc, place, number, line)
}

/// The script of a place behind the last line, where the next would have this number.
fn script_at(alloc: Global, live: bool, number: u32, place: Place) -> Result<Script, ScriptError>
    ensures { AnswersScript result (script_at live number place) }
{
    if !is_whole(place.stage) {
        return Err(ScriptError::Bad(number, Kind::BadSetup));
    }
    match open_crash(alloc, live, place.items.as_slice()) {
        Ok(None) => Ok(Script {
            setup: place.setup,
            lines: place.items,
        }),
        Ok(Some(line)) => Err(ScriptError::Bad(line, Kind::Unclosed)),
        Err(_) => Err(ScriptError::Memory),
    }
}

/// Why a script is refused whose line of this number is not taken.
pub fn refused(number: u32, error: LineError) -> ScriptError
    ensures { result ≡ refused number error }
{
    match error {
        LineError::Bad(kind) => ScriptError::Bad(number, kind),
        LineError::Memory => ScriptError::Memory,
    }
}

/// The script of the bytes, or the first bad line.
fn read_script(alloc: Global, bytes: &[u8], live: bool) -> Result<Script, ScriptError>
    ensures { AnswersScript result (read_script live bytes.now) }
{
    let total = bytes.len();
    let mut place = start(alloc);
    let mut rest = bytes;
    let mut number = 1;
    let mut end = 0;
    while !rest.is_empty() {
        let (line, after) = first_line(rest);
        end += line.len() + 1;
        match take_line(alloc, &mut place, total, number, end, line) {
            Ok(()) => {}
            Err(error) => return Err(refused(number, error)),
        }
        number += 1;
        rest = after;
    }
    script_at(alloc, live, number, place)
}

/// The script that the bytes spell. `Bad` names the first bad line and its kind, exactly where the bytes
/// spell no script. `live` refuses a script in which a node crashes for good.
pub fn parse(alloc: Global, bytes: &[u8], live: bool) -> Result<Script, ScriptError>
    ensures found { IfOk result (λ script. IsScriptOf live bytes.now script) }
    ensures few { IfOk result (λ script. length script.lines ≤ max_lines) }
    ensures cause { IfErr result (λ error. HasCause live bytes.now error) }
    ensures found_if_any { (script : _) → IsScriptOf live bytes.now script
        → MatchResult result (λ found. found ≡ script) (λ error. error ≡ ScriptError.Memory) }
    ensures refused_if_bad { (number : _) (kind : _) → IsFirstBad live bytes.now number kind
        → MatchResult result (λ found. ⊥) (λ error. (error ≡ ScriptError.Bad number kind) ⊎ (error ≡ ScriptError.Memory)) }
{
    read_script(alloc, bytes, live)
}
