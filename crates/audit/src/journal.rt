//! Reading and judging a journal.
ghost use Rattle.std.specs.Prelude.{◌≡◌, ◌<◌, length, slice_get, Ok, Some, IfOk, OnOk, IfErr};
ghost use Rattle.script_text.specs.Outcome.{Fails};
ghost use Rattle.audit.specs.Journal.{is_skipped, said, noted, is_past, read_journal, IsBad, AnswersJournal, IsAudited};

use crate::act::read_act;
use script_text::reading::{first_line, refused};
use script_text::{Kind, LineError, ScriptError};
use std::alloc::Global;
use version_model::{Act, Verdict, legal};
use xfs_base::List;
use xfs_base::limits::MAX_BYTES;

/// The acts of a journal, and the numbers of their lines.
pub struct Journal {
    pub(crate) acts: List<Act>,
    pub(crate) lines: List<u64>,
}

impl Drop for Journal {
    fn drop(self) {
        let Journal { acts, lines } = self;
        drop(acts);
        drop(lines);
    }
}

/// Whether a line is of a run's text and tells no act.
fn is_skipped(line: &[u8]) -> bool
    ensures { result ≡ is_skipped line.now }
{
    match line {
        [] => true,
        [b'e', b'n', b'd', ..] => true,
        [first, ..] => first.is_ascii_digit(),
    }
}

/// Whether a line that ends at this place of an input of so many bytes is past the limit.
fn is_past(total: usize, end: usize) -> bool
    ensures { result ≡ is_past total end }
{
    total > MAX_BYTES && end > MAX_BYTES
}

impl Journal {
    /// Notes what a line says.
    fn take(&mut self, alloc: Global, number: u32, line: &[u8]) -> Result<(), LineError>
        ensures noted { OnOk result ((act : _) × (said line.now ≡ Ok act) × (self.new ≡ noted self.old number act)) }
        ensures fault { IfErr result (λ error. Fails error (said line.now)) }
    {
        if is_skipped(line) {
            return Ok(());
        }
        let act = read_act(alloc, line)?;
        self.acts.push(act)?;
        self.lines.push(u64::from(number))?;
        Ok(())
    }

    /// The line of an act, by its place.
    fn line_of(&self, place: u64) -> u64
        requires { place < length self.now.lines }
        ensures { slice_get self.now.lines place ≡ Some result }
    {
        match self.lines.get(place as usize) {
            Some(line) => *line,
            None => 0,
        }
    }
}

/// The journal of the bytes, or the first bad line.
fn read_journal(alloc: Global, bytes: &[u8]) -> Result<Journal, ScriptError>
    ensures journal { AnswersJournal result (read_journal bytes.now) }
    ensures even { IfOk result (λ journal. length journal.acts ≡ length journal.lines) }
{
    let total = bytes.len();
    let mut journal = Journal {
        acts: List::new(alloc),
        lines: List::new(alloc),
    };
    let mut rest = bytes;
    let mut number = 1;
    let mut end = 0;
    while !rest.is_empty() {
        let (line, after) = first_line(rest);
        end += line.len() + 1;
        if is_past(total, end) {
            return Err(ScriptError::Bad(number, Kind::TooLong));
        }
        match journal.take(alloc, number, line) {
            Ok(()) => {}
            Err(error) => return Err(refused(number, error)),
        }
        number += 1;
        rest = after;
    }
    Ok(journal)
}

/// Whether the acts of a journal are legal: `Legal` with their number, or `Illegal` with the number of the
/// line of the first that is not. Lines of a run's text that tell no act are skipped. `Bad` names the
/// first bad line and its kind.
pub fn audit(alloc: Global, bytes: &[u8]) -> Result<Verdict, ScriptError>
    ensures judged { IfOk result (λ verdict. IsAudited bytes.now verdict) }
    ensures refused { IfErr result (λ error. IsBad error (read_journal bytes.now)) }
{
    let journal = read_journal(alloc, bytes)?;
    match legal(alloc, journal.acts.as_slice()) {
        Ok(Verdict::Legal(count)) => Ok(Verdict::Legal(count)),
        Ok(Verdict::Illegal(act)) => Ok(Verdict::Illegal(journal.line_of(act - 1))),
        Err(_) => Err(ScriptError::Memory),
    }
}
