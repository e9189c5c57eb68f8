//! Reading an item.
ghost use Rattle.std.specs.Prelude.{◌≡◌};
ghost use Rattle.script_text.specs.Words.{words, behind, or_empty};
ghost use Rattle.script_text.specs.Outcome.{Answers};
ghost use Rattle.script_text.specs.Script.{is_timed, untimed};
ghost use Rattle.script_text.specs.Reading.{form_in, read_after, read_item};

use crate::form::{form_of, is_net};
use crate::part::read_number;
use crate::word::{Words, spells};
use crate::work::work_of;
use crate::{Form, Kind, LineError};
use std::alloc::Global;
use version_model::Work;
use xfs_base::Setup;

/// What an item asks for.
#[derive(Drop)]
pub struct Item {
    /// In a run with threads the item is not begun before its node has made so many events.
    pub after: u32,
    /// What it asks for.
    pub work: Work,
}

/// Whether a line begins with `after N`.
fn is_timed(line: &[u8]) -> bool
    ensures { result ≡ is_timed (words line.now) }
{
    let mut words = Words::of(line);
    spells(words.next(), b"after")
}

/// What stands behind the first two words.
fn behind_time(line: &[u8]) -> &[u8]
    ensures { words result.now ≡ or_empty (behind (behind (words line.now))) }
{
    let mut words = Words::of(line);
    let _ = words.next();
    let _ = words.next();
    words.rest()
}

/// What stands behind `after N`, where it stands.
fn untimed(line: &[u8]) -> &[u8]
    ensures { words result.now ≡ untimed (words line.now) }
{
    if is_timed(line) {
        behind_time(line)
    } else {
        line
    }
}

/// The form of a line whose words behind `after N` these are.
fn form_in(line: &[u8], body: &[u8]) -> Result<Form, LineError>
    requires { words body.now ≡ untimed (words line.now) }
    ensures { Answers result (form_in (words line.now)) }
{
    match form_of(body) {
        None => Err(LineError::Bad(Kind::BadWord)),
        Some(form) => {
            if is_timed(line) && is_net(form) {
                Err(LineError::Bad(Kind::BadWord))
            } else {
                Ok(form)
            }
        }
    }
}

/// The N of `after N`; 0 where it does not stand.
fn read_after(line: &[u8]) -> Result<u32, LineError>
    ensures { Answers result (read_after (words line.now)) }
{
    let mut words = Words::of(line);
    if spells(words.next(), b"after") {
        read_number(0, u32::MAX, &mut words)
    } else {
        Ok(0)
    }
}

/// The item of a line. No form has its words (`BadWord`), or else the first part at fault counts, from
/// left to right.
pub fn read_item(alloc: Global, setup: &Setup, room: usize, line: &[u8]) -> Result<Item, LineError>
    ensures { Answers result (read_item (record { setup = setup.now; room = room }) (words line.now)) }
{
    let body = untimed(line);
    let form = form_in(line, body)?;
    let after = read_after(line)?;
    let work = work_of(alloc, setup, room, form, body)?;
    Ok(Item { after, work })
}
