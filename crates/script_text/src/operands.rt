//! The node that a line begins with, and the words behind its first two.
ghost use Rattle.std.specs.Prelude.{◌≡◌};
ghost use Rattle.script_text.specs.Words.{words, first, behind};
ghost use Rattle.script_text.specs.Outcome.{Answers, or_fault};
ghost use Rattle.script_text.specs.declared.refusal.Kind.TheVariants.{BadNumber};
ghost use Rattle.script_text.specs.Reading.{number_in, read_node, read_path};

use crate::LineError;
use crate::part::{read_node, read_number};
use crate::path::read_path;
use crate::word::Words;
use std::alloc::Global;
use xfs_base::{List, Setup, Text};

/// The words behind the first two.
pub fn operands(line: &[u8]) -> Words
    ensures { result ≡ behind (behind (words line.now)) }
{
    let mut words = Words::of(line);
    let _ = words.next();
    let _ = words.next();
    words
}

/// The node that a line begins with, of this letter and of so many.
fn acting(letter: u8, count: u8, line: &[u8]) -> Result<u8, LineError>
    ensures { Answers result (read_node letter count (first (words line.now))) }
{
    let mut words = Words::of(line);
    read_node(letter, count, &mut words)
}

/// The client that a line begins with.
pub fn client(setup: &Setup, line: &[u8]) -> Result<u8, LineError>
    ensures { Answers result (read_node 99 setup.now.clients (first (words line.now))) }
{
    acting(b'c', setup.clients, line)
}

/// The manager that a line begins with.
pub fn manager(setup: &Setup, line: &[u8]) -> Result<u8, LineError>
    ensures { Answers result (read_node 109 setup.now.managers (first (words line.now))) }
{
    acting(b'm', setup.managers, line)
}

/// The storage server that a line begins with.
pub fn server(setup: &Setup, line: &[u8]) -> Result<u8, LineError>
    ensures { Answers result (read_node 115 setup.now.servers (first (words line.now))) }
{
    acting(b's', setup.servers, line)
}

/// The board that a line begins with.
pub fn board(line: &[u8]) -> Result<u8, LineError>
    ensures { Answers result (read_node 98 3 (first (words line.now))) }
{
    acting(b'b', 3, line)
}

/// The number behind the first two words, at least and at most this.
pub fn number_behind(least: u32, limit: u32, line: &[u8]) -> Result<u32, LineError>
    ensures { Answers result (or_fault BadNumber (number_in least limit (first (behind (behind (words line.now)))))) }
{
    let mut words = operands(line);
    read_number(least, limit, &mut words)
}

/// The path behind the first two words.
pub fn path(alloc: Global, line: &[u8]) -> Result<List<Text>, LineError>
    ensures { Answers result (read_path (first (behind (behind (words line.now))))) }
{
    let mut words = operands(line);
    read_path(alloc, &mut words)
}
