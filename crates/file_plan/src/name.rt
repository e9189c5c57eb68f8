//! Names of files and directories.
ghost use Rattle.std.specs.Prelude.{◌≡◌, IfOk, IsTrue, Some, None, if◌then◌else◌};
ghost use Rattle.std.specs.List.{list_all};
ghost use Rattle.file_plan.specs.Names.{is_good, is_name_byte, has_name_length, is_dots, bucket_number, name_cmp};

use std::alloc::Global;
use std::cmp::Ordering;
use std::marker::Model;
use xfs_base::{Copied, Crosses, List, Mem, Text};

/// A name in a directory: 1 to 60 letters, digits, `.`, `_` and `-`, and neither `.` nor `..`. Contracts
/// see its bytes. Names are ordered by their bytes.
pub struct Name {
    text: Text,
}

impl Drop for Name {
    fn drop(self) {
        let Name { text } = self;
        drop(text);
    }
}

impl Model for Name {
    ghost use Rattle.std.specs.Prelude.{◌≡◌, List as Seq, ℕ, true};
    ghost use Rattle.file_plan.specs.Names.{is_good};

    ghost Value = { Seq ℕ };

    ghost view = { λ name. name.text };

    ghost invariant = { λ name. is_good name.text ≡ true };
}

impl Name {
    /// The name of these bytes, where they are one.
    pub fn of(alloc: Global, bytes: &[u8]) -> Mem<Option<Name>>
        ensures { IfOk result (λ name. name ≡ (if is_good bytes.now then Some bytes.now else None)) }
    {
        if !is_good(bytes) {
            return Ok(None);
        }
        Ok(Some(Name::of_good(alloc, bytes)?))
    }

    /// The name of these bytes, which are one.
    pub(crate) fn of_good(alloc: Global, bytes: &[u8]) -> Mem<Name>
        requires { IsTrue (is_good bytes.now) }
        ensures { IfOk result (λ name. name ≡ bytes.now) }
    {
        Ok(Name {
            text: Text::of(alloc, bytes)?,
        })
    }

    /// Its bytes.
    pub fn as_bytes(&self) -> &[u8]
        ensures bytes { result.now ≡ self.now }
        ensures good { IsTrue (is_good self.now) }
    {
        self.text.as_bytes()
    }

    /// Where this name stands to another in the order of names.
    pub fn order(&self, other: &Name) -> Ordering
        ensures { result ≡ name_cmp self.now other.now }
    {
        self.text.as_bytes().cmp(other.text.as_bytes())
    }

    /// The bucket of a directory in which it stands, 0 to 7: the sum of its bytes, mod 8.
    pub fn bucket(&self) -> u32
        ensures { result ≡ bucket_number self.now }
    {
        bucket_number(self.text.as_bytes())
    }

    /// A name equal to this one.
    pub fn copy(&self, alloc: Global) -> Mem<Name>
        ensures { IfOk result (λ copied. copied ≡ self.now) }
    {
        Ok(Name {
            text: self.text.copy(alloc)?,
        })
    }
}

impl Copied for Name {
    fn copied(&self, alloc: Global) -> Mem<Name> {
        self.copy(alloc)
    }
}

impl Crosses for Name {}

fn bucket_number(name: &[u8]) -> u32
    ensures { result ≡ bucket_number name.now }
{
    let mut sum = 0u32;
    for byte in name {
        sum = (sum + u32::from(*byte)) % 8;
    }
    sum
}

fn is_name_byte(byte: u8) -> bool
    ensures { result ≡ is_name_byte byte }
{
    matches!(byte, b'0'..=b'9' | b'A'..=b'Z' | b'a'..=b'z' | b'.' | b'_' | b'-')
}

fn has_name_length(name: &[u8]) -> bool
    ensures { result ≡ has_name_length name.now }
{
    1 <= name.len() && name.len() <= 60
}

fn has_name_bytes(name: &[u8]) -> bool
    ensures { result ≡ list_all is_name_byte name.now }
{
    name.iter().all(|byte| is_name_byte(*byte))
}

fn is_dots(name: &[u8]) -> bool
    ensures { result ≡ is_dots name.now }
{
    name == b".".as_slice() || name == b"..".as_slice()
}

/// Whether these bytes are a name.
#[tactic(auto, unfolding(crate::specs::Names::is_good))]
pub fn is_good(name: &[u8]) -> bool
    ensures { result ≡ is_good name.now }
{
    if !has_name_length(name) {
        return false;
    }
    if !has_name_bytes(name) {
        return false;
    }
    !is_dots(name)
}

/// The names of a path, where all are names.
pub fn names_of(alloc: Global, path: &List<Text>) -> Mem<Option<List<Name>>>
    ensures { IfOk result (λ names. names ≡ (if list_all is_good path.now then Some path.now else None)) }
{
    let mut names = List::new(alloc);
    for text in path.as_slice() {
        match Name::of(alloc, text.as_bytes())? {
            None => return Ok(None),
            Some(name) => names.push(name)?,
        }
    }
    Ok(Some(names))
}
