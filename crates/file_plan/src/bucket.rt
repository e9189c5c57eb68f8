//! The form of a bucket: its entries in strictly rising order of names, each the byte of its kind, its
//! index number in four bytes, the length of its name in one, and its name.
ghost use Rattle.std.specs.Prelude.{◌≡◌, ◌&&◌, ◌++◌, ◌<◌, ◌+◌, IfOk, IfSome, OnOk, None, Some, length, IsTrue};
ghost use Rattle.std.specs.FinMap.Entries.{is_sorted};
ghost use Rattle.file_plan.specs.Names.{name_cmp, is_good};
ghost use Rattle.file_plan.specs.Format.{kind_byte, kind_of, is_kind_byte, row_text, bucket_bytes, has_row, front_row, rest_of_rows, rows_from, read_rows};

use crate::name::is_good;
use crate::{Kind, Name, Node};
use std::alloc::Global;
use xfs_base::{Ino, List, Mem};

fn kind_byte(kind: Kind) -> u8
    ensures { result ≡ kind_byte kind }
{
    match kind {
        Kind::File => 1,
        Kind::Directory => 2,
    }
}

fn kind_of(byte: u8) -> Kind
    ensures { result ≡ kind_of byte }
{
    if byte == 1 {
        Kind::File
    } else {
        Kind::Directory
    }
}

fn is_kind_byte(byte: u8) -> bool
    ensures { result ≡ is_kind_byte byte }
{
    byte == 1 || byte == 2
}

fn add_row(bytes: &mut Vec<u8>, name: &Name, node: Node) -> Mem<()>
    ensures { OnOk result (bytes.new.items ≡ bytes.old.items ++ row_text (name.now, node)) }
{
    let text = name.as_bytes();
    bytes.push(kind_byte(node.kind))?;
    bytes.extend_from_slice(node.ino.0.to_be_bytes().as_slice())?;
    bytes.push(text.len() as u8)?;
    bytes.extend_from_slice(text)?;
    Ok(())
}

/// The bytes of the bucket that holds these entries.
pub fn bucket_bytes(alloc: Global, rows: &[(Name, Node)]) -> Mem<Vec<u8>>
    ensures { IfOk result (λ bytes. bytes.items ≡ bucket_bytes rows.now) }
{
    let mut bytes = Vec::new(alloc);
    for (name, node) in rows {
        add_row(&mut bytes, name, *node)?;
    }
    Ok(bytes)
}

fn is_entry(kind: u8, name: &[u8]) -> bool
    ensures { result ≡ (is_kind_byte kind && is_good name.now) }
{
    is_kind_byte(kind) && is_good(name)
}

fn has_row(bytes: &[u8]) -> bool
    ensures { result ≡ has_row bytes.now }
{
    if bytes.len() < 6 {
        return false;
    }
    let length = bytes[5] as usize;
    let (_, text) = bytes.split_at(6);
    if length > text.len() {
        return false;
    }
    let (name, _) = text.split_at(length);
    is_entry(bytes[0], name)
}

fn front_row(alloc: Global, bytes: &[u8]) -> Mem<(Name, Node)>
    requires { IsTrue (has_row bytes.now) }
    ensures { IfOk result (λ row. row ≡ front_row bytes.now) }
{
    let length = bytes[5] as usize;
    let (_, text) = bytes.split_at(6);
    let (name, _) = text.split_at(length);
    let ino = u32::from_be_bytes([bytes[1], bytes[2], bytes[3], bytes[4]]);
    let node = Node {
        kind: kind_of(bytes[0]),
        ino: Ino(ino),
    };
    Ok((Name::of_good(alloc, name)?, node))
}

fn rest_of_rows(bytes: &[u8]) -> &[u8]
    requires { IsTrue (has_row bytes.now) }
    ensures { result.now ≡ rest_of_rows bytes.now }
{
    let length = bytes[5] as usize;
    let (_, text) = bytes.split_at(6);
    let (_, rest) = text.split_at(length);
    rest
}

fn rows_from(alloc: Global, bytes: &[u8]) -> Mem<Option<List<(Name, Node)>>>
    ensures { IfOk result (λ rows. rows ≡ rows_from (length bytes.now) bytes.now) }
{
    let mut rows = List::new(alloc);
    let mut rest = bytes;
    while !rest.is_empty() {
        if has_row(rest) {
            rows.push(front_row(alloc, rest)?)?;
            rest = rest_of_rows(rest);
        } else {
            return Ok(None);
        }
    }
    Ok(Some(rows))
}

fn is_rising(rows: &[(Name, Node)]) -> bool
    ensures { result ≡ is_sorted name_cmp rows.now }
{
    if rows.is_empty() {
        return true;
    }
    for i in 0..rows.len() - 1 {
        if rows[i].0.order(&rows[i + 1].0).is_ge() {
            return false;
        }
    }
    true
}

/// The entries of the bucket that these bytes are: none where they are not the bytes of entries in
/// strictly rising order of names. No bytes are the bucket with no entry.
pub fn read_bucket(alloc: Global, bytes: &[u8]) -> Mem<Option<List<(Name, Node)>>>
    ensures exact { IfOk result (λ rows. rows ≡ read_rows bytes.now) }
    ensures rising { IfOk result (λ rows. IfSome rows (λ rows. IsTrue (is_sorted name_cmp rows))) }
{
    match rows_from(alloc, bytes)? {
        None => Ok(None),
        Some(rows) => {
            if is_rising(rows.as_slice()) {
                Ok(Some(rows))
            } else {
                Ok(None)
            }
        }
    }
}
