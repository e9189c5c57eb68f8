//! The one spelling of numbers, nodes, texts and paths.
ghost use Rattle.std.specs.Prelude.{◌≡◌, ◌<◌, ◌∷◌, ◌++◌, OnOk};
ghost use Rattle.std.specs.Fmt.{decimal};
ghost use Rattle.std.specs.List.{list_all};
ghost use Rattle.script_text.specs.Text.{is_plain, hex_digit, quoted};
ghost use Rattle.script_text.specs.Spelling.{slashed};
ghost use Rattle.script_print.specs.Printing.{byte_text, text_body, path_text};

use std::alloc::Global;
use xfs_base::{List, Mem, Text};

/// Appends a number.
pub fn add_decimal(alloc: Global, out: &mut Text, number: u32) -> Mem<()>
    ensures { OnOk result (out.new ≡ out.old ++ decimal number) }
{
    out.add(number.to_string(alloc)?.as_str().as_bytes())
}

/// Appends a node: its letter and its number.
pub fn add_node(alloc: Global, out: &mut Text, letter: u8, number: u8) -> Mem<()>
    ensures { OnOk result (out.new ≡ out.old ++ letter ∷ decimal number) }
{
    out.add(&[letter])?;
    add_decimal(alloc, out, number as u32)?;
    Ok(())
}

/// Appends a space and a word.
pub fn add_word(out: &mut Text, word: &[u8]) -> Mem<()>
    ensures { OnOk result (out.new ≡ out.old ++ 32 ∷ word.now) }
{
    out.add(b" ")?;
    out.add(word)?;
    Ok(())
}

/// Appends a space and a number.
pub fn add_number(alloc: Global, out: &mut Text, number: u32) -> Mem<()>
    ensures { OnOk result (out.new ≡ out.old ++ 32 ∷ decimal number) }
{
    out.add(b" ")?;
    add_decimal(alloc, out, number)?;
    Ok(())
}

fn is_plain(b: u8) -> bool
    ensures { result ≡ is_plain b }
{
    0x20 <= b && b <= 0x7e && b != b'"' && b != b'\\'
}

fn hex_digit(n: u8) -> u8
    requires { n < 16 }
    ensures { result ≡ hex_digit n }
{
    if n < 10 { b'0' + n } else { b'a' - 10 + n }
}

/// Appends a byte of a text: as itself, behind a backslash, or in two hexadecimal digits.
fn add_byte(out: &mut Text, b: u8) -> Mem<()>
    ensures { OnOk result (out.new ≡ out.old ++ byte_text b) }
{
    if is_plain(b) {
        out.add(&[b])
    } else if b == b'"' || b == b'\\' {
        out.add(&[b'\\', b])
    } else {
        out.add(&[b'\\', b'x', hex_digit(b / 16), hex_digit(b % 16)])
    }
}

/// How many bytes of a text are asked at once whether all stand for themselves.
const PIECE: usize = 256;

/// Whether each of these bytes stands for itself. All are looked at, so that the machine looks at many at once.
fn are_plain(bytes: &[u8]) -> bool
    ensures { result ≡ list_all is_plain bytes.now }
{
    let mut plain = true;
    for b in bytes {
        plain = plain & is_plain(*b);
    }
    plain
}

/// Appends the bytes of a text; those that stand for themselves, in runs.
fn add_runs(out: &mut Text, bytes: &[u8]) -> Mem<()>
    ensures { OnOk result (out.new ≡ out.old ++ text_body bytes.now) }
{
    let mut from = 0;
    for at in 0..bytes.len() {
        if !is_plain(bytes[at]) {
            out.add(&bytes[from..at])?;
            add_byte(out, bytes[at])?;
            from = at + 1;
        }
    }
    out.add(&bytes[from..])?;
    Ok(())
}

/// Appends the bytes of a text: all at once where each stands for itself.
fn add_piece(out: &mut Text, bytes: &[u8]) -> Mem<()>
    ensures { OnOk result (out.new ≡ out.old ++ text_body bytes.now) }
{
    if are_plain(bytes) {
        out.add(bytes)
    } else {
        add_runs(out, bytes)
    }
}

/// Appends the bytes of a text, piece by piece.
fn add_body(out: &mut Text, bytes: &[u8]) -> Mem<()>
    ensures { OnOk result (out.new ≡ out.old ++ text_body bytes.now) }
{
    let mut rest = bytes;
    while PIECE < rest.len() {
        let (piece, more) = rest.split_at(PIECE);
        add_piece(out, piece)?;
        rest = more;
    }
    add_piece(out, rest)
}

/// Appends a text between quotes.
pub fn add_quoted(out: &mut Text, bytes: &[u8]) -> Mem<()>
    ensures { OnOk result (out.new ≡ out.old ++ quoted (text_body bytes.now)) }
{
    out.add(b"\"")?;
    add_body(out, bytes)?;
    out.add(b"\"")?;
    Ok(())
}

/// Appends a space and a text between quotes.
pub fn add_text(out: &mut Text, bytes: &[u8]) -> Mem<()>
    ensures { OnOk result (out.new ≡ out.old ++ 32 ∷ quoted (text_body bytes.now)) }
{
    out.add(b" ")?;
    add_quoted(out, bytes)
}

/// Appends each name behind a slash.
fn add_names(out: &mut Text, path: &[Text]) -> Mem<()>
    ensures { OnOk result (out.new ≡ out.old ++ slashed path.now) }
{
    for name in path {
        out.add(b"/")?;
        out.add(name.as_bytes())?;
    }
    Ok(())
}

/// Appends a space and a path.
#[tactic(auto, using(crate::proofs::Loops::no_path, crate::proofs::Loops::some_path))]
pub fn add_path(out: &mut Text, path: &List<Text>) -> Mem<()>
    ensures { OnOk result (out.new ≡ out.old ++ 32 ∷ path_text path.now) }
{
    if path.is_empty() {
        out.add(b" /")?;
        Ok(())
    } else {
        out.add(b" ")?;
        add_names(out, path.as_slice())?;
        Ok(())
    }
}
