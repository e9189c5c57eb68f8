//! Printing a script.
ghost use Rattle.std.specs.Prelude.{◌≡◌, ◌≤◌, ◌-◌, ◌∷◌, ◌++◌, [], length, false, IfOk, OnOk};
ghost use Rattle.std.specs.List.{repeat};
ghost use Rattle.xfs_base.specs.Limits.{max_bytes};
ghost use Rattle.script_text.specs.Script.{IsScriptOf};
ghost use Rattle.script_print.specs.Printing.{after_text, item_text, items_text, printed, IsScript};

use crate::setup_text::{add_setup, line_count};
use crate::spelling::add_decimal;
use crate::work_text::add_work;
use script_text::{Line, Script};
use std::alloc::Global;
use xfs_base::{Mem, Text};

/// Appends empty lines.
fn add_empty_lines(out: &mut Text, count: usize) -> Mem<()>
    ensures { OnOk result (out.new ≡ out.old ++ repeat count (10 ∷ [])) }
{
    for _ in 0..count {
        out.add(b"\n")?;
    }
    Ok(())
}

/// Appends that an item is not begun before its node has made so many events, where it is so.
fn add_after(alloc: Global, out: &mut Text, after: u32) -> Mem<()>
    ensures { OnOk result (out.new ≡ out.old ++ after_text after) }
{
    if after == 0 {
        return Ok(());
    }
    out.add(b"after ")?;
    add_decimal(alloc, out, after)?;
    out.add(b" ")?;
    Ok(())
}

/// Appends an item, behind as many empty lines as bring it to its number; the line before them has this
/// one.
fn add_item(alloc: Global, out: &mut Text, before: usize, line: &Line) -> Mem<()>
    ensures { OnOk result (out.new ≡ out.old ++ item_text before line.now) }
{
    let number = line.number as usize;
    add_empty_lines(out, number.saturating_sub(before).saturating_sub(1))?;
    add_after(alloc, out, line.after)?;
    add_work(alloc, out, &line.work)?;
    out.add(b"\n")?;
    Ok(())
}

/// Appends items behind the line of this number.
fn add_items(alloc: Global, out: &mut Text, before: usize, lines: &[Line]) -> Mem<()>
    ensures { OnOk result (out.new ≡ out.old ++ items_text before lines.now) }
{
    let mut number = before;
    for line in lines {
        add_item(alloc, out, number, line)?;
        number = line.number as usize;
    }
    Ok(())
}

/// The text of a script.
fn text_of(alloc: Global, script: &Script) -> Mem<Text>
    ensures { IfOk result (λ text. text ≡ printed script.now) }
{
    let mut out = Text::new(alloc);
    add_setup(alloc, &mut out, &script.setup)?;
    let before = line_count(&script.setup);
    add_items(alloc, &mut out, before, script.lines.as_slice())?;
    Ok(out)
}

/// The one text of a script: the lines of its setup, `cache` only where it is not 64, and then each item
/// at its line, with empty lines between, `after N` only where N is not 0, and each text between quotes
/// without a count. Where the text has at most 1,048,576 bytes, it spells that very script. A work that
/// no line asks for has an empty line.
pub fn print(alloc: Global, script: &Script) -> Mem<Text>
    ensures exact { IfOk result (λ text. text ≡ printed script.now) }
    ensures again { IfOk result (λ text. IsScript script.now → length text ≤ max_bytes → IsScriptOf false text script.now) }
{
    text_of(alloc, script)
}
