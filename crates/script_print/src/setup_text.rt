//! The lines of a setup.
ghost use Rattle.std.specs.Prelude.{◌≡◌, ◌∷◌, ◌++◌, [], length, map, OnOk};
ghost use Rattle.std.specs.Fmt.{decimal};
ghost use Rattle.script_print.specs.Printing.{ended, gives, spaced, group_word, group_line, cache_lines, acts_lines, setup_lines};

use crate::spelling::add_number;
use std::alloc::Global;
use xfs_base::{GroupSetup, Mem, Setup, Text};

/// Appends a line that gives a number to a name.
fn add_given(alloc: Global, out: &mut Text, name: &[u8], number: u32) -> Mem<()>
    ensures { OnOk result (out.new ≡ out.old ++ ended (gives name.now number ∷ [])) }
{
    out.add(name)?;
    add_number(alloc, out, number)?;
    out.add(b"\n")?;
    Ok(())
}

/// Appends each of these numbers behind a space.
fn add_servers(alloc: Global, out: &mut Text, servers: &[u8]) -> Mem<()>
    ensures { OnOk result (out.new ≡ out.old ++ spaced (map decimal servers.now)) }
{
    for server in servers {
        add_number(alloc, out, *server as u32)?;
    }
    Ok(())
}

/// The word that begins the line of a group.
fn group_word(parity: u8) -> &'static [u8]
    ensures { result.now ≡ group_word parity }
{
    if parity == 2 { b"group2" } else { b"group" }
}

/// Appends the line of a group.
fn add_group(alloc: Global, out: &mut Text, group: &GroupSetup) -> Mem<()>
    ensures { OnOk result (out.new ≡ out.old ++ ended (group_line group.now ∷ [])) }
{
    out.add(group_word(group.parity))?;
    add_servers(alloc, out, group.servers.as_slice())?;
    out.add(b"\n")?;
    Ok(())
}

/// Appends the lines of the groups.
fn add_groups(alloc: Global, out: &mut Text, groups: &[GroupSetup]) -> Mem<()>
    ensures { OnOk result (out.new ≡ out.old ++ ended (map group_line groups.now)) }
{
    for group in groups {
        add_group(alloc, out, group)?;
    }
    Ok(())
}

/// Appends how many clean blocks a client caches, where it is not what holds without a line.
fn add_cache(alloc: Global, out: &mut Text, cache: u16) -> Mem<()>
    ensures { OnOk result (out.new ≡ out.old ++ ended (cache_lines cache)) }
{
    if cache == 64 {
        Ok(())
    } else {
        add_given(alloc, out, b"cache", cache as u32)
    }
}

/// Appends that the acts are printed, where they are.
fn add_acts(out: &mut Text, acts: bool) -> Mem<()>
    ensures { OnOk result (out.new ≡ out.old ++ ended (acts_lines acts)) }
{
    if acts { out.add(b"acts\n") } else { Ok(()) }
}

/// Appends the lines of a setup.
pub fn add_setup(alloc: Global, out: &mut Text, setup: &Setup) -> Mem<()>
    ensures { OnOk result (out.new ≡ out.old ++ ended (setup_lines setup.now)) }
{
    add_given(alloc, out, b"xfs", 1)?;
    add_given(alloc, out, b"clients", setup.clients as u32)?;
    add_given(alloc, out, b"managers", setup.managers as u32)?;
    add_given(alloc, out, b"servers", setup.servers as u32)?;
    add_groups(alloc, out, setup.groups.as_slice())?;
    add_cache(alloc, out, setup.cache)?;
    add_acts(out, setup.acts)?;
    Ok(())
}

/// How many lines say how many clean blocks a client caches.
fn cache_count(cache: u16) -> usize
    ensures { result ≡ length (cache_lines cache) }
{
    if cache == 64 { 0 } else { 1 }
}

/// How many lines say that the acts are printed.
fn acts_count(acts: bool) -> usize
    ensures { result ≡ length (acts_lines acts) }
{
    if acts { 1 } else { 0 }
}

/// How many lines a setup has.
#[tactic(auto, using(crate::proofs::Extracts::lines_count))]
pub fn line_count(setup: &Setup) -> usize
    ensures { result ≡ length (setup_lines setup.now) }
{
    4 + setup.groups.as_slice().len() + cache_count(setup.cache) + acts_count(setup.acts)
}
