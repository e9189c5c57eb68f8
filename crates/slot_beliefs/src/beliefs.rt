//! Who is believed to hold each block.
ghost use Rattle.std.specs.Prelude.{◌≡◌, ◌==◌, ◌&&◌, ◌||◌, ◌∷◌, ◌++◌, not, OnOk, IfOk, IfSome, IfNone, [], if◌then◌else◌};
ghost use Rattle.xfs_base.specs.Modes.{is_own};
ghost use Rattle.slot_beliefs.specs.Beliefs.{holder, IsBelieved, others, forget_block, beliefs_own, beliefs_hold, meet_want, disown, give_way, believe, all_believed};

use crate::job::{Holder, Wanted};
use std::alloc::Global;
use std::collections::BTreeMap;
use xfs_base::{BlockId, List, Mem, Mode};

// The least of all clients that may hold a block.
fn first_holder(block: BlockId) -> Holder
    ensures { result ≡ holder block 0 }
{
    Holder { block, client: 0 }
}

/// The other clients that are believed to hold a block, or just those that are believed to own it.
pub fn others(
    alloc: Global,
    beliefs: &BTreeMap<Holder, bool>,
    block: BlockId,
    client: u8,
    owners: bool,
) -> Mem<List<u8>>
    ensures { IfOk result (λ clients. clients ≡ others beliefs.now.entries block client owners) }
{
    let mut clients = List::new(alloc);
    add_others(&mut clients, beliefs, block, client, owners)?;
    Ok(clients)
}

fn add_others(
    clients: &mut List<u8>,
    beliefs: &BTreeMap<Holder, bool>,
    block: BlockId,
    client: u8,
    owners: bool,
) -> Mem<()>
    ensures { OnOk result (clients.new ≡ clients.old ++ others beliefs.now.entries block client owners) }
{
    for (holder, owns) in beliefs.range(first_holder(block)..) {
        if holder.block != block {
            break;
        }
        add_other(clients, *holder, *owns, client, owners)?;
    }
    Ok(())
}

// Lists who holds a block, where it is one of the others.
fn add_other(
    clients: &mut List<u8>,
    holder: Holder,
    owns: bool,
    client: u8,
    owners: bool,
) -> Mem<()>
    ensures { OnOk result (clients.new ≡ (if not (holder.client == client) && (owns || not owners) then clients.old ++ holder.client ∷ [] else clients.old)) }
{
    if !is_other(holder, owns, client, owners) {
        return Ok(());
    }
    clients.push(holder.client)
}

// Whether who holds a block is another client, and one that owns it where only owners count.
fn is_other(holder: Holder, owns: bool, client: u8, owners: bool) -> bool
    ensures { result ≡ not (holder.client == client) && (owns || not owners) }
{
    holder.client != client && (owns || !owners)
}

// The first client that is believed to hold a block.
fn first_believed(beliefs: &BTreeMap<Holder, bool>, block: BlockId) -> Option<Holder>
    ensures found { IfSome result (λ holder. IsBelieved beliefs.now.entries block holder) }
    ensures none { IfNone result (forget_block beliefs.now.entries block ≡ beliefs.now.entries) }
{
    match beliefs.range(first_holder(block)..).next() {
        Some((holder, _)) => {
            if holder.block == block {
                return Some(*holder);
            }
            None
        }
        None => None,
    }
}

fn forget_block(beliefs: &mut BTreeMap<Holder, bool>, block: BlockId)
    ensures { beliefs.new.entries ≡ forget_block beliefs.old.entries block }
{
    while let Some(holder) = first_believed(beliefs, block) {
        beliefs.remove(&holder);
    }
}

fn own(beliefs: &mut BTreeMap<Holder, bool>, holder: Holder) -> Mem<()>
    ensures { OnOk result (beliefs.new.entries ≡ beliefs_own beliefs.old.entries holder) }
{
    forget_block(beliefs, holder.block);
    beliefs.insert(holder, true)?;
    Ok(())
}

fn hold(beliefs: &mut BTreeMap<Holder, bool>, holder: Holder) -> Mem<()>
    ensures { OnOk result (beliefs.new.entries ≡ beliefs_hold beliefs.old.entries holder) }
{
    if !beliefs.contains_key(&holder) {
        beliefs.insert(holder, false)?;
    }
    Ok(())
}

/// Believes that the asker has what it wants.
pub fn meet_want(beliefs: &mut BTreeMap<Holder, bool>, want: Wanted) -> Mem<()>
    ensures { OnOk result (beliefs.new.entries ≡ meet_want beliefs.old.entries want) }
{
    let holder = Holder {
        block: want.block,
        client: want.client,
    };
    if want.mode.is_own() {
        own(beliefs, holder)
    } else {
        hold(beliefs, holder)
    }
}

fn disown(beliefs: &mut BTreeMap<Holder, bool>, holder: Holder)
    ensures { beliefs.new.entries ≡ disown beliefs.old.entries holder }
{
    if let Some(owns) = beliefs.get_mut(&holder) {
        *owns = false;
    }
}

/// Believes that a client gave a block up to one that wants it: it may keep a copy, unless the other writes.
pub fn give_way(beliefs: &mut BTreeMap<Holder, bool>, holder: Holder, wanted: Mode)
    ensures { beliefs.new.entries ≡ give_way beliefs.old.entries holder (not (is_own wanted)) }
{
    if wanted.is_own() {
        beliefs.remove(&holder);
    } else {
        disown(beliefs, holder);
    }
}

#[tactic(auto, unfolding(crate::specs::Beliefs::believe))]
fn believe(beliefs: &mut BTreeMap<Holder, bool>, belief: (BlockId, u8, Mode)) -> Mem<()>
    ensures { OnOk result (beliefs.new.entries ≡ believe beliefs.old.entries belief) }
{
    let (block, client, mode) = belief;
    if mode.is_nothing() {
        return Ok(());
    }
    beliefs.insert(Holder { block, client }, mode.is_own())?;
    Ok(())
}

/// The beliefs that a list names.
pub fn all_believed(alloc: Global, list: &[(BlockId, u8, Mode)]) -> Mem<BTreeMap<Holder, bool>>
    ensures { IfOk result (λ beliefs. beliefs.entries ≡ all_believed [] list.now) }
{
    let mut beliefs = BTreeMap::new(alloc);
    for belief in list {
        believe(&mut beliefs, *belief)?;
    }
    Ok(beliefs)
}
