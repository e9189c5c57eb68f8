//! Merging journals to one run.
ghost use Rattle.std.specs.Prelude.{◌≡◌, ◌<◌, ℕ, List as Seq, [], ◌∷◌, length, slice_get, slice_set, Some, None, MatchOption, IfOk, IfSome};
ghost use Rattle.std.specs.List.{Contains};
ghost use Rattle.node_base.specs.Setups.{IsSetup};
ghost use Rattle.version_model.specs.declared.act.Act.{Act as Deed};
ghost use Rattle.world_base.specs.Cluster.{cluster_of, node_at};
ghost use Rattle.world_base.specs.NextWorld.{first_node, first_nodes, start_world};
ghost use Rattle.world_base.specs.Runs.{IsRun};
ghost use Rattle.journals.specs.declared.moment.Moment.{Moment as One};
ghost use Rattle.journals.specs.Journals.{acts_in, whats};
ghost use Rattle.journals.specs.Merging.{AllEmpty, AreTold, IsNext, Rises, Standing, better, head_clock, heads_of, least_from, whats_of};

use crate::merged::Merged;
use crate::{Moment, Rest};
use script_text::Script;
use std::alloc::Global;
use world_base::{Cluster, Estate, Member};
use xfs_base::{List, Mem};

/// The better of two places to go on from: the one with the lesser clock, of equal ones the earlier.
fn better(best: Option<(usize, u64)>, place: usize, clock: Option<u64>) -> Option<(usize, u64)>
    ensures { result ≡ better best place clock }
{
    match clock {
        None => best,
        Some(clock) => match best {
            None => Some((place, clock)),
            Some((other, least)) => {
                if clock < least {
                    Some((place, clock))
                } else {
                    Some((other, least))
                }
            }
        },
    }
}

/// The place of the least of these clocks, and that clock; the least place of several; none where there is none.
fn least(heads: &[Option<u64>]) -> Option<(usize, u64)>
    ensures { result ≡ least_from None 0 heads.now }
{
    let mut best = None;
    for place in 0..heads.len() {
        best = better(best, place, heads[place]);
    }
    best
}

/// The clocks of the first moments.
fn heads_of(alloc: Global, rests: &[Rest]) -> Mem<Vec<Option<u64>>>
    ensures { IfOk result (λ heads. heads.items ≡ heads_of rests.now) }
{
    let mut heads = Vec::new(alloc);
    for rest in rests {
        heads.push(rest.clock())?;
    }
    Ok(heads)
}

/// Takes the first moment at a place, and notes the clock of the one behind it.
fn pop_at(rests: &mut Vec<Rest>, heads: &mut Vec<Option<u64>>, place: usize) -> Option<Moment>
    requires rests { place < length rests.old.items }
    requires heads { place < length heads.old.items }
    ensures { MatchOption result (slice_get rests.old.items place ≡ Some [])
        (λ moment. (tail : Seq One) × (slice_get rests.old.items place ≡ Some (moment ∷ tail)) × (rests.new.items ≡ slice_set rests.old.items place tail)
        × (heads.new.items ≡ slice_set heads.old.items place (head_clock tail))) }
{
    let rest = &mut rests[place];
    match rest.pop() {
        None => None,
        Some(moment) => {
            heads[place] = rest.clock();
            Some(moment)
        }
    }
}

/// Takes the moment that comes next, by clock and place; none where none is left. The clocks of the first moments are at
/// hand, and are so afterwards.
fn next_moment(rests: &mut Vec<Rest>, heads: &mut Vec<Option<u64>>) -> Option<(usize, Moment)>
    requires { heads.old.items ≡ heads_of rests.old.items }
    ensures next { MatchOption result (AllEmpty rests.old.items) (λ next. IsNext rests.old.items rests.new.items next.0 next.1) }
    ensures heads { IfSome result (λ next. heads.new.items ≡ heads_of rests.new.items) }
{
    let place = match least(heads.as_slice()) {
        None => return None,
        Some((place, _)) => place,
    };
    match pop_at(rests, heads, place) {
        None => None,
        Some(moment) => Some((place, moment)),
    }
}

/// Merges journals, which are in order of nodes, to one run of a script; these are the nodes at the end. Its
/// events rise by clock and place. To each node happened just what its journal has, and what each node did is
/// among the acts. No step is taken again: the journals say what was sent and done.
pub fn merge<N: Member>(
    alloc: Global,
    script: &Script,
    journals: Vec<Rest>,
    nodes: List<N>,
) -> Mem<Estate<N>>
    requires setup { IsSetup script.now.setup }
    requires standing { Standing N.transition (start_world N.first script.now) journals.items }
    requires told { AreTold N.transition (first_nodes N.first script.now (cluster_of script.now.setup)) journals.items nodes }
    ensures script { IfOk result (λ e. e.script ≡ script.now) }
    ensures run { IfOk result (λ e. IsRun N.transition N.first script.now e.events e.world) }
    ensures rises { IfOk result (λ e. Rises N.transition (start_world N.first script.now) 0 0 e.events) }
    ensures each { IfOk result (λ e. (p : ℕ) (j : Seq One) → slice_get journals.items p ≡ Some j
        → whats_of (node_at (cluster_of script.now.setup) p) e.events ≡ whats j) }
    ensures acts { IfOk result (λ e. (p : ℕ) (j : Seq One) (a : Deed) → slice_get journals.items p ≡ Some j
        → Contains (acts_in N.transition (first_node N.first script.now (node_at (cluster_of script.now.setup) p)) (whats j)) a
        → Contains e.world.acts a) }
{
    let mut merged = Merged::none(alloc, Cluster::of(&script.setup))?;
    let mut heads = heads_of(alloc, journals.as_slice())?;
    let mut rests = journals;
    loop {
        let (place, moment) = match next_moment(&mut rests, &mut heads) {
            None => {
                let (events, world) = merged.into_world(nodes);
                return Ok(Estate {
                    script: script.copy(alloc)?,
                    events,
                    world,
                });
            }
            Some(next) => next,
        };
        merged.add(place, moment)?;
    }
}
