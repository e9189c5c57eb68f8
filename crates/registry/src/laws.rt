//! What is true of any input and over any list of inputs. Each function stands for the law that its contract
//! states; a call of it does nothing.
ghost use Rattle.std.specs.Prelude.{◌≡◌, ◌+◌, ◌<◌, ◌↔◌, ℕ, List, Contains, true, length};
ghost use Rattle.xfs_base.specs.declared.node.NodeId.TheVariants.{Manager};
ghost use Rattle.xfs_base.specs.Limits.{slot_count};
ghost use Rattle.manager_map.specs.Slots.{entry_at};
ghost use Rattle.registry.specs.BoardState.{BoardState};
ghost use Rattle.registry.specs.Board.{transition, hears_manager};
ghost use Rattle.registry.specs.Laws.{after_all, IsLater, StaysOrRises, IsNotCheckpoint, restarted_entry};
ghost use Rattle.registry.specs.declared.input.In.{In};
ghost use Rattle.registry.specs.declared.input.In.TheVariants.{Hello};
ghost use Rattle.registry.specs.declared.output.Out.TheVariants.{Changed};

/// Whatever the registry takes, a state that differs has a greater version, so one version is of one
/// state; no epoch falls, and an epoch of a slot has one manager; no number of a kept horizon falls, and
/// neither does the incarnation that is kept of a manager nor the generation that is kept of a server.
pub fn nothing_is_taken_back()
    ensures { (s : BoardState) (inputs : List In) → IsLater s (after_all s inputs) }
{}

/// An input leaves the state as it is, or gives it the next version. All nodes are told just where the
/// version has risen, but for a checkpoint.
pub fn versions_rise_by_one()
    ensures one { (s : BoardState) (input : In) → StaysOrRises s (transition s input).state }
    ensures told { (s : BoardState) (input : In)
        → Contains (transition s input).outs Changed ↔ (((transition s input).state.version ≡ s.version + 1) × IsNotCheckpoint input) }
{}

/// The Hello of a manager that has restarted gives each of its slots to it again under the next epoch, and
/// leaves each other slot as it was.
pub fn a_restart_raises_its_slots()
    ensures { (s : BoardState) (manager inc slot : ℕ) → hears_manager s manager inc ≡ true → slot < slot_count → slot < length s.entries
        → entry_at (transition s (Hello (Manager manager) inc)).state.entries slot ≡ restarted_entry manager (entry_at s.entries slot) }
{}
