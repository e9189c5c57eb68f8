//! What holds of every client that serves. Each function stands for the law that its contract states; a call of it
//! does nothing.
ghost use Rattle.std.specs.Prelude.{◌≡◌, ◌<◌, ◌++◌, ◌∷◌, [], ℕ, false};
ghost use Rattle.client_serving.specs.Behaves.{Behaves};
ghost use Rattle.client_serving.specs.declared.serving.Serving.{Serving};
ghost use Rattle.client_serving.specs.Packets.{asks_for_maps, serving_take, on_tick};
ghost use Rattle.client_serving.specs.Sends.{deltas, want, wants};
ghost use Rattle.node_base.specs.Known.{names_known_groups};
ghost use Rattle.wire_msg.specs.declared.packet.Packet.{Packet};
ghost use Rattle.xfs_base.specs.declared.block.BlockId.{BlockId};
ghost use Rattle.xfs_base.specs.declared.token.Mode.{Mode};

/// Before a want that was never sent goes all of the log that the block's manager has not acknowledged; before one
/// that is sent again goes nothing.
pub fn the_log_goes_before_a_new_want()
    ensures new { (s : Serving) (block : BlockId) (req : ℕ) (mode : Mode) → wants s block req 0 mode ≡ deltas s block ++ want s block req 0 mode ∷ [] }
    ensures again { (s : Serving) (block : BlockId) (req again : ℕ) (mode : Mode) → 0 < again → wants s block req again mode ≡ want s block req again mode ∷ [] }
{}

/// A packet that names a group that isn't known is dropped: nothing of the client changes but the number of its last
/// question, and nothing is sent but that question, for the maps.
pub fn unknown_groups_are_asked_for()
    ensures { (s : Serving) (p : Packet) → names_known_groups s.maps p.body ≡ false → serving_take s p ≡ asks_for_maps s }
{}

/// Whatever packet comes, and as time passes, a client that serves stays the client that it is, in its incarnation.
/// To managers it says only what it wants, what it gave up, what it holds and what its log has, to other clients only
/// what it supplies; it asks servers for fragments, or tells them to store one, and the registry for the maps. It acts
/// only that segments are filed, and answers only that one is lost.
pub fn does_only_what_a_client_may()
    ensures packet { (s : Serving) (p : Packet) → Behaves s (serving_take s p) }
    ensures tick { (s : Serving) → Behaves s (on_tick s) }
{}
