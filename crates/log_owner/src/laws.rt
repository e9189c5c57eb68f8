//! What holds of every opening. Each function stands for the law that its contract states; a call of it
//! does nothing.
ghost use Rattle.std.specs.Prelude.{ℕ, ◌≡◌};
ghost use Rattle.log_owner.specs.Behaves.{Behaves};
ghost use Rattle.log_owner.specs.declared.ended.Owner.{Owner};
ghost use Rattle.log_owner.specs.declared.opening.Opening.{Opening};
ghost use Rattle.log_owner.specs.Keeps.{GoesOn, IsAwaited, PromisesAsBefore, PromisesBy};
ghost use Rattle.log_owner.specs.Opening.{drops, on_start, opening_take, on_tick, on_welcome};
ghost use Rattle.node_base.specs.declared.questions.Questions.{Questions};
ghost use Rattle.wire_msg.specs.declared.packet.Packet.{Packet};
ghost use Rattle.wire_msg.specs.declared.registry.Welcome.{Welcome};

/// Whatever an opening is told, it says nothing to managers and clients: it asks the registry in its
/// incarnation, asks servers for fragments, tells them to store some, and fences them, its own log alone,
/// below its incarnation. It answers nothing, and acts only that segments are filed, or that one is lost. As
/// long as it goes on it is the same owner's.
pub fn opening_only_reads_and_stores()
    ensures start { (owner : Owner) (servers : ℕ) (q : Questions) → Behaves owner (on_start owner servers q) }
    ensures packet { (o : Opening) (q : Questions) (p : Packet) → Behaves o.known.owner (opening_take o q p) }
    ensures tick { (o : Opening) (q : Questions) → Behaves o.known.owner (on_tick o q) }
{}

/// Whatever an opening is told, what it knows goes on: its maps stay, or newer ones come in which each group that
/// was known has the same members; no number of a question comes back; and what is promised to managers stays,
/// but for the Welcome that is awaited, and then it is what that says of the slots.
pub fn opening_takes_nothing_back()
    ensures packet { (o : Opening) (q : Questions) (p : Packet) → GoesOn o q (PromisesBy o p.body) (opening_take o q p) }
    ensures tick { (o : Opening) (q : Questions) → GoesOn o q (PromisesAsBefore o) (on_tick o q) }
{}

/// A Welcome that does not answer the question that is out, is to another incarnation, or has maps that may not
/// be taken, changes nothing.
pub fn only_the_awaited_welcome_is_heard()
    ensures { (o : Opening) (q : Questions) (w : Welcome) → (IsAwaited o w → ⊥) → on_welcome o q w ≡ drops o q }
{}
