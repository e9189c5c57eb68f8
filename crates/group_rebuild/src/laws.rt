//! What holds of every rebuild. Each function stands for the law that its contract states; a call of it does
//! nothing.
ghost use Rattle.std.specs.Prelude.{◌≡◌, ◌+◌, ◌≤◌, ℕ, List, [], ◌∷◌, ◌++◌, Contains, length};
ghost use Rattle.stripe_code.specs.declared.round.Told.{Told};
ghost use Rattle.xfs_base.specs.declared.fragment.Fragment.{Fragment};
ghost use Rattle.xfs_base.specs.Limits.{u32_end};
ghost use Rattle.group_rebuild.specs.declared.output.Out.TheVariants.{Fill, Finished};
ghost use Rattle.group_rebuild.specs.declared.wanted.Wanted.{Wanted};
ghost use Rattle.group_rebuild.specs.Counted.{names_in, Reply, reading_after, AreTallied, IsFilledFrom};
ghost use Rattle.group_rebuild.specs.Reads.{ReadsState, reads_of, go_on, reads_take};

/// What is filled in is the server's fragment of the stripe of the text that the answers join to.
pub fn fills_are_cut()
    ensures { (r : ReadsState) (ask server : ℕ) (told : Told) (f : Fragment) → Contains (reads_take r ask server told).outs (Fill f)
        → IsFilledFrom r server told f }
{}

/// Whatever is replied, each name that is wanted is filled, gone or still to come, and at the end filled or
/// gone; each is counted once. The numbers that are told at the end are those of the fragments that were
/// said to be filled in, and of the names whose round ended with too few.
pub fn each_name_is_counted()
    ensures none { (wanted : List Wanted) (filled gone : ℕ) → Contains (go_on wanted (reads_of wanted)).outs (Finished filled gone)
        → filled + gone ≡ length wanted }
    ensures counted { (wanted : List Wanted) (replies : List Reply) → length wanted ≤ u32_end → names_in (reading_after wanted replies) ≡ length wanted }
    ensures finished { (wanted : List Wanted) (replies : List Reply) (ask server : ℕ) (told : Told) (filled gone : ℕ) → length wanted ≤ u32_end
        → Contains (reads_take (reading_after wanted replies) ask server told).outs (Finished filled gone) → filled + gone ≡ length wanted }
    ensures told { (wanted : List Wanted) (replies : List Reply) (last : Reply) (filled gone : ℕ) → length wanted ≤ u32_end
        → Contains (reads_take (reading_after wanted replies) last.ask last.server last.told).outs (Finished filled gone)
        → AreTallied wanted (replies ++ last ∷ []) filled gone }
{}
