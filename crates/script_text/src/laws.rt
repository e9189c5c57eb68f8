//! Laws of scripts.
ghost use Rattle.std.specs.Prelude.{◌≡◌, ◌⊎◌, ℕ, Bool, List};
ghost use Rattle.script_text.specs.declared.script.Script.{Script as ScriptRecord};
ghost use Rattle.script_text.specs.Script.{IsScriptOf, IsFirstBad};

/// The law that every input spells one script or has one first bad line of one kind, and never both.
pub fn one_script_or_fault()
    ensures always_one { (live : Bool) (bytes : List ℕ)
        → ((s : ScriptRecord) × IsScriptOf live bytes s) ⊎ ((number : ℕ) × (kind : _) × IsFirstBad live bytes number kind) }
    ensures one_script { (live : Bool) (bytes : List ℕ) (s t : ScriptRecord) → IsScriptOf live bytes s → IsScriptOf live bytes t → s ≡ t }
    ensures one_fault { (live : Bool) (bytes : List ℕ) (m n : ℕ) (j k : _) → IsFirstBad live bytes m j → IsFirstBad live bytes n k → (m ≡ n) × (j ≡ k) }
    ensures never_both { (live : Bool) (bytes : List ℕ) (s : ScriptRecord) (number : ℕ) (kind : _) → IsScriptOf live bytes s
        → IsFirstBad live bytes number kind → ⊥ }
{}
