//! Laws of the format, for whoever reasons about it.
ghost use Rattle.std.specs.Prelude.{◌≡◌, ◌<◌, ◌++◌, [], List, ℕ, length, take, drop};
ghost use Rattle.segment_format.specs.Answers.{IsCutOff};
ghost use Rattle.segment_format.specs.Format.{header_length};
ghost use Rattle.segment_format.specs.Ranges.{Fits};
ghost use Rattle.segment_format.specs.Text.{IsText};

/// One segment has one text. No text begins another, and one text is of one segment. Each front of a text
/// is refused as cut off, and as nothing else. It does nothing.
pub fn texts_are_apart()
    ensures one { (a b : List ℕ) (s : _) → IsText a s → IsText b s → a ≡ b }
    ensures apart { (a b more : List ℕ) (s t : _) → Fits s → Fits t → IsText a s → IsText b t → b ≡ a ++ more → (more ≡ []) × (s ≡ t) }
    ensures fronts { (bytes : List ℕ) (s : _) (j : ℕ) → Fits s → IsText bytes s → j < length bytes → IsCutOff (take j bytes) }
{}

/// Two segments with equal items have texts of one length that are equal behind the header: so have all
/// attempts to write one content, whatever their names, groups and priors. It does nothing.
pub fn attempts_have_one_content()
    ensures length { (a b : List ℕ) (s t : _) → IsText a s → IsText b t → s.items ≡ t.items → length a ≡ length b }
    ensures content { (a b : List ℕ) (s t : _) → IsText a s → IsText b t → s.items ≡ t.items → drop header_length a ≡ drop header_length b }
{}
