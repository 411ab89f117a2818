ghost use Rattle.std.specs.Prelude.{◌≡◌, ◌<◌, ℕ, List, [], length, true};
ghost use Rattle.numbers.specs.Sums.{value, member};
ghost use Rattle.problem_core.specs.Facts.{Facts};
ghost use Rattle.problem_core.specs.Choice.{IsLegal};
ghost use Rattle.problem_core.specs.Measures.{measure};
ghost use Rattle.meeting_patterns.specs.Pattern.{AreCoursesKnown, ArePatterns, pattern_at, clash, chooses};
ghost use Rattle.meeting_patterns.specs.declared.pattern.Pattern.{Pattern};
ghost use Rattle.duality.specs.Packing.{AreCliques, IsPacking};
ghost use Rattle.packing_model.specs.Rows.{packing_of, weights_of, in_cut};

use meeting_patterns::pattern_laws;

/// The base rows are cliques, and so are cuts whose patterns clash in pairs. What a legal choice chooses
/// is a packing, and its weights sum to the measures.
pub fn packing_laws()
    ensures cliques { (p : Facts) (s : List Pattern) (cuts : List (List ℕ)) → ArePatterns p s
        → ((c i j : ℕ) → c < length cuts → i < j → j < length s → member i (in_cut cuts c) ≡ true → member j (in_cut cuts c) ≡ true → clash p (pattern_at s i) (pattern_at s j) ≡ true)
        → AreCliques (packing_of p s) cuts }
    ensures packing { (p : Facts) (s : List Pattern) (a : List ℕ) → ArePatterns p s → IsLegal p a → IsPacking (packing_of p s) (λ i. chooses p a (pattern_at s i)) }
    ensures measured { (p : Facts) (s : List Pattern) (a : List ℕ) → AreCoursesKnown p → ArePatterns p s → IsLegal p a → (k : ℕ)
        → value (λ i. chooses p a (pattern_at s i)) ((weights_of p s).weight k) (length s) ≡ measure p k a }
{
    pattern_laws();
}
