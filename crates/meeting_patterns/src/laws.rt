ghost use Rattle.std.specs.Prelude.{◌≡◌, ◌≢◌, ◌<◌, ◌≤◌, ℕ, List, length, false, true};
ghost use Rattle.numbers.specs.Sums.{value, member};
ghost use Rattle.problem_core.specs.Valid.{IsProblem};
ghost use Rattle.meeting_patterns.specs.Made.{IsMade, AreClashless};
ghost use Rattle.problem_core.specs.Facts.{Facts};
ghost use Rattle.problem_core.specs.Choice.{IsLegal, entry};
ghost use Rattle.problem_core.specs.Courses.{passing};
ghost use Rattle.problem_core.specs.Measures.{measure};
ghost use Rattle.meeting_patterns.specs.Pattern.{AreCoursesKnown, ArePatterns, patterns_of, pattern_at, clash, chooses, weight};
ghost use Rattle.meeting_patterns.specs.declared.pattern.Pattern.{Pattern};

use duality::choice_laws;

/// The list holds each pattern once, in order. The patterns that a legal choice chooses don't clash, and
/// their weights sum to its measures. The choice that patterns which don't clash make is legal, and the
/// patterns that it chooses are those. Patterns that don't clash are at most as many as the events.
pub fn pattern_laws()
    ensures listed { (p : Facts) → ArePatterns p (patterns_of p) }
    ensures apart { (p : Facts) (s : List Pattern) (a : List ℕ) → ArePatterns p s → IsLegal p a → (i j : ℕ) → i < length s → j < length s
        → chooses p a (pattern_at s i) ≡ true → chooses p a (pattern_at s j) ≡ true → clash p (pattern_at s i) (pattern_at s j) ≡ false }
    ensures measured { (p : Facts) (s : List Pattern) (a : List ℕ) → AreCoursesKnown p → ArePatterns p s → IsLegal p a → (k : ℕ)
        → value (λ i. chooses p a (pattern_at s i)) (λ i. weight p k (pattern_at s i)) (length s) ≡ measure p k a }
    ensures legal { (p : Facts) (s : List Pattern) (list a : List ℕ) → IsProblem p → ArePatterns p s → AreClashless p s list → IsMade p s list a → IsLegal p a }
    ensures back { (p : Facts) (s : List Pattern) (list a : List ℕ) → ArePatterns p s → AreClashless p s list → IsMade p s list a → (i : ℕ) → i < length s
        → chooses p a (pattern_at s i) ≡ member i list }
    ensures returned { (p : Facts) (s : List Pattern) (a list made : List ℕ) → AreCoursesKnown p → ArePatterns p s → IsLegal p a → list ≡ passing (λ i. chooses p a (pattern_at s i)) (length s)
        → IsMade p s list made → (e : ℕ) → e < length p.events → entry made e ≡ entry a e }
    ensures few { (p : Facts) (s : List Pattern) (list : List ℕ) → ArePatterns p s → AreClashless p s list → length list ≤ length p.events }
{
    choice_laws();
}
