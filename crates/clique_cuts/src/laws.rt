ghost use Rattle.std.specs.Prelude.{◌≡◌, ◌⊎◌, true};
ghost use Rattle.problem_core.specs.Facts.{Facts};
ghost use Rattle.meeting_patterns.specs.Pattern.{clash};
ghost use Rattle.meeting_patterns.specs.declared.pattern.Pattern.{Pattern};

/// Three patterns that clash in pairs lie in one room, or they belong to one course. It computes nothing.
pub fn clique_laws()
    ensures { (p : Facts) (x y z : Pattern) → clash p x y ≡ true → clash p x z ≡ true → clash p y z ≡ true → ((x.room ≡ y.room) × (x.room ≡ z.room)) ⊎ ((x.course ≡ y.course) × (x.course ≡ z.course)) }
{}
