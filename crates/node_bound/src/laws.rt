ghost use Rattle.std.specs.Prelude.{ℕ};
ghost use Rattle.problem_core.specs.Facts.{Facts};
ghost use Rattle.duality.specs.Packing.{Weights, Stage, Fixing};
ghost use Rattle.node_bound.specs.Bounds.{Decides, Bounds};
ghost use Rattle.node_bound.specs.declared.bounded.Bounded.{Bounded};

/// What decides a node bounds it, whatever was counted.
pub fn bound_laws()
    ensures { (p : Facts) (w : Weights) (s : Stage) (f : Fixing) (wides wides' steps steps' : ℕ) (bounded : Bounded) → Decides p w s f bounded → Bounds p w s f wides wides' steps steps' bounded }
{}
