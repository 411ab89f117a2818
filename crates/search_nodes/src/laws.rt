ghost use Rattle.std.specs.Prelude.{◌≡◌, ◌≢◌, ◌<◌, ◌≤◌, ◌↔◌, ◌*ℤ◌, ℕ, ℤ, List, None, Some, [], length, true};
ghost use Rattle.std.specs.List.{list_all};
ghost use Rattle.numbers.specs.Sums.{total};
ghost use Rattle.problem_core.specs.Facts.{Facts};
ghost use Rattle.problem_core.specs.Valid.{IsProblem};
ghost use Rattle.duality.specs.declared.row.Term.{Term};
ghost use Rattle.duality.specs.Packing.{Packing, Weights, Stage, is_there};
ghost use Rattle.duality.specs.Sums.{rises};
ghost use Rattle.duality.specs.Walk.{Step, later, turn, pending, pending_of};
ghost use Rattle.packing_model.specs.declared.row.Row.TheVariants.{Event};
ghost use Rattle.packing_model.specs.declared.point.Point.{Point};
ghost use Rattle.packing_model.specs.Rows.{row_at};
ghost use Rattle.packing_model.specs.Built.{packing, rows_of};
ghost use Rattle.packing_model.specs.Nodes.{IsFixingOf, IsValidFixing};
ghost use Rattle.search_nodes.specs.Paths.{IsWalk};
ghost use Rattle.search_nodes.specs.Points.{sum_at, IsPointOf};
ghost use Rattle.search_nodes.specs.SharedRows.{share_row};
ghost use Rattle.search_nodes.specs.declared.walk.Walk.{Walk};

/// The fixing of a walk is valid: it is of the packing, and the patterns that are taken differ and do not
/// clash. What is still to be proved behind a leaf is what is pending at the path that turned, and a path
/// never turns to the empty path, which so says that the tree is at its end.
pub fn walk_laws()
    ensures of_packing { (f : Facts) (walk : Walk) → IsWalk (packing f) walk → IsFixingOf (packing f) walk.fixing }
    ensures valid { (f : Facts) (walk : Walk) → IsWalk (packing f) walk → IsValidFixing (packing f) walk.fixing }
    ensures turned { (path : List Step) → later path ≡ pending (turn path) }
    ensures some { (path : List Step) → turn path ≡ Some [] → ⊥ }
{}

/// Two patterns clash exactly where they share a base row, and each pattern stands in the row of one of its
/// events. A leaf whose rows are there and rise has at most 5,005 terms where there is no floor.
pub fn row_laws()
    ensures shared { (p : Facts) (i j : ℕ) → IsProblem p → i < (packing p).count → j < (packing p).count → i ≢ j → (packing p).clash i j ≡ true ↔ share_row (packing p) i j ≡ true }
    ensures event { (p : Facts) (i : ℕ) → IsProblem p → i < (packing p).count → (e r : ℕ) × (r < (packing p).base_len) × (row_at (rows_of p) r ≡ Event e) × ((packing p).in_base r i ≡ true) }
    ensures few { (k : Packing) (w : Weights) (s : Stage) (terms : List Term) → k.base_len ≤ 4000 → length s.cuts ≤ 1000 → w.floor ≡ None → s.level ≤ 6
        → rises terms ≡ true → list_all (λ t. is_there k w s t.row) terms ≡ true → length terms ≤ 5005 }
{}

/// The sum over all patterns at a point is the sum over the entries that it lists.
pub fn point_laws()
    ensures { (k : Packing) (x : Point) (f : ℕ → ℤ) → IsPointOf k x → sum_at k f x ≡ total (λ (e : ℕ × ℤ). f e.0 *ℤ e.1) x.entries }
{}
