ghost use Rattle.std.specs.Prelude.{◌∷◌, ◌≡◌, ◌<◌, ◌≤◌, ◌↔◌, [], ℕ, ℤ, pos, ◌≤ℤ◌, ◌+ℤ◌, ◌-ℤ◌, ◌*ℤ◌, Bool, true, false, List, ◌==◌, ◌&&◌};
ghost use Rattle.std.specs.List.{list_all};
ghost use Rattle.numbers.specs.Sums.{value, sum_below, picked, total};
ghost use Rattle.duality.specs.declared.row.RowName.{RowName};
ghost use Rattle.duality.specs.declared.row.RowName.TheVariants as rows;
ghost use Rattle.duality.specs.declared.row.Term.{Term};
ghost use Rattle.duality.specs.declared.leaf.Leaf.{Leaf};
ghost use Rattle.duality.specs.declared.leaf.LeafFault.TheVariants.{Cost};
ghost use Rattle.duality.specs.declared.leaf.Node.{Node};
ghost use Rattle.duality.specs.declared.leaf.Node.TheVariants as nodes;
ghost use Rattle.duality.specs.Packing.{Packing, Weights, Stage, Fixing, AreCliques, IsFixing, IsPacking, Meets, Follows, coefficient, is_there, level_coefficient, level_side};
ghost use Rattle.duality.specs.Leaf.{closes, costs, leaf_fault, cost_fault, priced, worth, reduced, IsCapped};
ghost use Rattle.duality.specs.Sums.{is_clique, times_of, clique_worth, clique_priced, level_sum, AreRowsOf};
ghost use Rattle.duality.specs.Tree.{ProofTree, can_branch, ends_at, proves_all, proves_level, proves, preorder, nothing_fixed};
ghost use Rattle.duality.specs.Walk.{Step, step_at, fixing_of, pending, pending_of, turn};

/// Weak duality, whatever the objective: where a leaf closes, each choice of patterns that do not clash,
/// that holds what is taken and nothing that is left out, and that meets the targets and the floor,
/// weighs at most the value; against no value, and at scale 0, there is no such choice. Such a choice takes
/// at most one pattern of each base row and cut. A leaf closes exactly where it has no fault.
pub fn leaf_laws()
    ensures caps { (k : Packing) (w : Weights) (s : Stage) (f : Fixing) (leaf : Leaf) (has : ℕ → Bool)
        → AreCliques k s.cuts → IsFixing k f → pos 0 ≤ℤ leaf.scale → closes k w s f leaf ≡ true
        → IsPacking k has → Meets k w s has → Follows f has
        → IsCapped s.best (value has (w.weight s.level) k.count) }
    ensures empties { (k : Packing) (w : Weights) (s : Stage) (f : Fixing) (leaf : Leaf) (has : ℕ → Bool)
        → AreCliques k s.cuts → IsFixing k f → leaf.scale ≡ pos 0 → closes k w s f leaf ≡ true
        → IsPacking k has → Meets k w s has → Follows f has → ⊥ }
    ensures meets { (k : Packing) (w : Weights) (s : Stage) (has : ℕ → Bool) (row : RowName)
        → AreCliques k s.cuts → IsPacking k has → is_there k w s row ≡ true → is_clique row ≡ true → value has (coefficient k w s row) k.count ≤ℤ pos 1 }
    ensures faultless { (k : Packing) (w : Weights) (s : Stage) (f : Fixing) (leaf : Leaf) → leaf_fault k w s f leaf ≡ None ↔ closes k w s f leaf ≡ true }
    ensures lowest { (k : Packing) (w : Weights) (s : Stage) (f : Fixing) (leaf : Leaf) (p : ℕ) → cost_fault k w s f leaf ≡ Some (Cost p)
        → (p < k.count) × (costs k w s f leaf p ≡ true) × ((q : ℕ) → q < p → costs k w s f leaf q ≡ false) }
{}

/// A tree that proves its level caps every choice of patterns that do not clash and meet the targets and
/// the floor; its nodes in preorder, taken one after the other, prove exactly what the tree does.
pub fn tree_laws()
    ensures caps { (k : Packing) (w : Weights) (s : Stage) (nodes : List Node) (has : ℕ → Bool)
        → AreCliques k s.cuts → proves_level k w s nodes ≡ true → IsPacking k has → Meets k w s has
        → IsCapped s.best (value has (w.weight s.level) k.count) }
    ensures preorder { (k : Packing) (w : Weights) (s : Stage) (t : ProofTree) → proves_level k w s (preorder t) ≡ proves k w s nothing_fixed t }
{}

/// The walk of a tree by its path: a branch makes the path longer by the side that leaves its pattern
/// out, and after a leaf the last branch on that side turns to the side that takes it.
pub fn walk_laws()
    ensures branch { (k : Packing) (w : Weights) (s : Stage) (path : List Step) (p : ℕ) (ns : List Node)
        → proves_all k w s (pending_of path) (nodes.Branch p ∷ ns) ≡ (can_branch k (fixing_of path) p && proves_all k w s (pending_of (step_at p false ∷ path)) ns) }
    ensures leaf { (k : Packing) (w : Weights) (s : Stage) (path : List Step) (leaf : Leaf) (ns : List Node)
        → proves_all k w s (pending_of path) (nodes.Leaf leaf ∷ ns) ≡ (ends_at k w s (fixing_of path) leaf && proves_all k w s (pending (turn path)) ns) }
{}

/// From events to patterns: where each event that has a room stands in one chosen pattern, its holder,
/// and the others in none, what the chosen patterns weigh is what the events gain; and patterns that
/// share no event are at most as many as the events.
pub fn choice_laws()
    ensures measured { (count events : ℕ) (chosen : ℕ → Bool) (within : ℕ → ℕ → Bool) (gain : ℕ → ℕ → ℤ) (has_room : ℕ → Bool) (holder : ℕ → ℕ)
        → ((e : ℕ) → e < events → has_room e ≡ true → holder e < count)
        → ((i e : ℕ) → i < count → e < events → (chosen i && within i e) ≡ (has_room e && (holder e == i)))
        → value chosen (λ i. sum_below (λ e. picked (within i e) (gain i e)) events) count ≡ sum_below (λ e. picked (has_room e) (gain (holder e) e)) events }
    ensures few { (count events : ℕ) (has : ℕ → Bool) (within : ℕ → ℕ → Bool) (some : ℕ → ℕ)
        → ((p : ℕ) → p < count → (some p < events) × (within p (some p) ≡ true))
        → ((e p q : ℕ) → p < q → q < count → (has p && within p e) ≡ true → (has q && within q e) ≡ true → ⊥)
        → value has (λ p. pos 1) count ≤ℤ pos events }
{}

/// The sums of a leaf may be taken over the rows of a pattern in place of all terms, with the seven level
/// rows apart: the price of a pattern, of which its base rows and cuts are one part, the right side, and
/// what the patterns that are taken sum to. A level row that is not there has the multiplier 0.
pub fn sum_laws()
    ensures priced { (k : Packing) (w : Weights) (s : Stage) (terms : List Term) (rows : List RowName) (p : ℕ)
        → list_all (λ t. is_there k w s t.row) terms ≡ true → s.level ≤ 7 → AreRowsOf k s rows p
        → priced k w s terms p ≡ (total (times_of terms) rows) +ℤ (level_sum terms (λ j. level_coefficient w j p)) }
    ensures cliques { (k : Packing) (w : Weights) (s : Stage) (terms : List Term) (rows : List RowName) (p : ℕ)
        → list_all (λ t. is_there k w s t.row) terms ≡ true → AreRowsOf k s rows p
        → total (times_of terms) rows ≡ clique_priced k w s terms p }
    ensures worth { (k : Packing) (w : Weights) (s : Stage) (terms : List Term) → list_all (λ t. is_there k w s t.row) terms ≡ true → s.level ≤ 7
        → worth w s terms ≡ (clique_worth terms) +ℤ (level_sum terms (level_side w s.targets)) }
    ensures taken { (k : Packing) (w : Weights) (s : Stage) (leaf : Leaf)
        → list_all (λ t. is_there k w s t.row) leaf.terms ≡ true → s.level ≤ 7 → (ps : List ℕ)
        → total (reduced k w s leaf) ps
        ≡ (leaf.scale *ℤ (total (w.weight s.level) ps)) -ℤ ((total (clique_priced k w s leaf.terms) ps) +ℤ (level_sum leaf.terms (λ j. total (level_coefficient w j) ps))) }
    ensures absent { (k : Packing) (w : Weights) (s : Stage) (terms : List Term) (j : ℕ) → list_all (λ t. is_there k w s t.row) terms ≡ true
        → is_there k w s (rows.Level j) ≡ false → times_of terms (rows.Level j) ≡ pos 0 }
{}
