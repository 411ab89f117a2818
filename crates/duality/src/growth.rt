ghost use Rattle.std.specs.Prelude.{◌≡◌, ◌≤◌, ◌+◌, ◌-◌, ◌*◌, ◌^◌, ◌∷◌, ◌++◌, [], ℕ, List, true, false, length, ◌&&◌};
ghost use Rattle.std.specs.List.{list_any};
ghost use Rattle.duality.specs.declared.leaf.Node.{Node};
ghost use Rattle.duality.specs.Packing.{Packing, Weights, Stage, Fixing};
ghost use Rattle.duality.specs.Tree.{proves_all, proves_level, nothing_fixed};
ghost use Rattle.duality.specs.Stages.{Rises};
ghost use Rattle.duality.specs.After.{after, are_right, is_open};
ghost use Rattle.duality.specs.Units.{branch_count, most_units};

/// A tree as it grows. Nodes that are right stay right where the value rises and cuts are added: a leaf that
/// closed still closes. They may be made one after the other; where they leave nothing to be proved and no
/// end is open, they prove. Each branch fixes a pattern that was free, so the tree of a level has fewer
/// branches than `2^n` where n is the number of patterns, and the number of its nodes follows from them.
pub fn growth_laws()
    ensures rises { (k : Packing) (w : Weights) (s t : Stage) (fs : List Fixing) (ns : List Node) → Rises s t → are_right k w s fs ns ≡ true → are_right k w t fs ns ≡ true }
    ensures proves_still { (k : Packing) (w : Weights) (s t : Stage) (ns : List Node) → Rises s t → proves_level k w s ns ≡ true → proves_level k w t ns ≡ true }
    ensures more { (k : Packing) (w : Weights) (s : Stage) (fs : List Fixing) (ns ms : List Node) → are_right k w s fs (ns ++ ms) ≡ (are_right k w s fs ns && are_right k w s (after fs ns) ms) }
    ensures left { (fs : List Fixing) (ns ms : List Node) → after fs (ns ++ ms) ≡ after (after fs ns) ms }
    ensures proves { (k : Packing) (w : Weights) (s : Stage) (fs : List Fixing) (ns : List Node) → are_right k w s fs ns ≡ true → list_any is_open ns ≡ false → after fs ns ≡ [] → proves_all k w s fs ns ≡ true }
    ensures sizes { (k : Packing) (w : Weights) (s : Stage) (fs : List Fixing) (ns : List Node) → are_right k w s fs ns ≡ true → length ns + length (after fs ns) ≡ 2 * branch_count ns + length fs }
    ensures units { (k : Packing) (w : Weights) (s : Stage) (fs : List Fixing) (ns : List Node) → are_right k w s fs ns ≡ true → branch_count ns + most_units k (after fs ns) ≤ most_units k fs }
    ensures most { (k : Packing) (w : Weights) (s : Stage) (ns : List Node) → are_right k w s (nothing_fixed ∷ []) ns ≡ true → branch_count ns ≤ 2 ^ k.count - 1 }
{}
