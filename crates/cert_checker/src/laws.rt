ghost use Rattle.std.specs.Prelude.{ℕ, ℤ, ◌≡◌, ◌<◌, ◌≤◌, ◌≤ℤ◌, ◌↔◌, List, None, Some, true, false, length};
ghost use Rattle.problem_core.specs.Facts.{Facts};
ghost use Rattle.problem_core.specs.Choice.{IsLegal};
ghost use Rattle.problem_core.specs.Measures.{IsBest, measure};
ghost use Rattle.duality.specs.declared.leaf.Node.{Node};
ghost use Rattle.duality.specs.Packing.{Stage, AreCliques};
ghost use Rattle.duality.specs.Tree.{proves_level};
ghost use Rattle.packing_model.specs.Built.{packing, measured};
ghost use Rattle.packing_model.specs.Closing.{HasTargets};
ghost use Rattle.meeting_patterns.specs.Pattern.{AreCoursesKnown};
ghost use Rattle.cert_text.specs.declared.lines.Certificate.{Certificate};
ghost use Rattle.cert_text.specs.Grammar.{is_writable};
ghost use Rattle.cert_text.specs.Sharing.{plain};
ghost use Rattle.cert_checker.specs.Faults.{fault_of};
ghost use Rattle.cert_checker.specs.Verdicts.{IsValid};

use duality::{leaf_laws, tree_laws};
use meeting_patterns::pattern_laws;
use packing_model::packing_laws;

/// A certificate inside the bounds has no fault, each named leaf looked at as the leaf, exactly where it is valid for
/// its finished levels; and the
/// choice of a certificate that is valid for n levels is best in the first n among all choices. A tree that
/// proves its level bounds the measure of every legal choice whose measures below are the targets.
pub fn certificate_laws()
    ensures faultless { (f : Facts) (c : Certificate) → is_writable c ≡ true → fault_of f (plain c) ≡ None ↔ IsValid f (length c.levels) c }
    ensures best { (f : Facts) (n : ℕ) (c : Certificate) → AreCoursesKnown f → n ≤ 6 → IsValid f n c → IsBest f n c.choice }
    ensures tree { (f : Facts) (s : Stage) (v : ℤ) (nodes : List Node) → AreCoursesKnown f → AreCliques (packing f) s.cuts → s.best ≡ Some v
        → proves_level (packing f) (measured f) s nodes ≡ true → (b : List ℕ) → IsLegal f b → HasTargets f s.level s.targets b → measure f s.level b ≤ℤ v }
{
    leaf_laws();
    tree_laws();
    pattern_laws();
    packing_laws();
}
