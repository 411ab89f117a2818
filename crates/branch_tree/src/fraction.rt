ghost use Rattle.std.specs.Prelude.{◌≡◌};
ghost use Rattle.branch_tree.specs.Fractions.{lowest_fractional};

use packing_model::Point;

/// The lowest pattern whose entry is not the denominator; no entry of a point is 0.
pub(crate) fn lowest_fractional(point: &Point) -> Option<u32>
    ensures { result ≡ lowest_fractional point.now.den point.now.entries }
{
    for entry in point.entries.as_slice() {
        if entry.1 != point.den {
            return Some(entry.0);
        }
    }
    None
}
