ghost use Rattle.std.specs.Prelude.{◌≡◌, ◌^◌};
ghost use Rattle.std.specs.List.{list_all};
ghost use Rattle.duality.specs.Sums.{rises, rises_from, are_small, is_small};

use duality::is_before;
use packing_model::Term;

/// Whether the rows of the terms are in strict order.
pub fn are_rising(terms: &[Term]) -> bool
    ensures { result ≡ rises terms.now }
{
    let Some((first, rest)) = terms.split_first() else {
        return true;
    };
    let mut last = first.row;
    for term in rest {
        if !is_before(last, term.row) {
            return false;
        }
        last = term.row;
    }
    true
}

/// Whether the multipliers are at most 10^24 in size.
pub fn are_multipliers(terms: &[Term]) -> bool
    ensures { result ≡ are_small terms.now }
{
    for term in terms {
        if !is_multiplier(term.times) {
            return false;
        }
    }
    true
}

pub fn is_multiplier(times: i128) -> bool
    ensures { result ≡ is_small (10 ^ 24) times }
{
    times.unsigned_abs() <= 1_000_000_000_000_000_000_000_000
}

/// Whether the values are at most 10^12 in size.
pub fn are_values(values: &[i64]) -> bool
    ensures { result ≡ list_all (is_small (10 ^ 12)) values.now }
{
    for value in values {
        if !is_value(*value) {
            return false;
        }
    }
    true
}

pub fn is_value(value: i64) -> bool
    ensures { result ≡ is_small (10 ^ 12) value }
{
    value.unsigned_abs() <= 1_000_000_000_000
}
