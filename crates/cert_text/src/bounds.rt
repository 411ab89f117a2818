ghost use Rattle.std.specs.Prelude.{◌≡◌, ◌^◌, ◌&&◌, ◌==◌, nat_le, length};
ghost use Rattle.std.specs.List.{list_all};
ghost use Rattle.cert_text.specs.declared.lines.CertLine.TheVariants as lines;
ghost use Rattle.duality.specs.Sums.{rises, is_small};
ghost use Rattle.cert_text.specs.Spelling.{in_bounds, leaf_in_bounds, term_in_bounds, row_in_bounds, scale_in_bounds, is_zero, is_rising, is_version};

use crate::lines::CertLine;
use duality::{Leaf, Node, RowName, Term, is_before};

const MULTIPLIER_LIMIT: u128 = 1_000_000_000_000_000_000_000_000;

/// Whether a line is inside its bounds.
pub fn in_bounds(line: &CertLine) -> bool
    ensures { result ≡ in_bounds line.now }
{
    match line {
        CertLine::Head { version } => is_version(*version),
        CertLine::Sizes { patterns, rows } => *patterns <= 200_000 && *rows <= 4_000,
        CertLine::Choice(entries) => choice_in_bounds(entries.as_slice()),
        CertLine::Values(values) => values_in_bounds(values),
        CertLine::Cuts(count) => *count <= 1_000,
        CertLine::Cut(patterns) => cut_in_bounds(patterns.as_slice()),
        CertLine::Level(level) => *level <= 6,
        CertLine::Unfinished(level) => *level <= 6,
        CertLine::Node(node) => node_in_bounds(node),
        CertLine::End(levels) => *levels <= 6,
    }
}

fn is_version(version: u32) -> bool
    ensures { result ≡ is_version version }
{
    1 <= version && version <= 2
}

fn choice_in_bounds(entries: &[u32]) -> bool
    ensures { result ≡ in_bounds (lines.Choice entries.now) }
{
    let few = entries.len() <= 4_000;
    let small = each_at_most(entries, 200);
    few && small
}

fn values_in_bounds(values: &[i64; 6]) -> bool
    ensures { result ≡ in_bounds (lines.Values values.now) }
{
    each_is_value(values)
}

fn each_is_value(values: &[i64]) -> bool
    ensures { result ≡ list_all (is_small (10 ^ 12)) values.now }
{
    values.iter().all(|v| is_small_value(*v))
}

fn is_small_value(value: i64) -> bool
    ensures { result ≡ is_small (10 ^ 12) value }
{
    value.unsigned_abs() <= 1_000_000_000_000
}

fn cut_in_bounds(patterns: &[u32]) -> bool
    ensures { result ≡ in_bounds (lines.Cut patterns.now) }
{
    let some = 2 <= patterns.len();
    let few = patterns.len() <= 1_000;
    let small = each_at_most(patterns, 199_999);
    let rising = is_rising(patterns);
    some && few && small && rising
}

fn node_in_bounds(node: &Node) -> bool
    ensures { result ≡ in_bounds (lines.Node node.now) }
{
    match node {
        Node::Branch(pattern) => *pattern <= 199_999,
        Node::Leaf(leaf) => leaf_in_bounds(leaf),
        Node::OpenEnd => true,
        Node::Same(leaf) => *leaf <= 9_223_372_036_854_775_807,
    }
}

fn leaf_in_bounds(leaf: &Leaf) -> bool
    ensures { result ≡ leaf_in_bounds leaf.now }
{
    let terms = leaf.terms.as_slice();
    let scale = scale_in_bounds(leaf.scale);
    let few = terms.len() <= 5_005;
    let small = terms_in_bounds(terms);
    let rising = rises(terms);
    scale && few && small && rising
}

fn terms_in_bounds(terms: &[Term]) -> bool
    ensures { result ≡ list_all term_in_bounds terms.now }
{
    terms.iter().all(|t| term_in_bounds(*t))
}

fn term_in_bounds(term: Term) -> bool
    ensures { result ≡ term_in_bounds term }
{
    let row = row_in_bounds(term.row);
    let none = is_zero(term.times);
    let small = is_small(term.times);
    row && !none && small
}

fn row_in_bounds(row: RowName) -> bool
    ensures { result ≡ row_in_bounds row }
{
    match row {
        RowName::Base(row) => row <= 3_999,
        RowName::Cut(cut) => cut <= 999,
        RowName::Level(level) => 1 <= level && level <= 5,
    }
}

fn is_zero(times: i128) -> bool
    ensures { result ≡ is_zero times }
{
    times.unsigned_abs() == 0
}

fn is_small(times: i128) -> bool
    ensures { result ≡ is_small (10 ^ 24) times }
{
    times.unsigned_abs() <= MULTIPLIER_LIMIT
}

fn scale_in_bounds(scale: i128) -> bool
    ensures { result ≡ scale_in_bounds scale }
{
    0 <= scale && scale.unsigned_abs() <= MULTIPLIER_LIMIT
}

fn each_at_most(numbers: &[u32], limit: u32) -> bool
    ensures { result ≡ list_all (λ n. nat_le n limit) numbers.now }
{
    numbers.iter().all(|n| *n <= limit)
}

fn is_rising(numbers: &[u32]) -> bool
    ensures { result ≡ is_rising numbers.now }
{
    let Some((first, rest)) = numbers.split_first() else {
        return true;
    };
    let mut last = *first;
    for number in rest {
        if last >= *number {
            return false;
        }
        last = *number;
    }
    true
}

// Whether the rows of the terms are in strict order.
fn rises(terms: &[Term]) -> bool
    ensures { result ≡ rises terms.now }
{
    let Some((first, rest)) = terms.split_first() else {
        return true;
    };
    let mut last = first.row;
    for term in rest {
        if !is_before(last, term.row) {
            return false;
        }
        last = term.row;
    }
    true
}
