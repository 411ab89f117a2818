ghost use Rattle.std.specs.Prelude.{◌≡◌, ◌<◌, ◌≤◌, ◌∷◌, [], ℕ, List, length, true, nat_lt};
ghost use Rattle.std.specs.List.{list_all, list_any};
ghost use Rattle.numbers.specs.Sums.{member};
ghost use Rattle.duality.specs.Packing.{is_free, coefficient};
ghost use Rattle.duality.specs.Sums.{member_row};
ghost use Rattle.duality.specs.Runs.{rows_from, rows_in};
ghost use Rattle.duality.specs.declared.row.RowName.TheVariants as rows;
ghost use Rattle.meeting_patterns.specs.Pattern.{patterns_of};
ghost use Rattle.packing_model.specs.Built.{packing, measured};
ghost use Rattle.packing_model.specs.Cuts.{IsPoolOf};
ghost use Rattle.packing_model.specs.Nodes.{IsFixingOf, fixed_of, stage_of, IsRow};

use crate::fixing::Fixing;
use crate::model::Model;
use crate::pool::Pool;
use duality::{RowName, Run, is_same};

/// Whether the pattern is in neither list of the fixing and clashes with none that is taken.
pub fn is_free(m: &Model, f: &Fixing, pattern: u32) -> bool
    requires fixing { IsFixingOf (packing m.now) f.now }
    requires known { pattern < length (patterns_of m.now) }
    ensures { result ≡ is_free (packing m.now) (fixed_of f.now) pattern }
{
    let one = f.one.as_slice();
    !holds(f.zero.as_slice(), pattern) && !holds(one, pattern) && !clashes(m, pattern, one)
}

// Whether the pattern is one of these.
fn holds(patterns: &[u32], pattern: u32) -> bool
    ensures { result ≡ member pattern patterns.now }
{
    patterns.contains(&pattern)
}

// Whether the pattern clashes with one of these.
fn clashes(m: &Model, pattern: u32, others: &[u32]) -> bool
    requires pattern { pattern < length (patterns_of m.now) }
    requires others { list_all (λ p. nat_lt p (length (patterns_of m.now))) others.now ≡ true }
    ensures { result ≡ list_any ((packing m.now).clash pattern) others.now }
{
    for other in others {
        if m.clash(pattern, *other) {
            return true;
        }
    }
    false
}

/// The coefficient of the pattern in the row: in a base row or a cut 1 where it stands there, else 0; in
/// a level row its weight at the level.
pub fn coefficient(m: &Model, pool: &Pool, row: RowName, pattern: u32) -> i64
    requires pool { IsPoolOf (packing m.now) pool.now }
    requires row { IsRow (packing m.now) pool.now row }
    requires known { pattern < length (patterns_of m.now) }
    ensures { result ≡ coefficient (packing m.now) (measured m.now) (stage_of pool.now) row pattern }
{
    match row {
        RowName::Base(base) => i64::from(covers(m.base_runs(pattern), base)),
        RowName::Cut(_) => i64::from(names(pool.cut_rows(pattern), row)),
        RowName::Level(level) => m.weight(level, pattern),
    }
}

// Whether the row is one of these.
fn names(rows: &[RowName], row: RowName) -> bool
    ensures { result ≡ member_row row rows.now }
{
    for other in rows {
        if is_same(*other, row) {
            return true;
        }
    }
    false
}

// Whether the base row is in one of the runs.
fn covers(runs: &[Run], row: u32) -> bool
    ensures { result ≡ member_row (rows.Base row) (rows_in runs.now) }
{
    for run in runs {
        if is_in(*run, row) {
            return true;
        }
    }
    false
}

// Whether the base row is in the run.
fn is_in(run: Run, row: u32) -> bool
    ensures { result ≡ member_row (rows.Base row) (rows_from run.first run.count) }
{
    run.first <= row && row - run.first < run.count
}
