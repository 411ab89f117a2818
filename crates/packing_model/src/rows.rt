ghost use Rattle.std.specs.Prelude.{◌≡◌, ◌<◌, ◌≤◌, ◌+◌, ◌++◌, ◌∷◌, [], ℕ, true, nat_le, if◌then◌else◌, IfOk, OnOk, length, map, slice_index};
ghost use Rattle.numbers.specs.Sums.{member, distinct};
ghost use Rattle.problem_core.specs.Courses.{passing};
ghost use Rattle.problem_core.specs.Valid.{IsProblem};
ghost use Rattle.meeting_patterns.specs.Pattern.{ArePatterns};
ghost use Rattle.packing_model.specs.Keys.{AreCounts, AreNumbers, MakesRows, key_end, row_of, needed, counts_row};

use crate::keys::{key_end, needed, put_keys, row_of};
use crate::row::Row;
use meeting_patterns::PatternSet;
use problem_core::{BuildFault, Limit, LimitKind, Problem};
use std::alloc::{AllocError, Global};
use values::Items;

/// The most base rows that a model holds.
pub const MOST_ROWS: u32 = 4_000;

/// The base rows in order, and by key the number of the key's row + 1, or 0 where it is no base row.
#[derive(Drop)]
pub struct RowTable {
    pub rows: Items<Row>,
    pub numbers: Vec<u32>,
}

/// The base rows of the patterns, which are all of the problem's. `Limit` comes exactly where there are
/// more than 4,000.
pub fn row_table(alloc: Global, p: &Problem, s: &PatternSet) -> Result<RowTable, BuildFault>
    requires { ArePatterns p.now s.now }
    ensures { MakesRows p.now s.now result }
{
    p.laws();
    let counts = count_keys(alloc, p, s)?;
    let count = row_count(p, &counts);
    if MOST_ROWS < count {
        return Err(BuildFault::Limit(Limit {
            kind: LimitKind::Rows,
            count: u64::from(count),
            limit: u64::from(MOST_ROWS),
        }));
    }
    let table = number_rows(alloc, p, &counts)?;
    Ok(table)
}

/// By key, how many of the patterns have it.
fn count_keys(alloc: Global, p: &Problem, s: &PatternSet) -> Result<Vec<u32>, AllocError>
    requires patterns { ArePatterns p.now s.now }
    requires problem { IsProblem p.now }
    ensures { IfOk result (λ v. AreCounts p.now s.now (length s.now) v.items) }
{
    let mut counts = vec![in alloc; 0; key_end(p) as usize]?;
    let mut keys = Vec::new(alloc);
    for i in 0..s.len() {
        put_keys(&mut keys, p, s.get(i))?;
        add_counts(&mut counts, &keys);
    }
    Ok(counts)
}

/// Counts each of the keys once more.
fn add_counts(counts: &mut Vec<u32>, keys: &[u32])
    requires known { (k : ℕ) → member k keys.now ≡ true → k < length counts.old.items }
    requires differ { distinct keys.now ≡ true }
    requires few { (k : ℕ) → slice_index counts.old.items k ≤ 200000 }
    ensures whole { length counts.new.items ≡ length counts.old.items }
    ensures each { (k : ℕ) → slice_index counts.new.items k ≡ (if member k keys.now then slice_index counts.old.items k + 1 else slice_index counts.old.items k) }
{
    for key in keys {
        counts[*key as usize] += 1;
    }
}

/// The number of base rows.
fn row_count(p: &Problem, counts: &[u32]) -> u32
    requires { length counts.now ≡ key_end p.now }
    ensures { result ≡ length (passing (counts_row p.now counts.now) (key_end p.now)) }
{
    let mut count = 0;
    for key in 0..key_end(p) {
        if needed(p, key) <= counts[key as usize] {
            count += 1;
        }
    }
    count
}

/// The base rows in order of their keys, with their numbers.
fn number_rows(alloc: Global, p: &Problem, counts: &[u32]) -> Result<RowTable, AllocError>
    requires { length counts.now ≡ key_end p.now }
    ensures rows { IfOk result (λ t. t.rows ≡ map (row_of p.now) (passing (counts_row p.now counts.now) (key_end p.now))) }
    ensures numbers { IfOk result (λ t. AreNumbers (counts_row p.now counts.now) (key_end p.now) t.numbers.items) }
{
    let mut table = RowTable {
        rows: Items::new(alloc),
        numbers: Vec::new(alloc),
    };
    for key in 0..key_end(p) {
        table.add(p, key, counts[key as usize])?;
    }
    Ok(table)
}

impl RowTable {
    /// Adds the next key, which so many patterns have.
    fn add(&mut self, p: &Problem, key: u32, count: u32) -> Result<(), AllocError>
        requires known { key < key_end p.now }
        requires few { length self.old.rows ≤ key }
        requires small { key < 338400 }
        ensures rows { OnOk result (self.new.rows ≡ (if nat_le (needed p.now key) count then self.old.rows ++ row_of p.now key ∷ [] else self.old.rows)) }
        ensures numbers { OnOk result (self.new.numbers.items ≡ self.old.numbers.items ++ (if nat_le (needed p.now key) count then length self.old.rows + 1 else 0) ∷ []) }
    {
        if needed(p, key) <= count {
            self.numbers.push(self.rows.len() as u32 + 1)?;
            self.rows.push(row_of(p, key))?;
        } else {
            self.numbers.push(0)?;
        }
        Ok(())
    }
}
