ghost use Rattle.std.specs.Prelude.{◌≡◌, ◌<◌, ◌≤◌, ◌+◌, ◌*◌, ℕ, Bool, IfOk, length, false, slice_index_or};
ghost use Rattle.std.specs.List.{list_any, All};
ghost use Rattle.problem_core.specs.Facts.{is_pair};
ghost use Rattle.problem_core.specs.Tables.{IsGrid};
ghost use Rattle.itc_score.specs.Sums.{count_below};
ghost use Rattle.itc_score.specs.Packed.{IsPacked, word_at, bits_in_both};

use std::alloc::{AllocError, Global};

/// A table of rows one after the other, in which a cell is true exactly where its row and column are a pair.
pub fn marked(
    alloc: Global,
    rows: usize,
    columns: usize,
    pairs: &[(u32, u32)],
) -> Result<Vec<bool>, AllocError>
    requires few_rows { rows ≤ 1000 }
    requires few_columns { columns ≤ 1000 }
    requires known { All (λ x. (x.0 < rows) × (x.1 < columns)) pairs.now }
    ensures { IfOk result (λ v. IsGrid v.items rows columns (λ r c. list_any (is_pair r c) pairs.now)) }
{
    let mut cells = vec![in alloc; false; rows * columns]?;
    let mut left = pairs.len();
    while 0 < left {
        left -= 1;
        let (row, column) = pairs[left];
        cells[row as usize * columns + column as usize] = true;
    }
    Ok(cells)
}

/// How many of the cells from `first` on are true.
pub fn count_true(cells: &[bool], first: usize, count: usize) -> u64
    requires { first + count ≤ length cells.now }
    ensures value { result ≡ count_below (λ k. slice_index_or cells.now (first + k) false) count }
    ensures few { result ≤ count }
{
    let mut found = 0;
    for k in 0..count {
        if cells[first + k] {
            found += 1;
        }
    }
    found
}

/// How many words a packed row takes.
pub const WORDS: usize = 20;

/// A table of 1,000 columns, packed in words of 50 cells.
pub fn packed(alloc: Global, rows: usize, cells: &[bool]) -> Result<Vec<u64>, AllocError>
    requires few { rows ≤ 1000 }
    requires whole { length cells.now ≡ rows * 1000 }
    ensures { IfOk result (λ v. (f : ℕ → ℕ → Bool) → IsGrid cells.now rows 1000 f → IsPacked v.items rows f) }
{
    let mut words = Vec::new(alloc);
    for w in 0..rows * WORDS {
        words.push(word(cells, w * 50))?;
    }
    Ok(words)
}

/// The 50 cells from `first` on as the bits of a number, the first as the highest.
fn word(cells: &[bool], first: usize) -> u64
    requires { first + 50 ≤ length cells.now }
    ensures { result ≡ word_at cells.now first }
{
    let mut word = 0;
    for k in 0..50 {
        word = 2 * word + u64::from(cells[first + k]);
    }
    word
}

/// At how many places two packed rows are both true: one row begins at the word `first` of its table, and the other
/// at the word `second` of its own; each has so many words.
pub fn count_both(words: &[u64], first: usize, others: &[u64], second: usize, count: usize) -> u64
    requires short { count ≤ 1000 }
    requires first { first + count ≤ length words.now }
    requires second { second + count ≤ length others.now }
    ensures value { result ≡ bits_in_both words.now first others.now second count }
    ensures few { result ≤ count * 64 }
{
    let mut found = 0;
    for k in 0..count {
        found += u64::from((words[first + k] & others[second + k]).count_ones());
    }
    found
}
