ghost use Rattle.std.specs.Prelude.{◌≡◌, ◌<◌, ◌≤◌, ◌+◌, ◌⊎◌, [], ℕ, true, length, slice_index_or, IfOk, nat_lt};
ghost use Rattle.std.specs.List.{list_all};
ghost use Rattle.meeting_patterns.specs.Pattern.{patterns_of};
ghost use Rattle.duality.specs.Runs.{AreBelow};
ghost use Rattle.packing_model.specs.Built.{packing};
ghost use Rattle.packing_model.specs.NodeMarks.{in_run, in_runs};
ghost use Rattle.packing_model.specs.RowMembers.{bit_in, AreMembers, HasMember, MeetsMember};

use crate::model::Model;
use duality::Run;
use std::alloc::{AllocError, Global};

/// A bit for each of at most 1,000 patterns.
pub type Bits = [u64; 16];

/// By base row a bit for each of the patterns, set where it stands in the row.
pub fn members_of(alloc: Global, m: &Model, patterns: &[u32]) -> Result<Vec<Bits>, AllocError>
    requires known { list_all (λ p. nat_lt p (length (patterns_of m.now))) patterns.now ≡ true }
    requires few { length patterns.now ≤ 1000 }
    ensures { IfOk result (λ rows. AreMembers (packing m.now) patterns.now rows.items) }
{
    let mut rows = no_members(alloc, m.base_len())?;
    for (j, pattern) in patterns.iter().enumerate() {
        add_member(&mut rows, m.base_runs(*pattern), j as u32);
    }
    Ok(rows)
}

// So many rows of which no pattern is.
fn no_members(alloc: Global, count: u32) -> Result<Vec<Bits>, AllocError>
    ensures whole { IfOk result (λ rows. length rows.items ≡ count) }
    ensures none { IfOk result (λ rows. (r j : ℕ) → bit_in (slice_index_or rows.items r []) j ≡ 0) }
{
    let mut rows = Vec::new(alloc);
    'rows: while rows.len() < count as usize {
        rows.push([0; 16])?;
    }
    Ok(rows)
}

// Sets the bit of a pattern in each row of the runs.
fn add_member(rows: &mut Vec<Bits>, runs: &[Run], j: u32)
    requires j { j < 1000 }
    requires known { AreBelow (length rows.old.items) runs.now }
    requires low { AreBelow 4000 runs.now }
    ensures whole { length rows.new.items ≡ length rows.old.items }
    ensures each { (r i : ℕ) → bit_in (slice_index_or rows.new.items r []) i ≡ 1 → (bit_in (slice_index_or rows.old.items r []) i ≡ 1) ⊎ ((i ≡ j) × (in_runs runs.now r ≡ true)) }
{
    for run in runs {
        add_to_run(rows, *run, j);
    }
}

// Sets the bit of a pattern in each row of the run.
fn add_to_run(rows: &mut Vec<Bits>, run: Run, j: u32)
    requires j { j < 1000 }
    requires known { run.first + run.count ≤ length rows.old.items }
    requires low { run.first + run.count ≤ 4000 }
    ensures whole { length rows.new.items ≡ length rows.old.items }
    ensures each { (r i : ℕ) → bit_in (slice_index_or rows.new.items r []) i ≡ 1 → (bit_in (slice_index_or rows.old.items r []) i ≡ 1) ⊎ ((i ≡ j) × (in_run run r ≡ true)) }
{
    for row in run.first..run.first + run.count {
        set_bit(&mut rows[row as usize], j);
    }
}

// Sets the bit.
fn set_bit(bits: &mut Bits, j: u32)
    requires { j < 1000 }
    ensures { (i : ℕ) → bit_in bits.new i ≡ 1 → (bit_in bits.old i ≡ 1) ⊎ (i ≡ j) }
{
    bits[j as usize / 64] |= 1 << (j % 64);
}

/// A bit for each of the patterns, set where it shares one of the rows of the runs, which are those of a
/// pattern.
pub fn met_by(rows: &[Bits], runs: &[Run]) -> Bits
    requires known { AreBelow (length rows.now) runs.now }
    requires low { AreBelow 4000 runs.now }
    ensures { (j : ℕ) → bit_in result j ≡ 1 → MeetsMember rows.now runs.now j }
{
    let mut met = [0; 16];
    for run in runs {
        join_run(&mut met, rows, *run);
    }
    met
}

// Adds the bits of the rows of the run.
fn join_run(met: &mut Bits, rows: &[Bits], run: Run)
    requires known { run.first + run.count ≤ length rows.now }
    requires low { run.first + run.count ≤ 4000 }
    ensures { (j : ℕ) → bit_in met.new j ≡ 1 → (bit_in met.old j ≡ 1) ⊎ HasMember rows.now run j }
{
    for row in run.first..run.first + run.count {
        join(met, &rows[row as usize]);
    }
}

// Adds the bits.
fn join(met: &mut Bits, bits: &Bits)
    ensures { (j : ℕ) → bit_in met.new j ≡ 1 → (bit_in met.old j ≡ 1) ⊎ (bit_in bits.now j ≡ 1) }
{
    for word in 0..16 {
        met[word] |= bits[word];
    }
}

/// Whether the bit is set.
pub fn has_bit(bits: &Bits, j: u32) -> bool
    requires { j < 1000 }
    ensures { result ≡ true → bit_in bits.now j ≡ 1 }
{
    (bits[j as usize / 64] >> (j % 64)) & 1 == 1
}
