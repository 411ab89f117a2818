ghost use Rattle.std.specs.Prelude.{◌≡◌, ◌<◌, ◌≤◌, ◌+◌, ℕ, List, length, true, not, nat_lt, slice_index, drop, IfOk};
ghost use Rattle.std.specs.List.{list_all};
ghost use Rattle.meeting_patterns.specs.Pattern.{patterns_of};
ghost use Rattle.packing_model.specs.Built.{packing};
ghost use Rattle.packing_model.specs.Rising.{is_rising};
ghost use Rattle.packing_model.specs.Cuts.{IsCutList, MakesCut, first_apart, first_clear_of};
ghost use Rattle.packing_model.specs.RowMembers.{bit_in, AreMembers};

use crate::members::{Bits, has_bit, members_of, met_by};
use crate::model::Model as PackingModel;
use std::alloc::{AllocError, Global};
use std::marker::Model;
use thiserror::Error;
use values::Items;

/// Why patterns are no cut: the first two of them that do not clash, or want of memory.
#[derive(Clone, Copy, Debug, PartialEq, Eq, Error)]
pub enum CutFault {
    /// The two patterns do not clash.
    #[error("patterns {first} and {second} do not clash")]
    NotClique { first: u32, second: u32 },
    /// Memory ran out.
    #[error("out of memory")]
    Memory,
}

impl From<AllocError> for CutFault {
    ghost use Rattle.std.specs.Prelude.{◌≡◌};
    ghost use Rattle.packing_model.specs.declared.cut.CutFault.TheVariants as faults;

    ghost from_gives = { λ _ fault. fault ≡ faults.Memory };

    fn from(_: AllocError) -> CutFault {
        CutFault::Memory
    }
}

/// Patterns that clash in pairs, of which a choice has at most one. Contracts see the list.
#[derive(Drop)]
pub struct Cut {
    patterns: Items<u32>,
}

impl Model for Cut {
    ghost use Rattle.std.specs.Prelude.{ℕ, List, ◌≡◌, true};
    ghost use Rattle.packing_model.specs.Rising.{is_rising};

    ghost Value = { List ℕ };

    ghost view = { λ c. c.patterns };

    ghost invariant = { λ c. is_rising c.patterns ≡ true };
}

impl Cut {
    /// The cut of 2 to 1,000 patterns in rising order. `NotClique` comes exactly where two of them don't
    /// clash, and names the first such pair in order of its first pattern, then its second.
    pub fn new(alloc: Global, m: &PackingModel, patterns: &[u32]) -> Result<Cut, CutFault>
        requires { IsCutList (length (patterns_of m.now)) patterns.now }
        ensures { MakesCut (packing m.now) patterns.now result }
    {
        if let Some((first, second)) = first_apart(alloc, m, patterns)? {
            return Err(CutFault::NotClique { first, second });
        }
        let patterns = Items::from_slice(alloc, patterns)?;
        Ok(Cut { patterns })
    }

    /// The patterns of the cut, in rising order.
    pub fn patterns(&self) -> &[u32]
        ensures patterns { result.now ≡ self.now }
        ensures rising { is_rising self.now ≡ true }
    {
        self.patterns.as_slice()
    }
}

// So many patterns are compared in pairs.
const FEW: usize = 32;

// The first two patterns that do not clash, in order of the first, then the second.
fn first_apart(
    alloc: Global,
    m: &PackingModel,
    patterns: &[u32],
) -> Result<Option<(u32, u32)>, AllocError>
    requires { IsCutList (length (patterns_of m.now)) patterns.now }
    ensures { IfOk result (λ found. found ≡ first_apart (packing m.now).clash patterns.now) }
{
    if patterns.len() <= FEW {
        return Ok(first_apart_by_pairs(m, patterns));
    }
    let rows = members_of(alloc, m, patterns)?;
    Ok(first_apart_by_rows(m, patterns, &rows))
}

// The same, by the base rows that two patterns share.
fn first_apart_by_rows(m: &PackingModel, patterns: &[u32], rows: &[Bits]) -> Option<(u32, u32)>
    requires list { IsCutList (length (patterns_of m.now)) patterns.now }
    requires rows { AreMembers (packing m.now) patterns.now rows.now }
    ensures { result ≡ first_apart (packing m.now).clash patterns.now }
{
    for (i, first) in patterns.iter().enumerate() {
        if let Some(second) = first_unmet(m, patterns, rows, i) {
            return Some((*first, second));
        }
    }
    None
}

// The first of the later patterns that does not clash with the pattern at a place. Only those that share no
// base row with it are compared.
fn first_unmet(m: &PackingModel, patterns: &[u32], rows: &[Bits], at: usize) -> Option<u32>
    requires at { at < length patterns.now }
    requires list { IsCutList (length (patterns_of m.now)) patterns.now }
    requires rows { AreMembers (packing m.now) patterns.now rows.now }
    ensures { result ≡ first_clear_of (packing m.now).clash (slice_index patterns.now at) (drop (at + 1) patterns.now) }
{
    let pattern = patterns[at];
    let met = met_by(rows, m.base_runs(pattern));
    for other in at + 1..patterns.len() {
        if is_clear_of(m, &met, pattern, patterns[other], other) {
            return Some(patterns[other]);
        }
    }
    None
}

// Whether two patterns do not clash, of which the second stands at the place.
fn is_clear_of(m: &PackingModel, met: &Bits, pattern: u32, other: u32, at: usize) -> bool
    requires pattern { pattern < length (patterns_of m.now) }
    requires other { other < length (patterns_of m.now) }
    requires at { at < 1000 }
    requires met { bit_in met.now at ≡ 1 → (packing m.now).clash pattern other ≡ true }
    ensures { result ≡ not ((packing m.now).clash pattern other) }
{
    !has_bit(met, at as u32) && !m.clash(pattern, other)
}

// The same, by pairs.
fn first_apart_by_pairs(m: &PackingModel, patterns: &[u32]) -> Option<(u32, u32)>
    requires { list_all (λ p. nat_lt p (length (patterns_of m.now))) patterns.now ≡ true }
    ensures { result ≡ first_apart (packing m.now).clash patterns.now }
{
    for (i, first) in patterns.iter().enumerate() {
        if let Some(second) = first_clear_of(m, *first, &patterns[i + 1..]) {
            return Some((*first, second));
        }
    }
    None
}

// The first of the patterns that does not clash with this one.
fn first_clear_of(m: &PackingModel, pattern: u32, others: &[u32]) -> Option<u32>
    requires pattern { pattern < length (patterns_of m.now) }
    requires others { list_all (λ p. nat_lt p (length (patterns_of m.now))) others.now ≡ true }
    ensures { result ≡ first_clear_of (packing m.now).clash pattern others.now }
{
    for other in others {
        if !m.clash(pattern, *other) {
            return Some(*other);
        }
    }
    None
}
