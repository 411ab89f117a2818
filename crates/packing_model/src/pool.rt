ghost use Rattle.std.specs.Prelude.{◌≡◌, ◌<◌, ◌≤◌, ◌++◌, ◌∷◌, [], ℕ, List, length, slice_index_or, OnOk, OnErr, true};
ghost use Rattle.packing_model.specs.Rising.{is_rising};
ghost use Rattle.packing_model.specs.Pools.{Adds, AreCutRowsOf};
ghost use Rattle.packing_model.specs.CutTable.{Adds as AddsRows, AreSameRows};

use crate::cut::Cut;
use duality::RowName;
use problem_core::Memory;
use std::alloc::{AllocError, Global};
use std::marker::Model;
use thiserror::Error;
use values::Items;

/// The most cuts that a pool holds.
pub const MOST_CUTS: usize = 1_000;

/// Why a cut was not added: there are 1,000 cuts already, or want of memory.
#[derive(Clone, Copy, Debug, PartialEq, Eq, Error)]
pub enum PoolFault {
    /// The pool holds 1,000 cuts.
    #[error("the pool holds 1,000 cuts")]
    Full,
    /// Memory ran out.
    #[error("out of memory")]
    Memory,
}

impl From<AllocError> for PoolFault {
    ghost use Rattle.std.specs.Prelude.{◌≡◌};
    ghost use Rattle.packing_model.specs.declared.pool.PoolFault.TheVariants as faults;

    ghost from_gives = { λ _ fault. fault ≡ faults.Memory };

    fn from(_: AllocError) -> PoolFault {
        PoolFault::Memory
    }
}

/// Cuts, numbered from 0 in the order in which they were added. Contracts see the list of their lists.
#[derive(Drop)]
pub struct Pool {
    alloc: Global,
    cuts: Items<Cut>,
    /// For each pattern up to the largest of a cut the rows of its cuts, in rising order.
    rows: Vec<Items<RowName>>,
}

impl Model for Pool {
    ghost use Rattle.std.specs.Prelude.{ℕ, List, ◌≤◌, length};
    ghost use Rattle.packing_model.specs.CutTable.{IsCutTable};

    ghost Value = { List (List ℕ) };

    ghost view = { λ p. p.cuts };

    ghost invariant = { λ p. (length p.cuts ≤ 1000) × IsCutTable p.cuts p.rows.items };
}

impl Pool {
    /// No cuts.
    pub fn new(alloc: Global) -> Pool
        ensures { result ≡ [] }
    {
        Pool {
            alloc,
            cuts: Items::new(alloc),
            rows: Vec::new(alloc),
        }
    }

    /// Adds a cut, and gives its number. `Full` comes exactly at 1,000 cuts. After a refusal the pool is as
    /// before, and the cut is gone.
    pub fn add(&mut self, c: Cut) -> Result<u32, PoolFault>
        ensures { Adds c self.old self.new result }
    {
        let number = self.cuts.len();
        if number == MOST_CUTS {
            return Err(PoolFault::Full);
        }
        self.cuts.push(c)?;
        let patterns = self.cuts.as_slice()[number].patterns();
        match add_rows(self.alloc, &mut self.rows, patterns, number as u32) {
            Ok(()) => Ok(number as u32),
            Err(Memory) => {
                let _ = self.cuts.pop();
                Err(PoolFault::Memory)
            }
        }
    }

    /// The number of cuts.
    pub fn len(&self) -> u32
        ensures count { result ≡ length self.now }
        ensures few { length self.now ≤ 1000 }
    {
        self.cuts.len() as u32
    }

    /// The cut of the number.
    pub fn get(&self, cut: u32) -> &Cut
        requires { cut < length self.now }
        ensures { result.now ≡ slice_index_or self.now cut [] }
    {
        &self.cuts.as_slice()[cut as usize]
    }

    /// The cuts that the pattern stands in, each once.
    pub fn cut_rows(&self, pattern: u32) -> &[RowName]
        ensures { AreCutRowsOf self.now result.now pattern }
    {
        match self.rows.get(pattern as usize) {
            Some(rows) => rows.as_slice(),
            None => &[],
        }
    }
}

// Adds the row of the cut to each of its patterns, one after the other; where memory is wanting, the rows
// that were added are taken away again.
fn add_rows(
    alloc: Global,
    table: &mut Vec<Items<RowName>>,
    patterns: &[u32],
    number: u32,
) -> Result<(), Memory>
    requires { is_rising patterns.now ≡ true }
    ensures longer { length table.old.items ≤ length table.new.items }
    ensures ok { OnOk result (AddsRows number patterns.now table.old.items table.new.items) }
    ensures err { OnErr result (AreSameRows table.old.items table.new.items) }
{
    let Some((first, rest)) = patterns.split_first() else {
        return Ok(());
    };
    let at = *first as usize;
    lengthen(alloc, table, at + 1)?;
    table[at].push(RowName::Cut(number))?;
    let added = add_rows(alloc, table, rest, number);
    if added.is_err() {
        let _ = table[at].pop();
    }
    added
}

// Makes the table at least so long, by patterns that stand in no cut.
fn lengthen(alloc: Global, table: &mut Vec<Items<RowName>>, count: usize) -> Result<(), Memory>
    ensures longer { length table.old.items ≤ length table.new.items }
    ensures ok { OnOk result (count ≤ length table.new.items) }
    ensures same { AreSameRows table.old.items table.new.items }
{
    'more: while table.len() < count {
        if table.push(Items::new(alloc)).is_err() {
            return Err(Memory);
        }
    }
    Ok(())
}
