ghost use Rattle.std.specs.Prelude.{◌≡◌, ◌<◌, ◌≤◌, ◌^◌, ℕ, length};
ghost use Rattle.duality.specs.Sums.{IsWithin};
ghost use Rattle.problem_core.specs.Valid.{IsProblem};
ghost use Rattle.meeting_patterns.specs.Pattern.{patterns_of, ArePatterns};
ghost use Rattle.packing_model.specs.Rows.{row_at};
ghost use Rattle.packing_model.specs.Tables.{Makes, MakesTables};
ghost use Rattle.packing_model.specs.Built.{BuildsModel, rows_of, packing, measured, AreBaseRunsOf};

use crate::row::Row;
use crate::rows::row_table;
use crate::runs::{run_table, weight_table};
use duality::Run;
use meeting_patterns::{PatternSet, clash, pattern_laws};
use problem_core::{BuildFault, Problem};
use std::alloc::Global;
use values::Items;

/// A problem with its patterns and base rows. Contracts see it as the problem.
#[derive(Drop)]
pub struct Model {
    problem: Problem,
    made: Made,
}

/// The patterns of a problem and their tables.
#[derive(Drop)]
struct Made {
    patterns: PatternSet,
    tables: Tables,
}

/// The base rows of the patterns, the weights, and the runs of each pattern's base rows.
#[derive(Drop)]
struct Tables {
    rows: Items<Row>,
    weights: Vec<[i64; 6]>,
    runs: Vec<Run>,
    starts: Vec<usize>,
}

impl std::marker::Model for Model {
    ghost use Rattle.problem_core.specs.Facts.{Facts};
    ghost use Rattle.packing_model.specs.Keys.{IsModel};

    ghost Value = { Facts };

    ghost view = { λ m. m.problem };

    ghost invariant = { λ m. IsModel m.problem m.made.patterns m.made.tables.rows m.made.tables.weights.items m.made.tables.runs.items m.made.tables.starts.items };
}

impl Model {
    /// The model of the problem. `Limit` comes exactly where there are more than 200,000 patterns
    /// (`Patterns`), else where there are more than 4,000 base rows (`Rows`). After a refusal the problem
    /// is gone.
    pub fn build(alloc: Global, p: Problem) -> Result<Model, BuildFault>
        ensures { BuildsModel p result }
    {
        p.laws();
        let made = made_of(alloc, &p)?;
        Ok(Model { problem: p, made })
    }

    /// The problem.
    pub fn problem(&self) -> &Problem
        ensures { result.now ≡ self.now }
    {
        &self.problem
    }

    /// The problem's patterns.
    pub fn patterns(&self) -> &PatternSet
        ensures patterns { result.now ≡ patterns_of self.now }
        ensures are { ArePatterns self.now result.now }
        ensures few { length result.now ≤ 200000 }
    {
        pattern_laws();
        &self.made.patterns
    }

    /// The number of base rows.
    pub fn base_len(&self) -> u32
        ensures count { result ≡ length (rows_of self.now) }
        ensures few { length (rows_of self.now) ≤ 4000 }
    {
        self.made.tables.rows.len() as u32
    }

    /// The base row of the number.
    pub fn base_row(&self, row: u32) -> Row
        requires { row < length (rows_of self.now) }
        ensures { result ≡ row_at (rows_of self.now) row }
    {
        self.made.tables.rows.as_slice()[row as usize]
    }

    /// The base rows that the pattern stands in, each once, as runs of rows that follow one another. A
    /// meeting of several slots in a room stands in one run.
    pub fn base_runs(&self, pattern: u32) -> &[Run]
        requires { pattern < length (patterns_of self.now) }
        ensures { AreBaseRunsOf (packing self.now) result.now pattern }
    {
        let first = self.made.tables.starts[pattern as usize];
        let end = self.made.tables.starts[pattern as usize + 1];
        &self.made.tables.runs[first..end]
    }

    /// The weight of the pattern at the level, which is the number of a measure.
    pub fn weight(&self, level: u32, pattern: u32) -> i64
        requires low { 1 ≤ level }
        requires high { level ≤ 6 }
        requires known { pattern < length (patterns_of self.now) }
        ensures value { result ≡ (measured self.now).weight level pattern }
        ensures small { IsWithin (10 ^ 9) result }
    {
        self.made.tables.weights[pattern as usize][level as usize - 1]
    }

    /// Whether the two patterns clash.
    pub fn clash(&self, first: u32, second: u32) -> bool
        requires known_first { first < length (patterns_of self.now) }
        requires known_second { second < length (patterns_of self.now) }
        ensures { result ≡ (packing self.now).clash first second }
    {
        let patterns = self.patterns();
        clash(&self.problem, patterns.get(first), patterns.get(second))
    }

    /// What holds of every model: its weights are small. It computes nothing.
    pub fn laws(&self)
        ensures problem { IsProblem self.now }
        ensures small { (level pattern : ℕ) → 1 ≤ level → level ≤ 6 → pattern < length (patterns_of self.now) → IsWithin (10 ^ 9) ((measured self.now).weight level pattern) }
    {
        self.problem.laws();
    }
}

/// The tables of the problem's patterns.
fn tables_of(alloc: Global, p: &Problem, s: &PatternSet) -> Result<Tables, BuildFault>
    requires listed { ArePatterns p.now s.now }
    requires problem { IsProblem p.now }
    requires are { s.now ≡ patterns_of p.now }
    requires few { length s.now ≤ 200000 }
    ensures { MakesTables p.now s.now result }
{
    let table = row_table(alloc, p, s)?;
    let weights = weight_table(alloc, p, s)?;
    let placed = run_table(alloc, p, s, &table.numbers)?;
    Ok(Tables {
        rows: table.rows,
        weights,
        runs: placed.runs,
        starts: placed.starts,
    })
}

/// The patterns of the problem with their tables.
fn made_of(alloc: Global, p: &Problem) -> Result<Made, BuildFault>
    requires { IsProblem p.now }
    ensures { Makes p.now result }
{
    pattern_laws();
    let patterns = PatternSet::all(alloc, p)?;
    let tables = tables_of(alloc, p, &patterns)?;
    Ok(Made { patterns, tables })
}
