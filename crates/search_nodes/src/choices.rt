ghost use Rattle.std.specs.Prelude.{◌≡◌, ◌≤◌, ◌^◌, ℕ, List, length, IfOk};
ghost use Rattle.duality.specs.Sums.{IsWithin};
ghost use Rattle.problem_core.specs.Choice.{IsLegal};
ghost use Rattle.problem_core.specs.Measures.{measure};
ghost use Rattle.meeting_patterns.specs.Pattern.{patterns_of};
ghost use Rattle.packing_model.specs.Built.{measured};
ghost use Rattle.packing_model.specs.Closing.{counted};
ghost use Rattle.search_nodes.specs.Choices.{weighs};

use duality::{Objective, Weighed, weigh};
use meeting_patterns::{chosen, pattern_laws};
use packing_model::{Model, packing_laws};
use problem_core::{Choice, Memory};
use std::alloc::Global;

/// What the patterns that a legal choice chooses weigh together at a level of an objective over the model's
/// patterns.
pub fn weigh_choice<O: Objective>(
    alloc: Global,
    model: &Model,
    objective: &O,
    level: u32,
    choice: &Choice,
) -> Result<i64, Memory>
    requires count { O.count objective.now ≡ length (patterns_of model.now) }
    requires low { 1 ≤ level }
    requires high { level ≤ O.levels objective.now }
    requires legal { IsLegal model.now choice.now.entries }
    ensures { IfOk result (λ weight. weight ≡ weighs model.now (counted (O.weight objective.now) (O.floor objective.now)) level choice.now.entries) }
{
    model.laws();
    pattern_laws();
    let chosen = chosen(alloc, model.problem(), model.patterns(), choice)?;
    Ok(weigh(objective, Weighed::Level(level), &chosen))
}

/// In the measures of a model a legal choice weighs what it measures, at most 10^12 in size. It computes
/// nothing.
pub fn measured_laws(model: &Model)
    ensures weighs { (level : ℕ) (a : List ℕ) → IsLegal model.now a → weighs model.now (measured model.now) level a ≡ measure model.now level a }
    ensures small { (level : ℕ) (a : List ℕ) → IsLegal model.now a → IsWithin (10 ^ 12) (measure model.now level a) }
{
    model.laws();
    model.problem().measure_laws();
    packing_laws();
    pattern_laws();
}
