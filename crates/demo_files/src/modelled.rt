ghost use Rattle.std.specs.Prelude.{◌≡◌, ◌≤◌, None, IfOk, Ok};
ghost use Rattle.ctt_reader.specs.Promised.{IsInstance};
ghost use Rattle.timed_solution.specs.Times.{times_of as meetings_in, AreTimes};
ghost use Rattle.measure_file.specs.Grammar.{measures_of as measures_in};
ghost use Rattle.measure_file.specs.Promised.{AreMeasures};
ghost use Rattle.packing_model.specs.Built.{model_limit};
ghost use Rattle.tool_core.specs.Inputs.{IsProblem, IsModel};
ghost use Rattle.demo_files.specs.Generator.{instance_of, times_of, measures_of};
ghost use Rattle.demo_files.specs.Texts.{AreRead};

use crate::laws::demo_laws;
use crate::texts::{Texts, demo_texts};
use ctt_reader::{Instance, read_ctt};
use input_core::Memory;
use measure_file::{Measures, read_measures};
use packing_model::Model;
use problem_core::Problem;
use room_model::to_problem;
use std::alloc::Global;
use timed_solution::{Times, read_times};
use tool_core::Loaded;

/// The input of `n` courses (`demo_files`), written as the texts of its three files and read back from them, with the
/// model of its problem. What is read back is what was made, and no limit is passed.
pub fn demo_model(alloc: Global, n: u32) -> Result<Loaded, Memory>
    requires some { 1 ≤ n }
    requires few { n ≤ 300 }
    ensures instance { IfOk result (λ l. l.instance ≡ instance_of n) }
    ensures times { IfOk result (λ l. l.times ≡ times_of n) }
    ensures measures { IfOk result (λ l. l.measures ≡ measures_of n) }
    ensures known { IfOk result (λ l. IsInstance l.instance) }
    ensures fits { IfOk result (λ l. AreTimes l.instance l.times.meetings) }
    ensures model { IfOk result (λ l. IsModel l.instance l.times l.measures l.model) }
{
    let texts = demo_texts(alloc, n)?;
    read_back(alloc, &texts)
}

/// The times, the measures and the model of an instance.
#[derive(Drop)]
struct Timed {
    times: Times,
    measures: Measures,
    model: Model,
}

/// The measures and the model of an instance and its times.
#[derive(Drop)]
struct Measured {
    measures: Measures,
    model: Model,
}

/// What the texts say, with its model.
fn read_back(alloc: Global, texts: &Texts) -> Result<Loaded, Memory>
    ensures { IfOk result (AreRead texts.now.instance.items texts.now.times.items texts.now.measures.items) }
{
    let Ok(instance) = read_ctt(alloc, texts.instance.as_slice()) else {
        return Err(Memory);
    };
    let timed = read_timed(
        alloc,
        &instance,
        texts.times.as_slice(),
        texts.measures.as_slice(),
    )?;
    Ok(Loaded {
        instance,
        times: timed.times,
        measures: timed.measures,
        model: timed.model,
    })
}

/// What the texts of the times and of the measures say of the instance, with the model.
fn read_timed(
    alloc: Global,
    instance: &Instance,
    times: &[u8],
    measures: &[u8],
) -> Result<Timed, Memory>
    requires { IsInstance instance.now }
    ensures times { IfOk result (λ t. meetings_in instance.now times.now ≡ Ok t.times.meetings) }
    ensures measures { IfOk result (λ t. measures_in instance.now measures.now ≡ Ok t.measures) }
    ensures fits { IfOk result (λ t. AreTimes instance.now t.times.meetings) }
    ensures model { IfOk result (λ t. IsModel instance.now t.times t.measures t.model) }
{
    let Ok(times) = read_times(alloc, instance, times) else {
        return Err(Memory);
    };
    let measured = read_measured(alloc, instance, &times, measures)?;
    Ok(Timed {
        times,
        measures: measured.measures,
        model: measured.model,
    })
}

/// What the text of the measures says of the instance, with the model.
fn read_measured(
    alloc: Global,
    instance: &Instance,
    times: &Times,
    text: &[u8],
) -> Result<Measured, Memory>
    requires instance { IsInstance instance.now }
    requires times { AreTimes instance.now times.now.meetings }
    ensures measures { IfOk result (λ m. measures_in instance.now text.now ≡ Ok m.measures) }
    ensures model { IfOk result (λ m. IsModel instance.now times.now m.measures m.model) }
{
    let Ok(measures) = read_measures(alloc, instance, text) else {
        return Err(Memory);
    };
    let model = model_of(alloc, instance, times, &measures)?;
    Ok(Measured { measures, model })
}

/// The model of the values of three files.
fn model_of(
    alloc: Global,
    instance: &Instance,
    times: &Times,
    measures: &Measures,
) -> Result<Model, Memory>
    requires instance { IsInstance instance.now }
    requires times { AreTimes instance.now times.now.meetings }
    requires measures { AreMeasures instance.now measures.now }
    ensures { IfOk result (IsModel instance.now times.now measures.now) }
{
    let problem = problem_of(alloc, instance, times, measures)?;
    build(alloc, problem)
}

/// The problem of the values of three files.
fn problem_of(
    alloc: Global,
    instance: &Instance,
    times: &Times,
    measures: &Measures,
) -> Result<Problem, Memory>
    requires instance { IsInstance instance.now }
    requires times { AreTimes instance.now times.now.meetings }
    requires measures { AreMeasures instance.now measures.now }
    ensures { IfOk result (IsProblem instance.now times.now measures.now) }
{
    match to_problem(alloc, instance, times, measures) {
        Ok(problem) => Ok(problem),
        Err(_) => Err(Memory),
    }
}

/// The model of a problem.
fn build(alloc: Global, problem: Problem) -> Result<Model, Memory>
    ensures same { IfOk result (λ m. m ≡ problem) }
    ensures few { IfOk result (λ m. model_limit problem ≡ None) }
{
    match Model::build(alloc, problem) {
        Ok(model) => Ok(model),
        Err(_) => Err(Memory),
    }
}
