ghost use Rattle.std.specs.Prelude.{◌≡◌, None, IfOk, IfErr};
ghost use Rattle.packing_model.specs.Built.{model_limit};
ghost use Rattle.input_core.specs.Shelf.{OnlyReads};
ghost use Rattle.ctt_reader.specs.Promised.{IsInstance};
ghost use Rattle.timed_solution.specs.Times.{AreTimes};
ghost use Rattle.run_core.specs.Outside.{told};
ghost use Rattle.tool_core.specs.Inputs.{names, AreGiven, IsModel, AreRefusedForModel, LoadFails, NoReadOfLoadFailed, ModelFails};

use crate::inputs::{Inputs, LoadFault, load_files};
use ctt_reader::Instance;
use input_core::Shelf;
use measure_file::Measures;
use packing_model::Model;
use problem_core::{BuildFault, Problem};
use reports::over_limit;
use std::alloc::Global;
use timed_solution::Times;

/// The values of three files, and the model of their problem.
#[derive(Drop)]
pub struct Loaded {
    pub instance: Instance,
    pub times: Times,
    pub measures: Measures,
    pub model: Model,
}

/// The values that three files hold, and the model of their problem: as `load_files`, and then `Bad` also where the
/// model passes a limit.
pub fn load<S: Shelf>(
    alloc: Global,
    shelf: &mut S,
    instance: &str,
    times: &str,
    measures: &str,
) -> Result<Loaded, LoadFault>
    ensures given { IfOk result (λ l. AreGiven (told S.tells S.held shelf.old) (names instance.now times.now measures.now) l.instance l.times l.measures) }
    ensures instance { IfOk result (λ l. IsInstance l.instance) }
    ensures times { IfOk result (λ l. AreTimes l.instance l.times.meetings) }
    ensures model { IfOk result (λ l. IsModel l.instance l.times l.measures l.model) }
    ensures fails { IfErr result (LoadFails (told S.tells S.held shelf.old) (names instance.now times.now measures.now) (S.piece_faults shelf.old) (S.piece_faults shelf.new) (AreRefusedForModel (told S.tells S.held shelf.old) (names instance.now times.now measures.now))) }
    ensures calls { NoReadOfLoadFailed (S.piece_faults shelf.old) (S.piece_faults shelf.new) result }
    ensures only { OnlyReads S.tells S.held S.piece_faults S.put_faults shelf.old shelf.new }
{
    let inputs = load_files(alloc, shelf, instance, times, measures)?;
    with_model(alloc, inputs)
}

/// The values, and the model of their problem.
fn with_model(alloc: Global, inputs: Inputs) -> Result<Loaded, LoadFault>
    ensures instance { IfOk result (λ l. l.instance ≡ inputs.instance) }
    ensures times { IfOk result (λ l. l.times ≡ inputs.times) }
    ensures measures { IfOk result (λ l. l.measures ≡ inputs.measures) }
    ensures model { IfOk result (λ l. (l.model ≡ inputs.problem) × (model_limit inputs.problem ≡ None)) }
    ensures fails { IfErr result (ModelFails inputs.problem) }
{
    let model = build_model(alloc, inputs.problem)?;
    Ok(Loaded {
        instance: inputs.instance,
        times: inputs.times,
        measures: inputs.measures,
        model,
    })
}

/// The model of a problem.
fn build_model(alloc: Global, problem: Problem) -> Result<Model, LoadFault>
    ensures same { IfOk result (λ m. m ≡ problem) }
    ensures few { IfOk result (λ m. model_limit problem ≡ None) }
    ensures fails { IfErr result (ModelFails problem) }
{
    match Model::build(alloc, problem) {
        Ok(model) => Ok(model),
        Err(BuildFault::Limit(limit)) => Err(LoadFault::Bad {
            text: over_limit(alloc, limit)?,
        }),
        Err(BuildFault::Memory) => Err(LoadFault::Memory),
    }
}
