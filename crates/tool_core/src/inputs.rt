ghost use Rattle.std.specs.Prelude.{ℕ, ◌≡◌, List, IfOk, IfErr};
ghost use Rattle.input_core.specs.Shelf.{OnlyReads};
ghost use Rattle.ctt_reader.specs.Promised.{IsInstance};
ghost use Rattle.timed_solution.specs.Times.{AreTimes};
ghost use Rattle.measure_file.specs.Promised.{AreMeasures};
ghost use Rattle.run_core.specs.Outside.{told};
ghost use Rattle.run_core.specs.Files.{GivesInstance, GivesTimes, FileFails, NoReadOfFileFailed};
ghost use Rattle.tool_core.specs.Inputs.{names, AreGiven, IsProblem, AreRefused, LoadFails, NoReadOfLoadFailed, GivesMeasures, IsFaultyMeasures, ProblemFails, fault_in, name_of, IsStopOfLoad};

use ctt_reader::Instance;
use input_core::{Memory, Shelf, TextFault};
use measure_file::{Measures, read_measures};
use problem_core::Problem;
use reports::{long_fault, over_limit};
use room_model::{ProblemFault, to_problem};
use run_core::{
    Answer, FileFault, Stop, ToolStatus, faulty, load as load_bytes, load_instance, load_times,
};
use std::alloc::{AllocError, Global};
use timed_solution::Times;
use values::Text;

/// The names of the three input files.
#[derive(Drop)]
pub struct Names {
    pub instance: Text,
    pub times: Text,
    pub measures: Text,
}

impl Names {
    /// The name of a file: 0 is the instance, 1 the times, any other the measures.
    fn of_file(&self, file: u32) -> &str
        ensures { result.now ≡ name_of self.now file }
    {
        match file {
            0 => self.instance.as_str(),
            1 => self.times.as_str(),
            _ => self.measures.as_str(),
        }
    }
}

/// Why three files give no problem, or no model.
#[derive(Drop)]
pub enum LoadFault {
    /// The file of this number was not read: 0 is the instance, 1 the times, 2 the measures.
    Read { file: u32 },
    /// A file is too long or not of its form, or they give no problem, as the text says that is to be printed.
    Bad { text: Vec<u8> },
    /// Memory ran out.
    Memory,
}

impl From<AllocError> for LoadFault {
    ghost use Rattle.tool_core.specs.declared.inputs.LoadFault.TheVariants as faults;
    ghost use Rattle.std.specs.Prelude.{◌≡◌};

    ghost from_gives = { λ _ e. e ≡ faults.Memory };

    fn from(_: AllocError) -> LoadFault {
        LoadFault::Memory
    }
}

impl From<Memory> for LoadFault {
    ghost use Rattle.tool_core.specs.declared.inputs.LoadFault.TheVariants as faults;
    ghost use Rattle.std.specs.Prelude.{◌≡◌};

    ghost from_gives = { λ _ e. e ≡ faults.Memory };

    fn from(_: Memory) -> LoadFault {
        LoadFault::Memory
    }
}

/// The values of three files, and their problem.
#[derive(Drop)]
pub struct Inputs {
    pub instance: Instance,
    pub times: Times,
    pub measures: Measures,
    pub problem: Problem,
}

/// The times, the measures and the problem of an instance.
#[derive(Drop)]
struct Timed {
    times: Times,
    measures: Measures,
    problem: Problem,
}

/// The measures and the problem of an instance and its times.
#[derive(Drop)]
struct Measured {
    measures: Measures,
    problem: Problem,
}

/// The values that three files hold, one file after the other, and their problem. `Read` comes only where a call of
/// the shelf failed or the shelf tells that it doesn't hold the name of that file; `Bad` for the first refusal, in the
/// order instance, times, measures, long meetings, limits of the problem. Whatever the answer, each name holds what it
/// held.
pub fn load_files<S: Shelf>(
    alloc: Global,
    shelf: &mut S,
    instance: &str,
    times: &str,
    measures: &str,
) -> Result<Inputs, LoadFault>
    ensures given { IfOk result (λ l. AreGiven (told S.tells S.held shelf.old) (names instance.now times.now measures.now) l.instance l.times l.measures) }
    ensures instance { IfOk result (λ l. IsInstance l.instance) }
    ensures times { IfOk result (λ l. AreTimes l.instance l.times.meetings) }
    ensures problem { IfOk result (λ l. IsProblem l.instance l.times l.measures l.problem) }
    ensures fails { IfErr result (LoadFails (told S.tells S.held shelf.old) (names instance.now times.now measures.now) (S.piece_faults shelf.old) (S.piece_faults shelf.new) (AreRefused (told S.tells S.held shelf.old) (names instance.now times.now measures.now))) }
    ensures calls { NoReadOfLoadFailed (S.piece_faults shelf.old) (S.piece_faults shelf.new) result }
    ensures only { OnlyReads S.tells S.held S.piece_faults S.put_faults shelf.old shelf.new }
{
    let found = match load_instance(alloc, shelf, instance) {
        Ok(found) => found,
        Err(fault) => return Err(in_file(0, fault)),
    };
    let timed = load_timed(alloc, shelf, &found, times, measures)?;
    Ok(Inputs {
        instance: found,
        times: timed.times,
        measures: timed.measures,
        problem: timed.problem,
    })
}

/// The times and the measures that two files hold, and their problem.
fn load_timed<S: Shelf>(
    alloc: Global,
    shelf: &mut S,
    instance: &Instance,
    times: &str,
    measures: &str,
) -> Result<Timed, LoadFault>
    requires { IsInstance instance.now }
    ensures gives_times { IfOk result (λ t. GivesTimes (S.tells shelf.old) (S.held shelf.old times.now) instance.now t.times) }
    ensures gives_measures { IfOk result (λ t. GivesMeasures (S.tells shelf.old) (S.held shelf.old measures.now) instance.now t.measures) }
    ensures fits { IfOk result (λ t. AreTimes instance.now t.times.meetings) }
    ensures problem { IfOk result (λ t. IsProblem instance.now t.times t.measures t.problem) }
    ensures fails { (n : List ℕ) → GivesInstance (S.tells shelf.old) (S.held shelf.old n) instance.now → IfErr result (LoadFails (told S.tells S.held shelf.old) (names n times.now measures.now) (S.piece_faults shelf.old) (S.piece_faults shelf.new) (AreRefused (told S.tells S.held shelf.old) (names n times.now measures.now))) }
    ensures calls { NoReadOfLoadFailed (S.piece_faults shelf.old) (S.piece_faults shelf.new) result }
    ensures only { OnlyReads S.tells S.held S.piece_faults S.put_faults shelf.old shelf.new }
{
    let found = match load_times(alloc, shelf, instance, times) {
        Ok(found) => found,
        Err(fault) => return Err(in_file(1, fault)),
    };
    let measured = load_measured(alloc, shelf, instance, &found, measures)?;
    Ok(Timed {
        times: found,
        measures: measured.measures,
        problem: measured.problem,
    })
}

/// The measures that a file holds, and the problem.
fn load_measured<S: Shelf>(
    alloc: Global,
    shelf: &mut S,
    instance: &Instance,
    times: &Times,
    measures: &str,
) -> Result<Measured, LoadFault>
    requires instance { IsInstance instance.now }
    requires times { AreTimes instance.now times.now.meetings }
    ensures gives { IfOk result (λ m. GivesMeasures (S.tells shelf.old) (S.held shelf.old measures.now) instance.now m.measures) }
    ensures problem { IfOk result (λ m. IsProblem instance.now times.now m.measures m.problem) }
    ensures fails { (n k : List ℕ) → GivesInstance (S.tells shelf.old) (S.held shelf.old n) instance.now → GivesTimes (S.tells shelf.old) (S.held shelf.old k) instance.now times.now → IfErr result (LoadFails (told S.tells S.held shelf.old) (names n k measures.now) (S.piece_faults shelf.old) (S.piece_faults shelf.new) (AreRefused (told S.tells S.held shelf.old) (names n k measures.now))) }
    ensures calls { NoReadOfLoadFailed (S.piece_faults shelf.old) (S.piece_faults shelf.new) result }
    ensures only { OnlyReads S.tells S.held S.piece_faults S.put_faults shelf.old shelf.new }
{
    let found = match load_measures(alloc, shelf, instance, measures) {
        Ok(found) => found,
        Err(fault) => return Err(in_file(2, fault)),
    };
    let problem = load_problem(alloc, instance, times, &found)?;
    Ok(Measured {
        measures: found,
        problem,
    })
}

/// The measures that the file of this name holds.
fn load_measures<S: Shelf>(
    alloc: Global,
    shelf: &mut S,
    instance: &Instance,
    name: &str,
) -> Result<Measures, FileFault>
    requires { IsInstance instance.now }
    ensures gives { IfOk result (GivesMeasures (S.tells shelf.old) (S.held shelf.old name.now) instance.now) }
    ensures fits { IfOk result (λ m. AreMeasures instance.now m) }
    ensures fails { IfErr result (FileFails (S.tells shelf.old) (S.held shelf.old name.now) (S.piece_faults shelf.old) (S.piece_faults shelf.new) (IsFaultyMeasures (S.tells shelf.old) (S.held shelf.old name.now) instance.now) name.now) }
    ensures calls { NoReadOfFileFailed (S.piece_faults shelf.old) (S.piece_faults shelf.new) result }
    ensures only { OnlyReads S.tells S.held S.piece_faults S.put_faults shelf.old shelf.new }
{
    let bytes = load_bytes(alloc, shelf, name)?;
    match read_measures(alloc, instance, bytes.as_slice()) {
        Ok(measures) => Ok(measures),
        Err(TextFault::Line(fault)) => Err(faulty(alloc, name, fault)),
        Err(TextFault::Memory) => Err(FileFault::Memory),
    }
}

/// The problem of the values of the files.
fn load_problem(
    alloc: Global,
    instance: &Instance,
    times: &Times,
    measures: &Measures,
) -> Result<Problem, LoadFault>
    requires instance { IsInstance instance.now }
    requires times { AreTimes instance.now times.now.meetings }
    requires measures { AreMeasures instance.now measures.now }
    ensures problem { IfOk result (IsProblem instance.now times.now measures.now) }
    ensures fails { IfErr result (ProblemFails instance.now times.now measures.now) }
{
    match to_problem(alloc, instance, times, measures) {
        Ok(problem) => Ok(problem),
        Err(ProblemFault::Long(fault)) => Err(LoadFault::Bad {
            text: long_fault(alloc, instance, times, fault)?,
        }),
        Err(ProblemFault::Limit(limit)) => Err(LoadFault::Bad {
            text: over_limit(alloc, limit)?,
        }),
        Err(ProblemFault::Memory) => Err(LoadFault::Memory),
    }
}

/// The fault of the file of this number.
fn in_file(file: u32, fault: FileFault) -> LoadFault
    ensures { result ≡ fault_in file fault }
{
    match fault {
        FileFault::Read => LoadFault::Read { file },
        FileFault::Bad(text) => LoadFault::Bad { text },
        FileFault::Memory => LoadFault::Memory,
    }
}

/// What a program answers of three files of these names, which give nothing: `ReadFault` where one was not read, and
/// `BadInput` with the text of the fault. Want of memory, also for the text, is `Memory`.
pub fn stop_of(alloc: Global, names: &Names, fault: LoadFault) -> Stop
    ensures { IsStopOfLoad names.now fault result }
{
    match fault {
        LoadFault::Read { file } => {
            run_core::stop_of(alloc, names.of_file(file), FileFault::Read)
        }
        LoadFault::Bad { text } => Stop::Answer(Answer {
            status: ToolStatus::BadInput,
            text,
        }),
        LoadFault::Memory => Stop::Memory,
    }
}
