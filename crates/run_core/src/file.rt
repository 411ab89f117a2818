ghost use Rattle.std.specs.Prelude.{◌≡◌, IfOk, IfErr};
ghost use Rattle.input_core.specs.Reading.{IsWhole};
ghost use Rattle.input_core.specs.Shelf.{OnlyReads};
ghost use Rattle.run_core.specs.Files.{limit, GivesInstance, GivesTimes, IsFaultyInstance, IsFaultyTimes, NoFault, FileFails, NoReadOfFileFailed, IsBadLine, IsStopOf};
ghost use Rattle.run_core.specs.declared.file.FileFault.TheVariants as faults;
ghost use Rattle.ctt_reader.specs.Promised.{IsInstance};
ghost use Rattle.timed_solution.specs.Times.{AreTimes};

use crate::answer::{Answer, Stop};
use crate::status::ToolStatus;
use crate::texts::{bad_line, read_fault, too_long};
use ctt_reader::{Instance, read_ctt};
use input_core::{INPUT_LIMIT, LineFault, Memory, ReadRefusal, Shelf, TextFault, read_all};
use std::alloc::{AllocError, Global};
use timed_solution::{Times, read_times};

/// Why a file gives no value.
#[derive(Drop)]
pub enum FileFault {
    /// It was not read.
    Read,
    /// It is too long or not of its form, as the text says that is to be printed.
    Bad(Vec<u8>),
    /// Memory ran out.
    Memory,
}

impl From<AllocError> for FileFault {
    ghost use Rattle.run_core.specs.declared.file.FileFault.TheVariants as faults;
    ghost use Rattle.std.specs.Prelude.{◌≡◌};

    ghost from_gives = { λ _ e. e ≡ faults.Memory };

    fn from(_: AllocError) -> FileFault {
        FileFault::Memory
    }
}

impl From<Memory> for FileFault {
    ghost use Rattle.run_core.specs.declared.file.FileFault.TheVariants as faults;
    ghost use Rattle.std.specs.Prelude.{◌≡◌};

    ghost from_gives = { λ _ e. e ≡ faults.Memory };

    fn from(_: Memory) -> FileFault {
        FileFault::Memory
    }
}

/// The instance that the file of this name holds.
pub fn load_instance<S: Shelf>(
    alloc: Global,
    shelf: &mut S,
    name: &str,
) -> Result<Instance, FileFault>
    ensures gives { IfOk result (GivesInstance (S.tells shelf.old) (S.held shelf.old name.now)) }
    ensures fits { IfOk result IsInstance }
    ensures fails { IfErr result (FileFails (S.tells shelf.old) (S.held shelf.old name.now) (S.piece_faults shelf.old) (S.piece_faults shelf.new) (IsFaultyInstance (S.tells shelf.old) (S.held shelf.old name.now)) name.now) }
    ensures calls { NoReadOfFileFailed (S.piece_faults shelf.old) (S.piece_faults shelf.new) result }
    ensures only { OnlyReads S.tells S.held S.piece_faults S.put_faults shelf.old shelf.new }
{
    let bytes = load(alloc, shelf, name)?;
    match read_ctt(alloc, bytes.as_slice()) {
        Ok(instance) => Ok(instance),
        Err(TextFault::Line(fault)) => Err(faulty(alloc, name, fault)),
        Err(TextFault::Memory) => Err(FileFault::Memory),
    }
}

/// The timed meetings that the file of this name holds.
pub fn load_times<S: Shelf>(
    alloc: Global,
    shelf: &mut S,
    instance: &Instance,
    name: &str,
) -> Result<Times, FileFault>
    requires { IsInstance instance.now }
    ensures gives { IfOk result (GivesTimes (S.tells shelf.old) (S.held shelf.old name.now) instance.now) }
    ensures fits { IfOk result (λ t. AreTimes instance.now t.meetings) }
    ensures fails { IfErr result (FileFails (S.tells shelf.old) (S.held shelf.old name.now) (S.piece_faults shelf.old) (S.piece_faults shelf.new) (IsFaultyTimes (S.tells shelf.old) (S.held shelf.old name.now) instance.now) name.now) }
    ensures calls { NoReadOfFileFailed (S.piece_faults shelf.old) (S.piece_faults shelf.new) result }
    ensures only { OnlyReads S.tells S.held S.piece_faults S.put_faults shelf.old shelf.new }
{
    let bytes = load(alloc, shelf, name)?;
    match read_times(alloc, instance, bytes.as_slice()) {
        Ok(times) => Ok(times),
        Err(TextFault::Line(fault)) => Err(faulty(alloc, name, fault)),
        Err(TextFault::Memory) => Err(FileFault::Memory),
    }
}

/// All bytes of the file of this name, at most 16,777,216.
pub fn load<S: Shelf>(alloc: Global, shelf: &mut S, name: &str) -> Result<Vec<u8>, FileFault>
    ensures whole { IfOk result (λ v. IsWhole (S.tells shelf.old) (S.held shelf.old name.now) limit v.items) }
    ensures fails { IfErr result (FileFails (S.tells shelf.old) (S.held shelf.old name.now) (S.piece_faults shelf.old) (S.piece_faults shelf.new) NoFault name.now) }
    ensures calls { NoReadOfFileFailed (S.piece_faults shelf.old) (S.piece_faults shelf.new) result }
    ensures only { OnlyReads S.tells S.held S.piece_faults S.put_faults shelf.old shelf.new }
{
    match read_all(alloc, shelf, name, INPUT_LIMIT) {
        Ok(bytes) => Ok(bytes),
        Err(ReadRefusal::Fault) => Err(FileFault::Read),
        Err(ReadRefusal::TooLong { taken: _ }) => Err(FileFault::Bad(too_long(alloc, name)?)),
        Err(ReadRefusal::Memory) => Err(FileFault::Memory),
    }
}

/// What is to be printed of a file with a faulty line.
pub fn faulty(alloc: Global, name: &str, fault: LineFault) -> FileFault
    ensures { IsBadLine name.now fault result }
{
    match bad_line(alloc, name, fault) {
        Ok(text) => FileFault::Bad(text),
        Err(_) => FileFault::Memory,
    }
}

/// What a program answers of the file of this name, which gives no value: `ReadFault` where it was not read, and
/// `BadInput` with the text of the fault. Want of memory, also for the text, is `Memory`.
pub fn stop_of(alloc: Global, name: &str, fault: FileFault) -> Stop
    ensures { IsStopOf name.now fault result }
{
    match fault {
        FileFault::Read => unread(alloc, name),
        FileFault::Bad(text) => Stop::Answer(Answer {
            status: ToolStatus::BadInput,
            text,
        }),
        FileFault::Memory => Stop::Memory,
    }
}

/// What a program answers of the file of this name, which was not read.
fn unread(alloc: Global, name: &str) -> Stop
    ensures { IsStopOf name.now faults.Read result }
{
    match read_fault(alloc, name) {
        Ok(text) => Stop::Answer(Answer {
            status: ToolStatus::ReadFault,
            text,
        }),
        Err(_) => Stop::Memory,
    }
}
