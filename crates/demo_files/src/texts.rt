ghost use Rattle.std.specs.Prelude.{◌≡◌, ◌≤◌, IfOk, Ok};
ghost use Rattle.ctt_reader.specs.Grammar.{ctt_of};
ghost use Rattle.ctt_reader.specs.Promised.{IsInstance};
ghost use Rattle.timed_solution.specs.Times.{times_of as meetings_in, AreTimes};
ghost use Rattle.measure_file.specs.Grammar.{measures_of as measures_in};
ghost use Rattle.measure_file.specs.Promised.{AreMeasures};
ghost use Rattle.measure_file.specs.Writing.{AreNumberedAsWritten};
ghost use Rattle.room_model.specs.ProblemOf.{given_rooms};
ghost use Rattle.demo_files.specs.Generator.{instance_of, times_of, measures_of};

use crate::files::demo_files;
use crate::laws::demo_laws;
use ctt_reader::{Instance, write_ctt};
use input_core::Memory;
use measure_file::{Measures, write_measures};
use problem_core::Choice;
use room_model::given_choice;
use std::alloc::Global;
use timed_solution::{Times, write_solution};

/// The texts of three input files.
#[derive(Drop)]
pub struct Texts {
    pub instance: Vec<u8>,
    pub times: Vec<u8>,
    pub measures: Vec<u8>,
}

/// The texts of the files of the input of `n` courses.
pub fn demo_texts(alloc: Global, n: u32) -> Result<Texts, Memory>
    requires some { 1 ≤ n }
    requires few { n ≤ 300 }
    ensures instance { IfOk result (λ t. ctt_of t.instance.items ≡ Ok (instance_of n)) }
    ensures times { IfOk result (λ t. meetings_in (instance_of n) t.times.items ≡ Ok (times_of n).meetings) }
    ensures measures { IfOk result (λ t. measures_in (instance_of n) t.measures.items ≡ Ok (measures_of n)) }
{
    demo_laws();
    let files = demo_files(alloc, n)?;
    texts_of(alloc, &files.0, &files.1, &files.2)
}

/// The texts of the values of three files.
fn texts_of(
    alloc: Global,
    instance: &Instance,
    times: &Times,
    measures: &Measures,
) -> Result<Texts, Memory>
    requires instance { IsInstance instance.now }
    requires times { AreTimes instance.now times.now.meetings }
    requires measures { AreMeasures instance.now measures.now }
    requires numbered { AreNumberedAsWritten measures.now }
    ensures instance { IfOk result (λ t. ctt_of t.instance.items ≡ Ok instance.now) }
    ensures times { IfOk result (λ t. meetings_in instance.now t.times.items ≡ Ok times.now.meetings) }
    ensures measures { IfOk result (λ t. measures_in instance.now t.measures.items ≡ Ok measures.now) }
{
    Ok(Texts {
        instance: write_ctt(alloc, instance)?,
        times: write_times(alloc, instance, times)?,
        measures: write_measures(alloc, instance, measures)?,
    })
}

/// The text of the times, with the rooms that they give.
fn write_times(alloc: Global, instance: &Instance, times: &Times) -> Result<Vec<u8>, Memory>
    requires instance { IsInstance instance.now }
    requires times { AreTimes instance.now times.now.meetings }
    ensures { IfOk result (λ text. meetings_in instance.now text.items ≡ Ok times.now.meetings) }
{
    match given_choice(alloc, times) {
        Ok(rooms) => write_with(alloc, instance, times, &rooms),
        Err(_) => Err(Memory),
    }
}

/// The text of the times with these rooms, which are those that they give.
fn write_with(
    alloc: Global,
    instance: &Instance,
    times: &Times,
    rooms: &Choice,
) -> Result<Vec<u8>, Memory>
    requires instance { IsInstance instance.now }
    requires times { AreTimes instance.now times.now.meetings }
    requires rooms { rooms.now.entries ≡ given_rooms times.now }
    ensures { IfOk result (λ text. meetings_in instance.now text.items ≡ Ok times.now.meetings) }
{
    match write_solution(alloc, instance, times, rooms) {
        Ok(text) => Ok(text),
        Err(_) => Err(Memory),
    }
}
