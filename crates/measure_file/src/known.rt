ghost use Rattle.std.specs.Prelude.{◌≡◌, IfOk};
ghost use Rattle.ctt_reader.specs.Promised.{IsInstance};
ghost use Rattle.measure_file.specs.Grammar.{known_of};
ghost use Rattle.measure_file.specs.Steps.{AreFew};

use ctt_reader::{Instance, Names, names_of_courses, names_of_rooms};
use input_core::Memory;
use std::alloc::Global;

/// What an instance knows that a measures file speaks of.
#[derive(Drop)]
pub struct Known<'a> {
    pub courses: Names<'a>,
    pub rooms: Names<'a>,
    pub days: u32,
    pub periods: u32,
}

impl<'a> Known<'a> {
    /// What the instance knows.
    pub fn new(alloc: Global, i: &'a Instance) -> Result<Known<'a>, Memory>
        requires { IsInstance i.now }
        ensures known { IfOk result (λ known. known ≡ known_of i.now) }
        ensures few { IfOk result AreFew }
    {
        let courses = names_of_courses(alloc, i)?;
        let rooms = names_of_rooms(alloc, i)?;
        Ok(Known {
            courses,
            rooms,
            days: i.days,
            periods: i.periods,
        })
    }
}
