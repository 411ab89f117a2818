ghost use Rattle.std.specs.Prelude.{◌≡◌, ◌<◌, ◌*◌, ℕ, length, slice_index_or, IfOk};
ghost use Rattle.ctt_reader.specs.Promised.{IsInstance};
ghost use Rattle.timed_solution.specs.Times.{AreTimes};
ghost use Rattle.week_page.specs.Cells.{AreGroups, without_room};
ghost use Rattle.week_page.specs.declared.groups.Grouping.TheVariants.{ByCell, ByCourse};
ghost use Rattle.week_page.specs.Page.{ArePrintable};

use crate::courses::course_texts;
use crate::groups::{Grouping, grouped, without_room};
use ctt_reader::Instance;
use input_core::Memory;
use std::alloc::Global;
use timed_solution::Meeting;
use values::Items;

/// What a page is printed from.
#[derive(Drop)]
pub struct Tables {
    /// The lines by day, room and period.
    pub cells: Vec<Items<Meeting>>,
    /// The lines by course.
    pub courses: Vec<Items<Meeting>>,
    /// The lines without a room.
    pub unroomed: Items<Meeting>,
    /// The text of each course.
    pub texts: Vec<Items<u8>>,
}

/// The tables of the lines.
pub fn tables_of(alloc: Global, i: &Instance, lines: &[Meeting]) -> Result<Tables, Memory>
    requires instance { IsInstance i.now }
    requires lines { AreTimes i.now lines.now }
    ensures printable { IfOk result (λ t. ArePrintable i.now t) }
    ensures cells { IfOk result (λ t. AreGroups ByCell lines.now t.cells.items) }
    ensures courses { IfOk result (λ t. AreGroups ByCourse lines.now t.courses.items) }
    ensures unroomed { IfOk result (λ t. t.unroomed ≡ without_room lines.now) }
{
    Ok(Tables {
        cells: grouped(alloc, lines, Grouping::ByCell, i.days as usize * 9648)?,
        courses: grouped(alloc, lines, Grouping::ByCourse, i.courses.len())?,
        unroomed: without_room(alloc, lines)?,
        texts: course_texts(alloc, i)?,
    })
}
