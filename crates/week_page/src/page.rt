ghost use Rattle.std.specs.Prelude.{◌≡◌, IfOk};
ghost use Rattle.ctt_reader.specs.Promised.{IsInstance};
ghost use Rattle.timed_solution.specs.Times.{AreTimes};
ghost use Rattle.week_page.specs.Page.{page_text, page_of, page_of_tables, ArePrintable};

use crate::days::push_days;
use crate::head::push_head;
use crate::meetings::{push_courses, push_unroomed};
use crate::tables::{Tables, tables_of};
use ctt_reader::Instance;
use input_core::Memory;
use std::alloc::Global;
use timed_solution::Times;

/// The page of a timetable, in UTF-8 as HTML: for each day a table of rooms by periods with the courses in its cells,
/// then the meetings without a room, then each course with its meetings.
pub fn week_page(alloc: Global, i: &Instance, times: &Times) -> Result<Vec<u8>, Memory>
    requires instance { IsInstance i.now }
    requires times { AreTimes i.now times.now.meetings }
    ensures { IfOk result (λ v. v.items ≡ page_text i.now times.now.meetings) }
{
    let tables = tables_of(alloc, i, times.meetings.as_slice())?;
    print_tables(alloc, i, &tables)
}

/// The page of the tables.
#[tactic(auto, unfolding(crate::specs::Page::page_of))]
fn print_tables(alloc: Global, i: &Instance, t: &Tables) -> Result<Vec<u8>, Memory>
    requires instance { IsInstance i.now }
    requires tables { ArePrintable i.now t.now }
    ensures { IfOk result (λ v. v.items ≡ page_of_tables i.now t.now) }
{
    let mut text = Vec::new(alloc);
    push_head(&mut text, i)?;
    push_days(&mut text, i, t)?;
    push_unroomed(&mut text, i, t.unroomed.as_slice())?;
    push_courses(&mut text, i, t)?;
    text.extend_from_slice(b"</body>\n</html>\n")?;
    Ok(text)
}
