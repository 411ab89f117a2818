ghost use Rattle.std.specs.Prelude.{◌≡◌, ◌≢◌, IfSome, ◌≤◌, ◌<◌, ◌^◌, ◌++◌, [], length, map, codes, IfOk};
ghost use Rattle.input_core.specs.Fields.{Gives};
ghost use Rattle.ctt_reader.specs.Entries.{course_names, room_after};
ghost use Rattle.ctt_reader.specs.Grammar.{ctt_of, sections_of, courses_of, curricula_of, constraints_of, section_of, end_of};
ghost use Rattle.ctt_reader.specs.Promised.{AreFew, IsInstance};
ghost use Rattle.ctt_reader.specs.Steps.{Reads, Steps, section_step};

use crate::entries::{read_constraint, read_course_entry, read_curriculum_entry, read_room_entry};
use crate::header::{Sizes, read_sizes, read_title, read_word};
use crate::instance::{Course, Curriculum, Instance, Room};
use crate::names::Names;
use input_core::{LineFault, LineKind, Row, Rows, TextFault};
use std::alloc::Global;
use values::Items;

/// The instance that the text of an instance file stands for. `Line` comes exactly where the text is outside the
/// grammar, with the first faulty line and its first kind of fault. Whatever is read keeps to `IsInstance`: the
/// limits of counts and numbers, good names, different names of courses and of rooms, known members.
pub fn read_ctt(alloc: Global, bytes: &[u8]) -> Result<Instance, TextFault>
    ensures exact { Gives (λ i. i) result (ctt_of bytes.now) }
    ensures promised { IfOk result IsInstance }
{
    let mut rows = Rows::new(bytes);
    let title = read_title(alloc, &mut rows)?;
    let sizes = read_sizes(&mut rows)?;
    let sections = read_sections(alloc, sizes, &mut rows)?;
    read_end(&mut rows)?;
    Ok(Instance {
        title,
        courses: sections.courses,
        rooms: sections.rooms,
        days: sizes.days,
        periods: sizes.periods,
        curricula: sections.curricula,
        constraints: sections.constraints,
    })
}

/// The four sections of an instance.
#[derive(Drop)]
struct Sections {
    courses: Items<Course>,
    rooms: Items<Room>,
    curricula: Items<Curriculum>,
    constraints: Items<(u32, u32, u32)>,
}

/// The four sections, to the line that ends the file.
fn read_sections(alloc: Global, sizes: Sizes, rows: &mut Rows) -> Result<Sections, TextFault>
    requires { AreFew sizes }
    ensures { Reads (λ sections. sections) result (sections_of sizes rows.old) rows.new }
{
    let mut names = Names::new(alloc);
    read_named_sections(alloc, sizes, &mut names, rows)
}

/// The four sections, where no name of a course was read yet.
fn read_named_sections<'a>(
    alloc: Global,
    sizes: Sizes,
    names: &mut Names<'a>,
    rows: &mut Rows<'a>,
) -> Result<Sections, TextFault>
    requires few { AreFew sizes }
    requires empty { names.old ≡ [] }
    ensures { Reads (λ sections. sections) result (sections_of sizes rows.old) rows.new }
{
    let courses = read_courses(alloc, sizes.courses, names, rows)?;
    let rooms = read_rooms(alloc, sizes.rooms, rows)?;
    let curricula = read_curricula(alloc, sizes.curricula, names, rows)?;
    let constraints = read_constraints(alloc, sizes, names, rows)?;
    Ok(Sections {
        courses,
        rooms,
        curricula,
        constraints,
    })
}

/// The next entry of a section that has to have `wanted` entries, of which `found` were read; or `None` where the
/// section ends, at the line with this word alone.
fn next_entry<'a>(
    rows: &mut Rows<'a>,
    end: &[u8],
    wanted: u32,
    found: u32,
) -> Result<Option<Row<'a>>, LineFault>
    requires { wanted < 2 ^ 20 }
    ensures entry { Steps result (section_step end.now wanted found rows.old) rows.new }
    ensures open { IfOk result (λ entry. IfSome entry (λ _. found ≢ wanted)) }
    ensures shorter { IfOk result (λ _. length rows.new.rows < length rows.old.rows) }
{
    let row = rows.expect()?;
    let ends = row.fields.is_alone(end);
    if ends == (found == wanted) {
        return Ok(if ends { None } else { Some(row) });
    }
    let found = if ends { found } else { wanted + 1 };
    Err(LineFault {
        line: row.line,
        kind: LineKind::Count { wanted, found },
    })
}

/// The section of the courses, from its first line to the first line of the next one.
fn read_courses<'a>(
    alloc: Global,
    wanted: u32,
    names: &mut Names<'a>,
    rows: &mut Rows<'a>,
) -> Result<Items<Course>, TextFault>
    requires few { wanted < 2 ^ 20 }
    requires empty { names.old ≡ [] }
    ensures courses { Reads (λ courses. courses) result (courses_of wanted rows.old) rows.new }
    ensures names { IfOk result (λ courses. names.new ≡ course_names courses) }
    ensures count { IfOk result (λ _. length names.new ≤ wanted) }
{
    read_word(rows, b"COURSES:")?;
    let mut courses = Items::new(alloc);
    while let Some(row) = next_entry(rows, b"ROOMS:", wanted, courses.len() as u32)? {
        let mut fields = row.fields;
        let course = read_course_entry(alloc, names, row.line, &mut fields)?;
        courses.push(course)?;
    }
    Ok(courses)
}

/// The lines of the rooms, to the first line of the next section.
fn read_rooms(alloc: Global, wanted: u32, rows: &mut Rows) -> Result<Items<Room>, TextFault>
    requires { wanted < 2 ^ 20 }
    ensures { Reads (λ rooms. rooms) result (section_of (codes "CURRICULA:") wanted room_after rows.old) rows.new }
{
    let mut names = Names::new(alloc);
    read_named_rooms(alloc, wanted, &mut names, rows)
}

/// The lines of the rooms, where no name of a room was read yet.
fn read_named_rooms<'a>(
    alloc: Global,
    wanted: u32,
    names: &mut Names<'a>,
    rows: &mut Rows<'a>,
) -> Result<Items<Room>, TextFault>
    requires few { wanted < 2 ^ 20 }
    requires empty { names.old ≡ [] }
    ensures { Reads (λ rooms. rooms) result (section_of (codes "CURRICULA:") wanted room_after rows.old) rows.new }
{
    let mut rooms = Items::new(alloc);
    while let Some(row) = next_entry(rows, b"CURRICULA:", wanted, rooms.len() as u32)? {
        let mut fields = row.fields;
        let room = read_room_entry(alloc, names, row.line, &mut fields)?;
        rooms.push(room)?;
    }
    Ok(rooms)
}

/// The lines of the curricula, to the first line of the next section.
fn read_curricula(
    alloc: Global,
    wanted: u32,
    names: &Names,
    rows: &mut Rows,
) -> Result<Items<Curriculum>, TextFault>
    requires few { wanted < 2 ^ 20 }
    requires names { length names.now < 2 ^ 32 }
    ensures { Reads (λ curricula. curricula) result (curricula_of names.now wanted rows.old) rows.new }
{
    let mut curricula = Items::new(alloc);
    while let Some(row) = next_entry(
        rows,
        b"UNAVAILABILITY_CONSTRAINTS:",
        wanted,
        curricula.len() as u32,
    )? {
        let mut fields = row.fields;
        let curriculum = read_curriculum_entry(alloc, names, row.line, &mut fields)?;
        curricula.push(curriculum)?;
    }
    Ok(curricula)
}

/// The lines of the constraints, to the line that ends the file.
fn read_constraints(
    alloc: Global,
    sizes: Sizes,
    names: &Names,
    rows: &mut Rows,
) -> Result<Items<(u32, u32, u32)>, TextFault>
    requires few { AreFew sizes }
    requires names { length names.now < 2 ^ 32 }
    ensures { Reads (λ constraints. constraints) result (constraints_of names.now sizes rows.old) rows.new }
{
    let mut constraints = Items::new(alloc);
    while let Some(row) = next_entry(rows, b"END.", sizes.constraints, constraints.len() as u32)? {
        let mut fields = row.fields;
        match read_constraint(names, sizes.days, sizes.periods, &mut fields) {
            Ok(constraint) => constraints.push(constraint)?,
            Err(kind) => return Err(TextFault::Line(LineFault {
                line: row.line,
                kind,
            })),
        }
    }
    Ok(constraints)
}

/// No line with fields may be left.
fn read_end(rows: &mut Rows) -> Result<(), LineFault>
    ensures { result ≡ end_of rows.old }
{
    match rows.next()? {
        None => Ok(()),
        Some(row) => Err(LineFault {
            line: row.line,
            kind: LineKind::After,
        }),
    }
}
