ghost use Rattle.std.specs.Prelude.{◌≡◌, ◌≤◌, ◌<◌, ◌++◌, ◌∷◌, [], map, codes, decimal, IfOk, OnOk};
ghost use Rattle.demo_files.specs.Generator.{indices, course_at, room_at, instance_of};

use ctt_reader::{Course, Instance, Room};
use itoa::Buffer;
use std::alloc::{AllocError, Global};
use values::{Items, Text};

/// The number of rooms.
const ROOMS: u32 = 12;

/// The instance of `n` courses.
pub fn demo_instance(alloc: Global, n: u32) -> Result<Instance, AllocError>
    requires { n ≤ 300 }
    ensures { IfOk result (λ i. i ≡ instance_of n) }
{
    let title = title(alloc)?;
    let rooms = rooms(alloc)?;
    let courses = courses(alloc, n)?;
    Ok(Instance {
        title,
        courses,
        rooms,
        days: 5,
        periods: 8,
        curricula: Items::new(alloc),
        constraints: Items::new(alloc),
    })
}

/// The fields of the title.
fn title(alloc: Global) -> Result<Items<Text>, AllocError>
    ensures { IfOk result (λ title. title ≡ codes "demo" ∷ []) }
{
    let mut title = Items::new(alloc);
    title.push(Text::from_str(alloc, "demo")?)?;
    Ok(title)
}

/// The courses in order.
#[tactic(auto, using(crate::proofs::IndexLemmas::mapped_more))]
fn courses(alloc: Global, n: u32) -> Result<Items<Course>, AllocError>
    requires { n ≤ 300 }
    ensures { IfOk result (λ courses. courses ≡ map course_at (indices n)) }
{
    let mut courses = Items::new(alloc);
    for i in 0..n {
        courses.push(course(alloc, i)?)?;
    }
    Ok(courses)
}

/// The course of the number.
fn course(alloc: Global, i: u32) -> Result<Course, AllocError>
    requires { i < 300 }
    ensures { IfOk result (λ course. course ≡ course_at i) }
{
    let name = numbered(alloc, "d", i)?;
    let teacher = numbered(alloc, "t", i)?;
    Ok(Course {
        name,
        teacher,
        lectures: 1 + i % 3,
        min_days: 1,
        students: 10 + i * 37 % 190,
    })
}

/// The rooms in order.
#[tactic(auto, using(crate::proofs::IndexLemmas::mapped_more))]
fn rooms(alloc: Global) -> Result<Items<Room>, AllocError>
    ensures { IfOk result (λ rooms. rooms ≡ map room_at (indices 12)) }
{
    let mut rooms = Items::new(alloc);
    for r in 0..ROOMS {
        rooms.push(Room {
            name: numbered(alloc, "h", r)?,
            capacity: 20 + 20 * r,
        })?;
    }
    Ok(rooms)
}

/// The letter and the number.
fn numbered(alloc: Global, letter: &str, number: u32) -> Result<Text, AllocError>
    ensures { IfOk result (λ name. name ≡ letter.now ++ decimal number) }
{
    let mut buffer = Buffer::new();
    let mut name = String::from_str(alloc, letter)?;
    name.push_str(buffer.format(number))?;
    Ok(Text::from(name))
}
