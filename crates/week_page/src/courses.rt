ghost use Rattle.std.specs.Prelude.{◌≡◌, ◌<◌, ◌≤◌, ◌==◌, ◌++◌, ℕ, cond, nat_lt, length, slice_index, slice_index_or, IfOk, OnOk, true};
ghost use Rattle.std.specs.List.{list_all, list_any};
ghost use Rattle.ctt_reader.specs.Promised.{IsInstance, are_members};
ghost use Rattle.week_page.specs.Page.{first_listing, colour, named_course, curriculum_name, curriculum_text, course_text, AreCourseTexts};

use crate::names::{push_decimal, push_escaped};
use ctt_reader::{Course, Curriculum, Instance};
use input_core::Memory;
use std::alloc::{AllocError, Global};
use values::Items;

/// The text of each course.
pub fn course_texts(alloc: Global, i: &Instance) -> Result<Vec<Items<u8>>, Memory>
    requires { IsInstance i.now }
    ensures { IfOk result (λ texts. AreCourseTexts i.now texts.items) }
{
    let firsts = first_listings(alloc, i)?;
    let mut texts = Vec::new(alloc);
    for course in 0..i.courses.len() {
        let mut text = Vec::new(alloc);
        push_course(&mut text, i, course, firsts[course])?;
        if texts.push(Items::from(text)).is_err() {
            return Err(Memory);
        }
    }
    Ok(texts)
}

/// For each course the place of the first curriculum that lists it, or the number of curricula.
fn first_listings(alloc: Global, i: &Instance) -> Result<Vec<u32>, Memory>
    requires { IsInstance i.now }
    ensures whole { IfOk result (λ firsts. length firsts.items ≡ length i.now.courses) }
    ensures each { IfOk result (λ firsts. (c : ℕ) → c < length i.now.courses → slice_index firsts.items c ≡ first_listing i.now c) }
{
    let curricula = i.curricula.as_slice();
    let mut left = curricula.len() as u32;
    let mut firsts = vec![in alloc; left; i.courses.len()]?;
    while left > 0 {
        left -= 1;
        set_each(
            &mut firsts,
            curricula[left as usize].members.as_slice(),
            left,
        );
    }
    Ok(firsts)
}

/// Writes the number at each of the places.
fn set_each(table: &mut [u32], places: &[u32], number: u32)
    requires { are_members (length table.old) places.now ≡ true }
    ensures whole { length table.new ≡ length table.old }
    ensures each { (c : ℕ) → c < length table.old → slice_index table.new c ≡ cond (list_any (λ m. m == c) places.now) number (slice_index table.old c) }
{
    let mut left = places.len();
    while left > 0 {
        left -= 1;
        table[places[left] as usize] = number;
    }
}

/// Adds the text of the course, which this curriculum is the first to list.
#[tactic(auto, unfolding(crate::specs::Page::course_text))]
fn push_course(
    text: &mut Vec<u8>,
    i: &Instance,
    course: usize,
    first: u32,
) -> Result<(), AllocError>
    requires course { course < length i.now.courses }
    requires first { first ≡ first_listing i.now course }
    ensures { OnOk result (text.new.items ≡ text.old.items ++ course_text i.now course) }
{
    text.extend_from_slice(b"<p class=\"")?;
    push_colour(text, i, first)?;
    push_named(text, &i.courses.as_slice()[course])?;
    push_curriculum(text, i, first)?;
    Ok(())
}

#[tactic(auto, unfolding(crate::specs::Page::named_course))]
fn push_named(text: &mut Vec<u8>, course: &Course) -> Result<(), AllocError>
    ensures { OnOk result (text.new.items ≡ text.old.items ++ named_course course.now) }
{
    text.extend_from_slice(b"\"><b>")?;
    push_escaped(text, course.name.as_bytes())?;
    text.extend_from_slice(b"</b><small>")?;
    push_decimal(text, u64::from(course.students))?;
    text.extend_from_slice(b" students</small>")?;
    Ok(())
}

#[tactic(auto, unfolding(crate::specs::Page::colour))]
fn push_colour(text: &mut Vec<u8>, i: &Instance, curriculum: u32) -> Result<(), AllocError>
    ensures { OnOk result (text.new.items ≡ text.old.items ++ colour i.now curriculum) }
{
    if (curriculum as usize) < i.curricula.len() {
        text.extend_from_slice(b"k")?;
        push_decimal(text, u64::from(curriculum % 10))
    } else {
        text.extend_from_slice(b"n")?;
        Ok(())
    }
}

#[tactic(auto, unfolding(crate::specs::Page::curriculum_text))]
fn push_curriculum(text: &mut Vec<u8>, i: &Instance, curriculum: u32) -> Result<(), AllocError>
    ensures { OnOk result (text.new.items ≡ text.old.items ++ curriculum_text i.now curriculum) }
{
    if (curriculum as usize) < i.curricula.len() {
        push_curriculum_name(text, &i.curricula.as_slice()[curriculum as usize])
    } else {
        Ok(())
    }
}

#[tactic(auto, unfolding(crate::specs::Page::curriculum_name))]
fn push_curriculum_name(text: &mut Vec<u8>, curriculum: &Curriculum) -> Result<(), AllocError>
    ensures { OnOk result (text.new.items ≡ text.old.items ++ curriculum_name curriculum.now) }
{
    text.extend_from_slice(b"<i>")?;
    push_escaped(text, curriculum.name.as_bytes())?;
    text.extend_from_slice(b"</i>")?;
    Ok(())
}

/// Adds the text of the course from the texts of all.
pub fn push_text_of(
    text: &mut Vec<u8>,
    i: &Instance,
    texts: &[Items<u8>],
    course: usize,
) -> Result<(), AllocError>
    requires texts { AreCourseTexts i.now texts.now }
    requires course { course < length i.now.courses }
    ensures { OnOk result (text.new.items ≡ text.old.items ++ course_text i.now course) }
{
    let _ = i;
    text.extend_from_slice(texts[course].as_slice())?;
    Ok(())
}
