ghost use Rattle.std.specs.Prelude.{◌≡◌, ◌≤◌, ◌<◌, ◌+◌, ◌*◌, ◌^◌, ◌==◌, ◌&&◌, ◌||◌, ◌++◌, ◌∷◌, [], ℕ, Bool, List, true, false, IfOk, IfSome, length, nat_le, nat_lt, position, slice_index_or};
ghost use Rattle.std.specs.List.{list_all, list_any};
ghost use Rattle.problem_core.specs.Facts.{run_of};
ghost use Rattle.problem_core.specs.Tables.{IsGrid};
ghost use Rattle.timed_solution.specs.Times.{is_meeting};
ghost use Rattle.timed_solution.specs.declared.times.Meeting.{Meeting};
ghost use Rattle.room_model.specs.ProblemOf.{event_part};
ghost use Rattle.room_model.specs.Long.{overlaps, share_slot, overlap_of, fault_after, long_from};
ghost use Rattle.room_model.specs.Taken.{AreTaken};
ghost use Rattle.room_model.specs.Existence.{NoneIsLong};

use crate::calendar::Calendar;
use problem_core::EventPart;
use std::alloc::{AllocError, Global};
use timed_solution::Meeting;

/// What keeps meetings of several periods from being held as they are planned.
#[derive(Clone, Copy, Debug)]
pub enum LongFault {
    /// The event goes on past the last period of its day.
    PastDay { event: u32 },
    /// Two events of one course have a slot in common; the earlier one first.
    Overlap { first: u32, second: u32 },
}

/// What is wrong with the least meeting that something is wrong with. It keeps a table of courses and slots; its
/// time grows with the slots that the meetings take.
pub fn long_fault(
    alloc: Global,
    calendar: &Calendar,
    meetings: &[Meeting],
) -> Result<Option<LongFault>, AllocError>
    requires known { list_all (is_meeting calendar.now.instance) meetings.now ≡ true }
    requires few { length meetings.now < 2 ^ 32 }
    ensures { IfOk result (λ fault. fault ≡ long_from calendar.now.instance calendar.now.measures [] meetings.now) }
{
    let cells = calendar.courses() * calendar.slots() as usize;
    let mut taken = vec![in alloc; false; cells]?;
    Ok(fault_by_table(calendar, meetings, &mut taken))
}

/// The same, with a table of which no cell is marked.
fn fault_by_table(
    calendar: &Calendar,
    meetings: &[Meeting],
    taken: &mut [bool],
) -> Option<LongFault>
    requires known { list_all (is_meeting calendar.now.instance) meetings.now ≡ true }
    requires few { length meetings.now < 2 ^ 32 }
    requires unmarked { AreTaken calendar.now.instance calendar.now.measures [] taken.old }
    ensures { result ≡ long_from calendar.now.instance calendar.now.measures [] meetings.now }
{
    for event in 0..meetings.len() {
        match fault_after(calendar, &meetings[..event], taken, meetings[event]) {
            Some(fault) => return Some(fault),
            None => take_slots(calendar, taken, meetings[event]),
        }
    }
    None
}

/// What is wrong with a meeting that comes after these. Only where the table says that one of its slots is taken
/// are the earlier meetings read.
fn fault_after(
    calendar: &Calendar,
    before: &[Meeting],
    taken: &[bool],
    meeting: Meeting,
) -> Option<LongFault>
    requires known { is_meeting calendar.now.instance meeting ≡ true }
    requires earlier { list_all (is_meeting calendar.now.instance) before.now ≡ true }
    requires few { length before.now < 2 ^ 32 }
    requires taken { AreTaken calendar.now.instance calendar.now.measures before.now taken.now }
    ensures { result ≡ fault_after calendar.now.instance calendar.now.measures before.now meeting }
{
    let event = calendar.event(meeting);
    if calendar.periods() < meeting.period + event.length {
        return Some(LongFault::PastDay {
            event: before.len() as u32,
        });
    }
    let slots = calendar.slots() as usize;
    if is_taken(
        taken,
        slots,
        event.course as usize,
        event.slot as usize,
        event.length as usize,
    ) {
        overlap_of(first_overlapping(calendar, before, event), before.len())
    } else {
        None
    }
}

fn overlap_of(first: Option<usize>, event: usize) -> Option<LongFault>
    requires few { event < 2 ^ 32 }
    requires earlier { IfSome first (λ k. k < event) }
    ensures { result ≡ overlap_of first event }
{
    let first = first?;
    Some(LongFault::Overlap {
        first: first as u32,
        second: event as u32,
    })
}

/// The first of the meetings that is of the event's course and has a slot in common with it.
fn first_overlapping(calendar: &Calendar, before: &[Meeting], event: EventPart) -> Option<usize>
    requires known { list_all (is_meeting calendar.now.instance) before.now ≡ true }
    requires some { 1 ≤ event.length }
    requires small { event.slot + event.length ≤ 719 }
    ensures found { result ≡ position (λ y. overlaps event (event_part calendar.now.instance.periods calendar.now.measures y)) before.now }
    ensures earlier { IfSome result (λ k. k < length before.now) }
{
    for k in 0..before.len() {
        if overlaps(event, calendar.event(before[k])) {
            return Some(k);
        }
    }
    None
}

fn overlaps(e: EventPart, f: EventPart) -> bool
    requires some { 1 ≤ e.length }
    requires other_some { 1 ≤ f.length }
    requires small { e.slot + e.length ≤ 719 }
    requires other_small { f.slot + f.length ≤ 719 }
    ensures { result ≡ overlaps e f }
{
    let shares = share_slot(e, f);
    f.course == e.course && shares
}

fn share_slot(e: EventPart, f: EventPart) -> bool
    requires some { 1 ≤ e.length }
    requires other_some { 1 ≤ f.length }
    requires small { e.slot + e.length ≤ 719 }
    requires other_small { f.slot + f.length ≤ 719 }
    ensures { result ≡ share_slot e f }
{
    e.slot < f.slot + f.length && f.slot < e.slot + e.length
}

/// Marks the slots of the meeting, which does not pass its day, as taken by its course.
fn take_slots(calendar: &Calendar, taken: &mut [bool], meeting: Meeting)
    requires known { is_meeting calendar.now.instance meeting ≡ true }
    requires within { meeting.period + (event_part calendar.now.instance.periods calendar.now.measures meeting).length ≤ calendar.now.instance.periods }
    requires whole { length taken.old ≡ length calendar.now.instance.courses * (calendar.now.instance.days * calendar.now.instance.periods) }
    ensures whole { length taken.new ≡ length taken.old }
    ensures taken { (before : List Meeting) → AreTaken calendar.now.instance calendar.now.measures before taken.old → AreTaken calendar.now.instance calendar.now.measures (before ++ meeting ∷ []) taken.new }
{
    let event = calendar.event(meeting);
    mark(
        taken,
        calendar.slots() as usize,
        event.course as usize,
        event.slot as usize,
        event.length as usize,
    );
}

/// Whether one of the row's cells is set, of those of `count` columns from `from` on.
fn is_taken(taken: &[bool], columns: usize, row: usize, from: usize, count: usize) -> bool
    requires there { row * columns + columns ≤ length taken.now }
    requires within { from + count ≤ columns }
    ensures { result ≡ list_any (λ t. slice_index_or taken.now (row * columns + t) false) (run_of from count) }
{
    for t in from..from + count {
        if taken[row * columns + t] {
            return true;
        }
    }
    false
}

/// Sets the row's cells of `count` columns from `from` on.
fn mark(taken: &mut [bool], columns: usize, row: usize, from: usize, count: usize)
    requires there { row * columns + columns ≤ length taken.old }
    requires within { from + count ≤ columns }
    ensures whole { length taken.new ≡ length taken.old }
    ensures grid { (rows : ℕ) (f : ℕ → ℕ → Bool) → row < rows → IsGrid taken.old rows columns f
        → IsGrid taken.new rows columns (λ r t. ((row == r) && (nat_le from t && nat_lt t (from + count))) || f r t) }
{
    for t in from..from + count {
        taken[row * columns + t] = true;
    }
}

/// The values of three files have a problem, which is that every meeting ends by its day's last period and no two
/// of one course take a slot in common, exactly where no meeting is at fault. It computes nothing.
pub fn existence_laws()
    ensures { NoneIsLong }
{}
