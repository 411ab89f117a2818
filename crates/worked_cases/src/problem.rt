use meeting_patterns::{PatternSet, count};
use problem_core::{BuildFault, Choice, Problem, RoomFault, better, first_choice};
use std::alloc::Global;
use std::process::Abort;
use std::test::Fail;
use values::Items;
use worked_shapes::{Shape, closed_once, one_meeting, problem_of, problem_of_small_courses, week};

/// What is found of a choice: its values, else what is wrong with it.
#[derive(Clone, Copy, PartialEq, Eq)]
enum Outcome {
    Values([i64; 6]),
    Fault(RoomFault),
    /// The entries are no choice.
    None,
}

use Outcome::{Fault, Values};

fn outcome_of(problem: &Problem, choice: &Choice) -> Outcome {
    if !problem.is_choice(choice) {
        return Outcome::None;
    }
    match problem.first_fault(choice) {
        Some(fault) => Fault(fault),
        None => Values(problem.values(choice)),
    }
}

/// What is found of the entries.
fn found(alloc: Global, shape: &Shape, entries: &[u32]) -> Result<Outcome, BuildFault> {
    let choice = Choice {
        entries: Items::from_slice(alloc, entries)?,
    };
    let problem = problem_of(alloc, shape)?;
    Ok(outcome_of(&problem, &choice))
}

// Of one course: what just seats it, what does not, and a meeting of three slots.
#[test]
fn finds_values_and_faults(rt: HostRuntime) -> Result<(), Fail> {
    let alloc = rt.alloc();
    let closed = closed_once();
    let thrice = Shape {
        meetings: &[(0, 0, 1), (0, 1, 1), (0, 2, 1)],
        capacity: &[20, 20],
        features: &[0, 0],
        slots: 3,
        ..one_meeting()
    };
    let empty = Shape {
        students: &[0],
        capacity: &[0],
        robust: &[(0, 7)],
        ..one_meeting()
    };
    let full = Shape {
        students: &[20],
        ..one_meeting()
    };
    let over_full = Shape {
        students: &[21],
        ..one_meeting()
    };
    let long = Shape {
        meetings: &[(0, 0, 3)],
        slots: 3,
        ..one_meeting()
    };
    let unsuitable_0 = Fault(RoomFault::Unsuitable { event: 0 });
    let unsuitable_1 = Fault(RoomFault::Unsuitable { event: 1 });
    assert!(rt; found(alloc, &closed, &[1, 2])? == Values([2, 20, 1500, 0, -2, 0]));
    assert!(rt; found(alloc, &closed, &[1, 1])? == unsuitable_1);
    assert!(rt; found(alloc, &thrice, &[1, 2, 1])? == Values([3, 30, 1500, 0, -2, 0]));
    assert!(rt; found(alloc, &empty, &[1])? == Values([1, 0, 0, 0, -1, 7]));
    assert!(rt; found(alloc, &full, &[1])? == Values([1, 20, 1000, 0, -1, 0]));
    assert!(rt; found(alloc, &over_full, &[1])? == unsuitable_0);
    assert!(rt; found(alloc, &over_full, &[0])? == Values([0, 0, 0, 0, 0, 0]));
    assert!(rt; found(alloc, &long, &[1])? == Values([3, 30, 1500, 0, -1, 0]));
    Ok(())
}

// Of two courses and one room.
#[test]
fn finds_clashes(rt: HostRuntime) -> Result<(), Fail> {
    let alloc = rt.alloc();
    let together = Shape {
        students: &[5, 6],
        needs: &[0, 0],
        meetings: &[(0, 0, 1), (1, 0, 1)],
        ..one_meeting()
    };
    let overlapping = Shape {
        students: &[10, 10],
        needs: &[0, 0],
        meetings: &[(0, 0, 2), (1, 1, 1)],
        slots: 3,
        ..one_meeting()
    };
    let clash = Fault(RoomFault::Clash {
        first: 0,
        second: 1,
    });
    assert!(rt; found(alloc, &together, &[1, 1])? == clash);
    assert!(rt; found(alloc, &overlapping, &[1, 0])? == Values([2, 20, 1000, 0, -1, 0]));
    assert!(rt; found(alloc, &overlapping, &[1, 1])? == clash);
    Ok(())
}

/// The lowest rooms for the two meetings, and the patterns of their course.
fn judge_closed_once(rt: &impl Abort, alloc: Global, problem: &Problem) -> Result<(), Fail> {
    let first = first_choice(alloc, problem)?;
    assert!(rt; first.entries.as_slice() == [1, 2].as_slice());
    assert!(rt; problem.is_legal(&first));
    assert!(rt; count(problem) == 4);
    let set = PatternSet::all(alloc, problem)?;
    assert!(rt; set.len() == 4);
    Ok(())
}

#[test]
fn chooses_the_lowest_rooms(rt: HostRuntime) -> Result<(), Fail> {
    assert!(rt; better(5, &[2, 20, 1000, 0, -1, 0], &[2, 20, 1000, 0, -2, 9]));
    let problem = problem_of(rt.alloc(), &closed_once())?;
    judge_closed_once(&rt, rt.alloc(), &problem)
}

/// How many patterns the problem has.
fn count_of(problem: Result<Problem, BuildFault>) -> u64 {
    match problem {
        Ok(problem) => count(&problem),
        Err(_) => 0,
    }
}

#[test]
fn counts_patterns(rt: HostRuntime) -> Result<(), Fail> {
    let alloc = rt.alloc();
    assert!(rt; count_of(problem_of(alloc, &week())) == 311);
    assert!(rt; count_of(problem_of_small_courses(alloc, 1, 12, 49)) == 200_655);
    assert!(rt; count_of(problem_of_small_courses(alloc, 21, 1, 200)) == 4_200);
    Ok(())
}
