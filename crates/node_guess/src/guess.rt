ghost use Rattle.std.specs.Prelude.{◌≤◌};

use crate::additive::adds_up;
use crate::face::unit_weight;
use crate::ground::Ground;
use crate::points::{exact_point, point_reached, whole_choice};
use crate::reading::weight_of;
use crate::relaxed::{Relaxed, is_root};
use crate::rounding::{empty_leaf, rounded_leaf};
use crate::slots::SlotRooms;
use crate::walk::walked;
use duality::{Leaf, Objective};
use exact_num::Arith;
use float_simplex::Ended;
use packing_model::{ObjectiveAt, Point};
use problem_core::{Choice, Memory};
use std::alloc::Global;
use std::num::{nearest_i64_to_f64, saturating_f64_to_u32};

/// The most pivots at a root, and at another node.
const ROOT_PIVOTS: u32 = 100_000;

const NODE_PIVOTS: u32 = 20_000;

/// The draws of the walks, one after the other, for each `PAIRS` of the pairs that may be drawn, and once at least.
const DRAWS: [u64; 5] = [200_000, 200_000, 400_000, 400_000, 800_000];

const PAIRS: u64 = 600;

/// The seed of the first walk, and what is added for each further one.
const SEED: u64 = 88_172_645_463_325_252;

const SEED_STEP: u64 = 7_919;

/// What is nearer to a bound than this is taken to reach it.
const NEAR: f64 = 0.000_1;

/// An answer at a node that was found in some way of which nothing is promised.
#[derive(Drop)]
pub enum Guess {
    Leaf(Leaf),
    Choice(Choice),
    Point(Point),
}

/// What a search found at earlier nodes and may help at later ones. It decides speed alone: no promise rests
/// on it.
#[derive(Drop)]
pub struct Hints {
    relaxed: Option<Relaxed>,
}

impl Hints {
    /// Nothing found.
    pub fn new() -> Hints {
        Hints { relaxed: None }
    }
}

/// Whether the arithmetic takes the weight of each pattern at the node's level.
pub fn gains_fit<O: Objective, A: Arith>(at: &ObjectiveAt<O>, arith: &mut A) -> bool
    ensures { A.wides arith.old ≤ A.wides arith.new }
{
    for pattern in 0..at.model.patterns().len() {
        if arith
            .from_int(i128::from(weight_of(at, at.level, pattern)))
            .is_err()
        {
            return false;
        }
    }
    true
}

/// A guess at the node's answer, or none. It fails only where memory runs out.
///
/// At the lowest levels, where a pattern weighs what its meetings do, rooms are given slot by slot, and the prices
/// of these assignment problems are a leaf. At a level above them the linear program over the patterns that cost
/// nothing in these prices is solved in floating point; its multipliers are rounded to a leaf, or its point is made
/// exact. At the root a walk by exchanges looks for a better choice first.
pub fn find_guess<O: Objective>(
    alloc: Global,
    at: &ObjectiveAt<O>,
    hints: &mut Hints,
) -> Result<Option<Guess>, Memory> {
    let additive = additive_levels(at);
    if additive >= at.level {
        return guess_by_slots(alloc, at);
    }
    if additive == 0 {
        return Ok(None);
    }
    hints.prepare(alloc, at, additive)?;
    match &mut hints.relaxed {
        Some(relaxed) => guess_relaxed(alloc, at, relaxed),
        None => Ok(None),
    }
}

/// How many of the lowest levels up to the node's are such that a pattern weighs what its meetings do.
fn additive_levels<O: Objective>(at: &ObjectiveAt<O>) -> u32 {
    for below in 0..at.level {
        if !adds_up(at, below + 1) {
            return below;
        }
    }
    at.level
}

/// The choice of rooms given slot by slot where it weighs more than the best value, else the leaf of their prices.
fn guess_by_slots<O: Objective>(
    alloc: Global,
    at: &ObjectiveAt<O>,
) -> Result<Option<Guess>, Memory> {
    if !is_root(at) {
        return Ok(None);
    }
    let mut rooms = SlotRooms::empty(alloc);
    match rooms.fill(alloc, at, at.level) {
        Ok(true) => choice_or_leaf(alloc, at, &rooms),
        Ok(false) => Ok(None),
        Err(Memory) => Err(Memory),
    }
}

/// The choice of these rooms where it weighs more than the best value, else the leaf of their prices.
fn choice_or_leaf<O: Objective>(
    alloc: Global,
    at: &ObjectiveAt<O>,
    rooms: &SlotRooms,
) -> Result<Option<Guess>, Memory> {
    let guess = if is_more(at, rooms.weight(at, at.level)) {
        rooms.choice(alloc, at.model)?
    } else {
        rooms.leaf(alloc, at.level)?
    };
    Ok(Some(guess))
}

/// Whether the value is more than the best one.
fn is_more<O: Objective>(at: &ObjectiveAt<O>, value: i64) -> bool {
    match at.best {
        Some(best) => value > best,
        None => true,
    }
}

impl Hints {
    /// Brings the program to the node: the one of an earlier node behind which this one stands, or a new one.
    fn prepare<O: Objective>(
        &mut self,
        alloc: Global,
        at: &ObjectiveAt<O>,
        face_level: u32,
    ) -> Result<(), Memory> {
        if self.follow(alloc, at)? {
            return Ok(());
        }
        self.relaxed = Some(Relaxed::empty(alloc, at.level)?);
        if !self.fill(alloc, at, face_level)? || !self.follow(alloc, at)? {
            self.relaxed = None;
        }
        Ok(())
    }

    /// Makes the program that of the level's root.
    fn fill<O: Objective>(
        &mut self,
        alloc: Global,
        at: &ObjectiveAt<O>,
        face_level: u32,
    ) -> Result<bool, Memory> {
        match &mut self.relaxed {
            Some(relaxed) => relaxed.fill(alloc, at, face_level),
            None => Ok(false),
        }
    }

    /// Brings the program to the node, where it stands behind that of the program.
    fn follow<O: Objective>(&mut self, alloc: Global, at: &ObjectiveAt<O>) -> Result<bool, Memory> {
        match &mut self.relaxed {
            Some(relaxed) => relaxed.follow(alloc, at),
            None => Ok(false),
        }
    }
}

/// The guess of the program.
fn guess_relaxed<O: Objective>(
    alloc: Global,
    at: &ObjectiveAt<O>,
    relaxed: &mut Relaxed,
) -> Result<Option<Guess>, Memory> {
    let Some(most) = most_cost(at, relaxed) else {
        return Ok(None);
    };
    let pivots = if is_root(at) {
        ROOT_PIVOTS
    } else {
        NODE_PIVOTS
    };
    match relaxed.now.simplex.solve(pivots, most + NEAR)? {
        Ended::Above => rounded_leaf(alloc, at, relaxed),
        Ended::Best if relaxed.now.simplex.value() > most + NEAR => rounded_leaf(
            alloc, at, relaxed,
        ),
        Ended::Best => guess_reached(alloc, at, relaxed),
        Ended::Empty => empty_leaf(alloc, at, relaxed),
        Ended::Limit => Ok(None),
    }
}

/// What a better choice may cost in the program; `None` without a best value.
fn most_cost<O: Objective>(at: &ObjectiveAt<O>, relaxed: &Relaxed) -> Option<f64> {
    let best = at.best?;
    let mut shift: i64 = 0;
    for row in &relaxed.shifts {
        shift = shift.wrapping_add(*row);
    }
    let most = shift
        .wrapping_sub(best)
        .wrapping_sub(1)
        .wrapping_sub(relaxed.now.paid);
    Some(nearest_i64_to_f64(most))
}

/// The guess where the program ended at a point: a choice of a walk that is better, the point's choice where it is
/// whole, or the exact point.
fn guess_reached<O: Objective>(
    alloc: Global,
    at: &ObjectiveAt<O>,
    relaxed: &mut Relaxed,
) -> Result<Option<Guess>, Memory> {
    let found = point_reached(alloc, relaxed)?;
    if found.in_part.as_slice().is_empty() {
        return Ok(Some(whole_choice(alloc, at, relaxed, &found)?));
    }
    if let Some(choice) = walk_on(alloc, at, relaxed)? {
        return Ok(Some(Guess::Choice(choice)));
    }
    exact_point(alloc, at, relaxed, &found)
}

/// A better choice by the walks that are left at the root of a level that counts pairs of course and room. Each walk is
/// made once, whether or not it finds something better, and goes on from the best rooms of those before.
fn walk_on<O: Objective>(
    alloc: Global,
    at: &ObjectiveAt<O>,
    relaxed: &mut Relaxed,
) -> Result<Option<Choice>, Memory> {
    let is_over = relaxed.walks as usize >= DRAWS.len();
    if is_over || !is_root(at) || unit_weight(at, at.level) != Some(-1) {
        return Ok(None);
    }
    let ground = Ground::new(alloc, at, &relaxed.face)?;
    let mut rooms = relaxed.rooms_walked(alloc, at, &ground)?;
    let goal = saturating_f64_to_u32(relaxed.now.simplex.value() + 1.0 - NEAR);
    let times = (ground.pair_count() / PAIRS).max(1);
    for draws in DRAWS.iter().skip(relaxed.walks as usize) {
        let seed = seed_of(relaxed.walks);
        relaxed.walks = relaxed.walks.wrapping_add(1);
        rooms = walked(
            alloc,
            &ground,
            &rooms,
            draws.wrapping_mul(times),
            seed,
            goal,
        )?;
        if is_more(at, 0 - i64::from(rooms.used)) {
            relaxed.walked = Some(rooms.copy(alloc)?);
            return Ok(Some(rooms.choice(alloc, at.model)?));
        }
    }
    Ok(None)
}

/// The seed of a walk behind so many others.
fn seed_of(walks: u32) -> u64 {
    SEED.wrapping_add(u64::from(walks).wrapping_mul(SEED_STEP))
}
