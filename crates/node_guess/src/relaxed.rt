use crate::face::{Face, unit_weight};
use crate::ground::Ground;
use crate::lists::{count_of, item_at, put};
use crate::reading::{runs_of, weight_of};
use crate::walk::Rooms;
use duality::{Objective, RowName, Run};
use float_simplex::FloatSimplex;
use packing_model::{Model, ObjectiveAt};
use problem_core::Memory;
use std::alloc::Global;
use std::num::nearest_i64_to_f64;
use values::Items;

/// No number of a column or a row.
pub const NONE: u32 = 4_294_967_295;

/// The linear program of a level above those of a face, in floating point: its columns are the patterns that cost
/// nothing there, its rows those of the model and the cuts; the rows that the face says are met wholly are
/// equations. It has the shape of the search's root, and what is taken or left out since is held in it.
#[derive(Drop)]
pub struct Relaxed {
    pub level: u32,
    pub face: Face,
    /// By column, its pattern.
    pub live: Items<u32>,
    /// By pattern, its column or `NONE`.
    pub columns: Vec<u32>,
    /// By base row, what of the gains is taken off as a multiple of the row, so that no cost is negative.
    pub shifts: Vec<i64>,
    /// By row of the program before the cuts, its name.
    pub names: Items<RowName>,
    /// The program as it stood when the root was left.
    pub root: Option<NodeProgram>,
    /// The program at the node.
    pub now: NodeProgram,
    /// The rooms of the last walk that found something better, and how many walks there were.
    pub walked: Option<Rooms>,
    pub walks: u32,
}

impl Relaxed {
    /// A program without columns.
    pub fn empty(alloc: Global, level: u32) -> Result<Relaxed, Memory> {
        Ok(Relaxed {
            level,
            face: Face::empty(alloc),
            live: Items::new(alloc),
            columns: Vec::new(alloc),
            shifts: Vec::new(alloc),
            names: Items::new(alloc),
            root: None,
            now: NodeProgram::new(alloc, FloatSimplex::new(alloc, &[], &[])?),
            walked: None,
            walks: 0,
        })
    }

    /// The rooms of the last walk that found something better; where there was none, those of the face.
    pub fn rooms_walked<O: Objective>(
        &self,
        alloc: Global,
        at: &ObjectiveAt<O>,
        ground: &Ground,
    ) -> Result<Rooms, Memory> {
        match &self.walked {
            Some(rooms) => rooms.copy(alloc),
            None => Rooms::of_face(alloc, at, &self.face, ground),
        }
    }

    /// Makes it the program at the root of its level, where the levels above the face's weigh all patterns alike;
    /// false where it can't be made. It fails only where memory runs out.
    pub fn fill<O: Objective>(
        &mut self,
        alloc: Global,
        at: &ObjectiveAt<O>,
        face_level: u32,
    ) -> Result<bool, Memory> {
        if !self.face.fill(alloc, at, face_level)? {
            return Ok(false);
        }
        self.live = live_patterns(alloc, at, &self.face)?;
        match shifts(alloc, at, &self.face)? {
            Some(shifts) => self.shifts = shifts,
            None => return Ok(false),
        }
        if !self.set_simplex(alloc, at)? {
            return Ok(false);
        }
        self.columns = columns_of(alloc, at.model.patterns().len(), self.live.as_slice())?;
        self.add_rows(alloc, at)
    }

    /// Sets the columns of the program; false where one would cost less than 0.
    fn set_simplex<O: Objective>(
        &mut self,
        alloc: Global,
        at: &ObjectiveAt<O>,
    ) -> Result<bool, Memory> {
        let Some(costs) = costs(alloc, at, &self.shifts, self.live.as_slice())? else {
            return Ok(false);
        };
        let twins = twins(alloc, self.live.as_slice())?;
        self.now = NodeProgram::new(alloc, FloatSimplex::new(alloc, &costs, &twins)?);
        Ok(true)
    }
}

/// The patterns that cost nothing in the face.
fn live_patterns<O: Objective>(
    alloc: Global,
    at: &ObjectiveAt<O>,
    face: &Face,
) -> Result<Items<u32>, Memory> {
    let mut live = Items::new(alloc);
    for pattern in 0..at.model.patterns().len() {
        if face.cost(at, pattern) == 0 {
            live.push(pattern)?;
        }
    }
    Ok(live)
}

/// By pattern, its place in the list.
fn columns_of(alloc: Global, count: u32, live: &[u32]) -> Result<Vec<u32>, Memory> {
    let mut columns = vec![in alloc; NONE; count as usize]?;
    let mut column = 0;
    for pattern in live {
        put(&mut columns, *pattern, column);
        column = column.wrapping_add(1);
    }
    Ok(columns)
}

/// By base row, the greatest gain of a meeting that must have a room; what a meeting that need not have one gains is
/// taken off its room and slot, where that must be used. `None` where neither must be.
fn shifts<O: Objective>(
    alloc: Global,
    at: &ObjectiveAt<O>,
    face: &Face,
) -> Result<Option<Vec<i64>>, Memory> {
    let mut shifts = vec![in alloc; 0; at.model.base_len() as usize]?;
    for single in face.rooms.singles.as_slice() {
        if face.cost(at, single.pattern) != 0 {
            continue;
        }
        let gain = weight_of(at, at.level, single.pattern);
        let row = if face.is_tight(single.event) {
            single.event
        } else {
            single.place
        };
        if gain > 0 && !face.is_tight(row) {
            return Ok(None);
        }
        let most = item_at(&shifts, row, 0).max(gain);
        put(&mut shifts, row, most);
    }
    Ok(Some(shifts))
}

/// What is taken off the gains of a pattern with these rows.
pub fn shift_over(shifts: &[i64], runs: &[Run]) -> i64 {
    let mut sum: i64 = 0;
    for run in runs {
        sum = sum.wrapping_add(shift_of_run(shifts, *run));
    }
    sum
}

/// What is taken off for the rows of the run.
fn shift_of_run(shifts: &[i64], run: Run) -> i64 {
    let mut sum: i64 = 0;
    for more in 0..run.count {
        sum = sum.wrapping_add(item_at(shifts, run.first.wrapping_add(more), 0));
    }
    sum
}

/// What the pattern costs: what is taken off its gain, less the gain.
pub fn cost_of<O: Objective>(at: &ObjectiveAt<O>, shifts: &[i64], pattern: u32) -> i64 {
    let shift = shift_over(shifts, runs_of(at.model, pattern));
    shift.wrapping_sub(weight_of(at, at.level, pattern))
}

/// What the columns cost; `None` where one costs less than 0.
fn costs<O: Objective>(
    alloc: Global,
    at: &ObjectiveAt<O>,
    shifts: &[i64],
    live: &[u32],
) -> Result<Option<Vec<f64>>, Memory> {
    let mut costs = Vec::new(alloc);
    for pattern in live {
        let cost = cost_of(at, shifts, *pattern);
        if cost < 0 {
            return Ok(None);
        }
        if costs.push(nearest_i64_to_f64(cost)).is_err() {
            return Err(Memory);
        }
    }
    Ok(Some(costs))
}

/// Pseudo-random costs from 1 to 1,000 that decide between columns of equal cost.
fn twins(alloc: Global, live: &[u32]) -> Result<Vec<f64>, Memory> {
    let mut twins = Vec::new(alloc);
    let mut state: u64 = 12_345;
    for _ in live {
        state = state
            .wrapping_mul(6_364_136_223_846_793_005)
            .wrapping_add(1_442_695_040_888_963_407);
        let twin = ((state >> 33) % 1_000) as i64;
        if twins
            .push(nearest_i64_to_f64(twin.wrapping_add(1)))
            .is_err()
        {
            return Err(Memory);
        }
    }
    Ok(twins)
}

impl Relaxed {
    /// The column's pattern.
    pub fn pattern(&self, column: u32) -> u32 {
        item_at(self.live.as_slice(), column, NONE)
    }

    /// Adds the rows of the model, those that are met wholly first, and of the levels above the face's; false
    /// where a level can't be one.
    fn add_rows<O: Objective>(
        &mut self,
        alloc: Global,
        at: &ObjectiveAt<O>,
    ) -> Result<bool, Memory> {
        let lists = columns_by_row(alloc, at, self.live.as_slice())?;
        for row in 0..at.model.base_len() {
            if self.face.is_tight(row) {
                self.add_base_row(row, list_at(&lists, row), true)?;
            }
        }
        for row in 0..at.model.base_len() {
            if !self.face.is_tight(row) {
                self.add_base_row(row, list_at(&lists, row), false)?;
            }
        }
        self.add_level_rows(alloc, at)
    }

    /// Adds a base row that has columns.
    fn add_base_row(&mut self, row: u32, columns: &[u32], is_tight: bool) -> Result<(), Memory> {
        if columns.is_empty() {
            return Ok(());
        }
        let _ = self.now.simplex.add_row(columns, is_tight, 1.0)?;
        self.names.push(RowName::Base(row))?;
        Ok(())
    }

    /// Adds the rows of the levels between the face's and this one; false where one weighs patterns differently.
    fn add_level_rows<O: Objective>(
        &mut self,
        alloc: Global,
        at: &ObjectiveAt<O>,
    ) -> Result<bool, Memory> {
        let all = all_columns(alloc, count_of(self.live.as_slice()))?;
        for below in self.face.level..at.level.saturating_sub(1) {
            let Some(weight) = unit_weight(at, below + 1) else {
                return Ok(false);
            };
            let target = item_at(at.targets, below, 0).wrapping_mul(weight);
            let _ = self
                .now
                .simplex
                .add_row(all.as_slice(), true, nearest_i64_to_f64(target))?;
            self.names.push(RowName::Level(below + 1))?;
        }
        Ok(true)
    }

    /// The name of the program's row; cuts stand behind the others.
    pub fn name(&self, row: u32) -> RowName {
        match self.names.as_slice().get(row as usize) {
            Some(name) => *name,
            None => RowName::Cut(row.wrapping_sub(count_of(self.names.as_slice()))),
        }
    }

    /// Brings the program to the node: from where it stands, or from the root, adds the cuts that are new in the
    /// pool, and holds what was taken or left out since. False where the node is none of the program's, or a
    /// pattern is taken that can't be.
    pub fn follow<O: Objective>(
        &mut self,
        alloc: Global,
        at: &ObjectiveAt<O>,
    ) -> Result<bool, Memory> {
        if self.level != at.level {
            return Ok(false);
        }
        if self.now.is_root() && !is_root(at) {
            self.root = Some(self.now.copy(alloc)?);
        }
        if !self.now.is_before(at) && !self.return_to_root(alloc)? {
            return Ok(false);
        }
        self.add_cuts(alloc, at)?;
        self.leave_out(at)?;
        self.take(at)
    }

    /// Brings the program back to where it stood when the root was left; false where it was never left.
    fn return_to_root(&mut self, alloc: Global) -> Result<bool, Memory> {
        match &self.root {
            Some(root) => {
                self.now = root.copy(alloc)?;
                Ok(true)
            }
            None => Ok(false),
        }
    }

    /// Adds the cuts that are new.
    fn add_cuts<O: Objective>(&mut self, alloc: Global, at: &ObjectiveAt<O>) -> Result<(), Memory> {
        for cut in self.now.cuts..at.pool.len() {
            self.add_cut(alloc, at, cut)?;
        }
        self.now.cuts = at.pool.len();
        Ok(())
    }

    /// Adds the cut. A pattern of it that was taken fills it.
    fn add_cut<O: Objective>(
        &mut self,
        alloc: Global,
        at: &ObjectiveAt<O>,
        cut: u32,
    ) -> Result<(), Memory> {
        if cut >= at.pool.len() {
            return Ok(());
        }
        let mut columns = Items::new(alloc);
        let mut side = 1.0;
        for pattern in at.pool.get(cut).patterns() {
            let column = item_at(&self.columns, *pattern, NONE);
            if column != NONE {
                columns.push(column)?;
            }
            if self.now.one.as_slice().contains(pattern) {
                side = 0.0;
            }
        }
        let _ = self.now.simplex.add_row(columns.as_slice(), false, side)?;
        Ok(())
    }

    /// Holds the columns of patterns that were left out since.
    fn leave_out<O: Objective>(&mut self, at: &ObjectiveAt<O>) -> Result<(), Memory> {
        let known = self.now.zero.len();
        for pattern in at.fixing.zero.as_slice().iter().skip(known) {
            let column = item_at(&self.columns, *pattern, NONE);
            self.now.simplex.hold(column);
            self.now.zero.push(*pattern)?;
        }
        Ok(())
    }

    /// Fills the rows of patterns that were taken since; false where one has no column.
    fn take<O: Objective>(&mut self, at: &ObjectiveAt<O>) -> Result<bool, Memory> {
        let known = self.now.one.len();
        for pattern in at.fixing.one.as_slice().iter().skip(known) {
            if item_at(&self.columns, *pattern, NONE) == NONE {
                return Ok(false);
            }
            self.fill_rows(*pattern);
            let cost = cost_of(at, &self.shifts, *pattern);
            self.now.paid = self.now.paid.wrapping_add(cost);
            self.now.one.push(*pattern)?;
        }
        Ok(true)
    }

    /// Fills each row that the pattern stands in.
    fn fill_rows(&mut self, pattern: u32) {
        let column = item_at(&self.columns, pattern, NONE);
        let count = count_of(self.now.simplex.rows_of(column));
        for place in 0..count {
            let row = item_at(self.now.simplex.rows_of(column), place, NONE);
            match self.name(row) {
                RowName::Level(_) => {
                    let side = self.now.simplex.side(row);
                    self.now.simplex.set_side(row, side - 1.0);
                }
                _ => self.now.fill_row(row),
            }
        }
        self.now.simplex.hold(column);
    }

    /// Whether the pattern is free, and no column: then its cost in the face is the one to be seen to.
    pub fn is_dead<O: Objective>(&self, at: &ObjectiveAt<O>, pattern: u32) -> bool {
        item_at(&self.columns, pattern, NONE) == NONE && is_open(at, pattern)
    }
}

/// The program as it stands at a node.
#[derive(Drop)]
pub struct NodeProgram {
    pub simplex: FloatSimplex,
    /// The number of cuts that are in it.
    pub cuts: u32,
    /// The patterns that are left out in it, and taken.
    pub zero: Items<u32>,
    pub one: Items<u32>,
    /// What the patterns that are taken cost.
    pub paid: i64,
}

impl NodeProgram {
    /// The program at the root, without cuts.
    fn new(alloc: Global, simplex: FloatSimplex) -> NodeProgram {
        NodeProgram {
            simplex,
            cuts: 0,
            zero: Items::new(alloc),
            one: Items::new(alloc),
            paid: 0,
        }
    }

    /// A copy.
    fn copy(&self, alloc: Global) -> Result<NodeProgram, Memory> {
        let simplex = self.simplex.copy(alloc)?;
        let zero = Vec::from_slice(alloc, self.zero.as_slice())?;
        let one = Vec::from_slice(alloc, self.one.as_slice())?;
        Ok(NodeProgram {
            simplex,
            cuts: self.cuts,
            zero: Items::from(zero),
            one: Items::from(one),
            paid: self.paid,
        })
    }

    /// Whether nothing is taken or left out in it.
    fn is_root(&self) -> bool {
        self.zero.as_slice().is_empty() && self.one.as_slice().is_empty()
    }

    /// Whether all that is taken or left out in it is so at the node, in the same order.
    fn is_before<O: Objective>(&self, at: &ObjectiveAt<O>) -> bool {
        starts_with(at.fixing.zero.as_slice(), self.zero.as_slice())
            && starts_with(at.fixing.one.as_slice(), self.one.as_slice())
    }

    /// Fills the row: no other of its columns can be taken.
    fn fill_row(&mut self, row: u32) {
        self.simplex.set_side(row, 0.0);
        let count = self.simplex.columns_of(row).len();
        for place in 0..count {
            if let Some(column) = self.simplex.columns_of(row).get(place) {
                let column = *column;
                self.simplex.hold(column);
            }
        }
    }
}

/// Whether nothing is taken or left out at the node.
pub fn is_root<O: Objective>(at: &ObjectiveAt<O>) -> bool {
    at.fixing.one.as_slice().is_empty() && at.fixing.zero.as_slice().is_empty()
}

/// Whether the pattern is free at the node.
pub fn is_open<O: Objective>(at: &ObjectiveAt<O>, pattern: u32) -> bool {
    if at.fixing.zero.as_slice().contains(&pattern) {
        return false;
    }
    for taken in at.fixing.one.as_slice() {
        if clash(at.model, pattern, *taken) {
            return false;
        }
    }
    true
}

/// Whether the patterns clash.
pub fn clash(model: &Model, first: u32, second: u32) -> bool {
    let count = model.patterns().len();
    first < count && second < count && model.clash(first, second)
}

/// Whether the list begins with the other.
fn starts_with(list: &[u32], other: &[u32]) -> bool {
    let mut place = 0;
    for item in other {
        if item_at(list, place, NONE) != *item {
            return false;
        }
        place = place.wrapping_add(1);
    }
    true
}

/// The numbers of so many columns.
fn all_columns(alloc: Global, count: u32) -> Result<Items<u32>, Memory> {
    let mut columns = Items::new(alloc);
    for column in 0..count {
        columns.push(column)?;
    }
    Ok(columns)
}

/// The list at the place; an empty one where there is none.
fn list_at(lists: &[Items<u32>], at: u32) -> &[u32] {
    match lists.get(at as usize) {
        Some(list) => list.as_slice(),
        None => &[],
    }
}

/// By base row, the columns that stand in it.
fn columns_by_row<O: Objective>(
    alloc: Global,
    at: &ObjectiveAt<O>,
    live: &[u32],
) -> Result<Vec<Items<u32>>, Memory> {
    let mut lists = Vec::new(alloc);
    for _ in 0..at.model.base_len() {
        if lists.push(Items::new(alloc)).is_err() {
            return Err(Memory);
        }
    }
    let mut column = 0;
    for pattern in live {
        add_to_runs(&mut lists, runs_of(at.model, *pattern), column)?;
        column = column.wrapping_add(1);
    }
    Ok(lists)
}

/// Adds the column to the lists of all rows of the runs.
fn add_to_runs(lists: &mut [Items<u32>], runs: &[Run], column: u32) -> Result<(), Memory> {
    for run in runs {
        add_to_run(lists, *run, column)?;
    }
    Ok(())
}

/// Adds the column to the lists of the run's rows.
fn add_to_run(lists: &mut [Items<u32>], run: Run, column: u32) -> Result<(), Memory> {
    for more in 0..run.count {
        let row = run.first.wrapping_add(more);
        if let Some(list) = lists.get_mut(row as usize) {
            list.push(column)?;
        }
    }
    Ok(())
}
