use crate::certificate::{judge_floor_tree, judge_fronts, judge_text};
use crate::closing::{judge_cuts, judge_small_leaves, judge_week};
use crate::fixed::judge_fixed;
use crate::packing::{judge_closed_once, judge_sizes};
use crate::points::{Case, judge_points};
use crate::rounding::judge_rounding;
use cert_checker::Reason;
use packing_model::Model;
use problem_core::BuildFault;
use std::alloc::Global;
use std::process::Abort;
use std::test::Fail;
use worked_shapes::{Shape, problem_of};

/// What is judged of a model.
#[derive(Clone, Copy)]
pub enum Task<'a> {
    /// That it has so many patterns and base rows.
    Sizes(u32, u32),
    ClosedOnce,
    Cuts,
    SmallLeaves,
    Week,
    /// That each proper front of a text is refused.
    Fronts(&'a [u8]),
    /// That a text is refused at a line, and why.
    Text(&'a [u8], u64, Reason),
    FloorTree,
    /// What is known where no pattern is free.
    Fixed,
    /// What points break.
    Points(&'a [Case]),
    /// What points are rounded to.
    Rounding,
}

fn model_of(alloc: Global, shape: &Shape) -> Result<Model, BuildFault> {
    Model::build(alloc, problem_of(alloc, shape)?)
}

/// Builds the model of the shape, and judges it. It alone owns a model.
pub fn judge(rt: &impl Abort, alloc: Global, shape: &Shape, task: Task) -> Result<(), Fail> {
    let model = model_of(alloc, shape)?;
    perform(rt, alloc, &model, task)
}

fn perform(rt: &impl Abort, alloc: Global, model: &Model, task: Task) -> Result<(), Fail> {
    match task {
        Task::Sizes(patterns, rows) => judge_sizes(rt, model, patterns, rows),
        Task::ClosedOnce => judge_closed_once(rt, alloc, model),
        Task::Cuts => judge_cuts(rt, alloc, model),
        Task::SmallLeaves => judge_small_leaves(rt, alloc, model),
        Task::Week => judge_week(rt, alloc, model),
        Task::Fronts(text) => judge_fronts(rt, alloc, model, text),
        Task::Text(text, line, reason) => judge_text(rt, alloc, model, text, line, reason),
        Task::FloorTree => judge_floor_tree(rt, alloc, model),
        Task::Fixed => judge_fixed(rt, alloc, model),
        Task::Points(cases) => judge_points(rt, alloc, model, cases),
        Task::Rounding => judge_rounding(rt, alloc, model),
    }
}
