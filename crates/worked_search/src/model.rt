use crate::floors::judge_floor;
use crate::levels::{Found, judge_exact_levels, judge_refused_levels};
use crate::solved::{judge_exact_certificate, judge_refused_certificate};
use crate::trees::{Tree, judge_tree};
use packing_model::Model;
use problem_core::BuildFault;
use std::alloc::Global;
use std::process::Abort;
use std::test::Fail;
use worked_shapes::{Shape, problem_of};

/// What is judged of a model. Exact tasks find numbers without a branch; refused ones are over an arithmetic
/// that refuses each number.
#[derive(Clone, Copy)]
pub enum Task {
    /// The tree of a level from the first choice under a budget, refused.
    Tree(u32, u64, Tree),
    /// The tree over a floor of so many patterns from no choice: whether it is whole, and the value held.
    Floor(u32, bool, Option<i64>),
    ExactLevels([i64; 6]),
    /// All levels under a budget, refused.
    RefusedLevels(u64, Found),
    ExactCertificate([i64; 6]),
    /// The certificate under a budget, with its finished levels and values, refused.
    RefusedCertificate(u64, u32, [i64; 6]),
}

fn model_of(alloc: Global, shape: &Shape) -> Result<Model, BuildFault> {
    Model::build(alloc, problem_of(alloc, shape)?)
}

/// Builds the model of the shape, and judges it. It alone owns a model.
pub fn judge(rt: &impl Abort, alloc: Global, shape: &Shape, task: Task) -> Result<(), Fail> {
    let model = model_of(alloc, shape)?;
    perform(rt, alloc, &model, task)
}

fn perform(rt: &impl Abort, alloc: Global, model: &Model, task: Task) -> Result<(), Fail> {
    match task {
        Task::Tree(level, budget, want) => judge_tree(rt, alloc, model, level, budget, want),
        Task::Floor(least, proved, value) => judge_floor(rt, alloc, model, least, (proved, value)),
        Task::ExactLevels(values) => judge_exact_levels(rt, alloc, model, values),
        Task::RefusedLevels(budget, want) => judge_refused_levels(rt, alloc, model, budget, want),
        Task::ExactCertificate(values) => judge_exact_certificate(rt, alloc, model, values),
        Task::RefusedCertificate(budget, levels, values) => {
            judge_refused_certificate(rt, alloc, model, budget, levels, values)
        }
    }
}
