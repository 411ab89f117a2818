use packing_model::Model;
use problem_core::Choice;

/// A level of an objective over a model's patterns, and the values of the levels below it.
#[derive(Clone, Copy)]
pub struct LevelAt<'a, O> {
    pub model: &'a Model,
    pub objective: &'a O,
    pub level: u32,
    pub targets: &'a [i64],
}

/// A choice, and what it weighs at the level.
#[derive(Drop)]
pub struct Held {
    pub choice: Choice,
    pub value: i64,
}
