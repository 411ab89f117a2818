use duality::{Objective, Run};
use meeting_patterns::Pattern;
use packing_model::{Model, ObjectiveAt, Row};

/// The runs of base rows that the pattern stands in; none for a pattern that is none of the model's.
pub fn runs_of(model: &Model, pattern: u32) -> &[Run] {
    if pattern < model.patterns().len() {
        model.base_runs(pattern)
    } else {
        &[]
    }
}

/// The pattern, or one without meetings where it is none of the model's.
pub fn pattern_of(model: &Model, pattern: u32) -> Pattern {
    let patterns = model.patterns();
    if pattern < patterns.len() {
        patterns.get(pattern)
    } else {
        Pattern {
            course: 0,
            room: 0,
            mask: 0,
        }
    }
}

/// The base row, where the model has it.
pub fn row_of(model: &Model, row: u32) -> Option<Row> {
    if row < model.base_len() {
        Some(model.base_row(row))
    } else {
        None
    }
}

/// What the pattern weighs at the level; 0 for a level or a pattern that is none of the objective's.
pub fn weight_of<O: Objective>(at: &ObjectiveAt<O>, level: u32, pattern: u32) -> i64 {
    let objective = at.objective;
    if level >= 1 && level <= objective.levels() && pattern < objective.count() {
        objective.weight(level, pattern)
    } else {
        0
    }
}
