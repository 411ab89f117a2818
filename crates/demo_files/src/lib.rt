//! An input of any size, made from its number of courses: an instance, its times and its measures, and the model of
//! their problem.
#![tactic(auto)]

mod files;
mod instance;
mod laws;
mod measures;
mod modelled;
mod texts;
mod times;

pub use files::demo_files;
pub use laws::demo_laws;
pub use modelled::demo_model;
