//! The page that shows who is where in a timetable, and the run that prints it.
#![tactic(auto)]

mod command;
mod courses;
mod days;
mod exit;
mod groups;
mod head;
mod laws;
mod meetings;
mod names;
mod page;
mod style;
mod tables;

pub use command::run_week;
pub use exit::exit_status;
pub use laws::page_laws;
pub use page::week_page;
