//! What the programs print of values, of faults and of meetings, and the reports on rooms.
#![tactic(auto)]

mod by_course;
mod by_room;
mod faults;
mod groups;
mod json_line;
mod json_parts;
mod laws;
mod limits;
mod meetings;
mod report;
mod room_use;
mod session;
mod six_values;

pub use faults::{long_fault, room_fault};
pub use json_line::json_report;
pub use laws::report_laws;
pub use limits::over_limit;
pub use meetings::meeting_lines;
pub use report::text_report;
pub use session::{RoomUse, Session};
pub use six_values::value_lines;
