//! Instance files (.ctt) of curriculum-based course timetabling: what such a text means, its reader and its writer.
#![tactic(auto)]

mod entries;
mod header;
mod instance;
mod names;
mod reader;
mod writer;

pub use instance::{Course, Curriculum, Instance, Room};
pub use names::{
    Names, course_name, names_of_courses, names_of_rooms, read_course, read_room, room_name,
};
pub use reader::read_ctt;
pub use writer::write_ctt;
