use values::{Items, Text};

/// A course: `CourseID Teacher Lectures MinWorkingDays Students`.
#[derive(Drop)]
pub struct Course {
    pub name: Text,
    pub teacher: Text,
    /// How many lectures it has; a timed solution may have fewer.
    pub lectures: u32,
    pub min_days: u32,
    pub students: u32,
}

/// A room and how many students it seats.
#[derive(Drop)]
pub struct Room {
    pub name: Text,
    pub capacity: u32,
}

/// A curriculum: courses, by number, with students in common.
#[derive(Drop)]
pub struct Curriculum {
    pub name: Text,
    pub members: Items<u32>,
}

/// What an instance file says. Courses and rooms are numbered from 0 in the order of the file.
#[derive(Drop)]
pub struct Instance {
    /// The fields after `Name:`.
    pub title: Items<Text>,
    pub courses: Items<Course>,
    pub rooms: Items<Room>,
    pub days: u32,
    /// Periods of a day.
    pub periods: u32,
    pub curricula: Items<Curriculum>,
    /// Course, day and period at which the course is not to be taught.
    pub constraints: Items<(u32, u32, u32)>,
}
