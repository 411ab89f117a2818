/// Some meetings of one course that share a room. Bit j of the mask is the course's j-th event.
#[derive(Clone, Copy)]
pub struct Pattern {
    pub course: u32,
    pub room: u32,
    pub mask: u16,
}
