ghost use Rattle.std.specs.Prelude.{◌≡◌, length, ℕ};
ghost use Rattle.std.specs.List.{list_all};
ghost use Rattle.problem_core.specs.OfParts.{well_formed, lists_fit, numbers_fit, events_fit, wishes_fit, is_million, is_features, is_points, event_fits, events_agree, are_apart, pair_fits, preference_fits, preferences_differ, row_fits, rows_rise, all_pairs};

use values::Items;

/// A meeting: its course, its first slot, and how many slots it takes from there on.
#[derive(Clone, Copy)]
pub struct EventPart {
    pub course: u32,
    pub slot: u32,
    pub length: u32,
}

/// What a problem is made of. Courses, rooms, slots and events are numbered from 0 in the order of
/// their lists; a set of features is a number with one bit a feature.
#[derive(Drop)]
pub struct Parts {
    /// By course.
    pub students: Items<u32>,
    /// By course, the features that it needs.
    pub needs: Items<u128>,
    /// By room.
    pub capacity: Items<u32>,
    /// By room, the features that it has.
    pub features: Items<u128>,
    pub slots: u32,
    pub events: Items<EventPart>,
    /// A course and a room that it isn't to have.
    pub denied: Items<(u32, u32)>,
    /// A room and a slot in which it is closed.
    pub closed: Items<(u32, u32)>,
    /// A course, a room, and the points of each meeting of the course there.
    pub prefer: Items<(u32, u32, i32)>,
    /// A threshold of spare seats in thousandths of the capacity, and its points.
    pub robust: Items<(u32, i32)>,
}

impl Parts {
    /// Whether the parts make a problem: the lists by course are of one length, and so are those by
    /// room; every number is in range and within its limit, but for the numbers of meetings; meetings
    /// of one course have one length and no slot in common; no two preferences are for one course and
    /// room; thresholds rise. It takes no memory, and time that grows with the square of the longest list.
    pub fn well_formed(&self) -> bool
        ensures { result ≡ well_formed self.now }
    {
        let lists = lists_fit(self);
        let numbers = numbers_fit(self);
        let events = events_fit(self);
        let wishes = wishes_fit(self);
        lists && numbers && events && wishes
    }
}

fn lists_fit(p: &Parts) -> bool
    ensures { result ≡ lists_fit p.now }
{
    let courses = p.students.len();
    let rooms = p.capacity.len();
    let by_course = p.needs.len() == courses;
    let by_room = p.features.len() == rooms;
    let rows = p.robust.len();
    by_course
        && by_room
        && courses <= 1000
        && rooms <= 200
        && 1 <= p.slots
        && p.slots <= 672
        && rows <= 100
}

fn numbers_fit(p: &Parts) -> bool
    ensures { result ≡ numbers_fit p.now }
{
    let students = are_millions(p.students.as_slice());
    let needs = are_features(p.needs.as_slice());
    let capacity = are_millions(p.capacity.as_slice());
    let features = are_features(p.features.as_slice());
    students && needs && capacity && features
}

fn are_millions(numbers: &[u32]) -> bool
    ensures { result ≡ list_all is_million numbers.now }
{
    numbers.iter().all(|x| *x <= 1_000_000)
}

fn are_features(sets: &[u128]) -> bool
    ensures { result ≡ list_all is_features sets.now }
{
    sets.iter().all(|x| *x < 1 << 100)
}

fn events_fit(p: &Parts) -> bool
    ensures { result ≡ events_fit p.now }
{
    let events = p.events.as_slice();
    let known = are_within(events, p.students.len(), p.slots);
    let agree = all_agree(events);
    known && agree
}

fn are_within(events: &[EventPart], courses: usize, slots: u32) -> bool
    ensures { result ≡ list_all (event_fits courses slots) events.now }
{
    events.iter().all(|e| is_within(*e, courses, slots))
}

fn is_within(e: EventPart, courses: usize, slots: u32) -> bool
    ensures { result ≡ event_fits courses slots e }
{
    (e.course as usize) < courses
        && 1 <= e.length
        && e.length <= 48
        && u64::from(e.slot) + u64::from(e.length) <= u64::from(slots)
}

fn all_agree(events: &[EventPart]) -> bool
    ensures { result ≡ all_pairs events_agree events.now }
{
    for i in 0..events.len() {
        if !agrees_with_all(events[i], &events[i + 1..]) {
            return false;
        }
    }
    true
}

fn agrees_with_all(first: EventPart, later: &[EventPart]) -> bool
    ensures { result ≡ list_all (events_agree first) later.now }
{
    later.iter().all(|e| agrees(first, *e))
}

fn agrees(e: EventPart, f: EventPart) -> bool
    ensures { result ≡ events_agree e f }
{
    e.course != f.course || (e.length == f.length && are_apart(e, f))
}

/// Whether the two take no slot in common.
fn are_apart(e: EventPart, f: EventPart) -> bool
    ensures { result ≡ are_apart e f }
{
    u64::from(e.slot) + u64::from(e.length) <= u64::from(f.slot)
        || u64::from(f.slot) + u64::from(f.length) <= u64::from(e.slot)
}

fn wishes_fit(p: &Parts) -> bool
    ensures { result ≡ wishes_fit p.now }
{
    let courses = p.students.len();
    let rooms = p.capacity.len();
    let denied = are_pairs(p.denied.as_slice(), courses, rooms);
    let closed = are_pairs(p.closed.as_slice(), rooms, p.slots as usize);
    let prefer = are_preferences(p.prefer.as_slice(), courses, rooms);
    let once = all_differ(p.prefer.as_slice());
    let robust = are_rows(p.robust.as_slice());
    let rising = all_rise(p.robust.as_slice());
    denied && closed && prefer && once && robust && rising
}

fn are_pairs(pairs: &[(u32, u32)], first: usize, second: usize) -> bool
    ensures { result ≡ list_all (pair_fits first second) pairs.now }
{
    pairs
        .iter()
        .all(|x| (x.0 as usize) < first && (x.1 as usize) < second)
}

fn are_preferences(prefer: &[(u32, u32, i32)], courses: usize, rooms: usize) -> bool
    ensures { result ≡ list_all (preference_fits courses rooms) prefer.now }
{
    prefer.iter().all(|x| (x.0 as usize) < courses && (x.1 as usize) < rooms && is_points(x.2))
}

fn is_points(points: i32) -> bool
    ensures { result ≡ is_points points }
{
    !(points < -1_000_000) && !(1_000_000 < points)
}

fn all_differ(prefer: &[(u32, u32, i32)]) -> bool
    ensures { result ≡ all_pairs preferences_differ prefer.now }
{
    for i in 0..prefer.len() {
        if !differs_from_all(prefer[i], &prefer[i + 1..]) {
            return false;
        }
    }
    true
}

fn differs_from_all(first: (u32, u32, i32), later: &[(u32, u32, i32)]) -> bool
    ensures { result ≡ list_all (preferences_differ first) later.now }
{
    later.iter().all(|x| !(first.0 == x.0 && first.1 == x.1))
}

fn are_rows(rows: &[(u32, i32)]) -> bool
    ensures { result ≡ list_all row_fits rows.now }
{
    rows.iter().all(|x| x.0 <= 1000 && is_points(x.1))
}

fn all_rise(rows: &[(u32, i32)]) -> bool
    ensures { result ≡ all_pairs rows_rise rows.now }
{
    for i in 0..rows.len() {
        if !rises_to_all(rows[i], &rows[i + 1..]) {
            return false;
        }
    }
    true
}

fn rises_to_all(first: (u32, i32), later: &[(u32, i32)]) -> bool
    ensures { result ≡ list_all (rows_rise first) later.now }
{
    later.iter().all(|x| first.0 < x.0)
}
