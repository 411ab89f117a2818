ghost use Rattle.std.specs.Prelude.{[], ◌∷◌, ◌≡◌, ◌≢◌, ◌<◌, ◌≤◌, ◌+◌, ◌-◌, ◌*◌, ◌&&◌, ◌==◌, ℕ, ℤ, pos, negsuc, ◌+ℤ◌, ◌≤ℤ◌, IsTrue, length, slice_index, if◌then◌else◌};
ghost use Rattle.std.specs.List.{AllByRecursion, list_any};
ghost use Rattle.problem_core.specs.Facts.{suits};
ghost use Rattle.problem_core.specs.Choice.{IsLegal, entry};
ghost use Rattle.problem_core.specs.Measures.{measures, gain, gained, is_new_room, per_mille, points_of, points_up_to, is_better};
ghost use Rattle.problem_core.specs.Kept.{IsWithin};
ghost use Rattle.problem_core.specs.Sums.{AreWithin, AreGains, AreSums};

use crate::choice::Choice;
use crate::problem::Problem;

/// A thousand times part over whole, rounded down; 0 where whole is 0.
fn per_mille(part: u32, whole: u32) -> u32
    requires part { part ≤ whole }
    requires whole { whole ≤ 1000000 }
    ensures value { result ≡ per_mille part whole }
    ensures small { result ≤ 1000 }
{
    if whole == 0 { 0 } else { 1000 * part / whole }
}

/// The points of the last row whose threshold is at most x, else 0.
fn points_up_to(x: u32, rows: &[(u32, i32)]) -> i32
    requires { AllByRecursion (λ row. IsWithin (pos 1000000) row.1) rows.now }
    ensures value { result ≡ points_up_to x (pos 0) rows.now }
    ensures small { IsWithin (pos 1000000) result }
{
    let mut points = 0;
    for row in rows {
        if row.0 <= x {
            points = row.1;
        }
    }
    points
}

/// What events add to the six measures.
#[derive(Clone, Copy)]
pub struct Sums {
    pub hours: i64,
    pub students: i64,
    pub utilisation: i64,
    pub preference: i64,
    pub rooms: i64,
    pub robustness: i64,
}

/// The sums with the part added.
fn plus(total: Sums, part: Sums) -> Sums
    requires total { AreWithin 192000000000 total }
    requires part { AreWithin 48000000 part }
    ensures hours { result.hours ≡ total.hours +ℤ part.hours }
    ensures students { result.students ≡ total.students +ℤ part.students }
    ensures utilisation { result.utilisation ≡ total.utilisation +ℤ part.utilisation }
    ensures preference { result.preference ≡ total.preference +ℤ part.preference }
    ensures rooms { result.rooms ≡ total.rooms +ℤ part.rooms }
    ensures robustness { result.robustness ≡ total.robustness +ℤ part.robustness }
{
    Sums {
        hours: total.hours + part.hours,
        students: total.students + part.students,
        utilisation: total.utilisation + part.utilisation,
        preference: total.preference + part.preference,
        rooms: total.rooms + part.rooms,
        robustness: total.robustness + part.robustness,
    }
}

impl Problem {
    /// What the event adds to the measure of the level in a room that suits it. Levels are 1 event
    /// hours, 2 seated students, 3 seat utilisation, 4 room preference and 6 spare robustness; the
    /// course rooms of level 5 are no sum over events and rooms.
    pub fn gain(&self, level: u32, event: u32, room: u32) -> i64
        requires low { 1 ≤ level }
        requires high { level ≤ 6 }
        requires not_rooms { level ≢ 5 }
        requires known_event { event < length self.now.events }
        requires known_room { room < length self.now.capacity }
        requires suitable { IsTrue (suits self.now event room) }
        ensures value { result ≡ gain self.now level event room }
        ensures small { IsWithin (pos 48000000) result }
    {
        match level {
            1 => self.hours(event),
            2 => self.seated(event),
            3 => self.utilised(event, room),
            4 => self.preferred(event, room),
            _ => self.spare(event, room),
        }
    }

    fn hours(&self, event: u32) -> i64
        requires { event < length self.now.events }
        ensures value { result ≡ gain self.now 1 event 0 }
        ensures small { IsWithin (pos 48000000) result }
    {
        i64::from(self.takes(event).1)
    }

    fn seated(&self, event: u32) -> i64
        requires { event < length self.now.events }
        ensures value { result ≡ gain self.now 2 event 0 }
        ensures small { IsWithin (pos 48000000) result }
    {
        let hours = self.takes(event).1;
        let students = self.students(self.course_of(event));
        i64::from(hours * students)
    }

    fn utilised(&self, event: u32, room: u32) -> i64
        requires known_event { event < length self.now.events }
        requires known_room { room < length self.now.capacity }
        requires suitable { IsTrue (suits self.now event room) }
        ensures value { result ≡ gain self.now 3 event room }
        ensures small { IsWithin (pos 48000000) result }
    {
        let hours = self.takes(event).1;
        let students = self.students(self.course_of(event));
        i64::from(hours * per_mille(students, self.capacity(room)))
    }

    fn preferred(&self, event: u32, room: u32) -> i64
        requires known_event { event < length self.now.events }
        requires known_room { room < length self.now.capacity }
        ensures value { result ≡ gain self.now 4 event room }
        ensures small { IsWithin (pos 48000000) result }
    {
        i64::from(self.points(self.course_of(event), room))
    }

    fn spare(&self, event: u32, room: u32) -> i64
        requires known_event { event < length self.now.events }
        requires known_room { room < length self.now.capacity }
        requires suitable { IsTrue (suits self.now event room) }
        ensures value { result ≡ gain self.now 6 event room }
        ensures small { IsWithin (pos 48000000) result }
    {
        let students = self.students(self.course_of(event));
        let capacity = self.capacity(room);
        let spare = per_mille(capacity - students, capacity);
        i64::from(points_up_to(spare, self.robust()))
    }

    /// The six measures of a legal choice: event hours, seated students, seat utilisation, room
    /// preference, minus the course rooms, spare robustness.
    pub fn values(&self, a: &Choice) -> [i64; 6]
        requires { IsLegal self.now a.now.entries }
        ensures values { result ≡ measures self.now a.now.entries }
        ensures small { AllByRecursion (IsWithin (pos 192000000000)) result }
    {
        let entries = a.entries.as_slice();
        let mut total = Sums {
            hours: 0,
            students: 0,
            utilisation: 0,
            preference: 0,
            rooms: 0,
            robustness: 0,
        };
        for event in 0..self.event_count() {
            total = plus(total, gains_of(self, entries, event));
        }
        array_of(total)
    }
}

/// The six sums, in the order of the levels.
fn array_of(total: Sums) -> [i64; 6]
    requires { AreWithin 192000000000 total }
    ensures { result ≡ total.hours ∷ total.students ∷ total.utilisation ∷ total.preference ∷ total.rooms ∷ total.robustness ∷ [] }
{
    [
        total.hours,
        total.students,
        total.utilisation,
        total.preference,
        total.rooms,
        total.robustness,
    ]
}

/// What the event adds to the six measures of the choice.
fn gains_of(p: &Problem, entries: &[u32], event: u32) -> Sums
    requires legal { IsLegal p.now entries.now }
    requires known { event < length p.now.events }
    ensures gains { AreGains p.now entries.now event result }
    ensures small { AreWithin 48000000 result }
{
    let entry = entries[event as usize];
    if entry == 0 {
        Sums {
            hours: 0,
            students: 0,
            utilisation: 0,
            preference: 0,
            rooms: 0,
            robustness: 0,
        }
    } else {
        let room = entry - 1;
        Sums {
            hours: p.gain(1, event, room),
            students: p.gain(2, event, room),
            utilisation: p.gain(3, event, room),
            preference: p.gain(4, event, room),
            rooms: new_rooms(p, entries, event, entry),
            robustness: p.gain(6, event, room),
        }
    }
}

/// -1 where no earlier event of the event's course has the entry, else 0.
fn new_rooms(p: &Problem, entries: &[u32], event: u32, entry: u32) -> i64
    requires all { length entries.now ≡ length p.now.events }
    requires known { event < length p.now.events }
    ensures value { entry ≡ slice_index entries.now event → result ≡ (if is_new_room p.now entries.now event then negsuc 0 else pos 0) }
    ensures small { IsWithin (pos 48000000) result }
{
    let place = p.place_of(event) as usize;
    let earlier = &p.events_of(p.course_of(event))[..place];
    if is_among(entries, earlier, entry) {
        0
    } else {
        -1
    }
}

/// Whether one of the events has the entry.
fn is_among(entries: &[u32], events: &[u32], entry: u32) -> bool
    requires { AllByRecursion (λ e. e < length entries.now) events.now }
    ensures { result ≡ list_any (λ e. slice_index entries.now e == entry) events.now }
{
    for event in events {
        if entries[*event as usize] == entry {
            return true;
        }
    }
    false
}

/// Whether a and b agree below the level, which is 1 to 6, and a is greater at it.
pub fn better(level: u32, a: &[i64; 6], b: &[i64; 6]) -> bool
    requires low { 1 ≤ level }
    requires high { level ≤ 6 }
    ensures { result ≡ is_better level a.now b.now }
{
    for k in 0..level - 1 {
        if a[k as usize] != b[k as usize] {
            return false;
        }
    }
    b[level as usize - 1] < a[level as usize - 1]
}
