//! The search for the heaviest clique of a point. It promises nothing, so what it finds is to be tested.
ghost use Rattle.std.specs.List.{All};
ghost use Rattle.packing_model.specs.Built.{packing};
ghost use Rattle.clique_cuts.specs.Search.{IsEntry};

use crate::groups::{Kind, grouped};
use packing_model::{Model, Point};
use problem_core::Memory;
use std::alloc::Global;
use values::Items;

/// The most steps of the search in a group.
const MOST_STEPS: u32 = 5_000;

/// The most entries of a group that are searched.
const MOST_ENTRIES: usize = 500;

/// The largest denominator of a point that is searched.
const MOST_DENOMINATOR: i128 = 10_000;

/// Patterns that clash in pairs, and what the point gives them together.
#[derive(Drop)]
struct Heaviest {
    size: i128,
    patterns: Items<u32>,
}

/// An entry of the group, and its place there by rising size.
#[derive(Clone, Copy)]
struct Candidate {
    place: usize,
    pattern: u32,
    size: i128,
}

/// A clique: the pattern that joined it last, its size, and what clashes with all that are in it and is no
/// greater, by rising size.
#[derive(Drop)]
struct Branch {
    pattern: Option<u32>,
    size: i128,
    candidates: Items<Candidate>,
    rest: i128,
}

/// The heaviest patterns of a room or a course that clash in pairs and have more than the denominator, as far
/// as the search comes; none where it finds none. A cut on many patterns mostly gives the next point a larger
/// denominator, until that is too large to be found quickly, so a point of a large one is not searched.
pub fn heaviest_clique(
    alloc: Global,
    m: &Model,
    point: &Point,
    entries: &[(u32, i128)],
) -> Result<Items<u32>, Memory>
    requires { All (IsEntry (packing m.now) point.now) entries.now }
{
    if MOST_DENOMINATOR < point.den {
        return Ok(Items::new(alloc));
    }
    let rooms = grouped(alloc, m, point, entries, Kind::Room)?;
    let courses = grouped(alloc, m, point, entries, Kind::Course)?;
    let mut best = Heaviest {
        size: point.den,
        patterns: Items::new(alloc),
    };
    search_groups(alloc, m, &rooms, &mut best)?;
    search_groups(alloc, m, &courses, &mut best)?;
    Ok(best.patterns)
}

/// Searches each group for what is heavier than the best.
fn search_groups(
    alloc: Global,
    m: &Model,
    groups: &[Items<(u32, i128)>],
    best: &mut Heaviest,
) -> Result<(), Memory> {
    for group in groups {
        search_group(alloc, m, group.as_slice(), best)?;
    }
    Ok(())
}

/// Searches the group for what is heavier than the best: depth first, through falling entries.
fn search_group(
    alloc: Global,
    m: &Model,
    group: &[(u32, i128)],
    best: &mut Heaviest,
) -> Result<(), Memory> {
    let root = root_of(alloc, group)?;
    if root.rest <= best.size {
        return Ok(());
    }
    let table = clash_table(alloc, m, root.candidates.as_slice())?;
    let mut branches = Items::new(alloc);
    branches.push(root)?;
    for _ in 0..MOST_STEPS {
        if !step(alloc, table.as_slice(), &mut branches, best)? {
            break;
        }
    }
    Ok(())
}

/// The clique with no pattern, which each entry of the group may join.
fn root_of(alloc: Global, group: &[(u32, i128)]) -> Result<Branch, Memory> {
    let mut root = Branch {
        pattern: None,
        size: 0,
        candidates: Items::new(alloc),
        rest: 0,
    };
    for entry in group.iter().take(MOST_ENTRIES).rev() {
        let candidate = Candidate {
            place: root.candidates.len(),
            pattern: entry.0,
            size: entry.1,
        };
        add_candidate(&mut root, candidate)?;
    }
    Ok(root)
}

/// Adds what may join.
fn add_candidate(branch: &mut Branch, candidate: Candidate) -> Result<(), Memory> {
    branch.rest = branch.rest.wrapping_add(candidate.size);
    branch.candidates.push(candidate)?;
    Ok(())
}

/// For each candidate, as bits by place, which of those before it clash with it.
fn clash_table(
    alloc: Global,
    m: &Model,
    candidates: &[Candidate],
) -> Result<Items<Items<u64>>, Memory> {
    let mut table = Items::new(alloc);
    for candidate in candidates {
        table.push(clash_row(alloc, m, candidates, *candidate)?)?;
    }
    Ok(table)
}

/// As bits by place, which of the candidates before this one clash with it.
fn clash_row(
    alloc: Global,
    m: &Model,
    candidates: &[Candidate],
    candidate: Candidate,
) -> Result<Items<u64>, Memory> {
    let mut row = vec![in alloc; 0u64; candidate.place / 64 + 1]?;
    for other in candidates.iter().take(candidate.place) {
        if clash(m, candidate.pattern, other.pattern) {
            mark(&mut row, other.place);
        }
    }
    Ok(Items::from(row))
}

/// Whether the two are patterns that clash.
fn clash(m: &Model, first: u32, second: u32) -> bool {
    let count = m.patterns().len();
    first < count && second < count && m.clash(first, second)
}

/// Sets the bit of the place.
fn mark(row: &mut [u64], place: usize) {
    if let Some(word) = row.get_mut(place / 64) {
        *word |= 1 << (place % 64);
    }
}

/// Whether the bit of the place is set.
fn is_marked(row: &[u64], place: usize) -> bool {
    match row.get(place / 64) {
        Some(word) => (*word >> (place % 64)) % 2 == 1,
        None => false,
    }
}

/// Lets the next candidate join the last branch, or drops the branch where nothing in it can be heavier than
/// the best. False where there is no branch.
fn step(
    alloc: Global,
    table: &[Items<u64>],
    branches: &mut Items<Branch>,
    best: &mut Heaviest,
) -> Result<bool, Memory> {
    let Some(mut branch) = branches.pop() else {
        return Ok(false);
    };
    if branch.size.wrapping_add(branch.rest) <= best.size {
        return Ok(true);
    }
    if let Some(candidate) = branch.candidates.pop() {
        branch.rest = branch.rest.wrapping_sub(candidate.size);
        let joined = joined(alloc, table, &branch, candidate)?;
        branches.push(branch)?;
        branches.push(joined)?;
        note(alloc, branches.as_slice(), best)?;
    }
    Ok(true)
}

/// The branch with the candidate in its clique.
fn joined(
    alloc: Global,
    table: &[Items<u64>],
    branch: &Branch,
    candidate: Candidate,
) -> Result<Branch, Memory> {
    let mut joined = Branch {
        pattern: Some(candidate.pattern),
        size: branch.size.wrapping_add(candidate.size),
        candidates: Items::new(alloc),
        rest: 0,
    };
    let row = row_at(table, candidate.place);
    for other in branch.candidates.as_slice() {
        if is_marked(row, other.place) {
            add_candidate(&mut joined, *other)?;
        }
    }
    Ok(joined)
}

/// The row of the place.
fn row_at(table: &[Items<u64>], place: usize) -> &[u64] {
    match table.get(place) {
        Some(row) => row.as_slice(),
        None => &[],
    }
}

/// Makes the last clique the best one where it is heavier.
fn note(alloc: Global, branches: &[Branch], best: &mut Heaviest) -> Result<(), Memory> {
    if let Some(branch) = branches.last() {
        if best.size < branch.size {
            best.size = branch.size;
            best.patterns = patterns_in(alloc, branches)?;
        }
    }
    Ok(())
}

/// The patterns that joined.
fn patterns_in(alloc: Global, branches: &[Branch]) -> Result<Items<u32>, Memory> {
    let mut patterns = Items::new(alloc);
    for branch in branches {
        if let Some(pattern) = branch.pattern {
            patterns.push(pattern)?;
        }
    }
    Ok(patterns)
}
