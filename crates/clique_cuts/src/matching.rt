use problem_core::Memory;
use std::alloc::Global;
use values::Items;

/// One side of a matching: by vertex, the vertices of the other side that it may be matched with, in the
/// order in which they are tried, its mate, and whether it must have one.
#[derive(Drop)]
pub struct Side {
    count: u32,
    links: Vec<Items<u32>>,
    mates: Vec<Option<u32>>,
    needed: Vec<bool>,
}

impl Side {
    /// So many vertices without links and mates.
    pub fn new(alloc: Global, count: u32) -> Result<Side, Memory> {
        let links = empty_lists(alloc, count)?;
        let mates = vec![in alloc; None; count as usize]?;
        let needed = vec![in alloc; false; count as usize]?;
        Ok(Side {
            count,
            links,
            mates,
            needed,
        })
    }

    /// Lets the vertex be matched with one of the other side.
    pub fn link(&mut self, vertex: u32, other: u32) -> Result<(), Memory> {
        if let Some(list) = self.links.get_mut(vertex as usize) {
            list.push(other)?;
        }
        Ok(())
    }

    /// Says that the vertex must have a mate.
    pub fn need(&mut self, vertex: u32) {
        if let Some(needed) = self.needed.get_mut(vertex as usize) {
            *needed = true;
        }
    }

    /// The mate of the vertex.
    pub fn mate(&self, vertex: u32) -> Option<u32> {
        match self.mates.get(vertex as usize) {
            Some(mate) => *mate,
            None => None,
        }
    }

    fn is_needed(&self, vertex: u32) -> bool {
        match self.needed.get(vertex as usize) {
            Some(needed) => *needed,
            None => false,
        }
    }

    fn links_of(&self, vertex: u32) -> &[u32] {
        match self.links.get(vertex as usize) {
            Some(list) => list.as_slice(),
            None => &[],
        }
    }

    fn set_mate(&mut self, vertex: u32, mate: Option<u32>) {
        if let Some(place) = self.mates.get_mut(vertex as usize) {
            *place = mate;
        }
    }
}

/// So many empty lists.
pub fn empty_lists<T: Drop>(alloc: Global, count: u32) -> Result<Vec<Items<T>>, Memory> {
    let mut lists = Vec::new(alloc);
    for _ in 0..count {
        if lists.push(Items::new(alloc)).is_err() {
            return Err(Memory);
        }
    }
    Ok(lists)
}

/// Covers the vertices of either side that must have a mate, where that can be done, and then as many of the
/// first side as can be.
pub fn cover_both(alloc: Global, first: &mut Side, second: &mut Side) -> Result<(), Memory> {
    cover_needed(alloc, first, second)?;
    cover_needed(alloc, second, first)?;
    for vertex in 0..first.count {
        first.need(vertex);
    }
    cover_needed(alloc, first, second)
}

/// Covers the vertices of the side that must have a mate.
fn cover_needed(alloc: Global, side: &mut Side, other: &mut Side) -> Result<(), Memory> {
    for vertex in 0..side.count {
        if side.is_needed(vertex) && side.mate(vertex).is_none() {
            cover(alloc, side, other, vertex)?;
        }
    }
    Ok(())
}

/// Gives the vertex a mate along a shortest alternating path, where there is one: it ends at a vertex without
/// a mate, or at one whose mate need not have one.
fn cover(alloc: Global, side: &mut Side, other: &mut Side, start: u32) -> Result<(), Memory> {
    let mut reached = vec![in alloc; None; other.count as usize]?;
    let mut queue = Items::new(alloc);
    queue.push(start)?;
    if let Some(end) = reach(side, other, &mut reached, &mut queue)? {
        turn_path(side, other, &reached, end);
    }
    Ok(())
}

/// The end of a path from the vertices of the queue. By vertex of the other side, `reached` has the one that
/// it was reached from.
fn reach(
    side: &Side,
    other: &Side,
    reached: &mut [Option<u32>],
    queue: &mut Items<u32>,
) -> Result<Option<u32>, Memory> {
    for at in 0..=other.count {
        let Some(vertex) = queue.as_slice().get(at as usize).copied() else {
            return Ok(None);
        };
        if let Some(end) = reach_from(side, other, reached, queue, vertex)? {
            return Ok(Some(end));
        }
    }
    Ok(None)
}

/// The end of a path among the links of the vertex; else the mates of those that are reached anew are queued.
fn reach_from(
    side: &Side,
    other: &Side,
    reached: &mut [Option<u32>],
    queue: &mut Items<u32>,
    vertex: u32,
) -> Result<Option<u32>, Memory> {
    for next in side.links_of(vertex) {
        if note_reached(reached, *next, vertex) {
            match other.mate(*next) {
                Some(mate) if side.is_needed(mate) => queue.push(mate)?,
                _ => return Ok(Some(*next)),
            }
        }
    }
    Ok(None)
}

/// Notes where the vertex was reached from, and says so, where it was not reached before.
fn note_reached(reached: &mut [Option<u32>], vertex: u32, from: u32) -> bool {
    if let Some(place) = reached.get_mut(vertex as usize) {
        if place.is_none() {
            *place = Some(from);
            return true;
        }
    }
    false
}

/// Matches along the path, from its end back to its start.
fn turn_path(side: &mut Side, other: &mut Side, reached: &[Option<u32>], end: u32) {
    if let Some(freed) = other.mate(end) {
        side.set_mate(freed, None);
    }
    let mut at = end;
    for _ in 0..=other.count {
        let Some(Some(vertex)) = reached.get(at as usize).copied() else {
            return;
        };
        let before = side.mate(vertex);
        side.set_mate(vertex, Some(at));
        other.set_mate(at, Some(vertex));
        match before {
            Some(before) => at = before,
            None => return,
        }
    }
}
