ghost use Rattle.std.specs.Prelude.{◌≡◌, ◌<◌, length};
ghost use Rattle.simplex_tableau.specs.Ends.{Ends};
ghost use Rattle.simplex_tableau.specs.Sparse.{Rises};
ghost use Rattle.simplex_tableau.specs.States.{Limited, limited_above, limited_below, state_of};
ghost use Rattle.simplex_tableau.specs.Leave.{FindsLeaving, Weighs, BestWithin, Before};

use crate::basis::Tableau;
use crate::fault::Fault;
use crate::sparse::{Entry, sign};
use crate::state::RowState;
use exact_num::{Arith, Fraction};
use std::cmp::Ordering;

/// The place that ends a step, the number of the entering variable's column there, and the length of the step.
#[derive(Clone, Copy)]
pub struct Leaving<N> {
    pub place: u32,
    pub number: N,
    pub step: N,
    /// The length of the step for the sides that break ties.
    pub tie: N,
    /// Whether the slack of the driven row stands there.
    pub driven: bool,
}

/// Whether a step along a column with this number comes to an end at a value of this state.
fn limits<N: Fraction>(state: RowState, number: N) -> bool
    ensures { Limited state (N.value number) result }
{
    match sign(number) {
        Ordering::Less => is_limited_below(state),
        Ordering::Equal => false,
        Ordering::Greater => is_limited_above(state),
    }
}

/// Whether a step that takes away from a value of this state comes to an end.
fn is_limited_above(state: RowState) -> bool
    ensures { result ≡ limited_above state }
{
    match state {
        RowState::Above | RowState::AtLeast | RowState::Zero => true,
        RowState::Waiting | RowState::Below => false,
    }
}

/// Whether a step that adds to a value of this state comes to an end.
fn is_limited_below(state: RowState) -> bool
    ensures { result ≡ limited_below state }
{
    match state {
        RowState::Below | RowState::Zero => true,
        RowState::Waiting | RowState::Above | RowState::AtLeast => false,
    }
}

/// The state of a variable: the columns first, then the slacks of the rows.
pub fn state_at(columns: usize, states: &[RowState], variable: usize) -> RowState
    ensures { result ≡ state_of columns states.now variable }
{
    if variable < columns {
        return RowState::AtLeast;
    }
    match states.get(variable - columns) {
        Some(state) => *state,
        None => RowState::Waiting,
    }
}

/// Whether a value of this state is that of the slack of the driven row.
fn is_driven(state: RowState) -> bool {
    match state {
        RowState::Above | RowState::Below => true,
        RowState::Waiting | RowState::AtLeast | RowState::Zero => false,
    }
}

/// Whether one of two steps of one length is to be taken: not that of the driven row's slack, which so
/// comes to 0 and stays where it can; else the shorter one for the sides that break ties, of equal ones
/// that of the later variable.
fn wins_tie<N: Fraction>(basis: &[usize], one: &Leaving<N>, other: &Leaving<N>) -> bool
    requires one { one.now.place < length basis.now }
    requires other { other.now.place < length basis.now }
{
    if one.driven != other.driven {
        return other.driven;
    }
    match one.tie.cmp(&other.tie) {
        Ordering::Less => true,
        Ordering::Equal => basis[one.place as usize] > basis[other.place as usize],
        Ordering::Greater => false,
    }
}

/// Whether one step is to be taken before another: the shorter one, of equal ones the one that wins the tie.
fn goes_before<N: Fraction>(basis: &[usize], one: &Leaving<N>, other: &Leaving<N>) -> bool
    requires one { one.now.place < length basis.now }
    requires other { other.now.place < length basis.now }
    ensures { Before (N.value one.now.step) (N.value other.now.step) result }
{
    match one.step.cmp(&other.step) {
        Ordering::Less => true,
        Ordering::Equal => wins_tie(basis, one, other),
        Ordering::Greater => false,
    }
}

/// The better of the place found so far and the place of an entry, where that ends a step.
fn weigh<A: Arith>(
    arith: &mut A,
    columns: usize,
    states: &[RowState],
    tableau: &Tableau<A::Num>,
    best: Option<Leaving<A::Num>>,
    entry: Entry<A::Num>,
) -> Result<Option<Leaving<A::Num>>, Fault>
    requires point { entry.place < length tableau.now.point.items }
    requires basis { length tableau.now.basis.items ≡ length tableau.now.point.items }
    requires tie { length tableau.now.tie.items ≡ length tableau.now.point.items }
    requires best { BestWithin (length tableau.now.point.items) best }
    ensures { Ends (A.wides arith.old) (A.wides arith.new) (Weighs A.Num.value columns states.now tableau.now best entry) result }
{
    let place = entry.place as usize;
    let state = state_at(columns, states, tableau.basis[place]);
    if !limits(state, entry.number) {
        return Ok(best);
    }
    let step = arith.div(tableau.point[place], entry.number)?;
    let tie = arith.div(tableau.tie[place], entry.number)?;
    let found = Leaving {
        place: entry.place,
        number: entry.number,
        step,
        tie,
        driven: is_driven(state),
    };
    match best {
        None => Ok(Some(found)),
        Some(before) => {
            if goes_before(&tableau.basis, &found, &before) {
                Ok(Some(found))
            } else {
                Ok(Some(before))
            }
        }
    }
}

/// The place at which a step along a column comes to an end first. `None` comes where it never ends.
pub fn find_leaving<A: Arith>(
    arith: &mut A,
    columns: usize,
    states: &[RowState],
    tableau: &Tableau<A::Num>,
    made: &[Entry<A::Num>],
) -> Result<Option<Leaving<A::Num>>, Fault>
    requires basis { length tableau.now.basis.items ≡ length tableau.now.point.items }
    requires tie { length tableau.now.tie.items ≡ length tableau.now.point.items }
    requires rises { Rises 0 (length tableau.now.point.items) made.now }
    ensures { Ends (A.wides arith.old) (A.wides arith.new) (FindsLeaving A.Num.value (length tableau.now.point.items) columns states.now tableau.now made.now) result }
{
    let mut best = None;
    for entry in made {
        best = weigh(arith, columns, states, tableau, best, *entry)?;
    }
    Ok(best)
}
