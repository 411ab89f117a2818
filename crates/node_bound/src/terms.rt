ghost use Rattle.std.specs.Prelude.{◌≡◌, ◌≤◌, ◌+◌, [], ◌++◌, length, IfOk, OnOk};
ghost use Rattle.node_bound.specs.Terms.{with_term, terms_of, leaf_terms};

use duality::{RowName, Term};
use problem_core::Memory;
use std::alloc::Global;
use values::Items;

/// The rows with their multipliers in the order of a leaf, those of multiplier 0 left out.
pub(crate) fn leaf_terms(
    alloc: Global,
    lead: usize,
    low: usize,
    others: usize,
    rows: &[RowName],
    times: &[i128],
) -> Result<Items<Term>, Memory>
    requires one_each { length times.now ≡ length rows.now }
    requires known { lead + low + others ≤ length rows.now }
    ensures { IfOk result (λ terms. terms ≡ leaf_terms lead low others rows.now times.now) }
{
    let (lead_rows, rows) = rows.split_at(lead);
    let (lead_times, times) = times.split_at(lead);
    let (low_rows, rows) = rows.split_at(low);
    let (low_times, times) = times.split_at(low);
    let (other_rows, last_rows) = rows.split_at(others);
    let (other_times, last_times) = times.split_at(others);
    let mut terms = Items::new(alloc);
    push_terms(&mut terms, lead_rows, lead_times)?;
    push_terms(&mut terms, other_rows, other_times)?;
    push_terms(&mut terms, low_rows, low_times)?;
    push_terms(&mut terms, last_rows, last_times)?;
    Ok(terms)
}

/// Adds the rows with their multipliers.
fn push_terms(terms: &mut Items<Term>, rows: &[RowName], times: &[i128]) -> Result<(), Memory>
    requires { length times.now ≡ length rows.now }
    ensures { OnOk result (terms.new ≡ terms.old ++ terms_of rows.now times.now) }
{
    for (i, row) in rows.iter().enumerate() {
        push_term(terms, *row, times[i])?;
    }
    Ok(())
}

/// Adds a row with its multiplier, where that is not 0.
fn push_term(terms: &mut Items<Term>, row: RowName, times: i128) -> Result<(), Memory>
    ensures { OnOk result (terms.new ≡ terms.old ++ with_term row times []) }
{
    if times == 0 {
        return Ok(());
    }
    terms.push(Term { row, times })?;
    Ok(())
}
