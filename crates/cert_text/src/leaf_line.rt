ghost use Rattle.std.specs.Prelude.{◌≡◌, IfOk, Some};
ghost use Rattle.cert_text.specs.Numbers.{each_of};
ghost use Rattle.cert_text.specs.Spelling.{small_number, value_of, values_of, six_of, row_of, row_named, term_of, terms_of, counted_terms, leaf_of};

use crate::fields::Fields;
use crate::number::{read_natural, read_small, read_up_to, read_value, read_whole};
use duality::{Leaf, RowName, Term};
use std::alloc::{AllocError, Global};
use values::Items;

/// The leaf that the fields behind the word `leaf` spell. The terms are read only where their number is in its bounds.
pub fn read_leaf(alloc: Global, fields: &mut Fields) -> Result<Option<Leaf>, AllocError>
    ensures { IfOk result (λ leaf. leaf ≡ leaf_of fields.old) }
{
    let Some(scale) = fields.next() else {
        return Ok(None);
    };
    let Some(count) = fields.next() else {
        return Ok(None);
    };
    let Some(scale) = read_natural(scale) else {
        return Ok(None);
    };
    let Some(count) = read_up_to(count, 5_005) else {
        return Ok(None);
    };
    let terms = read_terms(alloc, fields)?;
    Ok(counted_terms(scale as i128, count, terms))
}

fn counted_terms(scale: i128, count: u32, terms: Option<Items<Term>>) -> Option<Leaf>
    ensures { result ≡ counted_terms scale (Some count) terms }
{
    let terms = terms?;
    if count as usize == terms.len() {
        Some(Leaf { scale, terms })
    } else {
        None
    }
}

// Rows and multipliers in turn.
fn read_terms(alloc: Global, fields: &mut Fields) -> Result<Option<Items<Term>>, AllocError>
    ensures { IfOk result (λ ts. ts ≡ terms_of fields.old) }
{
    let mut terms = Items::new(alloc);
    while let Some(row) = fields.next() {
        let Some(times) = fields.next() else {
            return Ok(None);
        };
        match read_term(row, times) {
            Some(term) => terms.push(term)?,
            None => return Ok(None),
        }
    }
    Ok(Some(terms))
}

fn read_term(row: &[u8], times: &[u8]) -> Option<Term>
    ensures { result ≡ term_of row.now times.now }
{
    let row = read_row(row)?;
    let times = read_whole(times)?;
    Some(Term { row, times })
}

fn read_row(field: &[u8]) -> Option<RowName>
    ensures { result ≡ row_of field.now }
{
    match field.split_first() {
        None => None,
        Some((letter, digits)) => row_named(*letter, read_small(digits)),
    }
}

fn row_named(letter: u8, number: Option<u32>) -> Option<RowName>
    ensures { result ≡ row_named letter number }
{
    let number = number?;
    if letter == b'b' {
        return Some(RowName::Base(number));
    }
    if letter == b'c' {
        return Some(RowName::Cut(number));
    }
    if letter == b'l' {
        Some(RowName::Level(number))
    } else {
        None
    }
}

/// The six values that the fields behind the word `values` spell.
pub fn read_values(alloc: Global, fields: &mut Fields) -> Result<Option<[i64; 6]>, AllocError>
    ensures { IfOk result (λ vs. vs ≡ values_of fields.old) }
{
    let values = read_each_value(alloc, fields)?;
    Ok(six_of(values))
}

fn six_of(values: Option<Items<i64>>) -> Option<[i64; 6]>
    ensures { result ≡ six_of values }
{
    let values = values?;
    if values.len() != 6 {
        return None;
    }
    let mut six = [0i64; 6];
    six.copy_from_slice(values.as_slice());
    Some(six)
}

// All fields as values.
fn read_each_value(alloc: Global, fields: &mut Fields) -> Result<Option<Items<i64>>, AllocError>
    ensures { IfOk result (λ vs. vs ≡ each_of value_of fields.old) }
{
    let mut values = Items::new(alloc);
    while let Some(field) = fields.next() {
        match read_value(field) {
            Some(value) => values.push(value)?,
            None => return Ok(None),
        }
    }
    Ok(Some(values))
}
