use std::alloc::{AllocError, Global};

/// A number of a list that is not 0, with its place there.
#[derive(Clone, Copy)]
pub(crate) struct Entry {
    pub at: usize,
    pub number: f64,
}

/// The number at a place; 0 where there is none.
pub(crate) fn number_at(numbers: &[f64], at: usize) -> f64 {
    match numbers.get(at) {
        Some(number) => *number,
        None => 0.0,
    }
}

/// Writes the number at a place, where there is one.
pub(crate) fn set_number(numbers: &mut [f64], at: usize, number: f64) {
    if let Some(place) = numbers.get_mut(at) {
        *place = number;
    }
}

/// Adds to the number at a place, where there is one.
pub(crate) fn add_number(numbers: &mut [f64], at: usize, number: f64) {
    if let Some(place) = numbers.get_mut(at) {
        *place += number;
    }
}

/// So many numbers 0.
pub(crate) fn zeros(alloc: Global, count: usize) -> Result<Vec<f64>, AllocError> {
    vec![in alloc; 0.0; count]
}

/// The sum of the squares.
pub(crate) fn square_sum(numbers: &[f64]) -> f64 {
    let mut sum = 0.0;
    for number in numbers {
        sum += *number * *number;
    }
    sum
}

/// The sum of the products, place by place.
pub(crate) fn product_sum(first: &[f64], second: &[f64]) -> f64 {
    let mut sum = 0.0;
    for (one, other) in first.iter().zip(second.iter()) {
        sum += *one * *other;
    }
    sum
}

/// The sum of the numbers at some places.
pub(crate) fn sum_at(numbers: &[f64], places: &[usize]) -> f64 {
    let mut sum = 0.0;
    for place in places {
        sum += number_at(numbers, *place);
    }
    sum
}

/// Takes a multiple of the numbers from those of the target, place by place.
pub(crate) fn subtract_multiple(target: &mut [f64], factor: f64, numbers: &[f64]) {
    for (place, number) in target.iter_mut().zip(numbers.iter()) {
        *place -= factor * *number;
    }
}

/// Takes a multiple of the entries from the numbers at their places.
pub(crate) fn subtract_entries(target: &mut [f64], factor: f64, entries: &[Entry]) {
    for entry in entries {
        if let Some(place) = target.get_mut(entry.at) {
            *place -= factor * entry.number;
        }
    }
}

/// The numbers divided by one.
pub(crate) fn divided(
    alloc: Global,
    numbers: &[f64],
    divisor: f64,
) -> Result<Vec<f64>, AllocError> {
    let mut quotients = Vec::with_capacity(alloc, numbers.len())?;
    for number in numbers {
        quotients.push(*number / divisor)?;
    }
    Ok(quotients)
}

/// The numbers of greater absolute value than `least`, with their places.
pub(crate) fn entries_above(
    alloc: Global,
    numbers: &[f64],
    least: f64,
) -> Result<Vec<Entry>, AllocError> {
    let mut entries = Vec::new(alloc);
    for (at, number) in numbers.iter().enumerate() {
        if number.abs() > least {
            entries.push(Entry {
                at,
                number: *number,
            })?;
        }
    }
    Ok(entries)
}
