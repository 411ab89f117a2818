ghost use Rattle.std.specs.Prelude.{◌≡◌, ◌<◌, length, IfOk, IfSome};
ghost use Rattle.std.specs.List.{All};

use std::alloc::{AllocError, Global};
use values::Items;

/// The item at the place, else the other one.
pub fn item_at<T: Copy>(list: &[T], at: u32, other: T) -> T {
    match list.get(at as usize) {
        Some(item) => *item,
        None => other,
    }
}

/// Puts the item at the place, where there is one.
pub fn put<T: Copy>(list: &mut [T], at: u32, item: T) {
    if let Some(place) = list.get_mut(at as usize) {
        *place = item;
    }
}

/// Adds to the number at the place, where there is one.
pub fn add(list: &mut [i128], at: u32, more: i128) {
    if let Some(place) = list.get_mut(at as usize) {
        *place = place.wrapping_add(more);
    }
}

/// Adds 1 to the number at the place, where there is one.
pub fn count_at(list: &mut [u32], at: u32) {
    if let Some(place) = list.get_mut(at as usize) {
        *place = place.wrapping_add(1);
    }
}

/// Makes each number the sum of those up to it.
pub fn sum_up(list: &mut [u32]) {
    let mut total: u32 = 0;
    for place in list.iter_mut() {
        total = total.wrapping_add(*place);
        *place = total;
    }
}

/// So many of the prices, 0 where there are fewer.
pub fn prices_of(alloc: Global, list: &[i128], count: u32) -> Result<Items<i128>, AllocError>
    ensures { IfOk result (λ prices. length prices ≡ count) }
{
    let mut prices = Items::new(alloc);
    for at in 0..count {
        prices.push(item_at(list, at, 0))?;
    }
    Ok(prices)
}

/// So many of the numbers, where they are below the limit.
pub fn numbers_below(
    alloc: Global,
    list: &[Option<u32>],
    count: u32,
    limit: usize,
) -> Result<Items<Option<u32>>, AllocError>
    ensures count { IfOk result (λ numbers. length numbers ≡ count) }
    ensures below { IfOk result (λ numbers. All (λ number. IfSome number (λ n. n < limit)) numbers) }
{
    let mut numbers = Items::new(alloc);
    for at in 0..count {
        numbers.push(number_below(item_at(list, at, None), limit))?;
    }
    Ok(numbers)
}

/// The number where it is below the limit.
fn number_below(number: Option<u32>, limit: usize) -> Option<u32>
    ensures { IfSome result (λ n. n < limit) }
{
    match number {
        Some(n) if (n as usize) < limit => Some(n),
        _ => None,
    }
}
