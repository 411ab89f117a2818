use crate::lists::{count_of, item_at, put};
use problem_core::Memory;
use std::alloc::Global;
use values::Items;

/// The prime that equations are solved by: 2^61 - 1.
const PRIME: u64 = 2_305_843_009_213_693_951;

/// The largest size of a numerator and of a denominator.
const MOST: i128 = 1_073_741_824;

/// The largest common denominator.
const MOST_COMMON: i128 = 1_000_000_000_000_000_000_000_000;

/// The most steps of a division with remainders: each halves at least every second number.
const DIVISIONS: u32 = 200;

/// An equation: the sum of these unknowns is the side.
#[derive(Drop)]
pub struct Equation {
    pub unknowns: Items<u32>,
    pub side: i64,
}

/// The values of the unknowns over a common denominator.
#[derive(Drop)]
pub struct Solution {
    pub denominator: i128,
    pub values: Items<i128>,
}

/// A row of the elimination: numbers of the prime field by unknown, of which the first is 1, and its side.
#[derive(Drop)]
struct Row {
    unknowns: Items<(u32, u64)>,
    side: u64,
}

/// The rows so far, by the unknown that each stands for.
#[derive(Drop)]
struct Elimination {
    rows: Vec<Option<Row>>,
    /// By unknown, its number in the equation at hand.
    dense: Vec<u64>,
}

/// The one solution of the equations in fractions of small numbers, where there is one. It fails only where memory
/// runs out.
///
/// The equations are solved in the field of a prime, and the fractions are read off its elements (Wang, 1981): a
/// fraction with a numerator and a denominator of at most 30 bits is the only such one with its element.
pub fn solve_equations(
    alloc: Global,
    unknowns: u32,
    equations: &[Equation],
) -> Result<Option<Solution>, Memory> {
    let mut elimination = Elimination {
        rows: no_rows(alloc, unknowns)?,
        dense: vec![in alloc; 0; unknowns as usize]?,
    };
    for equation in equations {
        if !elimination.add(alloc, unknowns, equation)? {
            return Ok(None);
        }
    }
    match elimination.values(alloc, unknowns)? {
        Some(values) => fractions(alloc, &values),
        None => Ok(None),
    }
}

/// So many places without a row.
fn no_rows(alloc: Global, count: u32) -> Result<Vec<Option<Row>>, Memory> {
    let mut rows = Vec::new(alloc);
    for _ in 0..count {
        if rows.push(None).is_err() {
            return Err(Memory);
        }
    }
    Ok(rows)
}

impl Elimination {
    /// Adds the equation; false where it contradicts those before.
    fn add(&mut self, alloc: Global, unknowns: u32, equation: &Equation) -> Result<bool, Memory> {
        for unknown in equation.unknowns.as_slice() {
            put(&mut self.dense, *unknown, 1);
        }
        let mut side = element(equation.side);
        for unknown in 0..unknowns {
            side = self.reduce(unknown, side);
        }
        self.keep(alloc, unknowns, side)
    }

    /// Takes the unknown's row, times its number in the equation, from the equation.
    fn reduce(&mut self, unknown: u32, side: u64) -> u64 {
        let factor = item_at(&self.dense, unknown, 0);
        if factor == 0 {
            return side;
        }
        let Some(Some(row)) = self.rows.get(unknown as usize) else {
            return side;
        };
        for entry in row.unknowns.as_slice() {
            let number = item_at(&self.dense, entry.0, 0);
            put(
                &mut self.dense,
                entry.0,
                difference(number, product(factor, entry.1)),
            );
        }
        difference(side, product(factor, row.side))
    }

    /// Keeps what is left of the equation for its first unknown; false where none is left but a side.
    fn keep(&mut self, alloc: Global, unknowns: u32, side: u64) -> Result<bool, Memory> {
        let Some(first) = first_number(&self.dense) else {
            return Ok(side == 0);
        };
        let inverse = inverse(item_at(&self.dense, first, 0));
        let mut entries = Items::new(alloc);
        for unknown in first..unknowns {
            let number = item_at(&self.dense, unknown, 0);
            if number != 0 {
                entries.push((unknown, product(number, inverse)))?;
                put(&mut self.dense, unknown, 0);
            }
        }
        let row = Row {
            unknowns: entries,
            side: product(side, inverse),
        };
        if let Some(place) = self.rows.get_mut(first as usize) {
            *place = Some(row);
        }
        Ok(true)
    }

    /// The elements of the unknowns, where each has a row.
    fn values(&self, alloc: Global, unknowns: u32) -> Result<Option<Vec<u64>>, Memory> {
        let mut values = vec![in alloc; 0; unknowns as usize]?;
        for before in 0..unknowns {
            let unknown = unknowns - 1 - before;
            let Some(Some(row)) = self.rows.get(unknown as usize) else {
                return Ok(None);
            };
            let value = rest_of(row, unknown, &values);
            put(&mut values, unknown, value);
        }
        Ok(Some(values))
    }
}

/// What the row leaves for its unknown.
fn rest_of(row: &Row, unknown: u32, values: &[u64]) -> u64 {
    let mut rest = row.side;
    for entry in row.unknowns.as_slice() {
        if entry.0 != unknown {
            rest = difference(rest, product(entry.1, item_at(values, entry.0, 0)));
        }
    }
    rest
}

/// The first place whose number is not 0.
fn first_number(numbers: &[u64]) -> Option<u32> {
    for place in 0..count_of(numbers) {
        if item_at(numbers, place, 0) != 0 {
            return Some(place);
        }
    }
    None
}

/// The element of a whole number.
fn element(number: i64) -> u64 {
    let size = number.unsigned_abs() % PRIME;
    if number < 0 {
        difference(0, size)
    } else {
        size
    }
}

/// The product in the field.
fn product(first: u64, second: u64) -> u64 {
    let wide = u128::from(first).wrapping_mul(u128::from(second));
    (wide % u128::from(PRIME)) as u64
}

/// The difference in the field.
fn difference(first: u64, second: u64) -> u64 {
    if first >= second {
        first - second
    } else {
        first.wrapping_add(PRIME).wrapping_sub(second)
    }
}

/// The inverse in the field: the power by the prime less 2.
fn inverse(number: u64) -> u64 {
    let mut power = 1;
    let mut square = number;
    let exponent = PRIME - 2;
    for bit in 0..61u32 {
        if (exponent >> bit) & 1 == 1 {
            power = product(power, square);
        }
        square = product(square, square);
    }
    power
}

/// The elements as fractions over a common denominator, where these are small.
fn fractions(alloc: Global, values: &[u64]) -> Result<Option<Solution>, Memory> {
    let mut parts = Items::new(alloc);
    let mut denominator = 1;
    for value in values {
        let Some(fraction) = fraction_of(*value) else {
            return Ok(None);
        };
        denominator = common(denominator, fraction.1);
        if denominator == 0 || denominator > MOST_COMMON {
            return Ok(None);
        }
        parts.push(fraction)?;
    }
    let values = over(alloc, parts.as_slice(), denominator)?;
    Ok(Some(Solution {
        denominator,
        values,
    }))
}

/// The numerators over the common denominator.
fn over(alloc: Global, parts: &[(i128, i128)], denominator: i128) -> Result<Items<i128>, Memory> {
    let mut numerators = Items::new(alloc);
    for part in parts {
        let times = quotient(denominator, part.1);
        numerators.push(part.0.wrapping_mul(times))?;
    }
    Ok(numerators)
}

/// The quotient; 0 for a divisor that isn't positive.
fn quotient(number: i128, divisor: i128) -> i128 {
    if divisor > 0 { number / divisor } else { 0 }
}

/// The least common multiple of positive numbers.
fn common(first: i128, second: i128) -> i128 {
    quotient(first, divisor(first, second)).wrapping_mul(second)
}

/// The greatest common divisor of positive numbers.
fn divisor(first: i128, second: i128) -> i128 {
    let mut larger = first;
    let mut smaller = second;
    for _ in 0..DIVISIONS {
        if smaller <= 0 {
            return larger;
        }
        let rest = larger % smaller;
        larger = smaller;
        smaller = rest;
    }
    1
}

/// The fraction of the element: the remainders of the prime and the element are its numerators, and what they are
/// multiples of the element by its denominators, up to the first small one.
fn fraction_of(value: u64) -> Option<(i128, i128)> {
    let mut before: (i128, i128) = (i128::from(PRIME), 0);
    let mut now: (i128, i128) = (i128::from(value), 1);
    for _ in 0..DIVISIONS {
        if now.0 <= MOST {
            return positive(now);
        }
        let times = quotient(before.0, now.0);
        let next = (
            before.0.wrapping_sub(times.wrapping_mul(now.0)),
            before.1.wrapping_sub(times.wrapping_mul(now.1)),
        );
        before = now;
        now = next;
    }
    None
}

/// The fraction with a positive denominator, where it is small.
fn positive(fraction: (i128, i128)) -> Option<(i128, i128)> {
    let zero: i128 = 0;
    let signed = if fraction.1 < 0 {
        (zero.wrapping_sub(fraction.0), zero.wrapping_sub(fraction.1))
    } else {
        fraction
    };
    if signed.1 == 0 || signed.1 > MOST {
        return None;
    }
    Some(signed)
}
