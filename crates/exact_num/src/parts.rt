ghost use Rattle.std.specs.Prelude.{◌≡◌, ◌≢◌, [], ◌∷◌, ◌<◌, ◌≤◌, ◌*◌, ◌%◌, ◌^◌, ℤ, pos, ◌<ℤ◌, ◌+ℤ◌, ◌*ℤ◌, MatchOption, true, false, unsigned_abs};
ghost use Rattle.std.specs.List.{list_all};
ghost use Rattle.std.specs.Int.{◌∣◌, IsGcd};
ghost use Rattle.std.specs.Ordering.{nat_cmp};
ghost use Rattle.exact_num.specs.Cross.{cross_cmp};
ghost use Rattle.exact_num.specs.Q.{IsLow};
ghost use Rattle.exact_num.specs.Work.{below, sum_of_parts, product_of_parts, quotient_of_parts};
ghost use Rattle.exact_num.specs.Arith.{Finds, IsReduced, IsUnfit};
ghost use Rattle.exact_num.specs.Halving.{IsOddPart};
ghost use Rattle.exact_num.specs.Signs.{sign_of, turned_num};

use std::cmp::Ordering;

/// A number that fits 64 bits is at most this.
const SHORT: u128 = u64::MAX as u128;

/// The number without its factors of 2.
#[inline]
fn odd_part(n: u64) -> u64
    requires { 0 < n }
    ensures { IsOddPart n result }
{
    n >> n.trailing_zeros()
}

/// The greatest common divisor of odd numbers, by differences without their factors of 2.
fn odd_gcd(a: u64, b: u64) -> u64
    requires first { a % 2 ≡ 1 }
    requires second { b % 2 ≡ 1 }
    ensures { IsGcd a b result }
{
    let mut x = a;
    let mut y = b;
    while x != y {
        let difference = x.abs_diff(y);
        x = x.min(y);
        y = odd_part(difference);
    }
    x
}

/// The greatest common divisor of numbers of 64 bits, by halving (J. Stein, 1967).
fn short_gcd(a: u64, b: u64) -> u64
    ensures { IsGcd a b result }
{
    if a == 0 {
        return b;
    }
    if b == 0 {
        return a;
    }
    let g = odd_gcd(odd_part(a), odd_part(b));
    g << a.trailing_zeros().min(b.trailing_zeros())
}

/// The greatest common divisor, by Euclid's steps on 128 bits until both numbers fit 64.
fn gcd(a: u128, b: u128) -> u128
    ensures { IsGcd a b result }
{
    let mut x = a;
    let mut y = b;
    while y != 0 {
        if x <= SHORT && y <= SHORT {
            return u128::from(short_gcd(x as u64, y as u64));
        }
        (x, y) = (y, x % y);
    }
    x
}

/// The greatest common divisor, where the second number is positive.
#[inline]
pub fn common_divisor(a: i128, b: i128) -> i128
    requires { pos 0 <ℤ b }
    ensures gcd { IsGcd (unsigned_abs a) (unsigned_abs b) (unsigned_abs result) }
    ensures positive { pos 0 <ℤ result }
{
    if b == 1 {
        return 1;
    }
    let g = gcd(a.unsigned_abs(), b.unsigned_abs());
    g as i128
}

/// A division of a number of 64 bits without remainder.
#[inline]
fn quotient_of_short(n: i64, k: i128) -> i128
    requires some { pos 0 <ℤ k }
    requires divides { unsigned_abs k ∣ unsigned_abs n }
    ensures { result *ℤ k ≡ n }
{
    match i64::try_from(k) {
        Ok(short_k) => i128::from(n / short_k),
        Err(_) => i128::from(n) / k,
    }
}

/// A division without remainder.
#[inline]
pub fn quotient(n: i128, k: i128) -> i128
    requires some { pos 0 <ℤ k }
    requires divides { unsigned_abs k ∣ unsigned_abs n }
    ensures { result *ℤ k ≡ n }
{
    if k == 1 {
        return n;
    }
    match i64::try_from(n) {
        Ok(short_n) => quotient_of_short(short_n, k),
        Err(_) => n / k,
    }
}

/// The number of this size with the sign of `num / den`.
fn signed(size: u128, num: i128, den: i128) -> i128
    requires { size < 2 ^ 127 }
    ensures { result ≡ sign_of num den size }
{
    let size = size as i128;
    if num < 0 {
        if den < 0 {
            return size;
        }
        return -size;
    }
    if den < 0 {
        return -size;
    }
    size
}

/// The parts of `num / den` in lowest terms, where they are below the bound.
pub(crate) fn reduced(bound: u128, num: i128, den: i128) -> Option<(i128, i128)>
    requires { bound ≤ 2 ^ 127 }
    ensures { MatchOption result (IsUnfit bound num den) (λ p. (den ≢ pos 0) × IsReduced bound p.0 p.1 num den) }
{
    if den == 0 {
        return None;
    }
    let size = num.unsigned_abs();
    let den_size = den.unsigned_abs();
    let g = gcd(size, den_size);
    let n = size / g;
    let d = den_size / g;
    if n >= bound {
        return None;
    }
    if d >= bound {
        return None;
    }
    Some((signed(n, num, den), d as i128))
}

/// The number, where its size is below the bound.
#[inline]
fn fitting(bound: u128, n: i128) -> Option<i128>
    ensures { MatchOption result (below bound n ≡ false) (λ c. (c ≡ n) × (below bound n ≡ true)) }
{
    if n.unsigned_abs() < bound {
        Some(n)
    } else {
        None
    }
}

/// The product of numbers of 64 bits.
#[inline]
fn short_product(a: i64, b: i64) -> i128
    ensures { result ≡ a *ℤ b }
{
    i128::from(a) * i128::from(b)
}

/// The product, where its size is below the bound.
#[inline]
pub(crate) fn fitting_product(bound: u128, a: i128, b: i128) -> Option<i128>
    requires { bound ≤ 2 ^ 127 }
    ensures { MatchOption result (below bound (a *ℤ b) ≡ false) (λ c. (c ≡ a *ℤ b) × (below bound (a *ℤ b) ≡ true)) }
{
    if let (Ok(short_a), Ok(short_b)) = (i64::try_from(a), i64::try_from(b)) {
        return fitting(bound, short_product(short_a, short_b));
    }
    match a.checked_mul(b) {
        Some(product) => fitting(bound, product),
        None => None,
    }
}

/// The sum, where its size is below the bound.
#[inline]
fn fitting_sum(bound: u128, a: i128, b: i128) -> Option<i128>
    requires { bound ≤ 2 ^ 127 }
    ensures { MatchOption result (below bound (a +ℤ b) ≡ false) (λ c. (c ≡ a +ℤ b) × (below bound (a +ℤ b) ≡ true)) }
{
    match a.checked_add(b) {
        Some(sum) => fitting(bound, sum),
        None => None,
    }
}

/// The sum of two whole numbers, as parts.
#[inline]
fn whole_sum(bound: u128, a: i128, c: i128) -> Option<(i128, i128)>
    requires bound { bound ≤ 2 ^ 127 }
    requires one { 1 < bound }
    requires first { unsigned_abs a < bound }
    requires second { unsigned_abs c < bound }
    ensures { Finds bound (list_all (below bound) (sum_of_parts a (pos 1) c (pos 1))) ((a *ℤ pos 1) +ℤ (c *ℤ pos 1)) (pos 1 *ℤ pos 1) result }
{
    match fitting_sum(bound, a, c) {
        Some(sum) => Some((sum, 1)),
        None => None,
    }
}

/// The sum of any two fractions, as parts.
fn full_sum(bound: u128, a: i128, b: i128, c: i128, d: i128) -> Option<(i128, i128)>
    requires bound { bound ≤ 2 ^ 127 }
    requires first { IsLow a b }
    requires second { IsLow c d }
    ensures { Finds bound (list_all (below bound) (sum_of_parts a b c d)) ((a *ℤ d) +ℤ (c *ℤ b)) (b *ℤ d) result }
{
    let g = common_divisor(b, d);
    let b1 = quotient(b, g);
    let d1 = quotient(d, g);
    let Some(x) = fitting_product(bound, a, d1) else {
        return None;
    };
    let Some(y) = fitting_product(bound, c, b1) else {
        return None;
    };
    let Some(s) = fitting_sum(bound, x, y) else {
        return None;
    };
    let h = common_divisor(s, g);
    let num = quotient(s, h);
    let d2 = quotient(d, h);
    let Some(den) = fitting_product(bound, b1, d2) else {
        return None;
    };
    Some((num, den))
}

/// The parts of `a / b + c / d` in lowest terms, or `None` where a working number is not below the bound.
#[inline]
pub(crate) fn sum_parts(bound: u128, a: i128, b: i128, c: i128, d: i128) -> Option<(i128, i128)>
    requires bound { bound ≤ 2 ^ 127 }
    requires one { 1 < bound }
    requires first { IsLow a b }
    requires second { IsLow c d }
    requires first_fits { unsigned_abs a < bound }
    requires second_fits { unsigned_abs c < bound }
    ensures { Finds bound (list_all (below bound) (sum_of_parts a b c d)) ((a *ℤ d) +ℤ (c *ℤ b)) (b *ℤ d) result }
{
    if b == 1 {
        if d == 1 {
            return whole_sum(bound, a, c);
        }
    }
    full_sum(bound, a, b, c, d)
}

/// The product of two whole numbers, as parts.
#[inline]
fn whole_product(bound: u128, a: i128, c: i128) -> Option<(i128, i128)>
    requires bound { bound ≤ 2 ^ 127 }
    requires one { 1 < bound }
    ensures { Finds bound (list_all (below bound) (product_of_parts a (pos 1) c (pos 1))) (a *ℤ c) (pos 1 *ℤ pos 1) result }
{
    match fitting_product(bound, a, c) {
        Some(product) => Some((product, 1)),
        None => None,
    }
}

/// The product of any two fractions, as parts.
fn full_product(bound: u128, a: i128, b: i128, c: i128, d: i128) -> Option<(i128, i128)>
    requires bound { bound ≤ 2 ^ 127 }
    requires first { IsLow a b }
    requires second { IsLow c d }
    ensures { Finds bound (list_all (below bound) (product_of_parts a b c d)) (a *ℤ c) (b *ℤ d) result }
{
    let g = common_divisor(a, d);
    let h = common_divisor(c, b);
    let a1 = quotient(a, g);
    let c1 = quotient(c, h);
    let Some(num) = fitting_product(bound, a1, c1) else {
        return None;
    };
    let b1 = quotient(b, h);
    let d1 = quotient(d, g);
    let Some(den) = fitting_product(bound, b1, d1) else {
        return None;
    };
    Some((num, den))
}

/// The parts of `a / b * c / d` in lowest terms, or `None` where a working number is not below the bound.
#[inline]
pub(crate) fn product_parts(bound: u128, a: i128, b: i128, c: i128, d: i128) -> Option<(i128, i128)>
    requires bound { bound ≤ 2 ^ 127 }
    requires one { 1 < bound }
    requires first { IsLow a b }
    requires second { IsLow c d }
    ensures { Finds bound (list_all (below bound) (product_of_parts a b c d)) (a *ℤ c) (b *ℤ d) result }
{
    if b == 1 {
        if d == 1 {
            return whole_product(bound, a, c);
        }
    }
    full_product(bound, a, b, c, d)
}

/// The parts of `a / b` divided by `c / d`, in lowest terms, or `None` where a working number is not below
/// the bound.
#[inline]
pub(crate) fn quotient_parts(
    bound: u128,
    a: i128,
    b: i128,
    c: i128,
    d: i128,
) -> Option<(i128, i128)>
    requires bound { bound ≤ 2 ^ 127 }
    requires one { 1 < bound }
    requires first { IsLow a b }
    requires second { IsLow c d }
    requires some { c ≢ pos 0 }
    requires negates { unsigned_abs c < 2 ^ 127 }
    ensures { Finds bound (list_all (below bound) (quotient_of_parts a b c d)) (a *ℤ turned_num c d) (b *ℤ pos (unsigned_abs c)) result }
{
    if c < 0 {
        return product_parts(bound, a, b, -d, -c);
    }
    product_parts(bound, a, b, d, c)
}

/// The whole number as parts.
#[inline]
pub(crate) fn int_parts(bound: u128, n: i128) -> Option<(i128, i128)>
    requires { 1 < bound }
    ensures { Finds bound (list_all (below bound) (n ∷ [])) n (pos 1) result }
{
    match fitting(bound, n) {
        Some(num) => Some((num, 1)),
        None => None,
    }
}

/// Compares a / b with c / d by whole parts and turned-over remainders.
fn compare_parts(a: u128, b: u128, c: u128, d: u128) -> Ordering
    requires low { 0 < b }
    requires other { 0 < d }
    ensures { result ≡ nat_cmp (a * d) (c * b) }
{
    let mut w = a;
    let mut x = b;
    let mut y = c;
    let mut z = d;
    'turns: loop {
        let first = w / x;
        let second = y / z;
        if first != second {
            return first.cmp(&second);
        }
        let r = w % x;
        let s = y % z;
        if r == 0 || s == 0 {
            return r.cmp(&s);
        }
        w = z;
        y = x;
        x = s;
        z = r;
    }
}

/// Compares fractions without sign: by products where all parts fit 64 bits, else by whole parts.
fn compare_sizes(a: u128, b: u128, c: u128, d: u128) -> Ordering
    requires low { 0 < b }
    requires other { 0 < d }
    ensures { result ≡ nat_cmp (a * d) (c * b) }
{
    if a <= SHORT && b <= SHORT && c <= SHORT && d <= SHORT {
        return (a * d).cmp(&(c * b));
    }
    compare_parts(a, b, c, d)
}

/// Compares a / b with c / d.
pub(crate) fn compare(a: i128, b: i128, c: i128, d: i128) -> Ordering
    requires first { pos 0 <ℤ b }
    requires second { pos 0 <ℤ d }
    ensures { result ≡ cross_cmp a b c d }
{
    if b == d {
        return a.cmp(&c);
    }
    let negative = a < 0;
    if negative != (c < 0) {
        return if negative {
            Ordering::Less
        } else {
            Ordering::Greater
        };
    }
    let order = compare_sizes(
        a.unsigned_abs(),
        b.unsigned_abs(),
        c.unsigned_abs(),
        d.unsigned_abs(),
    );
    if negative { order.reverse() } else { order }
}
