ghost use Rattle.std.specs.Prelude.{◌≡◌, ◌<◌, ◌≤◌, ℕ, length, map, MatchResult, MatchOption, IfSome};
ghost use Rattle.exact_num.specs.Order.{◌≤ℚ◌};
ghost use Rattle.exact_num.specs.Sums.{dot_ℚ};
ghost use Rattle.exact_num.specs.Arith.{Rose};

use exact_num::{
    Arith, Common, CommonFault, Exact64, Exact128, Frac64, Frac128, Fraction, Refusing, Wide,
};
use std::hash::{DefaultHasher, Hash, Hasher};
use std::test::Fail;

/// The sum of the products, over any arithmetic.
fn dot<A: Arith>(arith: &mut A, left: &[A::Num], right: &[A::Num]) -> Result<A::Num, Wide>
    requires { length left.now ≡ length right.now }
    ensures { MatchResult result (λ x. A.Num.value x ≡ dot_ℚ (map A.Num.value left.now) (map A.Num.value right.now)) (λ _. Rose (A.wides arith.old) (A.wides arith.new)) }
{
    let mut total = arith.from_int(0)?;
    for i in 0..left.len() {
        let product = arith.mul(left[i], right[i])?;
        total = arith.add(product, total)?;
    }
    Ok(total)
}

/// A number that is at most each of the others, over any fractions.
fn least<F: Fraction>(first: F, second: F) -> F
    ensures first { F.value result ≤ℚ F.value first }
    ensures second { F.value result ≤ℚ F.value second }
{
    if second < first { second } else { first }
}

#[test]
fn refuses(rt: HostRuntime) -> Result<(), Fail> {
    let mut refusing = Refusing::new();
    assert!(rt; refusing.from_int(0) == Err(Wide));
    let none: [Frac64; 0] = [];
    assert!(rt; is_wide(refusing.common(rt.alloc(), &none)));
    assert!(rt; refusing.wide_count() == 2);
    assert!(rt; dot(&mut refusing, &none, &none) == Err(Wide));
    assert!(rt; refusing.wide_count() == 3);
    Ok(())
}

fn is_wide(answer: Result<Common, CommonFault>) -> bool {
    match answer {
        Err(CommonFault::Wide) => true,
        Err(CommonFault::Memory) | Ok(_) => false,
    }
}

fn hash_of(x: &Frac128) -> u64 {
    let mut hasher = DefaultHasher::new();
    x.hash(&mut hasher);
    hasher.finish()
}

#[test]
fn makes_fractions(rt: HostRuntime) -> Result<(), Fail> {
    let half = Frac128::new(1, 2).ok_or("a half")?;
    let same = Frac128::new(2, 4).ok_or("two quarters")?;
    assert!(rt; half == same);
    assert!(rt; hash_of(&half) == hash_of(&same));
    let low = i128::MIN;
    for (num, den, want) in [
        (1, 0, None),
        (0, 0, None),
        (low, 1, None),
        (1, low, None),
        (low, 2, Some((low / 2, 1))),
        (low, low, Some((1, 1))),
        (low, -2, Some((-(low / 2), 1))),
        (6, -4, Some((-3, 2))),
        (-6, -4, Some((3, 2))),
        (0, low, Some((0, 1))),
        (low + 1, 1, Some((low + 1, 1))),
    ] {
        let parts = Frac128::new(num, den).map(|x| (x.num(), x.den()));
        assert!(rt; parts == want, "at {num} / {den}");
    }
    let low = i64::MIN;
    for (num, den, want) in [
        (1, 0, None),
        (low, 1, None),
        (1, low, None),
        (low, low, Some((1, 1))),
        (10, -15, Some((-2, 3))),
    ] {
        let parts = Frac64::new(num, den).map(|x| (x.num(), x.den()));
        assert!(rt; parts == want, "at {num} / {den}");
    }
    Ok(())
}

#[test]
fn orders(rt: HostRuntime) -> Result<(), Fail> {
    let top = i128::MAX;
    for (a, b, c, d) in [
        (1, 3, 2, 5),
        (top, top - 1, top - 1, top - 2),
        (1, 1 << 64, 1 << 64, 1),
        (-top, 1, top, 1),
        (-(1 << 64), 1, -1, 1 << 64),
        (top - 1, top, 1, 1),
        (top - 2, top - 1, top - 1, top),
        (-top, top - 1, -1, 1),
        (top - 1, 2, top, 2),
        (0, 1, 1, top),
        (-1, top, 0, 1),
    ] {
        let less = Frac128::new(a, b).ok_or("the lesser")?;
        let more = Frac128::new(c, d).ok_or("the greater")?;
        assert!(rt; less < more, "{a} / {b} and {c} / {d}");
        assert!(rt; more > less, "{c} / {d} and {a} / {b}");
        assert!(rt; least(more, less) == less);
    }
    Ok(())
}

#[test]
fn counts_what_does_not_fit(rt: HostRuntime) -> Result<(), Fail> {
    let mut exact = Exact64::new();
    let top = exact
        .from_int(i128::from(i64::MAX))
        .ok()
        .ok_or("2^63 - 1 fits")?;
    assert!(rt; exact.from_int(1 << 63) == Err(Wide));
    assert!(rt; exact.wide_count() == 1);
    let one = Frac64::new(1, 1).ok_or("1")?;
    assert!(rt; exact.add(top, one) == Err(Wide));
    assert!(rt; exact.wide_count() == 2);
    let half = Frac64::new(1, 2);
    let third = Frac64::new(1, 3).ok_or("1/3")?;
    let sixth = Frac64::new(1, 6).ok_or("1/6")?;
    assert!(rt; exact.add(third, sixth).ok() == half);
    assert!(rt; exact.sub(third, sixth) == Ok(sixth));
    assert!(rt; exact.div(sixth, third).ok() == half);
    let left = Frac64::new(1 << 62, 3).ok_or("2^62/3")?;
    let right = Frac64::new(3, 1 << 61).ok_or("3/2^61")?;
    assert!(rt; exact.mul(left, right).ok() == Frac64::new(2, 1));
    let common = exact
        .common(rt.alloc(), &[half.ok_or("1/2")?, third])
        .ok()
        .ok_or("common")?;
    assert!(rt; common.den == 6);
    assert!(rt; common.nums.as_slice() == [3, 2].as_slice());
    assert!(rt; exact.wide_count() == 2);
    Ok(())
}

#[test]
fn adds_products(rt: HostRuntime) -> Result<(), Fail> {
    let mut exact = Exact128::new();
    let mut left = Vec::new(rt.alloc());
    let mut right = Vec::new(rt.alloc());
    for (a, b, c, d) in [(1, 2, 2, 3), (-3, 4, 4, 9), (7, 1, -1, 5)] {
        left.push(Frac128::new(a, b).ok_or("left")?)?;
        right.push(Frac128::new(c, d).ok_or("right")?)?;
    }
    assert!(rt; left.len() == right.len());
    let sum = dot(&mut exact, left.as_slice(), right.as_slice());
    assert!(rt; sum.ok() == Frac128::new(-7, 5));
    let mut short = Exact64::new();
    let half = Frac64::new(1, 2).ok_or("1/2")?;
    assert!(rt; dot(&mut short, &[half], &[half]).ok() == Frac64::new(1, 4));
    let third = Frac128::new(-1, 3).ok_or("-1/3")?;
    let quarter = Frac128::new(3, 4).ok_or("3/4")?;
    assert!(rt; exact.sub(third, quarter).ok() == Frac128::new(-13, 12));
    assert!(rt; third.num() != 0);
    assert!(rt; exact.div(quarter, third).ok() == Frac128::new(-9, 4));
    let large = Frac128::new(1_000_000_000_000_000_000_000_001, 2).ok_or("large")?;
    assert!(rt; is_wide(exact.common(rt.alloc(), &[large])));
    assert!(rt; exact.wide_count() == 1);
    Ok(())
}
