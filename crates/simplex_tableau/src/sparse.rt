ghost use Rattle.std.specs.Prelude.{◌≡◌, ℕ, IfErr, OnOk, MatchResult, ◌++◌, ◌∷◌, [], ◌≤◌, length};
ghost use Rattle.simplex_tableau.specs.Ends.{Ends};
ghost use Rattle.simplex_tableau.specs.Signs.{HasSign};
ghost use Rattle.simplex_tableau.specs.Sparse.{Combined, Moves, Puts, MovesWith, Rises, NumberAt};
ghost use Rattle.simplex_tableau.specs.declared.fault.Fault.TheVariants as fault;

use crate::fault::Fault;
use crate::products::times;
use exact_num::{Arith, Fraction};
use std::alloc::Global;
use std::cmp::Ordering;
use values::Items;

/// One number of a vector that is mostly 0.
#[derive(Clone, Copy)]
pub struct Entry<N> {
    pub place: u32,
    pub number: N,
}

/// How a number compares with 0.
pub fn sign<N: Fraction>(x: N) -> Ordering
    ensures { HasSign (N.value x) result }
{
    x.num().cmp(&0)
}

/// Appends an entry.
fn append<N: Copy>(list: &mut Vec<Entry<N>>, entry: Entry<N>) -> Result<(), Fault>
    ensures ok { OnOk result (list.new.items ≡ list.old.items ++ entry ∷ []) }
    ensures err { IfErr result (λ e. e ≡ fault.Memory) }
{
    match list.push(entry) {
        Ok(()) => Ok(()),
        Err(_) => Err(Fault::Memory),
    }
}

/// Adds a number behind the others, unless it is 0.
fn put<N: Fraction>(out: &mut Vec<Entry<N>>, place: u32, number: N) -> Result<(), Fault>
    ensures ok { OnOk result (Puts N.value out.old.items place (N.value number) out.new.items) }
    ensures err { IfErr result (λ e. e ≡ fault.Memory) }
{
    match sign(number) {
        Ordering::Equal => Ok(()),
        Ordering::Less | Ordering::Greater => append(out, Entry { place, number }),
    }
}

/// Copies entries to `out` while they stand before `place`; says how far it came.
fn copy_before<N: Fraction>(
    out: &mut Vec<Entry<N>>,
    target: &[Entry<N>],
    from: usize,
    place: u32,
) -> Result<usize, Fault>
    requires { from ≤ length target.now }
    ensures { MatchResult result (λ to. Moves N.value target.now from out.old.items place to out.new.items) (λ e. e ≡ fault.Memory) }
{
    let mut i = from;
    'before: while i < target.len() {
        let entry = target[i];
        if place <= entry.place {
            return Ok(i);
        }
        append(out, entry)?;
        i += 1;
    }
    Ok(i)
}

/// Adds a number at `place` to the vector that stands in `out` and in `target` from `i` on.
fn put_next<A: Arith>(
    arith: &mut A,
    out: &mut Vec<Entry<A::Num>>,
    target: &[Entry<A::Num>],
    i: usize,
    place: u32,
    number: A::Num,
) -> Result<usize, Fault>
    requires { i ≤ length target.now }
    ensures { Ends (A.wides arith.old) (A.wides arith.new) (MovesWith A.Num.value target.now i out.old.items place (A.Num.value number) out.new.items) result }
{
    if i < target.len() {
        let base = target[i];
        if base.place == place {
            let sum = arith.add(base.number, number)?;
            put(out, place, sum)?;
            return Ok(i + 1);
        }
    }
    put(out, place, number)?;
    Ok(i)
}

/// The vector `target` + `factor` * `source`. Where both stand in order of places, so does the sum.
pub fn combine<A: Arith>(
    alloc: Global,
    arith: &mut A,
    target: &[Entry<A::Num>],
    factor: A::Num,
    source: &[Entry<A::Num>],
) -> Result<Items<Entry<A::Num>>, Fault>
    ensures { Ends (A.wides arith.old) (A.wides arith.new) (Combined A.Num.value target.now (A.Num.value factor) source.now) result }
{
    let mut out = Vec::new(alloc);
    let mut i = 0;
    'merge: for entry in source {
        i = copy_before(&mut out, target, i, entry.place)?;
        let number = times(arith, factor, entry.number)?;
        i = put_next(arith, &mut out, target, i, entry.place, number)?;
    }
    match out.extend_from_slice(&target[i..]) {
        Ok(()) => Ok(Items::from(out)),
        Err(_) => Err(Fault::Memory),
    }
}

/// The number at a place of a vector in order of places.
pub fn number_at<N: Fraction>(vector: &[Entry<N>], place: u32) -> Option<N>
    ensures { (m : ℕ) → Rises 0 m vector.now → NumberAt N.value vector.now place result }
{
    for entry in vector {
        if entry.place == place {
            return Some(entry.number);
        }
    }
    None
}
