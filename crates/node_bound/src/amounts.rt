ghost use Rattle.std.specs.Prelude.{◌≡◌, ◌<◌, ◌≤◌, ◌≤ℤ◌, ◌^◌, ℕ, pos, true, false, length, nat_lt, IfOk, OnOk};
ghost use Rattle.std.specs.List.{list_all};
ghost use Rattle.numbers.specs.Sums.{member, distinct};
ghost use Rattle.exact_simplex.specs.Task.{int_at};
ghost use Rattle.node_bound.specs.Tasks.{column_at};
ghost use Rattle.node_bound.specs.Amounts.{AreAmounts, IsListed, with_entry, IsSmall};

use problem_core::Memory;
use std::alloc::Global;
use values::Items;

/// What a point gives each pattern, over the denominator: the number of its column; all of it where it is
/// taken; else nothing.
pub(crate) fn amounts_of(
    alloc: Global,
    count: u32,
    columns: &[u32],
    x: &[i128],
    one: &[u32],
    den: i128,
) -> Result<Vec<i128>, Memory>
    requires one_each { length x.now ≡ length columns.now }
    requires differ { distinct columns.now ≡ true }
    requires columns { list_all (λ p. nat_lt p count) columns.now ≡ true }
    requires taken { list_all (λ p. nat_lt p count) one.now ≡ true }
    requires apart { (p : ℕ) → member p one.now ≡ true → member p columns.now ≡ false }
    requires small { (j : ℕ) → IsSmall (int_at x.now j) }
    requires den { IsSmall den }
    ensures { IfOk result (λ amounts. AreAmounts columns.now x.now one.now den count amounts.items) }
{
    let mut amounts = vec![in alloc; 0; count as usize]?;
    give_columns(&mut amounts, columns, x);
    give_taken(&mut amounts, one, den);
    Ok(amounts)
}

/// Gives the pattern of each column its number.
fn give_columns(amounts: &mut Vec<i128>, columns: &[u32], x: &[i128])
    requires one_each { length x.now ≡ length columns.now }
    requires differ { distinct columns.now ≡ true }
    requires known { list_all (λ p. nat_lt p (length amounts.old.items)) columns.now ≡ true }
    requires small { (j : ℕ) → IsSmall (int_at x.now j) }
    ensures one_each { length amounts.new.items ≡ length amounts.old.items }
    ensures given { (j : ℕ) → j < length columns.now → int_at amounts.new.items (column_at columns.now j) ≡ int_at x.now j }
    ensures same { (p : ℕ) → member p columns.now ≡ false → int_at amounts.new.items p ≡ int_at amounts.old.items p }
{
    for (column, pattern) in columns.iter().enumerate() {
        amounts[*pattern as usize] = x[column];
    }
}

/// Gives each pattern that is taken the denominator.
fn give_taken(amounts: &mut Vec<i128>, one: &[u32], den: i128)
    requires known { list_all (λ p. nat_lt p (length amounts.old.items)) one.now ≡ true }
    requires den { IsSmall den }
    ensures one_each { length amounts.new.items ≡ length amounts.old.items }
    ensures given { (p : ℕ) → member p one.now ≡ true → int_at amounts.new.items p ≡ den }
    ensures same { (p : ℕ) → member p one.now ≡ false → int_at amounts.new.items p ≡ int_at amounts.old.items p }
{
    for pattern in one {
        amounts[*pattern as usize] = den;
    }
}

/// The patterns that have more than nothing, by rising number.
pub(crate) fn listed(alloc: Global, amounts: &[i128]) -> Result<Items<(u32, i128)>, Memory>
    requires few { length amounts.now ≤ 200000 }
    requires small { (p : ℕ) → IsSmall (int_at amounts.now p) }
    ensures { IfOk result (IsListed (int_at amounts.now) (length amounts.now)) }
{
    let mut entries = Items::new(alloc);
    for (pattern, amount) in amounts.iter().enumerate() {
        add_entry(&mut entries, pattern as u32, *amount)?;
    }
    Ok(entries)
}

/// Adds the pattern, where it has more than nothing.
fn add_entry(entries: &mut Items<(u32, i128)>, pattern: u32, amount: i128) -> Result<(), Memory>
    requires { IsSmall amount }
    ensures { OnOk result (entries.new ≡ with_entry pattern amount entries.old) }
{
    if amount != 0 {
        entries.push((pattern, amount))?;
    }
    Ok(())
}
