ghost use Rattle.std.specs.Prelude.{◌≡◌, length, IfErr, Some};
ghost use Rattle.simplex_tableau.specs.Ends.{Ends};
ghost use Rattle.exact_simplex.specs.Enter.{Chooses, Accepts, Anything};
ghost use Rattle.simplex_tableau.specs.declared.fault.Fault.TheVariants as fault;
ghost use Rattle.exact_simplex.specs.Progress.{IsTaskLists, size_of};

use crate::enter::{choose_between, is_candidate, is_helpful};
use crate::progress::Task;
use exact_num::{Arith, Fraction};
use simplex_tableau::{Fault, RowState, append_number, price, sign};
use std::alloc::Global;
use std::cmp::Ordering;

/// The columns that are priced for the list at a time.
const BLOCK: usize = 600;

/// The same while the gain is driven up in a call that has not driven it up before.
const LONG_BLOCK: usize = 5_000;

/// Which variables are tried first when one is sought that helps: partial pricing with a list of
/// candidates (J. M. Mulvey, 1978). It decides speed alone.
#[derive(Drop)]
pub(crate) struct Pricing {
    /// Columns that are priced before all others.
    own: Vec<usize>,
    /// Columns that helped when they were priced last.
    list: Vec<usize>,
    /// For each variable whether it comes in only where no other helps; none where the list is empty.
    frozen: Vec<bool>,
    /// For each variable whether it would take a kept row away from its extreme; none where the list is empty.
    held: Vec<bool>,
    /// The kept rows: equations at their extreme, whose slacks stand in the basis at 0.
    kept: Vec<u32>,
    /// How many columns are priced for the list at a time.
    block: usize,
}

/// A variable with its product.
#[derive(Clone, Copy)]
struct Priced<N> {
    variable: usize,
    product: N,
}

impl Pricing {
    /// Nothing is known yet.
    pub(crate) fn new(alloc: Global) -> Pricing {
        Pricing {
            own: Vec::new(alloc),
            list: Vec::new(alloc),
            frozen: Vec::new(alloc),
            held: Vec::new(alloc),
            kept: Vec::new(alloc),
            block: BLOCK,
        }
    }

    /// Prices the columns of a row before all others from now on.
    pub(crate) fn prefer(&mut self, alloc: Global, entries: &[(u32, i64)]) -> Result<(), Fault>
        ensures err { IfErr result (λ e. e ≡ fault.Memory) }
    {
        self.own = columns_of(alloc, entries)?;
        Ok(())
    }

    /// Whether a row is kept.
    pub(crate) fn holds(&self) -> bool {
        !self.kept.is_empty()
    }

    /// The kept rows.
    pub(crate) fn kept(&self) -> &[u32] {
        &self.kept
    }

    /// Keeps no row any more.
    pub(crate) fn let_go(&mut self, alloc: Global) {
        self.held = Vec::new(alloc);
        self.kept = Vec::new(alloc);
    }

    /// Prices all columns alike from now on, and keeps none back.
    pub(crate) fn release(&mut self, alloc: Global, long: bool) {
        self.own = Vec::new(alloc);
        self.frozen = Vec::new(alloc);
        if long {
            self.block = LONG_BLOCK;
        }
    }
}

/// The columns of a row.
fn columns_of(alloc: Global, entries: &[(u32, i64)]) -> Result<Vec<usize>, Fault>
    ensures err { IfErr result (λ e. e ≡ fault.Memory) }
{
    let mut columns = Vec::new(alloc);
    for entry in entries {
        append_number(&mut columns, entry.0 as usize)?;
    }
    Ok(columns)
}

/// Whether a list says yes of a variable.
fn is_marked(list: &[bool], variable: usize) -> bool {
    match list.get(variable) {
        Some(is_marked) => *is_marked,
        None => false,
    }
}

/// Whether a variable is not tried.
fn is_kept_back(pricing: &Pricing, variable: usize) -> bool {
    is_marked(&pricing.held, variable) || is_marked(&pricing.frozen, variable)
}

/// The better of the variable found so far and another with its product: the one that moves the slack of
/// the driven row further.
fn better<N: Fraction>(
    up: bool,
    best: Option<Priced<N>>,
    variable: usize,
    product: N,
) -> Option<Priced<N>> {
    let found = Priced { variable, product };
    match best {
        None => Some(found),
        Some(before) => match product.cmp(&before.product) {
            Ordering::Less => Some(if up { found } else { before }),
            Ordering::Equal => Some(before),
            Ordering::Greater => Some(if up { before } else { found }),
        },
    }
}

/// The slack with the greatest product that helps. A slack's product is the row's number.
fn best_slack<N: Fraction>(
    columns: usize,
    states: &[RowState],
    y: &[N],
    up: bool,
    pricing: &Pricing,
) -> Option<Priced<N>> {
    let mut best = None;
    for (i, state) in states.iter().enumerate() {
        if let (RowState::AtLeast, Some(number)) = (state, y.get(i)) {
            let variable = columns.saturating_add(i);
            if is_helpful(up, *number) && !is_kept_back(pricing, variable) {
                best = better(up, best, variable, *number);
            }
        }
    }
    best
}

/// The product of a variable, where it helps and is not kept back.
fn helping_product<A: Arith>(
    arith: &mut A,
    task: &Task<A::Num>,
    y: &[A::Num],
    up: bool,
    pricing: &Pricing,
    variable: usize,
) -> Result<Option<A::Num>, Fault>
    requires task { IsTaskLists task.now }
    requires y { length y.now ≡ size_of task.now }
    ensures { Ends (A.wides arith.old) (A.wides arith.new) Anything result }
{
    if variable >= task.lists.len() {
        return Ok(None);
    }
    if is_kept_back(pricing, variable) {
        return Ok(None);
    }
    let product = price(arith, y, task.lists[variable].as_slice())?;
    if is_helpful(up, product) {
        return Ok(Some(product));
    }
    Ok(None)
}

/// Prices columns. Gives those that help, and the best of them and of one found before.
fn price_list<A: Arith>(
    alloc: Global,
    arith: &mut A,
    task: &Task<A::Num>,
    y: &[A::Num],
    up: bool,
    pricing: &Pricing,
    list: &[usize],
    before: Option<Priced<A::Num>>,
) -> Result<(Vec<usize>, Option<Priced<A::Num>>), Fault>
    requires task { IsTaskLists task.now }
    requires y { length y.now ≡ size_of task.now }
    ensures { Ends (A.wides arith.old) (A.wides arith.new) Anything result }
{
    let mut kept = Vec::new(alloc);
    let mut best = before;
    for variable in list {
        if let Some(product) = helping_product(arith, task, y, up, pricing, *variable)? {
            append_number(&mut kept, *variable)?;
            best = better(up, best, *variable, product);
        }
    }
    Ok((kept, best))
}

/// The variables from one number to before another.
fn stretch(alloc: Global, from: usize, to: usize) -> Result<Vec<usize>, Fault>
    ensures err { IfErr result (λ e. e ≡ fault.Memory) }
{
    let mut list = Vec::new(alloc);
    for variable in from..to {
        append_number(&mut list, variable)?;
    }
    Ok(list)
}

/// The variable of a find.
fn variable_of<N: Fraction>(found: Option<Priced<N>>) -> Option<usize> {
    match found {
        None => None,
        Some(priced) => Some(priced.variable),
    }
}

/// A variable that may help: the best column of the driven row, where its columns come first, else the best
/// slack or column of the list.
fn propose<A: Arith>(
    alloc: Global,
    arith: &mut A,
    task: &Task<A::Num>,
    states: &[RowState],
    y: &[A::Num],
    up: bool,
    pricing: &mut Pricing,
) -> Result<Option<usize>, Fault>
    requires task { IsTaskLists task.now }
    requires y { length y.now ≡ size_of task.now }
    ensures { Ends (A.wides arith.old) (A.wides arith.new) Anything result }
{
    let (_, own) = price_list(alloc, arith, task, y, up, pricing, &pricing.own, None)?;
    if let Some(found) = own {
        return Ok(Some(found.variable));
    }
    let slack = best_slack(task.columns, states, y, up, pricing);
    let (kept, best) = price_list(alloc, arith, task, y, up, pricing, &pricing.list, slack)?;
    pricing.list = kept;
    Ok(variable_of(best))
}

/// Fills the list with the columns of a block that help, and gives the best of them.
fn refill<A: Arith>(
    alloc: Global,
    arith: &mut A,
    task: &Task<A::Num>,
    y: &[A::Num],
    up: bool,
    pricing: &mut Pricing,
    first: usize,
) -> Result<Option<usize>, Fault>
    requires task { IsTaskLists task.now }
    requires y { length y.now ≡ size_of task.now }
    ensures { Ends (A.wides arith.old) (A.wides arith.new) Anything result }
{
    let end = first.saturating_add(pricing.block).min(task.columns);
    let block = stretch(alloc, first, end)?;
    let (kept, best) = price_list(alloc, arith, task, y, up, pricing, &block, None)?;
    pricing.list = kept;
    Ok(variable_of(best))
}

/// The variable that is proposed, where it may come in and helps.
fn accepted<A: Arith>(
    arith: &mut A,
    task: &Task<A::Num>,
    states: &[RowState],
    y: &[A::Num],
    up: bool,
    proposed: Option<usize>,
) -> Result<Option<usize>, Fault>
    requires task { IsTaskLists task.now }
    requires y { length y.now ≡ size_of task.now }
    ensures { Ends (A.wides arith.old) (A.wides arith.new) (Accepts A.Num.value task.now states.now y.now up) result }
{
    match proposed {
        None => Ok(None),
        Some(variable) => {
            if variable >= task.lists.len() {
                return Ok(None);
            }
            if is_candidate(arith, task, states, y, up, variable)? {
                return Ok(Some(variable));
            }
            Ok(None)
        }
    }
}

/// The best variable of the block that begins with one that helps, or that one.
fn first_of_block<A: Arith>(
    alloc: Global,
    arith: &mut A,
    task: &Task<A::Num>,
    states: &[RowState],
    y: &[A::Num],
    up: bool,
    pricing: &mut Pricing,
    first: usize,
) -> Result<usize, Fault>
    requires task { IsTaskLists task.now }
    requires y { length y.now ≡ size_of task.now }
    requires helps { Accepts A.Num.value task.now states.now y.now up (Some first) }
    ensures { Ends (A.wides arith.old) (A.wides arith.new) (λ v. Accepts A.Num.value task.now states.now y.now up (Some v)) result }
{
    let proposed = refill(alloc, arith, task, y, up, pricing, first)?;
    match accepted(arith, task, states, y, up, proposed)? {
        Some(variable) => Ok(variable),
        None => Ok(first),
    }
}

/// The first variable that may come in and helps, of those that keep the kept rows at their extremes.
fn first_free<A: Arith>(
    arith: &mut A,
    task: &Task<A::Num>,
    states: &[RowState],
    y: &[A::Num],
    up: bool,
    pricing: &Pricing,
) -> Result<Option<usize>, Fault>
    requires task { IsTaskLists task.now }
    requires y { length y.now ≡ size_of task.now }
    ensures { Ends (A.wides arith.old) (A.wides arith.new) (Accepts A.Num.value task.now states.now y.now up) result }
{
    for variable in 0..task.lists.len() {
        if !is_marked(&pricing.held, variable) {
            if is_candidate(arith, task, states, y, up, variable)? {
                return Ok(Some(variable));
            }
        }
    }
    Ok(None)
}

/// A variable that may come in and helps, and keeps the kept rows at their extremes. Nothing is said where
/// none is given.
pub(crate) fn choose_free<A: Arith>(
    alloc: Global,
    arith: &mut A,
    task: &Task<A::Num>,
    states: &[RowState],
    y: &[A::Num],
    up: bool,
    pricing: &mut Pricing,
) -> Result<Option<usize>, Fault>
    requires task { IsTaskLists task.now }
    requires y { length y.now ≡ size_of task.now }
    ensures { Ends (A.wides arith.old) (A.wides arith.new) (Accepts A.Num.value task.now states.now y.now up) result }
{
    let proposed = propose(alloc, arith, task, states, y, up, pricing)?;
    if let Some(variable) = accepted(arith, task, states, y, up, proposed)? {
        return Ok(Some(variable));
    }
    match first_free(arith, task, states, y, up, pricing)? {
        None => Ok(None),
        Some(first) => {
            let best = first_of_block(alloc, arith, task, states, y, up, pricing, first)?;
            Ok(Some(best))
        }
    }
}

/// A variable that may come in and helps. `None` comes exactly where there is none.
pub(crate) fn choose<A: Arith>(
    alloc: Global,
    arith: &mut A,
    task: &Task<A::Num>,
    states: &[RowState],
    y: &[A::Num],
    up: bool,
    pricing: &mut Pricing,
) -> Result<Option<usize>, Fault>
    requires task { IsTaskLists task.now }
    requires y { length y.now ≡ size_of task.now }
    ensures { Ends (A.wides arith.old) (A.wides arith.new) (Chooses A.Num.value task.now states.now y.now up) result }
{
    let proposed = propose(alloc, arith, task, states, y, up, pricing)?;
    if let Some(variable) = accepted(arith, task, states, y, up, proposed)? {
        return Ok(Some(variable));
    }
    match choose_between(arith, task, states, y, up, 0, task.lists.len())? {
        None => Ok(None),
        Some(first) => {
            let best = first_of_block(alloc, arith, task, states, y, up, pricing, first)?;
            Ok(Some(best))
        }
    }
}

/// For each variable whether it would move the slack of the row.
fn moving<A: Arith>(
    alloc: Global,
    arith: &mut A,
    task: &Task<A::Num>,
    y: &[A::Num],
) -> Result<Vec<bool>, Fault>
    requires task { IsTaskLists task.now }
    requires y { length y.now ≡ size_of task.now }
    ensures { Ends (A.wides arith.old) (A.wides arith.new) Anything result }
{
    let mut found = Vec::new(alloc);
    for variable in 0..task.lists.len() {
        let product = price(arith, y, task.lists[variable].as_slice())?;
        append_number(&mut found, sign(product) != Ordering::Equal)?;
    }
    Ok(found)
}

/// Keeps back the variables that would move the slack of a row.
pub(crate) fn freeze<A: Arith>(
    alloc: Global,
    arith: &mut A,
    task: &Task<A::Num>,
    y: &[A::Num],
    pricing: &mut Pricing,
) -> Result<(), Fault>
    requires task { IsTaskLists task.now }
    requires y { length y.now ≡ size_of task.now }
    ensures { Ends (A.wides arith.old) (A.wides arith.new) Anything result }
{
    pricing.frozen = moving(alloc, arith, task, y)?;
    Ok(())
}

/// The variables of either list.
fn either(alloc: Global, one: &[bool], other: &[bool]) -> Result<Vec<bool>, Fault>
    ensures err { IfErr result (λ e. e ≡ fault.Memory) }
{
    let mut found = Vec::new(alloc);
    for (variable, is_marked_there) in one.iter().enumerate() {
        append_number(&mut found, *is_marked_there || is_marked(other, variable))?;
    }
    Ok(found)
}

/// Keeps a row from now on.
pub(crate) fn keep<A: Arith>(
    alloc: Global,
    arith: &mut A,
    task: &Task<A::Num>,
    y: &[A::Num],
    row: u32,
    pricing: &mut Pricing,
) -> Result<(), Fault>
    requires task { IsTaskLists task.now }
    requires y { length y.now ≡ size_of task.now }
    ensures { Ends (A.wides arith.old) (A.wides arith.new) Anything result }
{
    let moving = moving(alloc, arith, task, y)?;
    pricing.held = either(alloc, &moving, &pricing.held)?;
    append_number(&mut pricing.kept, row)
}
