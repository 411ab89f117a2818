ghost use Rattle.std.specs.Prelude.{◌≡◌, IfOk, length, map, nat_lt, true};
ghost use Rattle.std.specs.List.{list_all};
ghost use Rattle.meeting_patterns.specs.Pattern.{patterns_of};
ghost use Rattle.packing_model.specs.Built.{packing};
ghost use Rattle.packing_model.specs.Closing.{counted};
ghost use Rattle.packing_model.specs.Cuts.{IsPoolOf};
ghost use Rattle.packing_model.specs.Nodes.{fixed_of, stage_at};
ghost use Rattle.exact_simplex.specs.Task.{IsTask};
ghost use Rattle.node_bound.specs.Fixed.{IsNode};
ghost use Rattle.node_bound.specs.Tasks.{IsNodeTask};

use crate::columns::task_columns;
use crate::entries::task_rows;
use crate::places::Places;
use crate::taken::taken_counts;
use duality::{Objective, RowName};
use exact_simplex::{Lp, Plan};
use packing_model::ObjectiveAt;
use problem_core::Memory;
use std::alloc::Global;
use values::Items;

/// The linear program of a node, whose columns are the free patterns.
#[derive(Drop)]
pub struct NodeTask {
    /// The pattern of each column.
    pub columns: Items<u32>,
    /// The name of each row.
    pub names: Items<RowName>,
    /// The number of base rows that stand first: those of events, and of rooms and slots.
    pub lead: u32,
    /// The number of level rows behind them.
    pub low: u32,
    pub lp: Lp,
}

impl NodeTask {
    /// The linear program of the node.
    pub(crate) fn build<O: Objective>(
        alloc: Global,
        at: &ObjectiveAt<O>,
    ) -> Result<NodeTask, Memory>
        requires node { IsNode at.now.model.now (O.count at.now.objective.now) (O.levels at.now.objective.now) at.now.level at.now.targets.now at.now.fixing.now }
        requires pool { IsPoolOf (packing at.now.model.now) at.now.pool.now }
        ensures node { IfOk result (IsNodeTask (packing at.now.model.now) (counted (O.weight at.now.objective.now) (O.floor at.now.objective.now)) (stage_at at.now.level at.now.targets.now at.now.best at.now.pool.now) (fixed_of at.now.fixing.now)) }
        ensures task { IfOk result (λ t. IsTask t.lp) }
    {
        let places = Places::of(at);
        let names = places.names(alloc)?;
        let counts = taken_counts(alloc, at, &places)?;
        let columns = task_columns(alloc, at, &places, &counts)?;
        let gain = gains(alloc, at, columns.as_slice())?;
        let rows = task_rows(
            alloc,
            at,
            &places,
            names.as_slice(),
            &counts,
            columns.as_slice(),
        )?;
        let lp = Lp {
            columns: columns.len() as u32,
            rows: Items::from(rows),
            gain,
        };
        Ok(NodeTask {
            columns,
            names,
            lead: places.lead,
            low: places.low,
            lp,
        })
    }

    /// In which order the rows come in force: the leading base rows from the start, and the gain is driven up
    /// once behind the low level rows. It decides speed alone.
    pub fn plan(&self) -> Plan {
        Plan {
            leading: self.lead,
            ascent: self.lead.checked_add(self.low),
        }
    }
}

/// What each of the patterns weighs at the level.
fn gains<O: Objective>(
    alloc: Global,
    at: &ObjectiveAt<O>,
    patterns: &[u32],
) -> Result<Items<i64>, Memory>
    requires node { IsNode at.now.model.now (O.count at.now.objective.now) (O.levels at.now.objective.now) at.now.level at.now.targets.now at.now.fixing.now }
    requires known { list_all (λ p. nat_lt p (length (patterns_of at.now.model.now))) patterns.now ≡ true }
    ensures { IfOk result (λ gains. gains ≡ map (O.weight at.now.objective.now at.now.level) patterns.now) }
{
    let mut gains = Items::new(alloc);
    for pattern in patterns {
        gains.push(at.objective.weight(at.level, *pattern))?;
    }
    Ok(gains)
}
