ghost use Rattle.std.specs.Prelude.{◌≡◌, ◌<◌, ◌≤◌, ◌+◌, ◌-◌, ◌^◌, ◌∷◌, ◌++◌, [], None, Some, true, length, IfOk, OnOk};
ghost use Rattle.problem_core.specs.Facts.{Facts};
ghost use Rattle.duality.specs.Walk.{fixing_of};
ghost use Rattle.cert_text.specs.declared.lines.CertLine.TheVariants as lines;
ghost use Rattle.cert_text.specs.Grammar.{State, step};
ghost use Rattle.cert_text.specs.Grammar.State.{Begun};
ghost use Rattle.cert_text.specs.Spelling.{in_bounds};
ghost use Rattle.packing_model.specs.Built.{packing, measured};
ghost use Rattle.cert_checker.specs.Faults.{sizes_reason, values_reason, node_reason, unknown_reason};
ghost use Rattle.cert_text.specs.Sharing.{is_plain};
ghost use Rattle.cert_text.specs.Text.{read_end};
ghost use Rattle.cert_checker.specs.Verdicts.{judged, plain_verdict};
ghost use Rattle.search_nodes.specs.Paths.{path_of};
ghost use Rattle.cert_checker.specs.Trees.{NodeAfter};
ghost use Rattle.cert_checker.specs.Progresses.{Stands, IsProgress, reason_of, stage_in, RoomFor, IsJudged, IsWalked, Takes, Judges};

use crate::tree::TreeAt;
use crate::verdict::{Found, Reason, Verdict};
use cert_text::{CertLine, Node, Place, step};
use packing_model::{Cut, CutFault, Measured, Model, Pool};
use problem_core::{Choice, Memory};
use search_nodes::Walk;
use std::alloc::Global;
use values::Items;

/// What is kept of the lines of a certificate, where each line that names a leaf is that leaf: the place of the next line and its number, the six measures
/// of the choice, the cuts, the path to the next node, and the first fault.
#[derive(Drop)]
pub struct Progress {
    pub place: Place,
    pub line: u64,
    pub measures: [i64; 6],
    pub pool: Pool,
    pub walk: Walk,
    pub fault: Option<Found>,
}

impl Progress {
    /// Before the first line.
    pub fn new(alloc: Global) -> Progress
        ensures stands { (f : Facts) → Stands f result Begun }
        ensures kept { (f : Facts) → IsProgress f result }
        ensures line { result.line ≡ 1 }
    {
        Progress {
            place: Place::Head,
            line: 1,
            measures: [0; 6],
            pool: Pool::new(alloc),
            walk: Walk::new(alloc),
            fault: None,
        }
    }

    /// Takes a line that names no earlier leaf, and says whether it may come. Where it may, the progress is that behind the line; a
    /// fault is kept, and nothing behind it is judged.
    pub fn take(&mut self, alloc: Global, m: &Model, line: CertLine) -> Result<bool, Memory>
        requires kept { IsProgress m.now self.old }
        requires bounds { in_bounds line ≡ true }
        requires plain { is_plain line ≡ true }
        requires few { self.old.line < 2 ^ 63 }
        ensures stands { IfOk result (λ ok. (s : State) → Stands m.now self.old s → Takes m.now (step s line) self.new ok) }
        ensures kept { IfOk result (λ ok. ok ≡ true → IsProgress m.now self.new) }
        ensures line { IfOk result (λ ok. ok ≡ true → self.new.line ≡ self.old.line + 1) }
    {
        match step(self.place, &line) {
            Some(place) => {
                self.judge(alloc, m, line)?;
                self.place = place;
                self.line += 1;
                Ok(true)
            }
            None => Ok(false),
        }
    }

    /// The verdict behind the last whole line, where `rest` is what follows it.
    pub fn finish(&self, rest: &[u8]) -> Verdict
        ensures { (f : Facts) (s : State) → Stands f self.now s → result ≡ plain_verdict f (read_end s self.now.line rest.now) }
    {
        match self.place {
            Place::Over { levels } if rest.is_empty() => self.verdict(levels),
            _ => Verdict::Not {
                line: self.line,
                reason: Reason::Text,
            },
        }
    }

    // The verdict on a whole text of so many levels.
    fn verdict(&self, levels: u32) -> Verdict
        ensures { result ≡ judged levels self.now.measures self.now.fault }
    {
        match self.fault {
            None => Verdict::Verified {
                levels,
                values: self.measures,
            },
            Some(found) => Verdict::Not {
                line: found.line,
                reason: found.reason,
            },
        }
    }

    // Judges a line, where no line before it was at fault.
    fn judge(&mut self, alloc: Global, m: &Model, line: CertLine) -> Result<(), Memory>
        requires kept { IsProgress m.now self.old }
        requires bounds { in_bounds line ≡ true }
        requires plain { is_plain line ≡ true }
        requires room { RoomFor line (length self.old.pool) }
        ensures { OnOk result (Judges m.now self.old self.new line) }
    {
        if self.fault.is_some() {
            return Ok(());
        }
        if let Some(reason) = self.reason(alloc, m, line)? {
            self.fault = Some(Found {
                line: self.line,
                reason,
            });
        }
        Ok(())
    }

    // Looks at a line, and gives the reason where it is at fault.
    fn reason(&mut self, alloc: Global, m: &Model, line: CertLine) -> Result<Option<Reason>, Memory>
        requires kept { IsProgress m.now self.old }
        requires bounds { in_bounds line ≡ true }
        requires plain { is_plain line ≡ true }
        requires room { RoomFor line (length self.old.pool) }
        ensures { IfOk result (λ reason. IsJudged m.now self.old self.new line reason) }
    {
        match line {
            CertLine::Sizes { patterns, rows } => Ok(sizes_reason(m, patterns, rows)),
            CertLine::Choice(entries) => Ok(self.choice_reason(m, entries)),
            CertLine::Values(values) => Ok(values_reason(&self.measures, &values)),
            CertLine::Cut(patterns) => self.cut_reason(alloc, m, patterns.as_slice()),
            CertLine::Level(_) => {
                self.walk = Walk::new(alloc);
                Ok(None)
            }
            CertLine::Node(node) => self.node_reason(m, &node),
            CertLine::Head { .. }
            | CertLine::Cuts(_)
            | CertLine::Unfinished(_)
            | CertLine::End(_) => Ok(None),
        }
    }

    // The choice is to be legal; then its measures are kept.
    fn choice_reason(&mut self, m: &Model, entries: Items<u32>) -> Option<Reason>
        requires kept { IsProgress m.now self.old }
        ensures { IsJudged m.now self.old self.new (lines.Choice entries) result }
    {
        let choice = Choice { entries };
        if !m.problem().is_legal(&choice) {
            return Some(Reason::Choice);
        }
        self.measures = m.problem().values(&choice);
        None
    }

    // The patterns of a cut are to be patterns that clash in pairs; then the cut is kept.
    fn cut_reason(
        &mut self,
        alloc: Global,
        m: &Model,
        patterns: &[u32],
    ) -> Result<Option<Reason>, Memory>
        requires kept { IsProgress m.now self.old }
        requires bounds { in_bounds (lines.Cut patterns.now) ≡ true }
        requires room { length self.old.pool < 1000 }
        ensures { IfOk result (λ reason. IsJudged m.now self.old self.new (lines.Cut patterns.now) reason) }
    {
        if let Some(reason) = unknown_reason(m.patterns().len(), patterns) {
            return Ok(Some(reason));
        }
        match Cut::new(alloc, m, patterns) {
            Ok(cut) => self.keep_cut(cut),
            Err(CutFault::NotClique { first, second }) => Ok(Some(Reason::Cut { first, second })),
            Err(CutFault::Memory) => Err(Memory),
        }
    }

    // Keeps a cut; there is room for it.
    fn keep_cut(&mut self, cut: Cut) -> Result<Option<Reason>, Memory>
        requires room { length self.old.pool < 1000 }
        ensures { IfOk result (λ reason. (reason ≡ None) × (self.new ≡ record self.old { pool = self.old.pool ++ cut ∷ [] })) }
    {
        match self.pool.add(cut) {
            Ok(_) => Ok(None),
            Err(_) => Err(Memory),
        }
    }

    // The nodes of finished levels are looked at.
    fn node_reason(&mut self, m: &Model, node: &Node) -> Result<Option<Reason>, Memory>
        requires kept { IsProgress m.now self.old }
        requires bounds { in_bounds (lines.Node node.now) ≡ true }
        requires plain { is_plain (lines.Node node.now) ≡ true }
        ensures { IfOk result (λ reason. IsJudged m.now self.old self.new (lines.Node node.now) reason) }
    {
        match self.place {
            Place::Inside { levels, .. } => self.level_reason(m, levels + 1, node),
            _ => Ok(None),
        }
    }

    // A node of the level's tree, which is to prove the level's value.
    fn level_reason(&mut self, m: &Model, level: u32, node: &Node) -> Result<Option<Reason>, Memory>
        requires kept { IsProgress m.now self.old }
        requires bounds { in_bounds (lines.Node node.now) ≡ true }
        requires plain { is_plain (lines.Node node.now) ≡ true }
        requires low { 1 ≤ level }
        requires high { level ≤ 6 }
        ensures reason { IfOk result (λ reason. reason ≡ node_reason (packing m.now) (measured m.now) (stage_in self.old level) (fixing_of (path_of self.old.walk.path)) node.now) }
        ensures rest { IfOk result (λ reason. IsWalked m.now self.old self.new) }
        ensures path { IfOk result (λ reason. reason ≡ None → NodeAfter node.now (path_of self.old.walk.path) (path_of self.new.walk.path)) }
    {
        let below = level as usize - 1;
        let measured = Measured::new(m);
        let tree = TreeAt {
            model: m,
            pool: &self.pool,
            objective: &measured,
            level,
            targets: &self.measures[..below],
            best: Some(self.measures[below]),
        };
        tree.judge_node(&mut self.walk, node)
    }
}

// The numbers of patterns and base rows are to be the model's.
fn sizes_reason(m: &Model, patterns: u32, rows: u32) -> Option<Reason>
    ensures { result ≡ sizes_reason m.now patterns rows }
{
    if patterns == m.patterns().len() && rows == m.base_len() {
        None
    } else {
        Some(Reason::Model)
    }
}

// The values are to be the measures.
fn values_reason(measures: &[i64; 6], values: &[i64; 6]) -> Option<Reason>
    ensures { result ≡ values_reason measures.now values.now }
{
    for i in 0..6 {
        if values[i] != measures[i] {
            return Some(Reason::Values);
        }
    }
    None
}

// The first number that is no pattern.
fn unknown_reason(count: u32, patterns: &[u32]) -> Option<Reason>
    ensures { result ≡ unknown_reason count patterns.now }
{
    for pattern in patterns {
        if *pattern >= count {
            return Some(Reason::Pattern { pattern: *pattern });
        }
    }
    None
}
