//! What is kept at each numbered statement.
ghost use Rattle.std.specs.Prelude.{◌≡◌, ℕ, ℤ, true, Bool, IsTrue, IfOk, OnOk};
ghost use Rattle.first_program.specs.Meaning.{sum_expr, test_expr};
ghost use Rattle.first_program.specs.SourceViews.{sum_tree, test_tree};
ghost use Rattle.first_analysis.specs.Tables.{Reached, Rises, AlarmsAt, AssignsAt, BranchesAt, SplitsTo};
ghost use Rattle.first_analysis.specs.Evaluation.{value};
ghost use Rattle.first_analysis.specs.Contents.{HoldsReached, HoldsRow};

use crate::content::Content;
use crate::evaluation::{Kinds, sum, test};
use crate::row::{Reached, assign, everything, includes, merge};
use c_base::number::BaseId;
use first_program::tree::{Sum, Test};
use sqlite_items::Items;
use std::alloc::{AllocError, Global};

/// How often the row of a place grows, before it becomes the row of everything.
pub const MOST_UPDATES: u32 = 200;

/// From which update on the row of a loop's head is widened.
const FIRST_WIDENED: u32 = 3;

/// What is kept at a numbered statement: the row of all memories that arrive there, the kinds of its alarms, and how often its row grew.
#[derive(Drop)]
pub struct Place {
    pub row: Reached,
    pub kinds: Kinds,
    pub updates: u32,
}

/// The rows behind a test that is true, and behind one that is false.
#[derive(Drop)]
pub struct Branches {
    pub when_true: Reached,
    pub when_false: Reached,
}

// The row of a place that has one, when another arrives for which it is too small.
fn grown(
    alloc: Global,
    kept: &[Content],
    row: &[Content],
    updates: u32,
    marks: Option<&[i64]>,
) -> Result<Items<Content>, AllocError>
    ensures first { IfOk result (λ merged. (env : _) → HoldsRow kept.now env → HoldsRow merged env) }
    ensures second { IfOk result (λ merged. (env : _) → HoldsRow row.now env → HoldsRow merged env) }
{
    if updates >= MOST_UPDATES {
        return everything(alloc, kept.len());
    }
    if updates + 1 < FIRST_WIDENED {
        return merge(alloc, kept, row, None);
    }
    merge(alloc, kept, row, marks)
}

impl Place {
    /// A place at which nothing has arrived.
    pub fn new() -> Place {
        Place {
            row: None,
            kinds: Kinds::none(),
            updates: 0,
        }
    }

    /// Whether the row has all of another.
    pub fn admits(&self, row: &Reached) -> bool
        ensures { IsTrue result → Rises row.now self.now.row }
    {
        match row {
            None => true,
            Some(row) => match &self.row {
                None => false,
                Some(kept) => includes(kept.as_slice(), row.as_slice()),
            },
        }
    }

    // Makes the row larger by one that arrives.
    fn grow(
        &mut self,
        alloc: Global,
        row: &[Content],
        marks: Option<&[i64]>,
    ) -> Result<(), AllocError>
        ensures arrives { OnOk result (Rises (Some row.now) self.new.row) }
        ensures stays { OnOk result (Rises self.old.row self.new.row) }
    {
        let larger = match &self.row {
            None => Items::from_slice(alloc, row)?,
            Some(kept) => grown(alloc, kept.as_slice(), row, self.updates, marks)?,
        };
        self.row = Some(larger);
        if self.updates < MOST_UPDATES {
            self.updates += 1;
        }
        Ok(())
    }

    /// Takes in a row that arrives. At the head of a loop, where there are marks, the row is widened from its third update on.
    pub fn arrive(
        &mut self,
        alloc: Global,
        row: &Reached,
        marks: Option<&[i64]>,
    ) -> Result<(), AllocError>
        ensures arrives { OnOk result (Rises row.now self.new.row) }
        ensures stays { OnOk result (Rises self.old.row self.new.row) }
    {
        if self.admits(row) {
            return Ok(());
        }
        match row {
            None => Ok(()),
            Some(row) => self.grow(alloc, row.as_slice(), marks),
        }
    }

    /// Makes the row that of everything.
    pub fn open(&mut self, alloc: Global) -> Result<(), AllocError>
        ensures { OnOk result ((other : Reached) → Rises other self.new.row) }
    {
        let count = match &self.row {
            None => 0,
            Some(row) => row.len(),
        };
        self.row = Some(everything(alloc, count)?);
        Ok(())
    }

    /// Carries out an assignment on the row, and keeps its alarms.
    pub fn assign(
        &mut self,
        alloc: Global,
        target: BaseId,
        value: &Sum,
    ) -> Result<Reached, AllocError>
        ensures row { OnOk result (self.new.row ≡ self.old.row) }
        ensures alarms { OnOk result (AlarmsAt self.new (sum_expr (sum_tree value.now))) }
        ensures after { IfOk result (λ after. AssignsAt self.new target.0 (sum_expr (sum_tree value.now)) after) }
    {
        match &self.row {
            None => Ok(None),
            Some(row) => {
                let result = sum(row.as_slice(), value);
                let after = assign(alloc, row.as_slice(), target, result.range)?;
                self.kinds = result.kinds;
                Ok(after)
            }
        }
    }

    /// Evaluates what is returned, and keeps its alarms.
    pub fn give(&mut self, value: &Sum)
        ensures row { self.new.row ≡ self.old.row }
        ensures alarms { AlarmsAt self.new (sum_expr (sum_tree value.now)) }
    {
        if let Some(row) = &self.row {
            self.kinds = sum(row.as_slice(), value).kinds;
        }
    }

    /// Evaluates a test, and keeps its alarms.
    pub fn branch(&mut self, alloc: Global, condition: &Test) -> Result<Branches, AllocError>
        ensures row { OnOk result (self.new.row ≡ self.old.row) }
        ensures alarms { OnOk result (AlarmsAt self.new (test_expr (test_tree condition.now))) }
        ensures branches { IfOk result (λ b. BranchesAt self.new (test_expr (test_tree condition.now)) b.when_true b.when_false) }
    {
        match &self.row {
            None => Ok(Branches {
                when_true: None,
                when_false: None,
            }),
            Some(row) => {
                let split = split_row(alloc, row.as_slice(), condition)?;
                self.kinds = split.kinds;
                Ok(split.branches)
            }
        }
    }
}

// The rows behind a test, and the kinds with which it may stop.
#[derive(Drop)]
struct Split {
    branches: Branches,
    kinds: Kinds,
}

fn split_row(alloc: Global, row: &[Content], condition: &Test) -> Result<Split, AllocError>
    ensures { IfOk result (λ s. (env : _) → HoldsRow row.now env → SplitsTo s env (value env (test_expr (test_tree condition.now)))) }
{
    let result = test(row, condition);
    let when_true = copy_if(alloc, result.truths.may_be_true, row)?;
    let when_false = copy_if(alloc, result.truths.may_be_false, row)?;
    Ok(Split {
        branches: Branches {
            when_true,
            when_false,
        },
        kinds: result.kinds,
    })
}

fn copy_if(alloc: Global, is_possible: bool, row: &[Content]) -> Result<Reached, AllocError>
    ensures { IfOk result (λ copy. (env : _) → IsTrue is_possible → HoldsRow row.now env → HoldsReached copy env) }
{
    if is_possible {
        Ok(Some(Items::from_slice(alloc, row)?))
    } else {
        Ok(None)
    }
}
