//! Rows: what each variable may hold.
ghost use Rattle.std.specs.Prelude.{◌≡◌, ℤ, true, List, IsTrue, IfOk, length};
ghost use Rattle.c_base.specs.declared.integer.IntKind.TheVariants.{Int};
ghost use Rattle.c_base.specs.declared.integer.Machine.TheVariants.{Lp64};
ghost use Rattle.c_base.specs.Integers.{fits_kind};
ghost use Rattle.first_analysis.specs.Evaluation.{Env, set};
ghost use Rattle.first_analysis.specs.Contents.{IsWithin, HoldsNumber, HoldsRow, HoldsReached};
ghost use Rattle.first_analysis.specs.declared.content.Content.{Content};

use crate::content::Content;
use crate::range::Range;
use c_base::number::BaseId;
use sqlite_items::Items;
use std::alloc::{AllocError, Global};

/// What each variable may hold, by their numbers from 1; none where a statement is not reached.
pub type Reached = Option<Items<Content>>;

/// Whether a row's memories are all among those of another row.
pub fn includes(kept: &[Content], row: &[Content]) -> bool
    ensures { IsTrue result → (env : Env) → HoldsRow row.now env → HoldsRow kept.now env }
{
    for index in 0..kept.len() {
        match row.get(index) {
            None => return false,
            Some(content) => {
                if !kept[index].includes(*content) {
                    return false;
                }
            }
        }
    }
    true
}

/// The row that has the memories of both. With marks it is widened.
pub fn merge(
    alloc: Global,
    kept: &[Content],
    row: &[Content],
    marks: Option<&[i64]>,
) -> Result<Items<Content>, AllocError>
    ensures first { IfOk result (λ merged. (env : Env) → HoldsRow kept.now env → HoldsRow merged env) }
    ensures second { IfOk result (λ merged. (env : Env) → HoldsRow row.now env → HoldsRow merged env) }
{
    let mut merged = Items::new(alloc);
    for index in 0..kept.len() {
        match row.get(index) {
            None => return Ok(merged),
            Some(content) => merged.push(kept[index].merge(*content, marks))?,
        }
    }
    Ok(merged)
}

/// The row of so many variables of which none is written yet.
pub fn unwritten(alloc: Global, count: usize) -> Result<Items<Content>, AllocError>
    ensures { IfOk result (λ row. HoldsRow row (λ base. None)) }
{
    let mut row = Items::new(alloc);
    for _ in 0..count {
        row.push(Content::nothing())?;
    }
    Ok(row)
}

/// The row of so many variables that has every memory.
pub fn everything(alloc: Global, count: usize) -> Result<Items<Content>, AllocError>
    ensures { IfOk result (λ row. (other : List Content) (env : Env) → HoldsRow other env → HoldsRow row env) }
{
    let mut row = Items::new(alloc);
    for _ in 0..count {
        row.push(Content::anything())?;
    }
    Ok(row)
}

// Writes a number of the range into a variable.
fn put(row: &mut Items<Content>, target: BaseId, range: Range)
    ensures { (env : Env) (n : ℤ) → HoldsRow row.old env → IsWithin range n → fits_kind Int Lp64 n ≡ true → HoldsRow row.new (set env target.0 n) }
{
    if target.0 == 0 {
        return;
    }
    if target.0 as usize > row.len() {
        return;
    }
    row.set(
        target.0 as usize - 1,
        Content {
            range: Some(range),
            uninit: false,
        },
    );
}

/// The row behind an assignment of a number of a range to a variable.
pub fn assign(
    alloc: Global,
    row: &[Content],
    target: BaseId,
    range: Option<Range>,
) -> Result<Reached, AllocError>
    ensures { IfOk result (λ after. (env : Env) (n : ℤ) → HoldsRow row.now env → HoldsNumber range n → fits_kind Int Lp64 n ≡ true
        → HoldsReached after (set env target.0 n)) }
{
    match range {
        None => Ok(None),
        Some(range) => {
            let mut after = Items::from_slice(alloc, row)?;
            put(&mut after, target, range);
            Ok(Some(after))
        }
    }
}

/// The row that has the memories of both.
pub fn join(alloc: Global, first: Reached, second: Reached) -> Result<Reached, AllocError>
    ensures first { IfOk result (λ row. (env : Env) → HoldsReached first env → HoldsReached row env) }
    ensures second { IfOk result (λ row. (env : Env) → HoldsReached second env → HoldsReached row env) }
{
    match first {
        None => Ok(second),
        Some(one) => match second {
            None => Ok(Some(one)),
            Some(other) => Ok(Some(merge(alloc, one.as_slice(), other.as_slice(), None)?)),
        },
    }
}
