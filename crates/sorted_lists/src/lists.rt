//! Lists in ascending order of a key: their union, and whether one lies in another.
ghost use Rattle.std.specs.Prelude.{◌≡◌, ◌+◌, ◌++◌, ◌∷◌, ◌<◌, ◌≤◌, false, IfOk, OnOk, IfSome, IfNone, drop, length, map};
ghost use Rattle.avalue_base.specs.Deaths.{without};
ghost use Rattle.avalue_base.specs.Lists.{merged, has_base};
ghost use Rattle.avalue_base.specs.Meets.{common};
ghost use Rattle.sorted_lists.specs.Walks.{all_in};

use crate::Mem;
use crate::keyed::{Compares, Keyed, Picks, Unites};
use smallvec::SmallVec;
use std::alloc::Global;

/// Adds copies of the elements from an index on.
fn push_rest<T: Keyed, const N: usize>(list: &mut SmallVec<T, N>, xs: &[T], from: usize) -> Mem<()>
    requires { from ≤ length xs.now }
    ensures { OnOk result (list.new.items ≡ list.old.items ++ drop from xs.now) }
{
    for index in from..xs.len() {
        list.push(xs[index].copy())?;
    }
    Ok(())
}

/// The same list.
pub fn copied<T: Keyed, const N: usize>(alloc: Global, xs: &[T]) -> Mem<SmallVec<T, N>>
    ensures { IfOk result (λ list. list.items ≡ xs.now) }
{
    let mut list = SmallVec::new(alloc);
    push_rest(&mut list, xs, 0)?;
    Ok(list)
}

/// How far two lists have been read.
#[derive(Clone, Copy)]
struct Cursors {
    left: usize,
    right: usize,
}

/// Adds the next element of the union, and goes on.
fn push_next<R: Unites<T>, T: Keyed, const N: usize>(
    rule: &R,
    list: &mut SmallVec<T, N>,
    xs: &[T],
    ys: &[T],
    at: Cursors,
) -> Mem<Cursors>
    requires ready { R.ready rule.now }
    requires left { at.left < length xs.now }
    requires right { at.right < length ys.now }
    ensures same { OnOk result (IfOk result (λ next.
        list.new.items ++ merged T.key_of (R.united rule.now) (drop next.left xs.now) (drop next.right ys.now)
        ≡ list.old.items ++ merged T.key_of (R.united rule.now) (drop at.left xs.now) (drop at.right ys.now))) }
    ensures left { IfOk result (λ next. next.left ≤ length xs.now) }
    ensures right { IfOk result (λ next. next.right ≤ length ys.now) }
    ensures on { IfOk result (λ next. at.left + at.right < next.left + next.right) }
{
    let x = &xs[at.left];
    let y = &ys[at.right];
    if x.key() < y.key() {
        list.push(x.copy())?;
        return Ok(Cursors {
            left: at.left + 1,
            right: at.right,
        });
    }
    if y.key() < x.key() {
        list.push(y.copy())?;
        return Ok(Cursors {
            left: at.left,
            right: at.right + 1,
        });
    }
    list.push(rule.unite(x, y))?;
    Ok(Cursors {
        left: at.left + 1,
        right: at.right + 1,
    })
}

/// The union of two lists.
pub fn union<R: Unites<T>, T: Keyed, const N: usize>(
    alloc: Global,
    rule: &R,
    xs: &[T],
    ys: &[T],
) -> Mem<SmallVec<T, N>>
    requires { R.ready rule.now }
    ensures { IfOk result (λ list. list.items ≡ merged T.key_of (R.united rule.now) xs.now ys.now) }
{
    let mut list = SmallVec::new(alloc);
    let mut at = Cursors { left: 0, right: 0 };
    while at.left < xs.len() {
        if at.right == ys.len() {
            break;
        }
        at = push_next(rule, &mut list, xs, ys, at)?;
    }
    push_rest(&mut list, xs, at.left)?;
    push_rest(&mut list, ys, at.right)?;
    Ok(list)
}

/// Adds what the next elements of two lists have in common, if they have one key, and goes on.
fn push_common<R: Picks<X, Y>, X: Keyed, Y: Keyed, const N: usize>(
    rule: &R,
    list: &mut SmallVec<X, N>,
    xs: &[X],
    ys: &[Y],
    at: Cursors,
) -> Mem<Cursors>
    requires left { at.left < length xs.now }
    requires right { at.right < length ys.now }
    ensures same { OnOk result (IfOk result (λ next.
        list.new.items ++ common X.key_of Y.key_of R.picked (drop next.left xs.now) (drop next.right ys.now)
        ≡ list.old.items ++ common X.key_of Y.key_of R.picked (drop at.left xs.now) (drop at.right ys.now))) }
    ensures left { IfOk result (λ next. next.left ≤ length xs.now) }
    ensures right { IfOk result (λ next. next.right ≤ length ys.now) }
    ensures on { IfOk result (λ next. at.left + at.right < next.left + next.right) }
{
    let x = &xs[at.left];
    let y = &ys[at.right];
    if y.key() < x.key() {
        return Ok(Cursors {
            left: at.left,
            right: at.right + 1,
        });
    }
    if x.key() < y.key() {
        return Ok(Cursors {
            left: at.left + 1,
            right: at.right,
        });
    }
    match rule.pick(x, y) {
        None => Ok(Cursors {
            left: at.left + 1,
            right: at.right + 1,
        }),
        Some(both) => {
            list.push(both)?;
            Ok(Cursors {
                left: at.left + 1,
                right: at.right + 1,
            })
        }
    }
}

/// What two lists have in common.
pub fn common<R: Picks<X, Y>, X: Keyed, Y: Keyed, const N: usize>(
    alloc: Global,
    rule: &R,
    xs: &[X],
    ys: &[Y],
) -> Mem<SmallVec<X, N>>
    ensures { IfOk result (λ list. list.items ≡ common X.key_of Y.key_of R.picked xs.now ys.now) }
{
    let mut list = SmallVec::new(alloc);
    let mut at = Cursors { left: 0, right: 0 };
    while at.left < xs.len() {
        if at.right == ys.len() {
            return Ok(list);
        }
        at = push_common(rule, &mut list, xs, ys, at)?;
    }
    Ok(list)
}

/// One step of the comparison of two lists: where it goes on, or none where the next element doesn't lie in the other list.
fn pass<R: Compares<X, Y>, X: Keyed, Y: Keyed>(
    rule: &R,
    xs: &[X],
    ys: &[Y],
    at: Cursors,
) -> Option<Cursors>
    requires left { at.left < length xs.now }
    requires right { at.right < length ys.now }
    ensures some { IfSome result (λ next.
        all_in X.key_of Y.key_of R.lies_in (drop next.left xs.now) (drop next.right ys.now)
        ≡ all_in X.key_of Y.key_of R.lies_in (drop at.left xs.now) (drop at.right ys.now)) }
    ensures none { IfNone result (all_in X.key_of Y.key_of R.lies_in (drop at.left xs.now) (drop at.right ys.now) ≡ false) }
    ensures left { IfSome result (λ next. next.left ≤ length xs.now) }
    ensures right { IfSome result (λ next. next.right ≤ length ys.now) }
    ensures on { IfSome result (λ next. at.left + at.right < next.left + next.right) }
{
    let x = &xs[at.left];
    let y = &ys[at.right];
    if y.key() < x.key() {
        return Some(Cursors {
            left: at.left,
            right: at.right + 1,
        });
    }
    if x.key() < y.key() {
        return None;
    }
    if rule.is_in(x, y) {
        return Some(Cursors {
            left: at.left + 1,
            right: at.right + 1,
        });
    }
    None
}

/// Whether each element of one list lies in one of the other.
pub fn is_all_in<R: Compares<X, Y>, X: Keyed, Y: Keyed>(rule: &R, xs: &[X], ys: &[Y]) -> bool
    ensures { result ≡ all_in X.key_of Y.key_of R.lies_in xs.now ys.now }
{
    let mut at = Cursors { left: 0, right: 0 };
    while at.left < xs.len() {
        if at.right == ys.len() {
            return false;
        }
        match pass(rule, xs, ys, at) {
            None => return false,
            Some(next) => at = next,
        }
    }
    true
}

/// The elements with another key.
pub fn without<T: Keyed, const N: usize>(alloc: Global, xs: &[T], key: u32) -> Mem<SmallVec<T, N>>
    ensures { IfOk result (λ list. list.items ≡ without T.key_of key xs.now) }
{
    let mut list = SmallVec::new(alloc);
    for x in xs {
        if x.key() != key {
            list.push(x.copy())?;
        }
    }
    Ok(list)
}

/// Whether an element has the key.
pub fn has_key<T: Keyed>(xs: &[T], key: u32) -> bool
    ensures { result ≡ has_base (map T.key_of xs.now) key }
{
    for x in xs {
        if x.key() == key {
            return true;
        }
    }
    false
}
