//! Operators with two operands.
ghost use Rattle.std.specs.Prelude.{◌≡◌, ◌⊎◌, ◌<◌, true, false, cond, IsTrue, IfOk, Ok, Err, []};
ghost use Rattle.c_base.specs.declared.kind.Kind.{Kind as PlainKind};
ghost use Rattle.c_base.specs.KindSets.{allowed, no_kinds, with_kind};
ghost use Rattle.c_memory.specs.Layouts.{Layout};
ghost use Rattle.c_memory.specs.Operations.{is_comparison};
ghost use Rattle.c_memory.specs.Values.{Value};
ghost use Rattle.c_pointers.specs.Pointers.{comparison, difference};
ghost use Rattle.avalue_base.specs.Meaning.{Means};
ghost use Rattle.avalue_base.specs.Values.{Separate};
ghost use Rattle.aops.specs.Numbers.{rel_of};
ghost use Rattle.aops_pointers.specs.Moved.{moved_value};
ghost use Rattle.aops_pointers.specs.Moves.{moved_by};
ghost use Rattle.aops_relations.specs.Comparisons.{judged};
ghost use Rattle.aops_relations.specs.Differences.{differed};
ghost use Rattle.aops_relations.specs.Placed.{ArePointers};
ghost use Rattle.aops.specs.Soles.{IsSole};
ghost use Rattle.aops_by_type.specs.Uses.{AreSingle, AreUsed, IsMoved, NarrowTyped, PointerCause, TypedCause};
ghost use Rattle.aops_by_type.specs.Typed.{AreTyped, IsOperator, compared_by, is_difference, kinds_of, result_of, value_kinds, value_of};

use aops::{Computed, on_integers};
use aops_pointers::moved;
use aops_relations::{Verdict, compared, differed};
use avalue_parts::Sizes;
use avalue_values::{AVal, Mem};
use c_base::integer::{IntKind, Machine};
use c_base::kind::{Kind, KindSet};
use c_base::operators::{BinOp, Rel};
use std::alloc::Global;

/// The type of an operand.
#[derive(Clone, Copy)]
pub enum Operand {
    Integer(IntKind),
    /// A pointer to elements of so many bytes.
    Pointer(u64),
}

fn is_difference(op: BinOp) -> bool
    ensures { result ≡ is_difference op }
{
    match op {
        BinOp::Sub => true,
        BinOp::Add => false,
        BinOp::Mul => false,
        BinOp::Div => false,
        BinOp::Rem => false,
        BinOp::And => false,
        BinOp::Or => false,
        BinOp::Xor => false,
        BinOp::Shl => false,
        BinOp::Shr => false,
        BinOp::Lt => false,
        BinOp::Le => false,
        BinOp::Gt => false,
        BinOp::Ge => false,
        BinOp::Eq => false,
        BinOp::Ne => false,
    }
}

fn rel_of(op: BinOp) -> Option<Rel>
    ensures { result ≡ rel_of op }
{
    match op {
        BinOp::Lt => Some(Rel::Lt),
        BinOp::Le => Some(Rel::Le),
        BinOp::Gt => Some(Rel::Gt),
        BinOp::Ge => Some(Rel::Ge),
        BinOp::Eq => Some(Rel::Eq),
        BinOp::Ne => Some(Rel::Ne),
        BinOp::Add => None,
        BinOp::Sub => None,
        BinOp::Mul => None,
        BinOp::Div => None,
        BinOp::Rem => None,
        BinOp::And => None,
        BinOp::Or => None,
        BinOp::Xor => None,
        BinOp::Shl => None,
        BinOp::Shr => None,
    }
}

/// The kind, unless the verdict is sure.
fn kinds_of(sure: bool, kind: Kind) -> KindSet
    ensures { result ≡ cond sure no_kinds (with_kind no_kinds kind) }
{
    if sure {
        KindSet::none()
    } else {
        KindSet::none().with(kind)
    }
}

fn computed(verdict: Verdict, kind: Kind) -> Computed
    ensures value { result.value ≡ Separate verdict.set [] }
    ensures kind_set { result.kinds ≡ kinds_of verdict kind }
{
    Computed {
        value: AVal::number(verdict.set),
        kinds: kinds_of(verdict.sure, kind),
    }
}

/// A pointer moved by a count has no kinds.
fn on_count(
    alloc: Global,
    back: bool,
    m: Machine,
    size: u64,
    a: &AVal,
    counts: &AVal,
) -> Mem<Computed>
    ensures value { IfOk result (λ c. c.value ≡ moved_value back m size a.now counts.now) }
    ensures kind_set { IfOk result (λ c. c.kinds ≡ no_kinds) }
    ensures holds { IfOk result (λ c. (l : Layout) (x y : Value) → l.machine ≡ m → Means l a.now x → Means l counts.now y →
        Means l c.value (moved_by back m size x y)) }
    ensures sole { IfOk result (λ c. (l : Layout) (x y : Value) → l.machine ≡ m → IsMoved back size a.now counts.now y → Means l a.now x →
        Means l counts.now y → IsSole l (Ok (moved_by back m size x y)) c.value c.kinds) }
{
    Ok(Computed {
        value: moved(alloc, back, m, size, a, counts)?,
        kinds: KindSet::none(),
    })
}

fn on_difference<S: Sizes>(size: u64, sizes: &S, a: &AVal, b: &AVal) -> Computed
    ensures value { result.value ≡ Separate (differed size (S.size_of sizes.now) a.now b.now).set [] }
    ensures kind_set { result.kinds ≡ kinds_of (differed size (S.size_of sizes.now) a.now b.now) Kind.DifferingBlocks }
    ensures holds { (l : Layout) (x y z : Value) → ArePointers (S.size_of sizes.now) l a.now b.now x y →
        difference l size x y ≡ Ok z → Means l result.value z }
    ensures kinds { (l : Layout) (x y : Value) (kind : PlainKind) → ArePointers (S.size_of sizes.now) l a.now b.now x y →
        difference l size x y ≡ Err kind → IsTrue (allowed result.kinds kind) }
    ensures sole { (l : Layout) (x y : Value) → 0 < size → AreSingle a.now b.now → ArePointers (S.size_of sizes.now) l a.now b.now x y →
        IsSole l (difference l size x y) result.value result.kinds }
{
    computed(differed(size, sizes, a, b), Kind::DifferingBlocks)
}

fn on_comparison<S: Sizes>(op: BinOp, sizes: &S, a: &AVal, b: &AVal) -> Computed
    requires { is_comparison op ≡ true }
    ensures value { result.value ≡ Separate (compared_by (rel_of op) (S.size_of sizes.now) a.now b.now).set [] }
    ensures kind_set { result.kinds ≡ kinds_of (compared_by (rel_of op) (S.size_of sizes.now) a.now b.now) Kind.PtrComparison }
    ensures holds { (l : Layout) (x y z : Value) → ArePointers (S.size_of sizes.now) l a.now b.now x y →
        comparison op l x y ≡ Ok z → Means l result.value z }
    ensures kinds { (l : Layout) (x y : Value) (kind : PlainKind) → ArePointers (S.size_of sizes.now) l a.now b.now x y →
        comparison op l x y ≡ Err kind → IsTrue (allowed result.kinds kind) }
    ensures sole { (l : Layout) (x y : Value) → AreSingle a.now b.now → ArePointers (S.size_of sizes.now) l a.now b.now x y →
        IsSole l (comparison op l x y) result.value result.kinds }
{
    match rel_of(op) {
        Some(rel) => computed(compared(rel, sizes, a, b), Kind::PtrComparison),
        None => computed(compared(Rel::Eq, sizes, a, b), Kind::PtrComparison),
    }
}

fn on_pointers<S: Sizes>(
    op: BinOp,
    size: u64,
    other: u64,
    m: Machine,
    sizes: &S,
    a: &AVal,
    b: &AVal,
) -> Computed
    requires { (op ≡ BinOp.Sub) ⊎ (is_comparison op ≡ true) }
    ensures value { result.value ≡ value_of op (Operand.Pointer size) (Operand.Pointer other) m (S.size_of sizes.now) a.now b.now }
    ensures kind_set { result.kinds ≡ value_kinds op (Operand.Pointer size) (Operand.Pointer other) m (S.size_of sizes.now) a.now b.now }
    ensures holds { (l : Layout) (x y z : Value) → ArePointers (S.size_of sizes.now) l a.now b.now x y →
        result_of op (Operand.Pointer size) (Operand.Pointer other) m l x y ≡ Ok z → Means l result.value z }
    ensures kinds { (l : Layout) (x y : Value) (kind : PlainKind) → ArePointers (S.size_of sizes.now) l a.now b.now x y →
        result_of op (Operand.Pointer size) (Operand.Pointer other) m l x y ≡ Err kind → IsTrue (allowed result.kinds kind) }
    ensures cause { (kind : PlainKind) → IsTrue (allowed result.kinds kind) → PointerCause op size other m a.now b.now kind }
    ensures sole { (l : Layout) (x y : Value) → AreUsed op (Operand.Pointer size) (Operand.Pointer other) a.now b.now x y →
        ArePointers (S.size_of sizes.now) l a.now b.now x y →
        IsSole l (result_of op (Operand.Pointer size) (Operand.Pointer other) m l x y) result.value result.kinds }
{
    if is_difference(op) {
        return on_difference(size, sizes, a, b);
    }
    on_comparison(op, sizes, a, b)
}

/// An operator on values of two types that C has it for. Of a comparison or difference of pointers, the types' elements are the same. Of
/// single values, used as C means it, there is the one result or the one kind alone.
pub fn abs_binary<S: Sizes>(
    alloc: Global,
    op: BinOp,
    left: Operand,
    right: Operand,
    m: Machine,
    sizes: &S,
    a: &AVal,
    b: &AVal,
) -> Mem<Computed>
    requires { IsOperator op left right }
    ensures value { IfOk result (λ c. c.value ≡ value_of op left right m (S.size_of sizes.now) a.now b.now) }
    ensures kind_set { IfOk result (λ c. c.kinds ≡ value_kinds op left right m (S.size_of sizes.now) a.now b.now) }
    ensures holds { IfOk result (λ c. (l : Layout) (x y z : Value) → AreTyped op left right m (S.size_of sizes.now) l a.now b.now x y →
        result_of op left right m l x y ≡ Ok z → Means l c.value z) }
    ensures kinds { IfOk result (λ c. (l : Layout) (x y : Value) (kind : PlainKind) → AreTyped op left right m (S.size_of sizes.now) l a.now b.now x y →
        result_of op left right m l x y ≡ Err kind → IsTrue (allowed c.kinds kind)) }
    ensures cause { IfOk result (λ c. (kind : PlainKind) → IsTrue (allowed c.kinds kind) → TypedCause op left right m a.now b.now kind) }
    ensures narrow { IfOk result (λ c. NarrowTyped op left right m a.now b.now c.value) }
    ensures sole { IfOk result (λ c. (l : Layout) (x y : Value) → AreUsed op left right a.now b.now x y →
        AreTyped op left right m (S.size_of sizes.now) l a.now b.now x y → IsSole l (result_of op left right m l x y) c.value c.kinds) }
{
    match left {
        Operand::Integer(kind) => match right {
            Operand::Integer(_) => on_integers(alloc, op, kind, m, a, b),
            Operand::Pointer(size) => on_count(alloc, false, m, size, b, a),
        },
        Operand::Pointer(size) => match right {
            Operand::Integer(_) => on_count(alloc, is_difference(op), m, size, a, b),
            Operand::Pointer(other) => Ok(on_pointers(op, size, other, m, sizes, a, b)),
        },
    }
}
