//! C's operators at the edges of their types (C11 6.5).
use c_base::format::format_of;
use c_base::integer::{IntKind, Machine};
use c_base::kind::Kind;
use c_base::operators::{BinOp, UnOp, apply_binary, apply_unary, convert};

const M: Machine = Machine::Lp64;

const INT: IntKind = IntKind::Int;

const INT_MAX: i128 = 2147483647;

const INT_MIN: i128 = -2147483648;

const ULONG_MAX: i128 = 18446744073709551615;

fn is_number(given: Result<i128, Kind>, number: i128) -> bool {
    match given {
        Ok(n) => n == number,
        Err(_) => false,
    }
}

fn is_undefined(given: Result<i128, Kind>, kind: Kind) -> bool {
    match given {
        Ok(_) => false,
        Err(found) => found == kind,
    }
}

#[test]
fn sums_and_products_at_the_ends(rt: HostRuntime) {
    let overflow = Kind::SignedOverflow;
    assert!(rt; is_undefined(apply_binary(BinOp::Add, INT, M, INT_MAX, 1), overflow));
    assert!(rt; is_undefined(apply_binary(BinOp::Sub, INT, M, INT_MIN, 1), overflow));
    assert!(rt; is_number(apply_binary(BinOp::Mul, INT, M, 65536, -32768), INT_MIN));
    assert!(rt; is_undefined(apply_binary(BinOp::Mul, INT, M, 65536, 32768), overflow));
    let unsigned = IntKind::ULong;
    assert!(rt;
        is_number(
            apply_binary(BinOp::Mul, unsigned, M, ULONG_MAX, ULONG_MAX),
            1
        )
    );
    assert!(rt; is_number(apply_binary(BinOp::Sub, unsigned, M, 0, 1), ULONG_MAX));
    assert!(rt; is_undefined(apply_unary(UnOp::Neg, INT, M, INT_MIN), overflow));
    assert!(rt; is_number(apply_unary(UnOp::Neg, IntKind::UInt, M, 1), 4294967295));
}

#[test]
fn quotients_lose_the_fraction(rt: HostRuntime) {
    let overflow = Kind::SignedOverflow;
    assert!(rt; is_number(apply_binary(BinOp::Div, INT, M, -7, 2), -3));
    assert!(rt; is_number(apply_binary(BinOp::Rem, INT, M, -7, 2), -1));
    assert!(rt; is_number(apply_binary(BinOp::Rem, INT, M, 7, -2), 1));
    assert!(rt; is_undefined(apply_binary(BinOp::Div, INT, M, INT_MIN, -1), overflow));
    assert!(rt; is_undefined(apply_binary(BinOp::Rem, INT, M, INT_MIN, -1), overflow));
    assert!(rt; is_undefined(apply_binary(BinOp::Rem, INT, M, 5, 0), Kind::DivisionByZero));
}

#[test]
fn shifts(rt: HostRuntime) {
    assert!(rt; is_number(apply_binary(BinOp::Shl, INT, M, 1, 30), 1073741824));
    assert!(rt; is_undefined(apply_binary(BinOp::Shl, INT, M, 1, 31), Kind::Shift));
    assert!(rt; is_undefined(apply_binary(BinOp::Shl, INT, M, -1, 0), Kind::Shift));
    assert!(rt;
        is_number(
            apply_binary(BinOp::Shl, IntKind::UInt, M, 3, 31),
            2147483648
        )
    );
    assert!(rt; is_number(apply_binary(BinOp::Shr, INT, M, -1, 31), -1));
    assert!(rt; is_undefined(apply_binary(BinOp::Shr, INT, M, 1, 32), Kind::Shift));
    assert!(rt; is_undefined(apply_binary(BinOp::Shr, INT, M, 1, 4294967297), Kind::Shift));
    assert!(rt;
        is_undefined(
            apply_binary(BinOp::Shl, IntKind::Bool, M, 1, -ULONG_MAX),
            Kind::Shift
        )
    );
}

#[test]
fn bits(rt: HostRuntime) {
    assert!(rt; is_number(apply_binary(BinOp::And, INT, M, -4, 7), 4));
    assert!(rt; is_number(apply_binary(BinOp::Or, INT, M, -8, 5), -3));
    assert!(rt; is_number(apply_binary(BinOp::Xor, INT, M, -1, INT_MAX), INT_MIN));
    assert!(rt; is_number(apply_unary(UnOp::Compl, INT, M, 0), -1));
    assert!(rt; is_number(apply_unary(UnOp::Compl, IntKind::UInt, M, 0), 4294967295));
    assert!(rt; is_number(apply_unary(UnOp::Not, INT, M, -5), 0));
}

#[test]
fn conversions_take_the_residue(rt: HostRuntime) {
    assert!(rt; convert(IntKind::Bool, M, 256) == 1);
    assert!(rt; convert(IntKind::SChar, M, 200) == -56);
    assert!(rt; convert(IntKind::UChar, M, -1) == 255);
    assert!(rt; convert(IntKind::LLong, M, ULONG_MAX) == -1);
    assert!(rt; convert(IntKind::UInt, M, INT_MIN) == 2147483648);
}

#[test]
fn ranges_of_types(rt: HostRuntime) {
    let int = format_of(INT, M);
    assert!(rt; int.least() == INT_MIN && int.greatest() == INT_MAX);
    let unsigned = format_of(IntKind::ULong, M);
    assert!(rt; unsigned.least() == 0 && unsigned.greatest() == ULONG_MAX);
    let boolean = format_of(IntKind::Bool, M);
    assert!(rt; boolean.least() == 0 && boolean.greatest() == 1);
}
