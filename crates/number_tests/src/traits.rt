//! What the tests ask of sets and of answers.
use c_base::kind::Kind;
use ival_arith::Answer;
use ival_core::Ival;

pub fn is_empty(set: &Ival) -> bool {
    set.bounds().is_none()
}

pub fn is_single(set: &Ival, number: i128) -> bool {
    match set.as_single() {
        Some(n) => n == number,
        None => false,
    }
}

pub fn has_bounds(set: &Ival, low: i128, high: i128) -> bool {
    match set.bounds() {
        Some((least, greatest)) => least == low && greatest == high,
        None => false,
    }
}

/// All numbers of the set leave `rest` modulo `modulus`.
pub fn has_congruence(set: &Ival, rest: i128, modulus: i128) -> bool {
    let (found, by) = set.congruence();
    found == rest && by == modulus
}

/// The set has these numbers alone.
pub fn has_numbers(set: &Ival, numbers: &[i128]) -> bool {
    match set.numbers() {
        Some(found) => found == numbers,
        None => false,
    }
}

/// The set has more than 8 numbers, so that it isn't a list.
pub fn is_long(set: &Ival) -> bool {
    set.numbers().is_none()
}

pub fn allows(answer: &Answer, kind: Kind) -> bool {
    answer.kinds.allows(kind)
}
