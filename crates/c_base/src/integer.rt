/// C's integer types (C11 6.2.5), `char` among them, which is signed here.
#[derive(Clone, Copy, Debug, PartialEq, Eq)]
pub enum IntKind {
    Bool,
    Char,
    SChar,
    UChar,
    Short,
    UShort,
    Int,
    UInt,
    Long,
    ULong,
    LLong,
    ULLong,
}

/// Sizes and ranges of the types: LP64, as on x86-64.
#[derive(Clone, Copy, Debug, PartialEq, Eq)]
pub enum Machine {
    Lp64,
}
