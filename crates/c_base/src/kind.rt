ghost use Rattle.std.specs.Prelude.{◌≡◌, ◌⊎◌, ◌↔◌, ◌<◌, IsTrue, false};
ghost use Rattle.c_base.specs.KindSets.{number_of_kind, allowed, no_kinds, with_kind};

/// Why a step of a C program is undefined, or which annotation is false there. The order is that in which reports list them.
#[derive(Clone, Copy, Debug, PartialEq, Eq, PartialOrd, Ord)]
pub enum Kind {
    /// C11 6.5.5p5.
    DivisionByZero,
    /// C11 6.5p5.
    SignedOverflow,
    /// C11 6.5.7p3 and p4.
    Shift,
    /// C11 6.5.3.2p4.
    MemAccess,
    /// C11 6.5.6p8, of an index into an array.
    IndexBound,
    /// C11 6.3.2.1p2.
    Initialization,
    /// C11 6.2.4p2.
    DanglingPointer,
    /// C11 6.5.8p5 and 6.5.9p6.
    PtrComparison,
    /// C11 6.5.6p9.
    DifferingBlocks,
    /// C11 6.5.16.1p3.
    Overlap,
    /// C11 6.5.2.2p9.
    FunctionPointer,
    /// An assertion that is not true.
    Assertion,
    /// A `requires` that is not true at a call.
    Precondition,
    /// An `ensures` that is not true at a return.
    Postcondition,
}

impl Kind {
    fn number(self) -> u32
        ensures value { result ≡ number_of_kind self }
        ensures small { result < 14 }
    {
        match self {
            Kind::DivisionByZero => 0,
            Kind::SignedOverflow => 1,
            Kind::Shift => 2,
            Kind::MemAccess => 3,
            Kind::IndexBound => 4,
            Kind::Initialization => 5,
            Kind::DanglingPointer => 6,
            Kind::PtrComparison => 7,
            Kind::DifferingBlocks => 8,
            Kind::Overlap => 9,
            Kind::FunctionPointer => 10,
            Kind::Assertion => 11,
            Kind::Precondition => 12,
            Kind::Postcondition => 13,
        }
    }
}

/// A set of kinds.
#[derive(Clone, Copy, Debug, PartialEq, Eq)]
pub struct KindSet {
    bits: u16,
}

impl KindSet {
    ghost use Rattle.c_base.specs.declared.kind.Kind.{Kind};

    pub fn none() -> KindSet
        ensures value { result ≡ no_kinds }
        ensures none { (k : Kind) → allowed result k ≡ false }
    {
        KindSet { bits: 0 }
    }

    pub fn with(self, k: Kind) -> KindSet
        ensures value { result ≡ with_kind self k }
        ensures kinds { (l : Kind) → IsTrue (allowed result l) ↔ (IsTrue (allowed self l) ⊎ (l ≡ k)) }
    {
        KindSet {
            bits: self.bits | 1 << k.number(),
        }
    }

    pub fn allows(&self, k: Kind) -> bool
        ensures { result ≡ allowed self.now k }
    {
        self.bits >> k.number() & 1 == 1
    }
}
