//! What an analysis is asked for, and why a file is refused.
ghost use Rattle.std.specs.Prelude.{◌≡◌, IfOk};

use c_base::name::Name;
use c_base::number::Span;
use c_base::token::LexSort;
use c_types::duplicate::{Duplicate, Mem};
use sqlite_items::Items;
use std::alloc::Global;

/// A list of names.
pub type NameList = Items<Name>;

/// How a file is analysed.
#[derive(Drop)]
pub struct Options {
    /// Rows that are kept apart at a place, from 1 to 1,000,000.
    pub slevel: u64,
    /// How many values a choice between integers splits at most, from 1 to 256.
    pub split: u32,
    /// The largest number of steps with which an analysis is begun; what the program needs where there is none.
    pub budget: Option<u64>,
    /// The functions whose rows are printed; all where there is none.
    pub functions: Option<NameList>,
}

/// Why a file is refused, and where.
#[derive(Drop)]
pub enum Refusal {
    /// A construct that isn't analysed yet.
    Form { at: Span },
    /// No token begins there.
    Lex { fault: LexSort, at: Span },
    /// The tokens are no translation unit.
    Syntax { at: Span },
    /// A construct outside the subset, by the number of its rule.
    Profile { rule: u32, at: Span },
    /// A constraint of C11 or a rule of annotations is broken, by the number of its rule.
    Typing { rule: u32, at: Span },
    /// The function that is to be entered first has no body.
    NoEntry { name: Name },
    /// A function without body and contract gives a pointer, struct or union.
    NoContract { name: Name },
    /// The contract of a function without body has no `assigns`.
    NoAssigns { name: Name },
    /// Functions that call each other in a circle.
    Recursive { cycle: NameList },
    /// A quantity is beyond its limit.
    Limit { limit: u32, found: u64 },
}

impl Options {
    /// An equal value.
    pub fn duplicate(&self, alloc: Global) -> Mem<Options>
        ensures { IfOk result (λ copy. copy ≡ self.now) }
    {
        Ok(Options {
            slevel: self.slevel,
            split: self.split,
            budget: self.budget,
            functions: self.functions.duplicate(alloc)?,
        })
    }
}

impl Refusal {
    /// An equal value.
    pub fn duplicate(&self, alloc: Global) -> Mem<Refusal>
        ensures { IfOk result (λ copy. copy ≡ self.now) }
    {
        match self {
            Refusal::Form { at } => Ok(Refusal::Form { at: *at }),
            Refusal::Lex { fault, at } => Ok(Refusal::Lex {
                fault: *fault,
                at: *at,
            }),
            Refusal::Syntax { at } => Ok(Refusal::Syntax { at: *at }),
            Refusal::Profile { rule, at } => Ok(Refusal::Profile {
                rule: *rule,
                at: *at,
            }),
            Refusal::Typing { rule, at } => Ok(Refusal::Typing {
                rule: *rule,
                at: *at,
            }),
            Refusal::NoEntry { name } => Ok(Refusal::NoEntry {
                name: name.duplicate(alloc)?,
            }),
            Refusal::NoContract { name } => Ok(Refusal::NoContract {
                name: name.duplicate(alloc)?,
            }),
            Refusal::NoAssigns { name } => Ok(Refusal::NoAssigns {
                name: name.duplicate(alloc)?,
            }),
            Refusal::Recursive { cycle } => Ok(Refusal::Recursive {
                cycle: cycle.duplicate(alloc)?,
            }),
            Refusal::Limit { limit, found } => Ok(Refusal::Limit {
                limit: *limit,
                found: *found,
            }),
        }
    }
}
