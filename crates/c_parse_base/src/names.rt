//! Which names are typedef names, scope by scope.
ghost use Rattle.std.specs.Prelude.{◌≡◌, ◌≤◌, ◌<◌, ◌∷◌, [], IfOk, OnOk, IsSome, List, ℕ, bytes_eq, cond, drop, length};
ghost use Rattle.indexmap.specs.IndexMap.{get};
ghost use Rattle.c_tree.specs.WellFormed.{is_typedef};
ghost use Rattle.c_parse_base.specs.KnownNames.{kept, a_use};

use c_base::name::Name;
use c_base::token::Token;
use indexmap::IndexMap;
use std::alloc::{AllocError, Global};
use std::marker::Model;

/// What a name is since its declaration.
#[derive(Drop)]
pub struct NameUse {
    name: Name,
    // a typedef name; else an ordinary one: a variable, a function or an enumeration constant
    is_typedef: bool,
    // whether the older use that this one hides makes it a typedef name, if there is one
    hidden: Option<bool>,
}

impl Model for NameUse {
    ghost use Rattle.c_parse_base.specs.Newest.{Hiding};

    ghost Value = { Hiding };

    ghost view = { λ u. record { known = record { name = u.name; is_typedef = u.is_typedef }; hidden = u.hidden } };
}

/// The names that are declared. An inner scope hides the outer ones (C11 6.2.1p4). They also hold how far tokens were read in vain.
#[derive(Drop)]
pub struct TypeNames {
    // in the order of their declarations
    uses: Vec<NameUse>,
    // whether the newest use of each name makes it a typedef name
    newest: IndexMap<Name, bool>,
    // how many of the uses were declared before the innermost scope that is open
    floor: usize,
    // how many tokens were left at the furthest that was refused
    unread: usize,
}

impl Model for TypeNames {
    ghost use Rattle.std.specs.Prelude.{◌≤◌, length, reverse, bytes_eq};
    ghost use Rattle.indexmap.specs.IndexMap.{get};
    ghost use Rattle.c_parse_base.specs.KnownNames.{Known};
    ghost use Rattle.c_parse_base.specs.Newest.{known_of, IsLookup};

    ghost Value = { Known };

    ghost view = { λ t. record { names = known_of (reverse t.uses.items); floor = t.floor } };

    ghost invariant = { λ t. (t.floor ≤ length t.uses.items) × IsLookup (get bytes_eq t.newest) (reverse t.uses.items) };
}

// Puts what the newest use of a name hid in its place.
fn restore(newest: &mut IndexMap<Name, bool>, name: &Name, hidden: Option<bool>)
    requires { IsSome (get bytes_eq newest.now name.now) }
    ensures { (other : List ℕ) → get bytes_eq newest.new other ≡ cond (bytes_eq name.now other) hidden (get bytes_eq newest.old other) }
{
    match hidden {
        None => {
            newest.swap_remove(name);
        }
        Some(is_typedef) => {
            if let Some(found) = newest.get_mut(name) {
                *found = is_typedef;
            }
        }
    }
}

impl TypeNames {
    /// No name is declared.
    pub fn new(alloc: Global) -> TypeNames
        ensures { result.names ≡ [] }
    {
        TypeNames {
            uses: Vec::new(alloc),
            newest: IndexMap::new(alloc),
            floor: 0,
            unread: usize::MAX,
        }
    }

    /// The name is a typedef name where the newest declaration of it makes it one (C11 6.7.8).
    pub fn is_typedef(&self, name: &Name) -> bool
        ensures { result ≡ is_typedef (self.now.names) name.now }
    {
        match self.newest.get(name) {
            None => false,
            Some(is_typedef) => *is_typedef,
        }
    }

    /// Declares a name.
    pub fn declare(&mut self, name: Name, is_typedef: bool) -> Result<(), AllocError>
        ensures added { OnOk result (self.new.names ≡ a_use name is_typedef ∷ self.old.names) }
        ensures kept { kept self.new ≡ kept self.old }
    {
        let key = name.duplicate(*self.uses.allocator())?;
        // With room for it the push below succeeds, so that the map and the uses agree whatever fails.
        self.uses.reserve(1)?;
        let hidden = self.newest.insert(key, is_typedef)?;
        self.uses.push(NameUse {
            name,
            is_typedef,
            hidden,
        })?;
        Ok(())
    }

    /// Opens a scope. What it answers is for the call that closes it.
    pub fn enter(&mut self) -> usize
        ensures below { result ≡ self.old.floor }
        ensures same { self.new.names ≡ self.old.names }
        ensures kept { (kept self.new).names ≡ self.old.names }
        ensures above { result ≤ self.new.floor }
    {
        let below = self.floor;
        self.floor = self.uses.len();
        below
    }

    // Undoes the newest declaration: what it hid is in force again.
    fn forget_newest(&mut self)
        requires { self.now.floor < length self.now.names }
        ensures names { self.new.names ≡ drop 1 self.old.names }
        ensures floor { self.new.floor ≡ self.old.floor }
    {
        if let Some(last) = self.uses.pop() {
            restore(&mut self.newest, &last.name, last.hidden);
        }
    }

    /// Closes the innermost scope and forgets what was declared in it.
    pub fn leave(&mut self, below: usize)
        requires { below ≤ self.now.floor }
        ensures names { self.new.names ≡ (kept self.old).names }
        ensures floor { self.new.floor ≡ below }
    {
        let count = self.uses.len() - self.floor;
        for _ in 0..count {
            self.forget_newest();
        }
        self.floor = below;
    }

    /// Closes the innermost scope and leaves what was declared in it to the scope around it.
    pub fn merge(&mut self, below: usize)
        requires { below ≤ self.now.floor }
        ensures names { self.new.names ≡ self.old.names }
        ensures floor { self.new.floor ≡ below }
    {
        self.floor = below;
    }

    /// Notes that nothing goes on with the first of these tokens.
    pub fn refuse(&mut self, tokens: &[Token])
        ensures { self.new ≡ self.old }
    {
        self.unread = self.unread.min(tokens.len());
    }

    /// How many tokens were left at the furthest that was refused, among all that was read with these names; `usize::MAX` before that.
    pub fn unread(&self) -> usize {
        self.unread
    }

    /// The same names once more, with nothing refused yet.
    pub fn duplicate(&self, alloc: Global) -> Result<TypeNames, AllocError>
        ensures { IfOk result (λ copy. copy ≡ self.now) }
    {
        let mut copy = TypeNames::new(alloc);
        for known in &self.uses {
            copy.declare(known.name.duplicate(alloc)?, known.is_typedef)?;
        }
        copy.floor = self.floor;
        Ok(copy)
    }
}
