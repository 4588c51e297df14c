//! Copies of typed programs.
ghost use Rattle.std.specs.Prelude.{◌≡◌, IfOk};

use crate::program::{Base, Function, TypedProgram};
use c_types::duplicate::{Duplicate, Mem};
use sqlite_items::Items;
use std::alloc::Global;

impl Base {
    /// An equal value.
    pub fn duplicate(&self, alloc: Global) -> Mem<Base>
        ensures { IfOk result (λ copy. copy ≡ self.now) }
    {
        let name = self.name.duplicate(alloc)?;
        let ctype = self.ctype.duplicate(alloc)?;
        Ok(Base {
            name,
            ctype,
            size: self.size,
            sort: self.sort,
            readonly: self.readonly,
            volatile: self.volatile,
            image: self.image.duplicate(alloc)?,
            named: self.named,
        })
    }
}

impl Duplicate for Base {
    fn duplicate(&self, alloc: Global) -> Mem<Base> {
        Base::duplicate(self, alloc)
    }
}

impl Function {
    /// An equal value.
    pub fn duplicate(&self, alloc: Global) -> Mem<Function>
        ensures { IfOk result (λ copy. copy ≡ self.now) }
    {
        let formals = self.formals.duplicate(alloc)?;
        let contract = self.contract.duplicate(alloc)?;
        Ok(Function {
            base: self.base,
            formals,
            contract,
            body: self.body.duplicate(alloc)?,
            end: self.end,
        })
    }
}

impl Duplicate for Function {
    fn duplicate(&self, alloc: Global) -> Mem<Function> {
        Function::duplicate(self, alloc)
    }
}

impl TypedProgram {
    /// An equal value.
    pub fn duplicate(&self, alloc: Global) -> Mem<TypedProgram>
        ensures { IfOk result (λ copy. copy ≡ self.now) }
    {
        let comps = self.comps.duplicate(alloc)?;
        let bases = self.bases.duplicate(alloc)?;
        let functions = self.functions.duplicate(alloc)?;
        let marks = Items::from_slice(alloc, self.marks.as_slice())?;
        Ok(TypedProgram {
            machine: self.machine,
            comps,
            bases,
            functions,
            entry: self.entry,
            lib_entry: self.lib_entry,
            marks,
            statements: Items::from_slice(alloc, self.statements.as_slice())?,
        })
    }
}

impl Duplicate for TypedProgram {
    fn duplicate(&self, alloc: Global) -> Mem<TypedProgram> {
        TypedProgram::duplicate(self, alloc)
    }
}
