//! Programs over a fixed set of objects and functions, each named by one letter.

use crate::builder::{Builder, both, one};
use crate::objects::{Entry, base_named, entries};
use crate::statements::{bytes, objects};
use crate::types::{INT, Of, is_function, type_of};
use c_base::integer::{IntKind, Machine};
use c_base::name::Name;
use c_base::number::{BaseId, StmtId};
use c_program::program::{Base, Block, Function, TypedProgram};
use c_typed_stmt::init::Image;
use c_types::ctype::{Composite, Composites, Extent, Member};
use c_types::duplicate::Mem;
use sqlite_items::Items;
use std::alloc::Global;

/// What each byte of the object holds before the run, where it isn't zero.
fn image_of(alloc: Global, entry: &Entry) -> Mem<Option<Image>> {
    if entry.bytes == 0 {
        return Ok(None);
    }
    Ok(Some(bytes(alloc, entry.size, entry.bytes)?))
}

/// `named`: the functions whose names are used otherwise than in direct calls.
fn base_of(alloc: Global, entry: &Entry, named: &[u8]) -> Mem<Base> {
    let ctype = type_of(alloc, entry.of)?;
    let name = Name::from_bytes(alloc, &[entry.name])?;
    let image = image_of(alloc, entry)?;
    Ok(Base {
        name,
        ctype,
        size: entry.size,
        sort: entry.sort,
        readonly: entry.name == b'k' || entry.name == b'w',
        volatile: entry.name == b'v',
        image,
        named: is_function(entry.of) && named.contains(&entry.name),
    })
}

fn bases_of(alloc: Global, named: &[u8]) -> Mem<Items<Base>> {
    let mut all = Items::new(alloc);
    for entry in &entries() {
        all.push(base_of(alloc, entry, named)?)?;
    }
    Ok(all)
}

fn member(alloc: Global, of: Of) -> Mem<Member> {
    let ctype = type_of(alloc, of)?;
    Ok(Member {
        name: Name::from_bytes(alloc, b"m")?,
        ctype,
        volatile: false,
    })
}

fn composite(alloc: Global, is_union: bool, first: Of, second: Of) -> Mem<Composite> {
    let mut members = one(alloc, member(alloc, first)?)?;
    members.push(member(alloc, second)?)?;
    let size = if is_union { 4 } else { 8 };
    Ok(Composite {
        name: Name::from_bytes(alloc, b"c")?,
        is_union,
        members,
        extent: Some(Extent { size, align: 4 }),
    })
}

/// A struct of a char and an int, and a union of an int and four chars.
fn composites(alloc: Global) -> Mem<Composites> {
    let pair = composite(alloc, false, Of::Int(IntKind::Char), INT)?;
    let mut all = one(alloc, pair)?;
    all.push(composite(alloc, true, INT, Of::FourChars)?)?;
    Ok(all)
}

/// A function: its letter, its formals, its objects, and its statements as words.
#[derive(Clone, Copy)]
pub struct Body<'t> {
    pub function: u8,
    pub formals: &'t str,
    pub locals: &'t str,
    pub text: &'t str,
}

fn read_block(builder: &mut Builder, body: &Body<'_>) -> Mem<Block> {
    builder.open()?;
    builder.read(body.text)?;
    builder.take_block(body.locals.as_bytes())
}

fn function_of(alloc: Global, body: &Body<'_>) -> Mem<Function> {
    let formals = objects(alloc, body.formals.as_bytes())?;
    let mut builder = Builder::new(alloc);
    let block = read_block(&mut builder, body)?;
    Ok(Function {
        base: base_named(body.function),
        formals,
        contract: None,
        body: Some(block),
        end: StmtId(99),
    })
}

fn functions_of(alloc: Global, bodies: &[Body<'_>]) -> Mem<Items<Function>> {
    let mut all = Items::new(alloc);
    for body in bodies {
        all.push(function_of(alloc, body)?)?;
    }
    Ok(all)
}

/// The program that begins with `m`, whose functions stand in the order of their objects; the functions with these names may be pointed to.
pub fn program_of(alloc: Global, named: &str, bodies: &[Body<'_>]) -> Mem<TypedProgram> {
    let comps = composites(alloc)?;
    let (bases, functions) = both(
        bases_of(alloc, named.as_bytes()),
        functions_of(alloc, bodies),
    )?;
    Ok(TypedProgram {
        machine: Machine::Lp64,
        comps,
        bases,
        functions,
        entry: BaseId(0),
        lib_entry: false,
        marks: Items::new(alloc),
        statements: Items::new(alloc),
    })
}
