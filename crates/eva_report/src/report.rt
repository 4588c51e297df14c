//! Reports as data.

use c_base::kind::Kind;
use c_base::name::Name;
use c_base::number::{BaseId, SiteId, Span, StmtId};
use ival_core::Ival;
use sqlite_items::Items;

/// A base, by its name and number.
#[derive(Drop)]
pub struct ReportBase {
    pub name: Name,
    pub id: BaseId,
}

/// What an element may hold.
#[derive(Drop)]
pub enum ReportPart {
    /// Numbers that were made from no address.
    Number(Ival),
    /// Byte offsets into a base.
    Address(ReportBase, Ival),
    /// Anything made from the addresses of these bases.
    Mix(Items<ReportBase>),
    /// Bits that are not written.
    Uninit,
    /// Bits that were made from the address of an object that has died.
    Dead,
}

/// The bits `low` to `high` of a base, both included, in elements of `size` bits that each hold one of the parts.
#[derive(Drop)]
pub struct ReportEntry {
    pub base: ReportBase,
    pub low: u64,
    pub high: u64,
    /// None where the parts are flags alone.
    pub size: Option<u32>,
    pub parts: Items<ReportPart>,
}

/// A set of memories, by what each range of the live objects may hold.
#[derive(Drop)]
pub struct ReportRow(pub Items<ReportEntry>);

/// The rows of a statement in one call string, which has the outermost call site first.
#[derive(Drop)]
pub struct ReportString {
    pub sites: Items<SiteId>,
    pub rows: Items<ReportRow>,
}

/// A numbered statement with its place in the file and the name of its function.
#[derive(Drop)]
pub struct ReportStmt {
    pub id: StmtId,
    pub span: Span,
    pub function: Name,
    pub strings: Items<ReportString>,
}

/// An operation of a statement that may be undefined in a call string.
#[derive(Drop)]
pub struct ReportAlarm {
    pub kind: Kind,
    pub at: StmtId,
    pub sites: Items<SiteId>,
}

/// The functions without body and contract that were called, the statements with their rows, and the alarms.
#[derive(Drop)]
pub struct Report {
    pub hyps: Items<Name>,
    pub stmts: Items<ReportStmt>,
    pub alarms: Items<ReportAlarm>,
}
