//! The lines of a report as data, from what is kept at the statements.

ghost use Rattle.std.specs.Prelude.{◌≡◌, ◌+◌, ◌-◌, ◌<◌, ◌^◌, [], ◌∷◌, ◌++◌, map, length, slice_get, pos, false, Some, IfOk, OnOk};
ghost use Rattle.ival_core.specs.Ranges.{ranged};
ghost use Rattle.first_program.specs.Meaning.{meaning_of};
ghost use Rattle.first_program.specs.SourceViews.{program_of};
ghost use Rattle.eva_report.specs.Views as views;
ghost use Rattle.eva_claim.specs.Claims.{names_of};
ghost use Rattle.first_report.specs.Rows as rows;

use c_base::name::Name;
use c_base::number::{BaseId, Span, StmtId};
use eva_report::{ReportBase, ReportEntry, ReportPart, ReportRow, ReportStmt, ReportString};
use first_analysis::content::Content;
use first_analysis::place::Place;
use first_analysis::range::Range;
use first_program::tree::Program;
use ival_core::Ival;
use sqlite_items::Items;
use std::alloc::{AllocError, Global};

// All numbers of a range.
fn numbers(range: Range) -> Ival
    ensures { result.shape ≡ ranged range.low range.high (pos 0) (pos 1) }
{
    Ival::range(range.low as i128, range.high as i128, 0, 1)
}

fn push_flag(parts: &mut Items<ReportPart>, uninit: bool) -> Result<(), AllocError>
    ensures { OnOk result (map views.part_of parts.new ≡ map views.part_of parts.old ++ rows.flag_parts uninit) }
{
    if uninit {
        parts.push(ReportPart::Uninit)?;
    }
    Ok(())
}

fn push_numbers(
    parts: &mut Items<ReportPart>,
    range: Option<Range>,
) -> Result<Option<u32>, AllocError>
    ensures size { IfOk result (λ size. size ≡ rows.size_of (rows.bounds_of range)) }
    ensures parts { OnOk result (map views.part_of parts.new
        ≡ map views.part_of parts.old ++ rows.parts_of (rows.bounds_of range) false) }
{
    match range {
        None => Ok(None),
        Some(range) => {
            parts.push(ReportPart::Number(numbers(range)))?;
            Ok(Some(32))
        }
    }
}

// The entry of a variable of type int.
#[tactic(auto, using(crate::proofs::Entries::entry_parts))]
fn make_entry(
    alloc: Global,
    name: &Name,
    base: u32,
    content: Content,
) -> Result<ReportEntry, AllocError>
    ensures { IfOk result (λ e. views.entry_of e ≡ rows.entry_for name.now base (rows.shown_of content)) }
{
    let mut parts = Items::new(alloc);
    let size = push_numbers(&mut parts, content.range)?;
    push_flag(&mut parts, content.uninit)?;
    let base = ReportBase {
        name: name.duplicate(alloc)?,
        id: BaseId(base),
    };
    Ok(ReportEntry {
        base,
        low: 0,
        high: 31,
        size,
        parts,
    })
}

// What a row says of a variable; a row that lacks it says nothing.
fn content_at(row: &[Content], index: usize) -> Content
    ensures { rows.shown_of result ≡ rows.shown_or (slice_get row.now index) }
{
    match row.get(index) {
        None => Content {
            range: Some(Range {
                low: -2147483648,
                high: 2147483647,
            }),
            uninit: true,
        },
        Some(content) => *content,
    }
}

fn push_entry(
    alloc: Global,
    entries: &mut Items<ReportEntry>,
    name: &Name,
    base: u32,
    content: Content,
) -> Result<(), AllocError>
    ensures { OnOk result (map views.entry_of entries.new
        ≡ map views.entry_of entries.old ++ rows.entry_for name.now base (rows.shown_of content) ∷ []) }
{
    let entry = make_entry(alloc, name, base, content)?;
    entries.push(entry)
}

// The row of all variables.
fn make_row(alloc: Global, program: &Program, row: &[Content]) -> Result<ReportRow, AllocError>
    requires { length program.now.variables < 2 ^ 32 - 1 }
    ensures { IfOk result (λ r. views.row_of r ≡ rows.row_from (names_of (meaning_of (program_of program.now))) 1
        (rows.shown_all (length program.now.variables) row.now)) }
{
    let variables = program.variables.as_slice();
    let mut entries = Items::new(alloc);
    for index in 0..variables.len() {
        push_entry(
            alloc,
            &mut entries,
            &variables[index],
            index as u32 + 1,
            content_at(row, index),
        )?;
    }
    Ok(ReportRow(entries))
}

// The rows of a statement: one, where it is reached.
fn push_string(
    alloc: Global,
    strings: &mut Items<ReportString>,
    program: &Program,
    row: &[Content],
) -> Result<(), AllocError>
    requires { length program.now.variables < 2 ^ 32 - 1 }
    ensures { OnOk result (map views.string_of strings.new ≡ map views.string_of strings.old
        ++ rows.strings_of (names_of (meaning_of (program_of program.now))) (length program.now.variables) (Some row.now)) }
{
    let mut rows = Items::new(alloc);
    rows.push(make_row(alloc, program, row)?)?;
    strings.push(ReportString {
        sites: Items::new(alloc),
        rows,
    })
}

/// The line of a statement, and its row where it is reached.
pub fn make_stmt(
    alloc: Global,
    program: &Program,
    id: u32,
    span: Span,
    place: &Place,
) -> Result<ReportStmt, AllocError>
    requires { length program.now.variables < 2 ^ 32 - 1 }
    ensures { IfOk result (λ s. views.stmt_of s ≡ rows.line_of (names_of (meaning_of (program_of program.now)))
        (length program.now.variables) id place.now span) }
{
    let mut strings = Items::new(alloc);
    if let Some(row) = &place.row {
        push_string(alloc, &mut strings, program, row.as_slice())?;
    }
    Ok(ReportStmt {
        id: StmtId(id),
        span,
        function: Name::from_bytes(alloc, b"main")?,
        strings,
    })
}
