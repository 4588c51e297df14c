//! The lines of a report, appended to a text.

ghost use Rattle.std.specs.Prelude.{◌≡◌, ◌+◌, ◌++◌, [], map, pos, unsigned_abs, IfOk, OnOk};
ghost use Rattle.std.specs.Fmt.{decimal, signed_decimal};
ghost use lib.Chars.{codes};
ghost use Rattle.std.specs.Int.{int_rem_euclid};
ghost use Rattle.ival_core.specs.Sets.{IsLongRun};
ghost use Rattle.eva_report.specs.Report as texts;
ghost use Rattle.eva_report.specs.Report.{joined, all_texts};
ghost use Rattle.eva_report.specs.Views.{numbers_of, base_of, part_of, entry_of, row_of, sites_of, string_of, stmt_of, alarm_of, report_of};

use crate::report::{
    Report, ReportAlarm, ReportBase, ReportEntry, ReportPart, ReportRow, ReportStmt, ReportString,
};
use crate::text::{Line, push_all, push_joined, push_number, push_signed, push_text, push_wide};
use c_base::kind::Kind;
use c_base::name::Name;
use c_base::number::SiteId;
use ival_core::{Ival, Progression, Shape};
use std::alloc::{AllocError, Global};

fn kind_text(kind: Kind) -> &'static [u8]
    ensures { result.now ≡ texts.kind_name kind }
{
    match kind {
        Kind::DivisionByZero => b"division_by_zero",
        Kind::SignedOverflow => b"signed_overflow",
        Kind::Shift => b"shift",
        Kind::MemAccess => b"mem_access",
        Kind::IndexBound => b"index_bound",
        Kind::Initialization => b"initialization",
        Kind::DanglingPointer => b"dangling_pointer",
        Kind::PtrComparison => b"ptr_comparison",
        Kind::DifferingBlocks => b"differing_blocks",
        Kind::Overlap => b"overlap",
        Kind::FunctionPointer => b"function_pointer",
        Kind::Assertion => b"assertion",
        Kind::Precondition => b"precondition",
        Kind::Postcondition => b"postcondition",
    }
}

impl Line for SiteId {
    ghost text = { λ site. texts.site_text site.0 };

    #[tactic(auto, unfolding(crate::specs::Report::site_text))]
    fn push_to(&self, alloc: Global, out: &mut Vec<u8>) -> Result<(), AllocError> {
        push_text(out, b"c")?;
        push_number(alloc, out, self.0 as u64)
    }
}

impl Line for i128 {
    ghost text = { λ n. signed_decimal n };

    fn push_to(&self, alloc: Global, out: &mut Vec<u8>) -> Result<(), AllocError> {
        push_signed(alloc, out, *self)
    }
}

impl Line for ReportBase {
    ghost text = { λ base. texts.base_text (base_of base) };

    #[tactic(auto, unfolding(crate::specs::Report::base_text))]
    fn push_to(&self, alloc: Global, out: &mut Vec<u8>) -> Result<(), AllocError> {
        push_text(out, self.name.as_bytes())?;
        push_text(out, b"#")?;
        push_number(alloc, out, self.id.0 as u64)
    }
}

// At most 8 numbers in braces.
#[tactic(auto, unfolding(crate::specs::Report::set_text))]
fn push_set(alloc: Global, out: &mut Vec<u8>, numbers: &[i128]) -> Result<(), AllocError>
    ensures { OnOk result (out.new.items ≡ out.old.items ++ texts.set_text (map signed_decimal numbers.now)) }
{
    push_text(out, b"{")?;
    push_joined(alloc, out, b"; ", numbers)?;
    push_text(out, b"}")
}

#[tactic(auto, unfolding(crate::specs::Report::bounds_text))]
fn push_bounds(alloc: Global, out: &mut Vec<u8>, low: i128, high: i128) -> Result<(), AllocError>
    ensures { OnOk result
        (out.new.items ≡ out.old.items ++ texts.bounds_text (signed_decimal low) (signed_decimal high)) }
{
    push_text(out, b"[")?;
    push_signed(alloc, out, low)?;
    push_text(out, b"..")?;
    push_signed(alloc, out, high)?;
    push_text(out, b"]")
}

// The remainder and the modulus of an interval, where the modulus is above 1.
#[tactic(auto, unfolding(crate::specs::Report::modulus_text))]
fn push_modulus(
    alloc: Global,
    out: &mut Vec<u8>,
    remainder: u128,
    modulus: u128,
) -> Result<(), AllocError>
    ensures { OnOk result (out.new.items ≡ out.old.items ++ texts.modulus_text remainder modulus) }
{
    if modulus <= 1 {
        return Ok(());
    }
    push_text(out, b",")?;
    push_wide(alloc, out, remainder)?;
    push_text(out, b"%")?;
    push_wide(alloc, out, modulus)
}

// The remainder that all numbers of an interval leave.
fn remainder_of(run: &Progression) -> u128
    requires { IsLongRun run.now }
    ensures { result ≡ unsigned_abs (int_rem_euclid run.now.low (pos run.now.stride)) }
{
    run.low.rem_euclid(run.stride as i128).unsigned_abs()
}

impl Line for Ival {
    ghost text = { λ v. texts.numbers_text (numbers_of v.shape) };

    fn push_to(&self, alloc: Global, out: &mut Vec<u8>) -> Result<(), AllocError> {
        match self.shape() {
            Shape::Few(few) => push_set(alloc, out, few.as_slice()),
            Shape::Many(run) => {
                push_bounds(alloc, out, run.low, run.high)?;
                push_modulus(alloc, out, remainder_of(run), run.stride)
            }
        }
    }
}

impl Line for ReportPart {
    ghost text = { λ part. texts.part_text (part_of part) };

    fn push_to(&self, alloc: Global, out: &mut Vec<u8>) -> Result<(), AllocError> {
        match self {
            ReportPart::Number(v) => v.push_to(alloc, out),
            ReportPart::Address(base, offsets) => push_address(alloc, out, base, offsets),
            ReportPart::Mix(bases) => push_mix(alloc, out, bases.as_slice()),
            ReportPart::Uninit => push_text(out, b"uninit"),
            ReportPart::Dead => push_text(out, b"dead"),
        }
    }
}

#[tactic(auto, unfolding(crate::specs::Report::address_text))]
fn push_address(
    alloc: Global,
    out: &mut Vec<u8>,
    base: &ReportBase,
    offsets: &Ival,
) -> Result<(), AllocError>
    ensures { OnOk result (out.new.items ≡ out.old.items
        ++ texts.address_text (texts.base_text (base_of base.now)) (texts.numbers_text (numbers_of offsets.now.shape))) }
{
    push_text(out, b"&")?;
    base.push_to(alloc, out)?;
    push_text(out, b"+")?;
    offsets.push_to(alloc, out)
}

#[tactic(auto, using(crate::proofs::Lists::map_twice))]
fn push_bases(alloc: Global, out: &mut Vec<u8>, bases: &[ReportBase]) -> Result<(), AllocError>
    ensures { OnOk result (out.new.items ≡ out.old.items ++ joined (codes ",") (map texts.base_text (map base_of bases.now))) }
{
    push_joined(alloc, out, b",", bases)
}

#[tactic(auto, unfolding(crate::specs::Report::mix_text))]
fn push_mix(alloc: Global, out: &mut Vec<u8>, bases: &[ReportBase]) -> Result<(), AllocError>
    ensures { OnOk result (out.new.items ≡ out.old.items ++ texts.mix_text (map texts.base_text (map base_of bases.now))) }
{
    push_text(out, b"mix(")?;
    push_bases(alloc, out, bases)?;
    push_text(out, b")")
}

#[tactic(auto, unfolding(crate::specs::Report::range_text))]
fn push_range(
    alloc: Global,
    out: &mut Vec<u8>,
    base: &ReportBase,
    low: u64,
    high: u64,
) -> Result<(), AllocError>
    ensures { OnOk result
        (out.new.items ≡ out.old.items ++ texts.range_text (texts.base_text (base_of base.now)) low high) }
{
    base.push_to(alloc, out)?;
    push_text(out, b" ")?;
    push_number(alloc, out, low)?;
    push_text(out, b"..")?;
    push_number(alloc, out, high)
}

fn push_size(alloc: Global, out: &mut Vec<u8>, size: Option<u32>) -> Result<(), AllocError>
    ensures { OnOk result (out.new.items ≡ out.old.items ++ texts.size_text size) }
{
    match size {
        None => Ok(()),
        Some(size) => {
            push_text(out, b"/")?;
            push_number(alloc, out, size as u64)
        }
    }
}

#[tactic(auto, using(crate::proofs::Lists::map_twice))]
fn push_parts(alloc: Global, out: &mut Vec<u8>, parts: &[ReportPart]) -> Result<(), AllocError>
    ensures { OnOk result (out.new.items ≡ out.old.items ++ texts.parts_text (map part_of parts.now)) }
{
    push_joined(alloc, out, b" or ", parts)
}

impl Line for ReportEntry {
    ghost text = { λ e. texts.entry_text (entry_of e) };

    #[tactic(auto, unfolding(crate::specs::Report::entry_text))]
    fn push_to(&self, alloc: Global, out: &mut Vec<u8>) -> Result<(), AllocError> {
        push_range(alloc, out, &self.base, self.low, self.high)?;
        push_size(alloc, out, self.size)?;
        push_text(out, b" ")?;
        push_parts(alloc, out, self.parts.as_slice())?;
        push_text(out, b"\n")
    }
}

#[tactic(auto, using(crate::proofs::Lists::all_texts_map))]
fn push_entries(alloc: Global, out: &mut Vec<u8>, entries: &[ReportEntry]) -> Result<(), AllocError>
    ensures { OnOk result (out.new.items ≡ out.old.items ++ all_texts texts.entry_text (map entry_of entries.now)) }
{
    push_all(alloc, out, entries)
}

impl Line for ReportRow {
    ghost text = { λ row. texts.row_text (row_of row) };

    #[tactic(auto, unfolding(crate::specs::Report::row_head))]
    fn push_to(&self, alloc: Global, out: &mut Vec<u8>) -> Result<(), AllocError> {
        push_text(out, b"row\n")?;
        push_entries(alloc, out, self.0.as_slice())
    }
}

#[tactic(auto, using(crate::proofs::Lists::all_texts_map))]
fn push_rows(alloc: Global, out: &mut Vec<u8>, rows: &[ReportRow]) -> Result<(), AllocError>
    ensures { OnOk result (out.new.items ≡ out.old.items ++ all_texts texts.row_text (map row_of rows.now)) }
{
    push_all(alloc, out, rows)
}

#[tactic(auto, using(crate::proofs::Lists::map_twice))]
fn push_some_sites(alloc: Global, out: &mut Vec<u8>, sites: &[SiteId]) -> Result<(), AllocError>
    ensures { OnOk result (out.new.items ≡ out.old.items ++ joined (codes ".") (map texts.site_text (sites_of sites.now))) }
{
    push_joined(alloc, out, b".", sites)
}

#[tactic(auto, using(crate::proofs::Lists::some_sites))]
fn push_sites(alloc: Global, out: &mut Vec<u8>, sites: &[SiteId]) -> Result<(), AllocError>
    ensures { OnOk result (out.new.items ≡ out.old.items ++ texts.sites_text (sites_of sites.now)) }
{
    if sites.is_empty() {
        push_text(out, b"-")
    } else {
        push_some_sites(alloc, out, sites)
    }
}

#[tactic(auto, unfolding(crate::specs::Report::string_head))]
fn push_string_head(alloc: Global, out: &mut Vec<u8>, sites: &[SiteId]) -> Result<(), AllocError>
    ensures { OnOk result (out.new.items ≡ out.old.items ++ texts.string_head (texts.sites_text (sites_of sites.now))) }
{
    push_text(out, b"in ")?;
    push_sites(alloc, out, sites)?;
    push_text(out, b"\n")
}

impl Line for ReportString {
    ghost text = { λ s. texts.string_text (string_of s) };

    fn push_to(&self, alloc: Global, out: &mut Vec<u8>) -> Result<(), AllocError> {
        push_string_head(alloc, out, self.sites.as_slice())?;
        push_rows(alloc, out, self.rows.as_slice())
    }
}

#[tactic(auto, using(crate::proofs::Lists::all_texts_map))]
fn push_strings(
    alloc: Global,
    out: &mut Vec<u8>,
    strings: &[ReportString],
) -> Result<(), AllocError>
    ensures { OnOk result (out.new.items ≡ out.old.items ++ all_texts texts.string_text (map string_of strings.now)) }
{
    push_all(alloc, out, strings)
}

#[tactic(auto, unfolding(crate::specs::Report::stmt_head))]
fn push_stmt_head(alloc: Global, out: &mut Vec<u8>, stmt: &ReportStmt) -> Result<(), AllocError>
    ensures { OnOk result (out.new.items ≡ out.old.items ++ texts.stmt_head stmt.now.id.0 stmt.now.span stmt.now.function) }
{
    push_text(out, b"stmt ")?;
    push_number(alloc, out, stmt.id.0 as u64)?;
    push_text(out, b" ")?;
    push_number(alloc, out, stmt.span.line as u64)?;
    push_text(out, b":")?;
    push_number(alloc, out, stmt.span.col as u64)?;
    push_text(out, b" ")?;
    push_text(out, stmt.function.as_bytes())?;
    push_text(out, b"\n")
}

impl Line for ReportStmt {
    ghost text = { λ s. texts.stmt_text (stmt_of s) };

    fn push_to(&self, alloc: Global, out: &mut Vec<u8>) -> Result<(), AllocError> {
        push_stmt_head(alloc, out, self)?;
        push_strings(alloc, out, self.strings.as_slice())
    }
}

#[tactic(auto, using(crate::proofs::Lists::all_texts_map))]
fn push_stmts(alloc: Global, out: &mut Vec<u8>, stmts: &[ReportStmt]) -> Result<(), AllocError>
    ensures { OnOk result (out.new.items ≡ out.old.items ++ all_texts texts.stmt_text (map stmt_of stmts.now)) }
{
    push_all(alloc, out, stmts)
}

#[tactic(auto, using(crate::proofs::Lists::all_texts_map))]
fn push_alarms(alloc: Global, out: &mut Vec<u8>, alarms: &[ReportAlarm]) -> Result<(), AllocError>
    ensures { OnOk result (out.new.items ≡ out.old.items ++ all_texts texts.alarm_text (map alarm_of alarms.now)) }
{
    push_all(alloc, out, alarms)
}

#[tactic(auto, using(crate::proofs::Lists::clean_without))]
fn is_clean(alarms: &[ReportAlarm]) -> bool
    ensures { result ≡ texts.is_clean (map alarm_of alarms.now) }
{
    alarms.is_empty()
}

impl Line for ReportAlarm {
    ghost text = { λ a. texts.alarm_text (alarm_of a) };

    #[tactic(auto, unfolding(crate::specs::Report::alarm_line))]
    fn push_to(&self, alloc: Global, out: &mut Vec<u8>) -> Result<(), AllocError> {
        push_text(out, b"alarm ")?;
        push_text(out, kind_text(self.kind))?;
        push_text(out, b" ")?;
        push_number(alloc, out, self.at.0 as u64)?;
        push_text(out, b" in ")?;
        push_sites(alloc, out, self.sites.as_slice())?;
        push_text(out, b"\n")
    }
}

impl Line for Name {
    ghost text = { λ name. texts.hyp_text name };

    #[tactic(auto, unfolding(crate::specs::Report::hyp_text))]
    fn push_to(&self, alloc: Global, out: &mut Vec<u8>) -> Result<(), AllocError> {
        push_text(out, b"hyp ")?;
        push_text(out, self.as_bytes())?;
        push_text(out, b"\n")
    }
}

/// Appends a statement's line, with the lines of its call strings and rows.
pub fn push_stmt(alloc: Global, out: &mut Vec<u8>, stmt: &ReportStmt) -> Result<(), AllocError>
    ensures { OnOk result (out.new.items ≡ out.old.items ++ texts.stmt_text (stmt_of stmt.now)) }
{
    stmt.push_to(alloc, out)
}

/// Appends an alarm's line.
pub fn push_alarm(alloc: Global, out: &mut Vec<u8>, alarm: &ReportAlarm) -> Result<(), AllocError>
    ensures { OnOk result (out.new.items ≡ out.old.items ++ texts.alarm_text (alarm_of alarm.now)) }
{
    alarm.push_to(alloc, out)
}

/// Appends the first line, which names the format.
#[tactic(auto, unfolding(crate::specs::Report::first_line))]
pub fn push_first_line(out: &mut Vec<u8>) -> Result<(), AllocError>
    ensures { OnOk result (out.new.items ≡ out.old.items ++ texts.first_line) }
{
    push_text(out, b"eva 1\n")
}

/// Appends the last line, which says whether there is an alarm.
#[tactic(auto, unfolding(crate::specs::Report::end_line))]
pub fn push_last_line(out: &mut Vec<u8>, clean: bool) -> Result<(), AllocError>
    ensures { OnOk result (out.new.items ≡ out.old.items ++ texts.end_line clean) }
{
    if clean {
        push_text(out, b"end clean\n")
    } else {
        push_text(out, b"end alarmed\n")
    }
}

/// The text of a report.
pub fn print_report(alloc: Global, report: &Report) -> Result<Vec<u8>, AllocError>
    ensures { IfOk result (λ text. text.items ≡ texts.report_text (report_of report.now)) }
{
    let mut out = Vec::new(alloc);
    push_first_line(&mut out)?;
    push_all(alloc, &mut out, report.hyps.as_slice())?;
    push_stmts(alloc, &mut out, report.stmts.as_slice())?;
    push_alarms(alloc, &mut out, report.alarms.as_slice())?;
    push_last_line(&mut out, is_clean(report.alarms.as_slice()))?;
    Ok(out)
}
