//! The text of the report of a program.

ghost use Rattle.std.specs.Prelude.{◌≡◌, ◌+◌, ◌-◌, ◌<◌, ◌≤◌, ◌^◌, ◌++◌, [], not, length, IfOk, OnOk};
ghost use Rattle.first_program.specs.Meaning.{meaning_of};
ghost use Rattle.first_program.specs.SourceViews.{program_of, IsShaped};
ghost use Rattle.first_analysis.specs.Tables.{IsAnalysis};
ghost use Rattle.eva_report.specs.Report.{all_texts, stmt_text, alarm_text, is_clean, report_text};
ghost use Rattle.eva_claim.specs.Claims.{IsReportOf, names_of};
ghost use Rattle.first_report.specs.Rows as rows;

use crate::build::make_stmt;
use c_base::kind::Kind;
use c_base::number::{Span, StmtId};
use eva_report::{ReportAlarm, push_alarm, push_first_line, push_last_line, push_stmt};
use first_analysis::evaluation::Kinds;
use first_analysis::place::Place;
use first_program::tree::Program;
use sqlite_items::Items;
use std::alloc::{AllocError, Global};

// The lines of a statement.
fn push_line(
    alloc: Global,
    text: &mut Vec<u8>,
    program: &Program,
    id: u32,
    span: Span,
    place: &Place,
) -> Result<(), AllocError>
    requires { length program.now.variables < 2 ^ 32 - 1 }
    ensures { OnOk result (text.new.items ≡ text.old.items ++ stmt_text
        (rows.line_of (names_of (meaning_of (program_of program.now))) (length program.now.variables) id place.now span)) }
{
    let stmt = make_stmt(alloc, program, id, span, place)?;
    push_stmt(alloc, text, &stmt)
}

// The lines of all statements.
fn push_lines(
    alloc: Global,
    text: &mut Vec<u8>,
    program: &Program,
    places: &[Place],
) -> Result<(), AllocError>
    requires variables { length program.now.variables < 2 ^ 32 - 1 }
    requires spans { length places.now ≡ length program.now.spans }
    requires few { length places.now ≤ 200000 }
    ensures { OnOk result (text.new.items ≡ text.old.items ++ all_texts stmt_text
        (rows.lines_from (names_of (meaning_of (program_of program.now))) (length program.now.variables) 1 places.now program.now.spans)) }
{
    let spans = program.spans.as_slice();
    for index in 0..places.len() {
        push_line(
            alloc,
            text,
            program,
            index as u32 + 1,
            spans[index],
            &places[index],
        )?;
    }
    Ok(())
}

// An alarm, if there is one.
fn push_alarm_if(
    alloc: Global,
    text: &mut Vec<u8>,
    is_there: bool,
    kind: Kind,
    id: u32,
) -> Result<(), AllocError>
    ensures { OnOk result (text.new.items ≡ text.old.items ++ all_texts alarm_text (rows.alarm_if is_there kind id)) }
{
    if !is_there {
        return Ok(());
    }
    let alarm = ReportAlarm {
        kind,
        at: StmtId(id),
        sites: Items::new(alloc),
    };
    push_alarm(alloc, text, &alarm)
}

// The alarms of a statement.
#[tactic(auto, using(crate::proofs::Lines::all_texts_append))]
fn push_kinds(alloc: Global, text: &mut Vec<u8>, id: u32, kinds: Kinds) -> Result<(), AllocError>
    ensures { OnOk result (text.new.items ≡ text.old.items ++ all_texts alarm_text (rows.place_alarms id kinds)) }
{
    push_alarm_if(alloc, text, kinds.overflow, Kind::SignedOverflow, id)?;
    push_alarm_if(alloc, text, kinds.initialization, Kind::Initialization, id)
}

// The alarms of all statements.
fn push_alarms(alloc: Global, text: &mut Vec<u8>, places: &[Place]) -> Result<(), AllocError>
    requires { length places.now ≤ 200000 }
    ensures { OnOk result (text.new.items ≡ text.old.items ++ all_texts alarm_text (rows.alarms_from 1 places.now)) }
{
    for index in 0..places.len() {
        push_kinds(alloc, text, index as u32 + 1, places[index].kinds)?;
    }
    Ok(())
}

// Whether there is an alarm.
fn is_alarmed(places: &[Place]) -> bool
    ensures { is_clean (rows.alarms_from 1 places.now) ≡ not result }
{
    for place in places {
        if place.kinds.overflow {
            return true;
        }
        if place.kinds.initialization {
            return true;
        }
    }
    false
}

/// A report's text, and whether the report has an alarm.
#[derive(Drop)]
pub struct Printed {
    pub text: Vec<u8>,
    pub alarmed: bool,
}

// The text of the report.
fn make_text(
    alloc: Global,
    program: &Program,
    places: &[Place],
    alarmed: bool,
) -> Result<Vec<u8>, AllocError>
    requires variables { length program.now.variables < 2 ^ 32 - 1 }
    requires spans { length places.now ≡ length program.now.spans }
    requires few { length places.now ≤ 200000 }
    requires flag { is_clean (rows.alarms_from 1 places.now) ≡ not alarmed }
    ensures { IfOk result (λ text. text.items ≡ report_text (rows.report_of (program_of program.now) places.now)) }
{
    let mut text = Vec::new(alloc);
    push_first_line(&mut text)?;
    push_lines(alloc, &mut text, program, places)?;
    push_alarms(alloc, &mut text, places)?;
    push_last_line(&mut text, !alarmed)?;
    Ok(text)
}

/// The report of a program whose places are known.
pub fn print_report(
    alloc: Global,
    program: &Program,
    places: &[Place],
) -> Result<Printed, AllocError>
    requires shaped { IsShaped (program_of program.now) }
    requires places { IsAnalysis (program_of program.now) places.now }
    ensures { IfOk result (λ p. IsReportOf (meaning_of (program_of program.now)) p.alarmed p.text.items) }
{
    let alarmed = is_alarmed(places);
    let text = make_text(alloc, program, places, alarmed)?;
    Ok(Printed { text, alarmed })
}
