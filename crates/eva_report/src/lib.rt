//! Reports as plain data, and their text.
#![tactic(auto)]

mod print;
mod report;
mod text;

pub use print::{print_report, push_alarm, push_first_line, push_last_line, push_stmt};
pub use report::{
    Report, ReportAlarm, ReportBase, ReportEntry, ReportPart, ReportRow, ReportStmt, ReportString,
};
pub use text::{push_number, push_text};
