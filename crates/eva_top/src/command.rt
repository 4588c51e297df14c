ghost use Rattle.std.specs.Prelude.{◌≡◌, ◌≤◌, ◌++◌, ◌∷◌, [], ℕ, List, false, length, map, string_bytes, ◌≢◌, IfOk, OnOk};
ghost use Rattle.first_program.specs.Meaning.{meaning_of};
ghost use Rattle.first_program.specs.SourceViews.{program_of, IsShaped};
ghost use Rattle.c_parse_expr.specs.Places.{IsRefusedAt};
ghost use Rattle.c_parse_unit.specs.Promises.{HasNoUnit, IsUnitRead};
ghost use Rattle.c_unit_tree.specs.Views.{unit_kids};
ghost use Rattle.first_units.specs.Language.{has_annotation, Spells, SpellsAnother};
ghost use Rattle.first_units.specs.Place.{IsPlaceIn};
ghost use Rattle.c_lex.specs.Lexing.{AreAnswered, IsRefusal};
ghost use Rattle.eva_report.specs.Report.{line_end};
ghost use Rattle.eva_claim.specs.Claims.{IsReportOf};
ghost use Rattle.eva_top.specs.Answers.{Puts, PutsNote, memory_note, usage_note, lex_text, form_text, syntax_text, at_text, limit_text, named_text, sort_name, status_of, IsRead, Answers, sunk, call_of, IsGood, IsOther, IsReportOrMemory};

use crate::status::{Refusal, Status};
use c_base::name::Name;
use c_base::number::Span;
use c_base::token::{LexSort, Token};
use c_lex::LexFault;
use c_parse_expr::ParseFault;
use c_parse_unit::parse_unit;
use c_unit_tree::unit::Unit;
use eva_io::sink::{PutFault, Sink, write_whole};
use eva_io::store::{LoadFault, Store};
use eva_report::{push_number, push_text};
use first_program::tree::Program;
use first_report::{Printed, print_report};
use first_units::places::annotation_in;
use std::alloc::{AllocError, Global};
use std::thread::Threads;

/// The most bytes of a file.
pub const MOST_BYTES: u64 = 16_777_216;

// Writes a text, after which the answer is `status`, or that of the fault.
fn put_text<K: Sink>(sink: &mut K, text: &[u8], status: Status) -> Status
    ensures { Puts status text.now (sunk (K.state sink.old) (K.state sink.new)) result }
{
    match write_whole(sink, text) {
        Ok(()) => status,
        Err(PutFault::Failed) => Status::Unwritten,
        Err(PutFault::Memory) => Status::Memory,
    }
}

fn report_status(alarmed: bool) -> Status
    ensures { result ≡ status_of alarmed }
{
    if alarmed {
        Status::Alarmed
    } else {
        Status::Clean
    }
}

/// Notes that memory was wanting.
pub fn note_memory<N: Sink>(notes: &mut N) -> Status
    ensures { Puts Status.Memory memory_note (sunk (N.state notes.old) (N.state notes.new)) result }
{
    put_text(notes, b"out of memory\n", Status::Memory)
}

/// Notes how the command is used.
pub fn note_usage<N: Sink>(notes: &mut N) -> Status
    ensures { Puts Status.Usage usage_note (sunk (N.state notes.old) (N.state notes.new)) result }
{
    put_text(notes, b"usage: eva FILE\n", Status::Usage)
}

// Writes a note of one line, where there was memory for it.
fn note<N: Sink>(notes: &mut N, status: Status, text: Result<Vec<u8>, AllocError>) -> Status
    ensures { (wanted : List ℕ) → IfOk text (λ t. t.items ≡ wanted)
        → PutsNote status wanted (sunk (N.state notes.old) (N.state notes.new)) result }
{
    match text {
        Err(AllocError) => note_memory(notes),
        Ok(text) => put_text(notes, text.as_slice(), status),
    }
}

// A line that ends in a name.
#[tactic(auto, unfolding(crate::specs::Answers::named_text))]
fn make_named_text(alloc: Global, head: &[u8], name: &Name) -> Result<Vec<u8>, AllocError>
    ensures { IfOk result (λ text. text.items ≡ named_text head.now name.now) }
{
    let mut text = Vec::new(alloc);
    push_text(&mut text, head)?;
    push_text(&mut text, name.as_bytes())?;
    push_text(&mut text, b"\n")?;
    Ok(text)
}

fn sort_text(sort: LexSort) -> &'static [u8]
    ensures { result.now ≡ sort_name sort }
{
    match sort {
        LexSort::BadByte => b"bad byte",
        LexSort::OpenComment => b"open comment",
        LexSort::OpenString => b"open string",
        LexSort::BadNumber => b"bad number",
    }
}

// A place, and the end of its line.
#[tactic(auto, unfolding(crate::specs::Answers::at_text))]
fn push_place(alloc: Global, text: &mut Vec<u8>, at: Span) -> Result<(), AllocError>
    ensures { OnOk result (text.new.items ≡ text.old.items ++ at_text at) }
{
    push_text(text, b" at ")?;
    push_number(alloc, text, at.line as u64)?;
    push_text(text, b":")?;
    push_number(alloc, text, at.col as u64)?;
    push_text(text, b"\n")
}

#[tactic(auto, unfolding(crate::specs::Answers::lex_text))]
fn make_lex_text(alloc: Global, sort: LexSort, at: Span) -> Result<Vec<u8>, AllocError>
    ensures { IfOk result (λ text. text.items ≡ lex_text sort at) }
{
    let mut text = Vec::new(alloc);
    push_text(&mut text, b"refused: lex ")?;
    push_text(&mut text, sort_text(sort))?;
    push_place(alloc, &mut text, at)?;
    Ok(text)
}

#[tactic(auto, unfolding(crate::specs::Answers::form_text))]
fn make_form_text(alloc: Global, at: Span) -> Result<Vec<u8>, AllocError>
    ensures { IfOk result (λ text. text.items ≡ form_text at) }
{
    let mut text = Vec::new(alloc);
    push_text(&mut text, b"refused: form")?;
    push_place(alloc, &mut text, at)?;
    Ok(text)
}

#[tactic(auto, unfolding(crate::specs::Answers::syntax_text))]
fn make_syntax_text(alloc: Global, at: Span) -> Result<Vec<u8>, AllocError>
    ensures { IfOk result (λ text. text.items ≡ syntax_text at) }
{
    let mut text = Vec::new(alloc);
    push_text(&mut text, b"refused: syntax")?;
    push_place(alloc, &mut text, at)?;
    Ok(text)
}

#[tactic(auto, unfolding(crate::specs::Answers::limit_text))]
fn make_limit_text(alloc: Global, limit: u32, found: u64) -> Result<Vec<u8>, AllocError>
    ensures { IfOk result (λ text. text.items ≡ limit_text limit found) }
{
    let mut text = Vec::new(alloc);
    push_text(&mut text, b"refused: limit ")?;
    push_number(alloc, &mut text, limit as u64)?;
    push_text(&mut text, b" found ")?;
    push_number(alloc, &mut text, found)?;
    push_text(&mut text, b"\n")?;
    Ok(text)
}

// A note that a file can't be cut into tokens.
fn note_lex<N: Sink>(alloc: Global, notes: &mut N, fault: LexSort, at: Span) -> Status
    ensures { PutsNote (Status.Refused (Refusal.Lex fault at)) (lex_text fault at)
        (sunk (N.state notes.old) (N.state notes.new)) result }
{
    let text = make_lex_text(alloc, fault, at);
    note(notes, Status::Refused(Refusal::Lex { fault, at }), text)
}

// The answer for a file that has no list of tokens that is short enough.
fn refuse_bytes<N: Sink>(alloc: Global, fault: LexFault, notes: &mut N) -> Status
    ensures { (c : _) (bytes : List ℕ) → IsRead c bytes → IsRefusal bytes fault
        → c.out.after.written ≡ c.out.before.written
        → c.notes ≡ sunk (N.state notes.old) (N.state notes.new)
        → Answers c result }
{
    match fault {
        LexFault::BadByte { at } => note_lex(alloc, notes, LexSort::BadByte, at),
        LexFault::OpenComment { at } => note_lex(alloc, notes, LexSort::OpenComment, at),
        LexFault::OpenString { at } => note_lex(alloc, notes, LexSort::OpenString, at),
        LexFault::BadNumber { at } => note_lex(alloc, notes, LexSort::BadNumber, at),
        LexFault::TooMany { count } => {
            let text = make_limit_text(alloc, 1, count);
            let refusal = Refusal::Limit {
                limit: 1,
                found: count,
            };
            note(notes, Status::Refused(refusal), text)
        }
        LexFault::Memory => note_memory(notes),
    }
}

// The answer for tokens of an annotation, or of another unit than a program of the language.
fn refuse_form<N: Sink>(alloc: Global, at: Span, notes: &mut N) -> Status
    ensures { (c : _) (bytes : List ℕ) (tokens : List Token) → IsRead c bytes → AreAnswered bytes tokens
        → IsOther tokens → IsPlaceIn tokens at
        → c.out.after.written ≡ c.out.before.written
        → c.notes ≡ sunk (N.state notes.old) (N.state notes.new)
        → Answers c result }
{
    let text = make_form_text(alloc, at);
    note(notes, Status::Refused(Refusal::Form { at }), text)
}

// The answer for tokens that spell no unit.
fn refuse_syntax<N: Sink>(alloc: Global, at: Span, notes: &mut N) -> Status
    ensures { (c : _) (bytes : List ℕ) (tokens : List Token) → IsRead c bytes → AreAnswered bytes tokens
        → has_annotation tokens ≡ false → HasNoUnit 200 tokens → IsRefusedAt tokens 0 at
        → c.out.after.written ≡ c.out.before.written
        → c.notes ≡ sunk (N.state notes.old) (N.state notes.new)
        → Answers c result }
{
    let text = make_syntax_text(alloc, at);
    note(notes, Status::Refused(Refusal::Syntax { at }), text)
}

// The answer for a unit that is no program of the language.
fn refuse_unit<N: Sink>(alloc: Global, tokens: &[Token], unit: &Unit, notes: &mut N) -> Status
    ensures { (c : _) (bytes : List ℕ) → IsRead c bytes → AreAnswered bytes tokens.now
        → SpellsAnother tokens.now
        → c.out.after.written ≡ c.out.before.written
        → c.notes ≡ sunk (N.state notes.old) (N.state notes.new)
        → Answers c result }
{
    match first_units::places::refused_at(alloc, unit, tokens) {
        Err(AllocError) => note_memory(notes),
        Ok(at) => refuse_form(alloc, at, notes),
    }
}

// The report of a program.
fn make_report(alloc: Global, program: &Program) -> Result<Printed, AllocError>
    requires { IsShaped (program_of program.now) }
    ensures { IfOk result (λ p. IsReportOf (meaning_of (program_of program.now)) p.alarmed p.text.items) }
{
    let places = first_analysis::analyse(alloc, program)?;
    let printed = print_report(alloc, program, places.as_slice())?;
    Ok(printed)
}

// The answer for a program.
fn report_program<K: Sink, N: Sink>(
    alloc: Global,
    program: &Program,
    out: &mut K,
    notes: &mut N,
) -> Status
    requires { IsShaped (program_of program.now) }
    ensures { (c : _) (bytes : List ℕ) (tokens : List Token) → IsRead c bytes → AreAnswered bytes tokens
        → Spells tokens (program_of program.now)
        → c.out ≡ sunk (K.state out.old) (K.state out.new)
        → c.notes ≡ sunk (N.state notes.old) (N.state notes.new)
        → Answers c result }
{
    match make_report(alloc, program) {
        Err(AllocError) => note_memory(notes),
        Ok(printed) => put_text(out, printed.text.as_slice(), report_status(printed.alarmed)),
    }
}

// The answer for a unit.
fn analyse_unit<K: Sink, N: Sink>(
    alloc: Global,
    tokens: &[Token],
    unit: Unit,
    out: &mut K,
    notes: &mut N,
) -> Status
    ensures { (c : _) (bytes : List ℕ) → IsRead c bytes → AreAnswered bytes tokens.now
        → has_annotation tokens.now ≡ false → IsUnitRead 200 (unit_kids unit) tokens.now
        → c.out ≡ sunk (K.state out.old) (K.state out.new)
        → c.notes ≡ sunk (N.state notes.old) (N.state notes.new)
        → Answers c result }
{
    match first_units::program_in(alloc, &unit) {
        Err(AllocError) => note_memory(notes),
        Ok(None) => refuse_unit(alloc, tokens, &unit, notes),
        Ok(Some(program)) => {
            drop(unit);
            report_program(alloc, &program, out, notes)
        }
    }
}

// The answer for tokens of which none is of an annotation.
fn analyse_plain<K: Sink, N: Sink>(
    alloc: Global,
    tokens: &[Token],
    out: &mut K,
    notes: &mut N,
) -> Status
    ensures { (c : _) (bytes : List ℕ) → IsRead c bytes → AreAnswered bytes tokens.now
        → has_annotation tokens.now ≡ false
        → c.out ≡ sunk (K.state out.old) (K.state out.new)
        → c.notes ≡ sunk (N.state notes.old) (N.state notes.new)
        → Answers c result }
{
    match parse_unit(alloc, tokens) {
        Err(ParseFault::Memory) => note_memory(notes),
        Err(ParseFault::Syntax { at }) => refuse_syntax(alloc, at, notes),
        Ok(unit) => analyse_unit(alloc, tokens, unit, out, notes),
    }
}

// The answer for the tokens of a file.
fn analyse_tokens<K: Sink, N: Sink>(
    alloc: Global,
    tokens: &[Token],
    out: &mut K,
    notes: &mut N,
) -> Status
    ensures { (c : _) (bytes : List ℕ) → IsRead c bytes → AreAnswered bytes tokens.now
        → c.out ≡ sunk (K.state out.old) (K.state out.new)
        → c.notes ≡ sunk (N.state notes.old) (N.state notes.new)
        → Answers c result }
{
    match annotation_in(tokens) {
        Some(at) => refuse_form(alloc, at, notes),
        None => analyse_plain(alloc, tokens, out, notes),
    }
}

// The answer for the whole content of a file.
fn analyse_bytes<K: Sink, N: Sink>(
    alloc: Global,
    bytes: &[u8],
    out: &mut K,
    notes: &mut N,
) -> Status
    requires { length bytes.now ≤ 16777216 }
    ensures { (c : _) → IsRead c bytes.now
        → c.out ≡ sunk (K.state out.old) (K.state out.new)
        → c.notes ≡ sunk (N.state notes.old) (N.state notes.new)
        → Answers c result }
{
    match c_lex::lex(alloc, bytes) {
        Err(fault) => refuse_bytes(alloc, fault, notes),
        Ok(tokens) => analyse_tokens(alloc, tokens.as_slice(), out, notes),
    }
}

// The answer for the file of a name.
fn analyse_file<S: Store, K: Sink, N: Sink>(
    alloc: Global,
    name: &Name,
    store: &mut S,
    out: &mut K,
    notes: &mut N,
) -> Status
    ensures answer { (c : _) → c.words ≡ name.now ∷ []
        → c.told ≡ S.told store.old
        → c.loads_before ≡ S.faults_at store.old
        → c.loads_after ≡ S.faults_at store.new
        → c.out ≡ sunk (K.state out.old) (K.state out.new)
        → c.notes ≡ sunk (N.state notes.old) (N.state notes.new)
        → Answers c result }
    ensures held { (other : List ℕ) → S.told store.new other ≡ S.told store.old other }
    ensures others { (other : List ℕ) → other ≢ name.now → S.faults_at store.new other ≡ S.faults_at store.old other }
{
    match store.load(alloc, name, MOST_BYTES) {
        Err(LoadFault::Failed) => {
            let text = make_named_text(alloc, b"unread: ", name);
            note(notes, Status::Unread, text)
        }
        Err(LoadFault::TooLong) => {
            let text = make_named_text(alloc, b"too long: ", name);
            note(notes, Status::TooLong, text)
        }
        Err(LoadFault::Memory) => note_memory(notes),
        Ok(bytes) => analyse_bytes(alloc, bytes.as_slice(), out, notes),
    }
}

/// Analyses the file that the one word names, and writes its report to `out`, or a note of one line to `notes`.
///
/// The analysis runs on this thread; the runtime is for calls that start threads.
pub fn eva<R: Threads + Sync, S: Store, K: Sink, N: Sink>(
    rt: &R,
    alloc: Global,
    words: &Vec<String>,
    store: &mut S,
    out: &mut K,
    notes: &mut N,
) -> Status
    // Each answer has its cause, and what stands on the sinks after it; a report is sound.
    ensures answer { Answers (call_of (map string_bytes words.now.items) (S.told store.old) (S.faults_at store.old) (S.faults_at store.new)
        (sunk (K.state out.old) (K.state out.new)) (sunk (N.state notes.old) (N.state notes.new))) result }

    // A file in the language gets its report, where no fault comes and memory is there.
    ensures complete { IsGood (call_of (map string_bytes words.now.items) (S.told store.old) (S.faults_at store.old) (S.faults_at store.new)
        (sunk (K.state out.old) (K.state out.new)) (sunk (N.state notes.old) (N.state notes.new))) → IsReportOrMemory result }

    // The store holds what it held.
    ensures held { (name : List ℕ) → S.told store.new name ≡ S.told store.old name }

    // No load of another name failed.
    ensures others { (name : List ℕ) → map string_bytes words.now.items ≢ name ∷ []
        → S.faults_at store.new name ≡ S.faults_at store.old name }
{
    let _ = rt;
    if words.len() != 1 {
        return note_usage(notes);
    }
    match Name::from_bytes(alloc, words[0].as_bytes()) {
        Err(AllocError) => note_memory(notes),
        Ok(name) => analyse_file(alloc, &name, store, out, notes),
    }
}
