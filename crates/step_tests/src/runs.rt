//! Runs of small programs.

use c_base::kind::Kind;
use c_program::program::TypedProgram;
use c_types::duplicate::Mem;
use std::alloc::Global;
use stepper::start::{start, stepper_of};
use stepper::steps::{Outcome, step};
use stepper_expressions::stepper::Stepper;
use stepper_values::number::{Number, wide};
use stepper_values::value::Held;
use stepper_work::work::State;
use typed_parts::programs::{Body, program_of};

/// How a run ends.
#[derive(Clone, Copy, Drop)]
enum Ended {
    Returned(Number),
    Stopped(Kind, u32),
    /// With another result, or not within some million steps.
    Otherwise,
}

/// Words of main, and what it returns or which kind stops it.
#[derive(Clone, Copy, Drop)]
pub struct Row {
    pub text: &'static str,
    pub expected: Result<i128, Kind>,
}

pub fn gives(text: &'static str, n: i128) -> Row {
    Row {
        text,
        expected: Ok(n),
    }
}

pub fn stops(text: &'static str, kind: Kind) -> Row {
    Row {
        text,
        expected: Err(kind),
    }
}

/// The objects of main; `z` is left to its blocks, and `b` is large.
const LOCALS: &str = "xypastucdilqe";

/// `int f(int n) { if (n <= 0) return 0; return n + f(n - 1); }`
const SUM: Body<'static> = Body {
    function: b'f',
    formals: "n",
    locals: "",
    text: "n 0 <= 0 return if n f n 1 - call/1 + return",
};

/// `struct h(struct r) { r.1 += 1; return r; }`
const RISEN: Body<'static> = Body {
    function: b'h',
    formals: "r",
    locals: "",
    text: "r .1 1 += ; r return",
};

fn main_of<'t>(locals: &'t str, text: &'t str) -> Body<'t> {
    Body {
        function: b'm',
        formals: "",
        locals,
        text,
    }
}

fn result_in(state: &mut State<'_>) -> Ended {
    match state.held.pop() {
        Some(Held::Usable(value)) => Ended::Returned(value.number),
        _ => Ended::Otherwise,
    }
}

fn run_from<'p>(stepper: &Stepper<'p>, state: &mut State<'p>) -> Mem<Ended> {
    for _ in 0..3_000_000u32 {
        match step(stepper, state)? {
            Outcome::Goes => {}
            Outcome::Stops(kind, id, _) => return Ok(Ended::Stopped(kind, id)),
            Outcome::Ends => return Ok(result_in(state)),
        }
    }
    Ok(Ended::Otherwise)
}

fn run_to_end(alloc: Global, program: &TypedProgram) -> Mem<Ended> {
    let Some(stepper) = stepper_of(alloc, program)? else {
        return Ok(Ended::Otherwise);
    };
    match start(&stepper)? {
        None => Ok(Ended::Otherwise),
        Some(mut state) => run_from(&stepper, &mut state),
    }
}

/// How main ends, with these objects, where `f` is as given.
fn ending<'t>(alloc: Global, locals: &'t str, text: &'t str, called: Body<'t>) -> Mem<Ended> {
    let program = program_of(alloc, "fh", &[main_of(locals, text), called, RISEN])?;
    run_to_end(alloc, &program)
}

fn is_expected(ended: Ended, expected: Result<i128, Kind>) -> bool {
    match (ended, expected) {
        (Ended::Returned(number), Ok(n)) => wide(number) == n,
        (Ended::Stopped(kind, _), Err(wanted)) => kind == wanted,
        _ => false,
    }
}

/// The number of the first row that ends otherwise, or how many there are.
pub fn as_expected(alloc: Global, rows: &[Row]) -> Mem<usize> {
    let mut at = 0;
    for row in rows {
        let ended = ending(alloc, LOCALS, row.text, SUM)?;
        if !is_expected(ended, row.expected) {
            return Ok(at);
        }
        at = at.wrapping_add(1);
    }
    Ok(at)
}

/// Whether main returns the number, with these objects and this text of `f`.
pub fn returns<'t>(
    alloc: Global,
    locals: &'t str,
    text: &'t str,
    called: &'t str,
    n: i128,
) -> Mem<bool> {
    let body = Body {
        function: b'f',
        formals: "n",
        locals: "",
        text: called,
    };
    let ended = ending(alloc, locals, text, body)?;
    Ok(is_expected(ended, Ok(n)))
}

/// Whether the run stops with the kind at the statement.
pub fn stops_at(alloc: Global, text: &str, kind: Kind, id: u32) -> Mem<bool> {
    match ending(alloc, LOCALS, text, SUM)? {
        Ended::Stopped(k, at) => Ok(k == kind && at == id),
        _ => Ok(false),
    }
}
