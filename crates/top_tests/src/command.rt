//! The command over files and texts in memory. The reports are worked out by hand.
use c_base::name::Name;
use c_base::number::Span;
use eva_io::mem_sink::MemSink;
use eva_io::mem_store::MemStore;
use eva_io::store::Store;
use eva_top::command::eva;
use eva_top::status::{Refusal, Status};
use std::alloc::{AllocError, Global};
use std::test::Fail;
use std::thread::Threads;

const CONSTANT: &[u8] = b"int main(void){int x; x=3; return x;}";

const CONSTANT_REPORT: &[u8] =
    b"eva 1\nstmt 1 1:23 main\nin -\nrow\nx#1 0..31 uninit\nstmt 2 1:28 main\nin -\nrow\nx#1 0..31/32 {3}\nstmt 3 1:37 main\nend clean\n";

const UNWRITTEN_REPORT: &[u8] =
    b"eva 1\nstmt 1 1:23 main\nin -\nrow\nx#1 0..31 uninit\nstmt 2 1:32 main\nalarm initialization 1 in -\nend alarmed\n";

// How a call ended, what it wrote, and how often `b.c` could not be loaded.
#[derive(Drop)]
struct Ended {
    status: Status,
    out: Vec<u8>,
    notes: Vec<u8>,
    loads_failed: u64,
}

impl Ended {
    fn is(&self, status: Status, out: &[u8], notes: &[u8]) -> bool {
        self.status == status && self.out.as_slice() == out && self.notes.as_slice() == notes
    }

    // Whether the report has these lines, one after the other.
    fn reports(&self, status: Status, lines: &[u8]) -> bool {
        let text = self.out.as_slice();
        for start in 0..text.len() {
            if text[start..].starts_with(lines) {
                return self.status == status;
            }
        }
        false
    }
}

fn words_of(alloc: Global, texts: &[&str]) -> Result<Vec<String>, AllocError> {
    let mut words = Vec::new(alloc);
    for text in texts {
        words.push(String::from_str(alloc, text)?)?;
    }
    Ok(words)
}

// The command on the one file `a.c`, where `out` takes `step` bytes a call and its call number `failing` fails.
fn call<R: Threads + Sync>(
    rt: &R,
    alloc: Global,
    texts: &[&str],
    source: &[u8],
    step: usize,
    failing: u64,
) -> Result<Ended, AllocError> {
    let name = Name::from_bytes(alloc, b"a.c")?;
    let mut files = Vec::new(alloc);
    files.push((name, Vec::from_slice(alloc, source)?))?;
    let mut store = MemStore::new(alloc, files, Vec::new(alloc));
    let mut out = MemSink::new(alloc, step.max(1), vec![in alloc; failing]?);
    let mut notes = MemSink::new(alloc, 3, Vec::new(alloc));
    let words = words_of(alloc, texts)?;
    let status = eva(rt, alloc, &words, &mut store, &mut out, &mut notes);
    Ok(Ended {
        status,
        out: Vec::from_slice(alloc, out.written())?,
        notes: Vec::from_slice(alloc, notes.written())?,
        loads_failed: store.faults(&Name::from_bytes(alloc, b"b.c")?),
    })
}

fn analyse<R: Threads + Sync>(rt: &R, alloc: Global, source: &[u8]) -> Result<Ended, AllocError> {
    call(rt, alloc, &["a.c"], source, 1000, 0)
}

#[test]
fn reports_are_whole(rt: HostRuntime) -> Result<(), Fail> {
    let alloc = rt.alloc();
    let constant = analyse(&rt, alloc, CONSTANT)?;
    assert!(rt; constant.is(Status::Clean, CONSTANT_REPORT, b""));
    let unwritten = analyse(&rt, alloc, b"int main(void){int x; return x;}")?;
    assert!(rt; unwritten.is(Status::Alarmed, UNWRITTEN_REPORT, b""));
    Ok(())
}

#[test]
fn statements_are_reported(rt: HostRuntime) -> Result<(), Fail> {
    let alloc = rt.alloc();
    let cases: [(&[u8], Status, &[u8]); 8] = [
        (
            b"int main(void){int x; x=2147483647; x=x+1; return x;}",
            Status::Alarmed,
            b"x#1 0..31/32 {2147483647}\nstmt 3 1:44 main\nstmt 4 1:53 main\nalarm signed_overflow 2 in -\nend alarmed\n",
        ),
        (
            b"int main(void){int x; x=1; if(x<2) x=1; else x=1; return x;}",
            Status::Clean,
            b"stmt 5 1:51 main\nin -\nrow\nx#1 0..31/32 {1}\n",
        ),
        (
            b"int main(void){int x; x=0; while(x<0) x=0; return x;}",
            Status::Clean,
            b"stmt 3 1:39 main\nstmt 4 1:44 main\nin -\nrow\nx#1 0..31/32 {0}\n",
        ),
        (
            b"int main(void){int x; x=0; while(x<2) x=x+1; return x;}",
            Status::Alarmed,
            b"alarm signed_overflow 3 in -\n",
        ),
        (
            b"int main(void){int x; int y; x=0; while(x==0) {y=7; if(y>6) x=0; else x=1;} return y;}",
            Status::Clean,
            b"stmt 2 1:35 main\nin -\nrow\nx#1 0..31/32 {0}\ny#2 0..31/32 {7} or uninit\n",
        ),
        (
            b"int main(void){int x; /* a */ x=0x1F-017; // b\n return x;}",
            Status::Clean,
            b"x#1 0..31/32 {16}\n",
        ),
        // a left operand without a value ends the evaluation
        (
            b"int main(void){int u; if(u<2147483647+1) u=1; return 0;}",
            Status::Alarmed,
            b"stmt 4 1:56 main\nalarm initialization 1 in -\nend alarmed\n",
        ),
        (
            b"int main(void){int u; u=(1+2147483647)-u; return 0;}",
            Status::Alarmed,
            b"stmt 3 1:52 main\nalarm signed_overflow 1 in -\nend alarmed\n",
        ),
    ];
    for (source, status, lines) in cases {
        let end = analyse(&rt, alloc, source)?;
        assert!(rt; end.reports(status, lines));
    }
    Ok(())
}

#[test]
fn sources_are_refused(rt: HostRuntime) -> Result<(), Fail> {
    let alloc = rt.alloc();
    let cases: [(&[u8], &[u8]); 7] = [
        (
            b"int main(void){return 08;}",
            b"refused: lex bad number at 1:23\n",
        ),
        (
            b"int main(void){return 0;} /* end",
            b"refused: lex open comment at 1:27\n",
        ),
        (
            b"int main(void){int *p; return 0;}",
            b"refused: form at 1:16\n",
        ),
        (
            b"typedef int T; int main(void){T (T); return 0;}",
            b"refused: form at 1:1\n",
        ),
        (b"int main(void){return 0;", b"refused: syntax at 1:24\n"),
        (
            b"int main(void){return /*@ assert \\true; */",
            b"refused: form at 1:23\n",
        ),
        (b"", b"refused: form at 1:1\n"),
    ];
    for (source, note) in cases {
        let end = analyse(&rt, alloc, source)?;
        assert!(rt; end.is(end.status, b"", note));
        assert!(rt; end.status.exit_status() == 4);
    }
    Ok(())
}

#[test]
fn sinks_take_what_they_take(rt: HostRuntime) -> Result<(), Fail> {
    let alloc = rt.alloc();
    let small = call(&rt, alloc, &["a.c"], CONSTANT, 10, 0)?;
    assert!(rt; small.is(Status::Clean, CONSTANT_REPORT, b""));
    let faulty = call(&rt, alloc, &["a.c"], CONSTANT, 10, 3)?;
    assert!(rt; faulty.is(Status::Unwritten, b"eva 1\nstmt 1 1:23 ma", b""));
    Ok(())
}

#[test]
fn words_are_one_file(rt: HostRuntime) -> Result<(), Fail> {
    let alloc = rt.alloc();
    let usage = b"usage: eva FILE\n";
    let none = call(&rt, alloc, &[], CONSTANT, 1000, 0)?;
    assert!(rt; none.is(Status::Usage, b"", usage));
    let two = call(&rt, alloc, &["a.c", "--slevel"], CONSTANT, 1000, 0)?;
    assert!(rt; two.is(Status::Usage, b"", usage));
    let missing = call(&rt, alloc, &["b.c"], CONSTANT, 1000, 0)?;
    assert!(rt; missing.is(Status::Unread, b"", b"unread: b.c\n"));
    assert!(rt; missing.loads_failed == 1);
    Ok(())
}

#[test]
fn a_file_has_a_greatest_length(rt: HostRuntime) -> Result<(), Fail> {
    let alloc = rt.alloc();
    let spaces = vec![in alloc; b' '; 16_777_217]?;
    let long = analyse(&rt, alloc, spaces.as_slice())?;
    assert!(rt; long.is(Status::TooLong, b"", b"too long: a.c\n"));
    let fits = analyse(&rt, alloc, &spaces.as_slice()[1..])?;
    let at = Span { line: 1, col: 1 };
    assert!(rt; fits.status == Status::Refused(Refusal::Form { at }));
    Ok(())
}
