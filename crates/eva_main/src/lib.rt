//! What the program does: the words of the command line, the files of the system and the standard streams, given to the command.
#![tactic(auto)]

use eva_io::file_store::FileStore;
use eva_io::std_sink::StdSink;
use eva_top::command::{eva, note_memory, note_usage};
use eva_top::status::Status;
use std::alloc::AllocError;
use std::process::ExitCode;
use std::thread::Threads;
use std::{env, io};

// The words behind the program's name.
fn words_of(rt: &HostRuntime) -> io::Result<Vec<String>> {
    let mut words = Vec::new(rt.alloc());
    for word in env::args(rt)?.skip(1) {
        words.push(word)?;
    }
    Ok(words)
}

// A word that isn't UTF-8 is not taken; else memory was wanting.
fn refuse_words(rt: &HostRuntime, error: io::Error) -> Status {
    let mut notes = StdSink::notes(rt);
    if error.kind() == io::ErrorKind::InvalidData {
        note_usage(&mut notes)
    } else {
        note_memory(&mut notes)
    }
}

/// Runs the command on the words of the command line, and answers the status with which the program ends.
///
/// `threads` is the handle for calls that start threads, which `main` alone can give.
pub fn run(rt: &HostRuntime, threads: &(impl Threads + Sync)) -> ExitCode {
    let status = match words_of(rt) {
        Err(error) => refuse_words(rt, error),
        Ok(words) => {
            let mut store = FileStore::new(rt);
            let mut out = StdSink::out(rt);
            let mut notes = StdSink::notes(rt);
            eva(
                threads,
                rt.alloc(),
                &words,
                &mut store,
                &mut out,
                &mut notes,
            )
        }
    };
    ExitCode::from(status.exit_status())
}
