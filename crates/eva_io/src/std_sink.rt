ghost use Rattle.std.specs.Prelude.{◌≡◌, None};

use crate::sink::{PutFault, Sink};
use std::io::{Print, Stderr};
use std::marker::Model;

/// Standard output or standard error. It tells nothing.
///
/// Each put is one write of the whole piece; a write that took nothing fails too.
#[derive(Drop)]
pub struct StdSink<R: Print> {
    stream: R,
    faults: u64,
}

impl<R: Print> Model for StdSink<R> {
    ghost use Rattle.std.specs.Prelude.{ℕ};

    ghost Value = { ℕ };

    ghost view = { λ sink. sink.faults };
}

impl<R: Print> StdSink<R> {
    /// The standard output of the runtime, or of a reference to it.
    pub fn out(rt: R) -> StdSink<R>
        ensures { result ≡ 0 }
    {
        StdSink {
            stream: rt,
            faults: 0,
        }
    }
}

impl StdSink<Stderr> {
    /// The standard error of the program.
    pub fn notes(rt: &HostRuntime) -> StdSink<Stderr>
        ensures { result ≡ 0 }
    {
        StdSink {
            stream: rt.stderr(),
            faults: 0,
        }
    }
}

impl<R: Print> Sink for StdSink<R> {
    ghost state = { λ sink. record {
      written = None;
      faults = sink;
      starved = 0;
    } };

    fn put(&mut self, piece: &[u8]) -> Result<usize, PutFault> {
        match self.stream.write_some(piece) {
            Ok(taken) if taken > 0 => Ok(taken),
            _ => {
                self.faults = self.faults.saturating_add(1);
                Err(PutFault::Failed)
            }
        }
    }

    fn faults(&self) -> u64 {
        self.faults
    }
}
