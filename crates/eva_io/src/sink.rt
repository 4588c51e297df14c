ghost use Rattle.std.specs.Prelude.{◌≡◌, ℕ, ◌≤◌, ◌<◌, List, Option, length, take, IfOk, OnOk, OnErr};
ghost use Rattle.eva_io.specs.Outside.{SinkState, KeepsCounts, Appended, AppendedInPart, Rose, OnPutFailed, OnPutStarved};

use thiserror::Error;

/// Why nothing was put, or not all of a text.
#[derive(Clone, Copy, PartialEq, Eq, Debug, Error)]
pub enum PutFault {
    /// The sink took nothing, and counted a fault.
    #[error("the text can't be written")]
    Failed,
    /// Memory was wanting.
    #[error("out of memory")]
    Memory,
}

/// Where bytes are put, with counts of its faults and of the puts in which memory was wanting.
///
/// A count is a `u64` that stays at its last value, where it counts as risen.
pub trait Sink {
    /// What the sink tells: its bytes, where it tells them, and its counts.
    ghost state: { Self → SinkState };

    /// Appends a front of `piece`, which isn't empty, and answers how many bytes that has.
    ///
    /// After an error nothing was appended; `Failed` comes only where the count of faults rose, and
    /// `Memory` only where that of the puts in which memory was wanting did.
    fn put(&mut self, piece: &[u8]) -> Result<usize, PutFault>
        requires { 0 < length piece.now }
        ensures some { IfOk result (λ n. 1 ≤ n) }
        ensures within { IfOk result (λ n. n ≤ length piece.now) }
        ensures taken { IfOk result (λ n.
            Appended (state self.old).written (take n piece.now) (state self.new).written) }
        ensures refused { OnErr result ((state self.new).written ≡ (state self.old).written) }
        ensures failed { OnPutFailed result (Rose (state self.old).faults (state self.new).faults) }
        ensures starved { OnPutStarved result (Rose (state self.old).starved (state self.new).starved) }
        ensures counted { KeepsCounts (state self.old) (state self.new) };

    /// How often a put failed.
    fn faults(&self) -> u64
        ensures { result ≡ (state self.now).faults };
}

/// Puts until all of `bytes` is written, or the sink answers an error, which it passes on.
///
/// After an error a proper front of `bytes` was written.
pub fn write_whole<K: Sink>(sink: &mut K, bytes: &[u8]) -> Result<(), PutFault>
    ensures whole { OnOk result
        (Appended (K.state sink.old).written bytes.now (K.state sink.new).written) }
    ensures part { OnErr result
        (AppendedInPart (K.state sink.old).written bytes.now (K.state sink.new).written) }
    ensures failed { OnPutFailed result (Rose (K.state sink.old).faults (K.state sink.new).faults) }
    ensures starved { OnPutStarved result
        (Rose (K.state sink.old).starved (K.state sink.new).starved) }
    ensures counted { KeepsCounts (K.state sink.old) (K.state sink.new) }
{
    let mut done = 0;
    while done < bytes.len() {
        done += sink.put(&bytes[done..])?;
    }
    Ok(())
}
