ghost use Rattle.std.specs.Prelude.{◌≡◌};
ghost use Rattle.eva_top.specs.ExitStatus.{exit_status_of};

use c_base::number::Span;
use c_base::token::LexSort;

/// Why a source is refused.
#[derive(Clone, Copy, Debug, PartialEq, Eq)]
pub enum Refusal {
    /// The file has an annotation, or is a unit of C that is not in the language that is analysed so far. The place is a hint and only lies in the file.
    Form { at: Span },
    /// The file can't be cut into tokens; the place is that of its first wrong piece.
    Lex { fault: LexSort, at: Span },
    /// The tokens spell no unit that nests at most 200 deep. The place is a hint and only lies in the file.
    Syntax { at: Span },
    /// More than a limit allows: limit 1 is 2,000,000 tokens.
    Limit { limit: u32, found: u64 },
}

/// How a call of the command ended.
#[derive(Clone, Copy, Debug, PartialEq, Eq)]
pub enum Status {
    /// A report without alarms was written.
    Clean,
    /// A report with alarms was written.
    Alarmed,
    /// The words are not taken.
    Usage,
    /// The file could not be loaded.
    Unread,
    Refused(Refusal),
    /// The report or the note could not be written whole.
    Unwritten,
    Memory,
    /// The file has more than 16,777,216 bytes.
    TooLong,
}

impl Status {
    /// The exit status of the program.
    pub fn exit_status(self) -> u8
        ensures { result ≡ exit_status_of self }
    {
        match self {
            Status::Clean => 0,
            Status::Alarmed => 1,
            Status::Usage => 2,
            Status::Unread => 3,
            Status::Refused(_) => 4,
            Status::Unwritten => 6,
            Status::Memory => 7,
            Status::TooLong => 8,
        }
    }
}
