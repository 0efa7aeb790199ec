ghost use Rattle.std.specs.Prelude.{◌≡◌};
ghost use Rattle.tie_top.specs.Printing.{status_of};

use load_law::tie_files;
use tie_files::Refusal;

/// How a call ended.
#[derive(Clone, Copy, Debug, PartialEq, Eq)]
pub enum Status {
    /// The report is whole on the output, and none of the statuses below holds.
    Done,
    /// The words are those of no command.
    Usage,
    /// The shelf failed at a file.
    ReadFault,
    /// A file has more than 1,048,576 bytes.
    TooLong,
    /// A TIE text is not lexed, not parsed or breaks a rule.
    TieRefused,
    /// A source has no image.
    AsmRefused,
    /// A network file is refused, or a file that it names breaks a rule of networks.
    NetRefused,
    /// A hexadecimal text is refused.
    TextRefused,
    /// A processor of the report has trapped.
    Trapped,
    /// No processor of the report has trapped, and one has used up its budget.
    Unfinished,
    /// No processor of the report has trapped or used up its budget, and one waits at a queue.
    Blocked,
    /// A sink failed.
    WriteFault,
    /// There was no memory.
    NoMemory,
}

impl Status {
    ghost use Rattle.tie_top.specs.Printing.{status_number};

    /// The number with which a program ends: 0 to 12, in the order of the names.
    pub fn number(&self) -> u8
        ensures { result ≡ status_number self.now }
    {
        *self as u8
    }
}

/// The status of a refusal.
pub fn status_of(refusal: &Refusal) -> Status
    ensures { result ≡ status_of refusal.now }
{
    match refusal {
        Refusal::Usage { .. } => Status::Usage,
        Refusal::ReadFault { .. } => Status::ReadFault,
        Refusal::TooLong { .. } => Status::TooLong,
        Refusal::TieRefused { .. } => Status::TieRefused,
        Refusal::AsmRefused { .. } => Status::AsmRefused,
        Refusal::HexRefused { .. } => Status::TextRefused,
        Refusal::NetRefused { .. } => Status::NetRefused,
        Refusal::NoMemory => Status::NoMemory,
    }
}
