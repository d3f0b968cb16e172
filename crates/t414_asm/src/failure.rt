// Why a text makes no code, as it is told on standard error.
use assembly::Refusal;
use std::fmt;

// Why a line is bad.
#[derive(Clone, Copy, Debug, PartialEq, Eq)]
pub(crate) enum LineError {
    UnknownName,
    NoOperand,
    BadOperand,
    MoreWords,
    LongChain,
    LongCode,
}

impl From<Refusal> for LineError {
    fn from(refusal: Refusal) -> LineError {
        match refusal {
            Refusal::BadFunction => LineError::UnknownName,
            Refusal::TooLong => LineError::LongChain,
            Refusal::NoRoom => LineError::LongCode,
        }
    }
}

impl fmt::Display for LineError {
    fn fmt<W: fmt::Write>(&self, f: &mut fmt::Formatter<W>) -> fmt::Result {
        f.write_str(match self {
            LineError::UnknownName =>
                "no operation, and no function with an operand, has this name (names are in lower case; prefixes are written as needed)",
            LineError::NoOperand => "the operand is missing",
            LineError::BadOperand =>
                "the operand is no number from -2147483648 to 2147483647, and no # with 1 to 8 hexadecimal digits",
            LineError::MoreWords => "there is more on the line than one instruction",
            LineError::LongChain => "the operand needs more than eight bytes",
            LineError::LongCode => "the code is longer than 1 MiB",
        })
    }
}

// Why there is no code. Lines are counted from 1.
#[derive(Clone, Copy, Debug, PartialEq, Eq)]
pub(crate) enum Failure {
    TextTooLong,
    BadLine { number: u64, reason: LineError },
    Unwritten,
}

impl fmt::Display for Failure {
    fn fmt<W: fmt::Write>(&self, f: &mut fmt::Formatter<W>) -> fmt::Result {
        match self {
            Failure::TextTooLong => write!(f, "the text is longer than 1 MiB"),
            Failure::BadLine { number, reason } => write!(f, "line {number}: {reason}"),
            Failure::Unwritten => write!(f, "the code cannot be written"),
        }
    }
}
