//! What may be wrong with a script or a trace, and why a play ends early.
ghost use Rattle.std.specs.Prelude.{◌≡◌};
ghost use Rattle.hcc_player.specs.declared.fault.LineError.TheVariants as lines;
ghost use Rattle.hcc_player.specs.declared.fault.PlayError.TheVariants as plays;
ghost use Rattle.hcc_player.specs.Texts.{text_of};

use hcc_cache::NewError;
use std::alloc::{AllocError, AllocFailed};
use thiserror::Error;

/// What is wrong with a line of a script or a trace.
///
/// The first fault of the first line at fault is reported. The faults of a line stand here in the
/// order in which they are looked for; from [`TextFault::BadNumber`] on, the words are looked at
/// one after another from the left, and the first of them that is at fault decides.
#[derive(Clone, Copy, Debug, PartialEq, Eq, Error)]
pub enum TextFault {
    /// The line has more than 8,400 bytes before its end.
    #[error("TooLong")]
    TooLong,
    /// No line feed ends the line.
    #[error("Unended")]
    Unended,
    /// A byte is neither a space nor a visible character of ASCII.
    #[error("NotAscii")]
    NotAscii,
    /// The line or a word is empty, no event or call is named so, or it has another number of
    /// words.
    #[error("BadWord")]
    BadWord,
    /// A word is no decimal number below `2^64` without leading zeros.
    #[error("BadNumber")]
    BadNumber,
    /// A number is outside the range that it has in this place.
    #[error("OutOfRange")]
    OutOfRange,
    /// A word is none of those that may stand in its place; only of traces, since no word of a
    /// script is a choice.
    #[error("BadChoice")]
    BadChoice,
    /// A value is neither `-` nor pairs of lower-case hexadecimal digits.
    #[error("BadValue")]
    BadValue,
    /// A value has more bytes than it may have: 64 in a script, as many as a slot has room for
    /// in a trace.
    #[error("ValueTooLong")]
    ValueTooLong,
}

impl TextFault {
    /// The fault as a sentence.
    pub fn text(self) -> &'static str
        ensures { result.now ≡ text_of self }
    {
        match self {
            TextFault::TooLong => "the line has more than 8,400 bytes",
            TextFault::Unended => "no line feed ends the line",
            TextFault::NotAscii => "a byte is neither a space nor a visible character of ASCII",
            TextFault::BadWord => "a word is empty or unknown, or there are too few or too many",
            TextFault::BadNumber => "a word is no decimal number below 2^64 without leading zeros",
            TextFault::OutOfRange => "a number is outside the range that it has in its place",
            TextFault::BadChoice => "a word is none of those that may stand in its place",
            TextFault::BadValue => {
                "a value is neither - nor pairs of lower-case hexadecimal digits"
            }
            TextFault::ValueTooLong => "a value has more bytes than it may have",
        }
    }
}

/// Why it isn't known what a line says.
#[derive(Clone, Copy, Debug, PartialEq, Eq)]
pub enum LineError {
    /// The line is at fault.
    Fault(TextFault),
    /// Memory was refused.
    OutOfMemory,
}

impl From<TextFault> for LineError {
    ghost from_gives = { λ fault e. e ≡ lines.Fault fault };

    fn from(fault: TextFault) -> LineError {
        LineError::Fault(fault)
    }
}

impl From<AllocError> for LineError {
    ghost from_gives = { λ _ e. e ≡ lines.OutOfMemory };

    fn from(_error: AllocError) -> LineError {
        LineError::OutOfMemory
    }
}

impl<T: Drop> From<AllocFailed<T>> for LineError {
    ghost from_gives = { λ _ e. e ≡ lines.OutOfMemory };

    fn from(_error: AllocFailed<T>) -> LineError {
        LineError::OutOfMemory
    }
}

/// The first fault of a text.
#[derive(Clone, Copy, Debug, PartialEq, Eq)]
pub struct ScriptFault {
    /// The number of the line at fault, counted from 1.
    pub line: u64,
    pub fault: TextFault,
}

/// Why a text is not known to be good.
#[derive(Clone, Copy, Debug, PartialEq, Eq)]
pub enum ScriptError {
    /// The text is at fault.
    Fault(ScriptFault),
    /// Memory was refused.
    OutOfMemory,
}

/// Why a play ended early. Each is shown as the program writes it.
#[derive(Clone, Copy, Debug, PartialEq, Eq, Error)]
pub enum PlayError {
    /// The reader failed; nothing was written.
    #[error("read failed")]
    ReadFailed,
    /// The input has more than 67,108,864 bytes; nothing was written.
    #[error("input too large")]
    TooLarge,
    /// The text is at fault in the line of this number, counted from 1; nothing was written.
    #[error("line {line}: {fault}")]
    Text { line: u64, fault: TextFault },
    /// Memory was refused; a front part of the output may have been written, if the whole text is
    /// good, and else nothing.
    #[error("out of memory")]
    OutOfMemory,
    /// The writer failed; a front part of the output may have been written.
    #[error("write failed")]
    WriteFailed,
    /// The sizes of the cache are refused; nothing was read.
    #[error("refused {0}")]
    Refused(NewError),
    /// The block size is 0, or above the most bytes of a value; nothing was read.
    #[error("refused BadBlock")]
    BadBlock,
}

impl From<AllocError> for PlayError {
    ghost from_gives = { λ _ e. e ≡ plays.OutOfMemory };

    fn from(_error: AllocError) -> PlayError {
        PlayError::OutOfMemory
    }
}
