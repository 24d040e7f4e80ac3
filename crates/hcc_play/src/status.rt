//! What the program's exit status means.
ghost use Rattle.std.specs.Prelude.{◌≡◌};
ghost use Rattle.hcc_play.specs.Status.{code_of, status_of};

use hcc_player::fault::PlayError;

/// How a run ended.
#[derive(Clone, Copy, Debug, PartialEq, Eq)]
pub enum Status {
    /// All is done, or help or the version was asked for.
    Done,
    /// The arguments or the input were refused.
    Refused,
    /// A read or a write failed.
    Failed,
    /// The sizes of the cache or of a block were refused.
    BadOptions,
    /// Memory was refused.
    NoMemory,
}

impl Status {
    /// The number that the program exits with: 0, 2, 3, 4 or 5.
    pub fn code(self) -> u8
        ensures { result ≡ code_of self }
    {
        match self {
            Status::Done => 0,
            Status::Refused => 2,
            Status::Failed => 3,
            Status::BadOptions => 4,
            Status::NoMemory => 5,
        }
    }
}

/// The status of a play that ended so.
pub fn status_of(error: PlayError) -> Status
    ensures { result ≡ status_of error }
{
    match error {
        PlayError::ReadFailed => Status::Failed,
        PlayError::TooLarge => Status::Refused,
        PlayError::Text { .. } => Status::Refused,
        PlayError::OutOfMemory => Status::NoMemory,
        PlayError::WriteFailed => Status::Failed,
        PlayError::Refused(_) => Status::BadOptions,
        PlayError::BadBlock => Status::BadOptions,
    }
}
