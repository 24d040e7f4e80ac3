//! Reads all that a reader has left, up to a most.
ghost use Rattle.std.specs.Prelude.{◌≡◌, ◌+◌, ◌<◌, IfOk, IfErr, length, false};
ghost use Rattle.std.specs.Io.KnownBytes.{IsAtEnd};
ghost use Rattle.hcc_player.specs.Bytes.{TakesAtMost, GivesPart};
ghost use Rattle.hcc_player.specs.Input.{IsWhole, FailsInPart, FailsToRead};

use crate::fault::PlayError;
use crate::limits::MOST_INPUT;
use std::alloc::{AllocError, Global};
use std::io::{ErrorKind, Read};

/// How many bytes are read at once.
const CHUNK: usize = 65_536;

/// Reads all there is, and ends with the first byte that is too many.
pub(crate) fn read_all<R: Read>(alloc: Global, reader: &mut R) -> Result<Vec<u8>, PlayError>
    ensures whole { IfOk result (λ bytes. IsWhole (R.remaining reader.old) bytes.items) }
    ensures bounded { TakesAtMost (MOST_INPUT + 1)
        (R.remaining reader.old) (R.remaining reader.new) }
    ensures err { IfErr result (λ error. FailsToRead error (R.remaining reader.old)) }
{
    let mut chunk = buffer(alloc, CHUNK)?;
    read_by(alloc, reader, &mut chunk)
}

/// A buffer of this size.
pub(crate) fn buffer(alloc: Global, size: usize) -> Result<Vec<u8>, AllocError>
    ensures { IfOk result (λ buffer. length buffer.items ≡ size) }
{
    vec![in alloc; 0u8; size]
}

/// Reads all there is, part by part, and ends with the first byte that is too many.
fn read_by<R: Read>(alloc: Global, reader: &mut R, chunk: &mut [u8]) -> Result<Vec<u8>, PlayError>
    requires { 0 < length chunk.old }
    ensures whole { IfOk result (λ bytes. IsWhole (R.remaining reader.old) bytes.items) }
    ensures bounded { TakesAtMost (MOST_INPUT + 1)
        (R.remaining reader.old) (R.remaining reader.new) }
    ensures err { IfErr result (λ error. FailsToRead error (R.remaining reader.old)) }
{
    let mut bytes = Vec::new(alloc);
    for _ in 0..u64::MAX {
        let room = MOST_INPUT as usize + 1 - bytes.len();
        if room == 0 {
            return Err(PlayError::TooLarge);
        }
        let size = room.min(chunk.len());
        if !read_part(reader, &mut chunk[..size], &mut bytes)? {
            return Ok(bytes);
        }
    }
    Err(PlayError::ReadFailed)
}

/// Reads once, and adds the bytes that came: whether there may be more. A read that was
/// interrupted gave none.
fn read_part<R: Read>(
    reader: &mut R,
    chunk: &mut [u8],
    bytes: &mut Vec<u8>,
) -> Result<bool, PlayError>
    requires { 0 < length chunk.old }
    ensures part { GivesPart (R.remaining reader.old) (R.remaining reader.new)
        (length chunk.old) bytes.old.items result bytes.new.items }
    ensures end { IfOk result (λ more. more ≡ false →
        IsAtEnd (R.remaining reader.new) × (bytes.new.items ≡ bytes.old.items)) }
    ensures err { IfErr result FailsInPart }
{
    match reader.read(chunk) {
        Ok(0) => Ok(false),
        Ok(count) => {
            bytes.extend_from_slice(&chunk[..count])?;
            Ok(true)
        }
        Err(error) => {
            if error.kind() == ErrorKind::Interrupted {
                Ok(true)
            } else {
                Err(PlayError::ReadFailed)
            }
        }
    }
}
