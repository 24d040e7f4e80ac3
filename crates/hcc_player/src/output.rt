//! Writes bytes out, by the product's own loop over `write`.
ghost use Rattle.std.specs.Prelude.{◌≡◌, ◌<◌, ◌≤◌, IfOk, OnOk, OnErr, IfErr, length, take};
ghost use Rattle.std.specs.Prelude.{string_bytes};
ghost use Rattle.std.specs.Io.KnownBytes.{Appends, Keeps};
ghost use Rattle.hcc_player.specs.Bytes.{Leaves, AppendsPart};

use crate::fault::PlayError;
use std::io::{ErrorKind, Write};

/// How many bytes wait for a write.
const BUFFER: usize = 65_536;

/// Writes some front of the bytes, and says how long it is. A write that was interrupted wrote
/// none; one that could take none has failed.
#[tactic(auto, using(crate::proofs::ByteLemmas::kept_gains_none))]
fn write_some<W: Write>(writer: &mut W, bytes: &[u8]) -> Result<usize, PlayError>
    requires { 0 < length bytes.now }
    ensures within { IfOk result (λ count. count ≤ length bytes.now) }
    ensures ok { IfOk result (λ count.
        Appends (W.contents writer.old) (W.contents writer.new) (take count bytes.now)) }
    ensures kept { OnErr result (Keeps (W.contents writer.old) (W.contents writer.new)) }
    ensures err { IfErr result (λ error. error ≡ PlayError.WriteFailed) }
{
    match writer.write(bytes) {
        Ok(0) => Err(PlayError::WriteFailed),
        Ok(count) => Ok(count),
        Err(error) => {
            if error.kind() == ErrorKind::Interrupted {
                Ok(0)
            } else {
                Err(PlayError::WriteFailed)
            }
        }
    }
}

/// Writes all of the bytes, by as many writes as it takes. After an error a front of them is out.
pub fn write_out<W: Write>(writer: &mut W, bytes: &[u8]) -> Result<(), PlayError>
    ensures ok { OnOk result (Appends (W.contents writer.old) (W.contents writer.new) bytes.now) }
    ensures part { OnErr result
        (AppendsPart (W.contents writer.old) (W.contents writer.new) bytes.now) }
    ensures err { IfErr result (λ error. error ≡ PlayError.WriteFailed) }
{
    let mut rest = bytes;
    for _ in 0..u64::MAX {
        if rest.is_empty() {
            return Ok(());
        }
        let count = write_some(writer, rest)?;
        rest = &rest[count..];
    }
    Err(PlayError::WriteFailed)
}

/// Writes the pending text out where it fills a buffer.
pub fn spill<W: Write>(pending: &mut String, writer: &mut W) -> Result<(), PlayError>
    ensures ok { OnOk result (Leaves (W.contents writer.old) (W.contents writer.new)
        (string_bytes pending.old) (string_bytes pending.new)) }
    ensures part { OnErr result
        (AppendsPart (W.contents writer.old) (W.contents writer.new) (string_bytes pending.old)) }
    ensures err { IfErr result (λ error. error ≡ PlayError.WriteFailed) }
{
    if pending.len() < BUFFER {
        return Ok(());
    }
    write_out(writer, pending.as_bytes())?;
    pending.clear();
    Ok(())
}

/// Has the writer pass on what it holds.
pub fn flush<W: Write>(writer: &mut W) -> Result<(), PlayError>
    ensures kept { Keeps (W.contents writer.old) (W.contents writer.new) }
    ensures err { IfErr result (λ error. error ≡ PlayError.WriteFailed) }
{
    match writer.flush() {
        Ok(()) => Ok(()),
        Err(_) => Err(PlayError::WriteFailed),
    }
}
