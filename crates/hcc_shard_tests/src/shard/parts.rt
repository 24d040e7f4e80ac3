//! Parts of a value: from each offset, for each room.
use super::calls::{Answer, Call};
use super::guest::BEHIND;
use super::rows::{FULL, of, row};
use std::alloc::AllocError;
use std::process::Abort;

/// Of no bytes, of some of a word, and of two words.
const VALUES: [&[u8]; 3] = [&[], &[1, 2, 3, 4, 5], &FULL];

/// In the first word and at its ends, in the second, at its end, and past it.
const OFFSETS: [usize; 12] = [0, 1, 4, 5, 7, 8, 9, 15, 16, 17, usize::MAX - 7, usize::MAX];

/// Of no bytes, of some of a word, of one and of more, and longer than each value.
const ROOMS: [usize; 7] = [0, 1, 7, 8, 9, 16, 24];

/// What a reading of a part answers: bytes of the value, and behind them those of the buffer.
fn wanted(rt: &impl Abort, value: &[u8], offset: usize, room: usize) -> Answer {
    assert!(rt; room <= 24, "there is no such room");
    let mut bytes = [BEHIND; 24];
    let from = offset.min(value.len());
    let given = room.min(value.len() - from);
    bytes[..given].copy_from_slice(&value[from..from + given]);
    Answer::Part(given, value.len(), bytes)
}

#[test]
fn parts_are_read(rt: HostRuntime) -> Result<(), AllocError> {
    for value in VALUES {
        for offset in OFFSETS {
            for room in ROOMS {
                let made = (Call::Pin(0, 1, 200, 2, value), Answer::At(1));
                let part = Call::Part(0, offset, room);
                let read = (part, wanted(&rt, value, offset, room));
                row(&rt, rt.alloc(), of(600, false), 0, &[made, read])?;
            }
        }
    }
    Ok(())
}
