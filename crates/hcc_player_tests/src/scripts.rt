//! Scripts from bytes to bytes: which text each fault names, and what events give.
use hcc_core::setup::Setup;
use hcc_player::fault::{PlayError, TextFault};
use hcc_player::play::play_core;
use std::alloc::Global;
use std::test::Fail;

pub(crate) const DEFAULTS: Setup = Setup {
    slots: 2,
    clients: 2,
    capacity: 600,
    strict: false,
};

/// A worked script in the default world: an entry is shown, held by another client, hidden, freed.
pub(crate) const FIRST_SCRIPT: &[u8] = b"\
start 0\n\
start 1\n\
enter 0\n\
charge 0 5\n\
occupy 0 1\n\
show 0 7 9 5 2 - aa\n\
look 1 1\n\
acquire 1 1 1 4\n\
hide 1 4\n\
free 0 1 -\n\
use 1 4\n\
free 0 1 -\n\
empty 0\n\
slots 0\n\
settle 0\n";

/// What that script gives.
pub(crate) const FIRST_OUTPUT: &[u8] = b"\
ok : E+0/0 E+0/0 | 0 0 0 0\n\
ok : E+0/0 E+0/0 | 0 0 0 0\n\
granted : E+0/0 E+0/0 | 0 1 0 0\n\
split 5 0 : E+0/0 E+0/0 | 5 1 0 0\n\
taken : E+0/0 B0+0/0 | 5 1 0 0\n\
ok : E+0/0 S7.9@0.0#5,u2,r-,h0/0 | 5 1 0 0\n\
saw shown : E+0/0 S7.9@0.0#5,u2,r-,h0/0 | 5 1 0 0\n\
got shown : E+0/0 S7.9@0.0#5,u2,r1.4x1,h0/0 | 5 1 0 0\n\
hid : E+0/0 H7.9@0.0#5,u2,r1.4x1,h0/0 | 5 1 0 0\n\
refused NotAllowed : E+0/0 H7.9@0.0#5,u2,r1.4x1,h0/0 | 5 1 0 0\n\
left 0 hidden : E+0/0 H7.9@0.0#5,u3,r-,h0/0 | 5 1 0 0\n\
freed 5 : E+0/0 B0+0/0 | 5 1 0 0\n\
ok : E+0/0 E+0/0 | 5 1 0 0\n\
ok : E+0/0 E+0/0 | 5 0 0 0\n\
ok : E+0/0 E+0/0 | 0 0 0 0\n";

/// What a play of this text answers, and what it writes.
#[derive(Drop)]
struct Played {
    answer: Result<(), PlayError>,
    out: Vec<u8>,
}

fn play(alloc: Global, text: &[u8]) -> Played {
    let mut reader = text;
    let mut out = Vec::new(alloc);
    let answer = play_core(alloc, &mut reader, &mut out, DEFAULTS);
    Played { answer, out }
}

/// A text of so many bytes between two others.
fn filled(alloc: Global, front: &[u8], count: usize, back: &[u8]) -> Result<Vec<u8>, Fail> {
    let mut text = front.to_vec(alloc)?;
    for _ in 0..count {
        text.push(b'0')?;
    }
    text.extend_from_slice(back)?;
    Ok(text)
}

#[test]
fn tells_each_fault(rt: HostRuntime) -> Result<(), Fail> {
    let cases: [(&[u8], u64, TextFault); 35] = [
        (b"start 0", 1, TextFault::Unended),
        (b"start 0\nx", 2, TextFault::Unended),
        (b"start\t0\n", 1, TextFault::NotAscii),
        (b"start 0\r\n", 1, TextFault::NotAscii),
        (b"start 0\n\xc3\xa4\n", 2, TextFault::NotAscii),
        (b"start \x7f\n", 1, TextFault::NotAscii),
        (b"start ~\n", 1, TextFault::BadNumber),
        (b"\n", 1, TextFault::BadWord),
        (b"start  0\n", 1, TextFault::BadWord),
        (b" start 0\n", 1, TextFault::BadWord),
        (b"start 0 \n", 1, TextFault::BadWord),
        (b"start\n", 1, TextFault::BadWord),
        (b"start 0 0\n", 1, TextFault::BadWord),
        (b"Start 0\n", 1, TextFault::BadWord),
        (b"turns 0\n", 1, TextFault::BadWord),
        (b"start +0\n", 1, TextFault::BadNumber),
        (b"start 00\n", 1, TextFault::BadNumber),
        (b"start -\n", 1, TextFault::BadNumber),
        (b"give 0 18446744073709551616\n", 1, TextFault::BadNumber),
        (b"start 18446744073709551616\n", 1, TextFault::BadNumber),
        (b"give 0 -\n", 1, TextFault::BadNumber),
        (b"free 0 0 x\n", 1, TextFault::BadNumber),
        (b"start 4294967296\n", 1, TextFault::OutOfRange),
        (b"look 0 4294967296\n", 1, TextFault::OutOfRange),
        (b"charge 0 0\n", 1, TextFault::OutOfRange),
        (b"charge 0 4294967296\n", 1, TextFault::OutOfRange),
        (b"show 0 1 2 0 2 - aa\n", 1, TextFault::OutOfRange),
        (b"show 0 1 2 3 2 - a\n", 1, TextFault::BadValue),
        (b"show 0 1 2 3 2 - AA\n", 1, TextFault::BadValue),
        // Two faults in one line, and in two lines.
        (b"start x\xff\n", 1, TextFault::NotAscii),
        (b"look x\n", 1, TextFault::BadWord),
        (b"look 4294967296 x\n", 1, TextFault::OutOfRange),
        (b"show x 1 2 0 2 - A\n", 1, TextFault::BadNumber),
        (b"start 0\nlook 0 x\nstart\n", 2, TextFault::BadNumber),
        (b"stand 0 0 x\nstart \t", 1, TextFault::OutOfRange),
    ];
    for (text, line, fault) in cases {
        let played = play(rt.alloc(), text);
        assert_eq!(rt;
            played.answer,
            Err(PlayError::Text { line, fault }),
            "{text:?}"
        );
        assert_eq!(rt; played.out.len(), 0);
    }
    Ok(())
}

#[test]
fn tells_what_is_too_long(rt: HostRuntime) -> Result<(), Fail> {
    let alloc = rt.alloc();
    let show: &[u8] = b"show 0 1 2 3 2 - ";
    let cases: [(&[u8], usize, &[u8], TextFault); 6] = [
        (b"start ", 8_394, b"\n", TextFault::BadNumber),
        (b"start ", 8_395, b"\n", TextFault::TooLong),
        (b"\t", 8_400, b"", TextFault::TooLong),
        (show, 130, b"\n", TextFault::ValueTooLong),
        (show, 131, b"\n", TextFault::BadValue),
        (show, 130, b"g0\n", TextFault::BadValue),
    ];
    for (front, count, back, fault) in cases {
        let text = filled(alloc, front, count, back)?;
        let played = play(alloc, &text);
        assert_eq!(rt; played.answer, Err(PlayError::Text { line: 1, fault }));
        assert_eq!(rt; played.out.len(), 0);
    }
    Ok(())
}

#[test]
fn plays_scripts(rt: HostRuntime) -> Result<(), Fail> {
    let cases: [(&[u8], &[u8]); 9] = [
        (b"", b""),
        (FIRST_SCRIPT, FIRST_OUTPUT),
        (
            b"start 0\nstart 0\nstart 2\nlook 5 5\n",
            b"ok : E+0/0 E+0/0 | 0 0 0 0\n\
refused NotAllowed : E+0/0 E+0/0 | 0 0 0 0\n\
refused NoSuchClient : E+0/0 E+0/0 | 0 0 0 0\n\
refused NoSuchSlot : E+0/0 E+0/0 | 0 0 0 0\n",
        ),
        (
            b"start 4294967295\nacquire 0 1 18446744073709551615 4\n",
            b"refused NoSuchClient : E+0/0 E+0/0 | 0 0 0 0\n\
refused NotAllowed : E+0/0 E+0/0 | 0 0 0 0\n",
        ),
        (
            b"start 0\nstart 1\nenter 0\ncharge 0 5\noccupy 0 1\nshow 0 7 9 5 2 - aa\nlook 1 1\n\
free 0 1 -\nacquire 1 1 2 4\nempty 0\n",
            b"ok : E+0/0 E+0/0 | 0 0 0 0\nok : E+0/0 E+0/0 | 0 0 0 0\n\
granted : E+0/0 E+0/0 | 0 1 0 0\nsplit 5 0 : E+0/0 E+0/0 | 5 1 0 0\n\
taken : E+0/0 B0+0/0 | 5 1 0 0\nok : E+0/0 S7.9@0.0#5,u2,r-,h0/0 | 5 1 0 0\n\
saw shown : E+0/0 S7.9@0.0#5,u2,r-,h0/0 | 5 1 0 0\nfreed 5 : E+0/0 B0+0/0 | 5 1 0 0\n\
stray : E+0/0 B0+2/0 | 5 1 0 0\nok : E+0/0 E+0/0 | 5 1 0 0\n",
        ),
        (
            b"start 0\nstart 1\nenter 0\ncharge 0 5\noccupy 0 1\nshow 0 7 9 5 2 3 -\nread 0 3\n\
peek 1 1\npeek 1 0\ngive 0 3\n",
            b"ok : E+0/0 E+0/0 | 0 0 0 0\nok : E+0/0 E+0/0 | 0 0 0 0\n\
granted : E+0/0 E+0/0 | 0 1 0 0\n\
split 5 0 : E+0/0 E+0/0 | 5 1 0 0\ntaken : E+0/0 B0+0/0 | 5 1 0 0\n\
ok : E+0/0 S7.9@0.0#5,u1,r0.3x1,h0/0 | 5 1 0 0\n\
entry 7.9 - : E+0/0 S7.9@0.0#5,u1,r0.3x1,h0/0 | 5 1 0 0\n\
shows 0 0 : E+0/0 S7.9@0.0#5,u1,r0.3x1,h0/0 | 5 1 0 0\n\
shows nothing : E+0/0 S7.9@0.0#5,u1,r0.3x1,h0/0 | 5 1 0 0\n\
left 0 shown : E+0/0 S7.9@0.0#5,u1,r-,h0/0 | 5 1 0 0\n",
        ),
        (
            b"start 0\nstart 1\nenter 0\ncharge 0 5\noccupy 0 1\nshow 0 7 9 5 3 - -\nclock 0 1\n",
            b"ok : E+0/0 E+0/0 | 0 0 0 0\nok : E+0/0 E+0/0 | 0 0 0 0\n\
granted : E+0/0 E+0/0 | 0 1 0 0\n\
split 5 0 : E+0/0 E+0/0 | 5 1 0 0\ntaken : E+0/0 B0+0/0 | 5 1 0 0\n\
ok : E+0/0 S7.9@0.0#5,u3,r-,h0/0 | 5 1 0 0\nuses 2 : E+0/0 S7.9@0.0#5,u2,r-,h0/0 | 5 1 0 0\n",
        ),
        (
            b"start 0\nend 0\n",
            b"ok : E+0/0 E+0/0 | 0 0 0 0\nok : E+0/0 E+0/0 | 0 0 0 0\n",
        ),
        (
            b"start 0\npass 0 1\nunpass 0 1\nturn 0\ncharge 0 5\nstand 0 5 7\nfall 0 7\nwaive 0\n",
            b"ok : E+0/0 E+0/0 | 0 0 0 0\nok : E+0/0 E+0/1 | 0 0 0 0\nok : E+0/0 E+0/0 | 0 0 0 0\n\
count 0 : E+0/0 E+0/0 | 0 0 0 4\nsplit 5 0 : E+0/0 E+0/0 | 5 0 0 4\nok : E+0/0 E+0/0 | 5 0 5 4\n\
ok : E+0/0 E+0/0 | 5 0 0 4\nok : E+0/0 E+0/0 | 0 0 0 4\n",
        ),
    ];
    for (text, want) in cases {
        let played = play(rt.alloc(), text);
        assert_eq!(rt; played.answer, Ok(()));
        assert_eq!(rt; played.out.as_slice(), want);
    }
    Ok(())
}

#[test]
fn strict_splits_a_charge(rt: HostRuntime) -> Result<(), Fail> {
    let alloc = rt.alloc();
    let setup = Setup {
        capacity: 100,
        strict: true,
        ..DEFAULTS
    };
    let mut text = b"start 0\nstart 1\ncharge 0 60\ncharge 1 60\n".as_slice();
    let mut out = Vec::new(alloc);
    let answer = play_core(alloc, &mut text, &mut out, setup);
    assert_eq!(rt; answer, Ok(()));
    let want: &[u8] = b"ok : E+0/0 E+0/0 | 0 0 0 0\n\
ok : E+0/0 E+0/0 | 0 0 0 0\n\
split 60 0 : E+0/0 E+0/0 | 60 0 0 0\n\
split 40 20 : E+0/0 E+0/0 | 120 0 0 0\n";
    assert_eq!(rt; out.as_slice(), want);
    Ok(())
}
