//! Judges texts: line after line, up to the first fault.
ghost use Rattle.std.specs.Prelude.{◌≡◌, ◌==◌, ◌+◌, ◌<◌, ◌∷◌, [], length, position, IfSome, IfNone};
ghost use Rattle.std.specs.Prelude.{Ok, IsOk, OnOk, IfOk, IfErr};
ghost use Rattle.hcc_player.specs.Script.{last_fault, lines_of, script_of, told_in};
ghost use Rattle.hcc_player.specs.Script.{AllSay, ScriptFails};
ghost use Rattle.hcc_player.specs.Judged.{FailsToJudge};

use crate::fault::{LineError, PlayError, ScriptError, ScriptFault, TextFault};
use crate::grammar::Grammar;
use crate::limits::MOST_LINE;
use std::alloc::Global;

/// Judges a whole text by a grammar: each line says something, or the first fault is reported. It
/// takes the memory of one line at a time, and time in proportion to the text.
#[tactic(auto, using(crate::proofs::ScriptLaws::first_fault, crate::proofs::ScriptLaws::all_say))]
pub(crate) fn judge_all<G: Grammar>(
    alloc: Global,
    grammar: &G,
    text: &[u8],
) -> Result<(), PlayError>
    ensures ok { OnOk result (IsOk (script_of (G.says grammar.now) text.now)) }
    ensures lines { OnOk result (AllSay (G.says grammar.now) (lines_of text.now)) }
    ensures err { IfErr result (λ error. FailsToJudge (G.says grammar.now) error text.now) }
{
    match judge(alloc, grammar, text) {
        Ok(()) => Ok(()),
        Err(ScriptError::Fault(at)) => Err(PlayError::Text {
            line: at.line,
            fault: at.fault,
        }),
        Err(ScriptError::OutOfMemory) => Err(PlayError::OutOfMemory),
    }
}

/// The same: the text is good, or why it isn't known to be.
fn judge<G: Grammar>(alloc: Global, grammar: &G, text: &[u8]) -> Result<(), ScriptError>
    ensures ok { OnOk result (IsOk (script_of (G.says grammar.now) text.now)) }
    ensures err { IfErr result (λ error.
        ScriptFails error (script_of (G.says grammar.now) text.now)) }
{
    let mut rest = text;
    let mut line = 1;
    while let Some((bytes, after)) = next_line(rest) {
        match grammar.line(alloc, bytes) {
            Ok(_) => {}
            Err(error) => return Err(in_line(line, error)),
        }
        rest = after;
        line += 1;
    }
    match last_fault(rest) {
        None => Ok(()),
        Some(fault) => Err(ScriptError::Fault(ScriptFault { line, fault })),
    }
}

/// The first line that a line feed ends, and what stands behind it.
pub(crate) fn next_line(text: &[u8]) -> Option<(&[u8], &[u8])>
    ensures line { IfSome result (λ cut. lines_of text.now ≡ cut.0.now ∷ lines_of cut.1.now) }
    ensures none { IfNone result (lines_of text.now ≡ text.now ∷ []) }
    ensures shorter { IfSome result (λ cut. length cut.1.now < length text.now) }
{
    let end = line_end(text)?;
    Some((&text[..end], &text[end + 1..]))
}

/// Where the first line ends.
fn line_end(text: &[u8]) -> Option<usize>
    ensures first { result ≡ position (λ byte. byte == 10) text.now }
    ensures within { IfSome result (λ end. end < length text.now) }
{
    text.iter().position(|byte| *byte == b'\n')
}

/// What is wrong with the text behind the last line feed.
fn last_fault(rest: &[u8]) -> Option<TextFault>
    ensures { result ≡ last_fault rest.now }
{
    if rest.is_empty() {
        return None;
    }
    if rest.len() > MOST_LINE {
        return Some(TextFault::TooLong);
    }
    Some(TextFault::Unended)
}

fn in_line(line: u64, error: LineError) -> ScriptError
    ensures { result ≡ told_in line error }
{
    match error {
        LineError::Fault(fault) => ScriptError::Fault(ScriptFault { line, fault }),
        LineError::OutOfMemory => ScriptError::OutOfMemory,
    }
}

/// What a line says that was judged.
pub(crate) fn judged_line<G: Grammar>(
    alloc: Global,
    grammar: &G,
    line: &[u8],
) -> Result<G::Line, PlayError>
    requires { IsOk (G.says grammar.now line.now) }
    ensures ok { IfOk result (λ said. G.says grammar.now line.now ≡ Ok said) }
    ensures err { IfErr result (λ error. error ≡ PlayError.OutOfMemory) }
{
    match grammar.line(alloc, line) {
        Ok(said) => Ok(said),
        Err(LineError::Fault(_)) => unreachable!(),
        Err(LineError::OutOfMemory) => Err(PlayError::OutOfMemory),
    }
}
