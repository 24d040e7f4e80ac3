//! Reads lines: the words of one event.
ghost use Rattle.std.specs.Prelude.{◌≡◌, map};
ghost use Rattle.hcc_player.specs.Value.{Gives};
ghost use Rattle.hcc_player.specs.Line.{line_event};
ghost use Rattle.hcc_player.specs.Line.{event_of, known_event, reference_event, use_event};
ghost use Rattle.hcc_player.specs.Line.{entry_event, place_event, charge_event, trail_event};
ghost use Rattle.hcc_player.specs.Line.{show_line, acquire_line, free_line, charge_line};
ghost use Rattle.hcc_player.specs.Line.{stand_line};
ghost use Rattle.hcc_player.specs.Line.{client_in, client_and_slot, client_and_name};

use crate::fault::{LineError, TextFault};
use crate::grammar::Grammar;
use crate::limits::MOST_VALUE;
use crate::number::{charge, name, number, small_number};
use crate::value::value;
use crate::words::{plain_words, word};
use hcc_core::event::Event;
use hcc_core::listed::Listed;
use std::alloc::Global;

/// The grammar of scripts: each line says an event.
pub(crate) struct Events;

impl Grammar for Events {
    ghost use Rattle.hcc_player.specs.Line.{line_event};

    type Line = Event;

    ghost says = { λ grammar line. line_event line };

    fn line(&self, alloc: Global, line: &[u8]) -> Result<Event, LineError> {
        line_event(alloc, line)
    }
}

/// Reads the event of a line, given without its line feed. It allocates memory for the words and
/// for the value, and gives back all but the value.
#[tactic(auto, unfolding(crate::specs::Line::line_event))]
fn line_event(alloc: Global, line: &[u8]) -> Result<Event, LineError>
    ensures { Gives result (line_event line.now) }
{
    let words = plain_words(alloc, line)?;
    event_of(alloc, word(&words, 0), &words)
}

/// The event of words that are all there: of the group that knows the verb.
#[tactic(auto, unfolding(crate::specs::Line::event_of))]
fn event_of(alloc: Global, verb: &[u8], words: &[&[u8]]) -> Result<Event, LineError>
    ensures { Gives result (event_of verb.now (map (λ w. w.now) words.now)) }
{
    if verb == b"show".as_slice() {
        return show_line(alloc, words);
    }
    match known_event(verb, words)? {
        Some(event) => Ok(event),
        None => Err(LineError::Fault(TextFault::BadWord)),
    }
}

/// The event of a verb but `show`, if any group knows it.
#[tactic(auto, unfolding(crate::specs::Line::known_event))]
fn known_event(verb: &[u8], words: &[&[u8]]) -> Result<Option<Event>, TextFault>
    ensures { result ≡ known_event verb.now (map (λ w. w.now) words.now) }
{
    if let Some(event) = reference_event(verb, words)? {
        return Ok(Some(event));
    }
    if let Some(event) = use_event(verb, words)? {
        return Ok(Some(event));
    }
    if let Some(event) = entry_event(verb, words)? {
        return Ok(Some(event));
    }
    if let Some(event) = place_event(verb, words)? {
        return Ok(Some(event));
    }
    if let Some(event) = charge_event(verb, words)? {
        return Ok(Some(event));
    }
    trail_event(verb, words)
}

/// The event of a verb on clients and references, if it is one.
#[tactic(auto, unfolding(crate::specs::Line::reference_event))]
fn reference_event(verb: &[u8], words: &[&[u8]]) -> Result<Option<Event>, TextFault>
    ensures { result ≡ reference_event verb.now (map (λ w. w.now) words.now) }
{
    if verb == b"start".as_slice() {
        let client = client_in(words)?;
        return Ok(Some(Event::Start { client }));
    }
    if verb == b"end".as_slice() {
        let client = client_in(words)?;
        return Ok(Some(Event::End { client }));
    }
    if verb == b"look".as_slice() {
        let (client, slot) = client_and_slot(words)?;
        return Ok(Some(Event::Look { client, slot }));
    }
    if verb == b"acquire".as_slice() {
        let event = acquire_line(words)?;
        return Ok(Some(event));
    }
    if verb == b"give".as_slice() {
        let (client, name) = client_and_name(words)?;
        return Ok(Some(Event::Give { client, name }));
    }
    if verb == b"use".as_slice() {
        let (client, name) = client_and_name(words)?;
        return Ok(Some(Event::Use { client, name }));
    }
    Ok(None)
}

/// The event of a verb on uses and marks, if it is one.
#[tactic(auto, unfolding(crate::specs::Line::use_event))]
fn use_event(verb: &[u8], words: &[&[u8]]) -> Result<Option<Event>, TextFault>
    ensures { result ≡ use_event verb.now (map (λ w. w.now) words.now) }
{
    if verb == b"clock".as_slice() {
        let (client, slot) = client_and_slot(words)?;
        return Ok(Some(Event::Clock { client, slot }));
    }
    if verb == b"mark".as_slice() {
        let (client, name) = client_and_name(words)?;
        return Ok(Some(Event::Mark { client, name }));
    }
    if verb == b"correct".as_slice() {
        let (client, name) = client_and_name(words)?;
        return Ok(Some(Event::Correct { client, name }));
    }
    Ok(None)
}

/// The event of a verb on entries but `show`, if it is one.
#[tactic(auto, unfolding(crate::specs::Line::entry_event))]
fn entry_event(verb: &[u8], words: &[&[u8]]) -> Result<Option<Event>, TextFault>
    ensures { result ≡ entry_event verb.now (map (λ w. w.now) words.now) }
{
    if verb == b"occupy".as_slice() {
        let (client, slot) = client_and_slot(words)?;
        return Ok(Some(Event::Occupy { client, slot }));
    }
    if verb == b"write".as_slice() {
        let client = client_in(words)?;
        return Ok(Some(Event::Write { client }));
    }
    if verb == b"peek".as_slice() {
        let (client, slot) = client_and_slot(words)?;
        return Ok(Some(Event::Peek { client, slot }));
    }
    if verb == b"read".as_slice() {
        let (client, name) = client_and_name(words)?;
        return Ok(Some(Event::Read { client, name }));
    }
    if verb == b"hide".as_slice() {
        let (client, name) = client_and_name(words)?;
        return Ok(Some(Event::Hide { client, name }));
    }
    if verb == b"free".as_slice() {
        let event = free_line(words)?;
        return Ok(Some(event));
    }
    if verb == b"empty".as_slice() {
        let client = client_in(words)?;
        return Ok(Some(Event::Empty { client }));
    }
    Ok(None)
}

/// The event of a verb on places, if it is one.
#[tactic(auto, unfolding(crate::specs::Line::place_event))]
fn place_event(verb: &[u8], words: &[&[u8]]) -> Result<Option<Event>, TextFault>
    ensures { result ≡ place_event verb.now (map (λ w. w.now) words.now) }
{
    if verb == b"enter".as_slice() {
        let client = client_in(words)?;
        return Ok(Some(Event::Enter { client }));
    }
    if verb == b"slots".as_slice() {
        let client = client_in(words)?;
        return Ok(Some(Event::Slots { client }));
    }
    if verb == b"quit".as_slice() {
        let client = client_in(words)?;
        return Ok(Some(Event::Quit { client }));
    }
    if verb == b"occupancy".as_slice() {
        let client = client_in(words)?;
        return Ok(Some(Event::Occupancy { client }));
    }
    Ok(None)
}

/// The event of a verb on charge, if it is one.
#[tactic(auto, unfolding(crate::specs::Line::charge_event))]
fn charge_event(verb: &[u8], words: &[&[u8]]) -> Result<Option<Event>, TextFault>
    ensures { result ≡ charge_event verb.now (map (λ w. w.now) words.now) }
{
    if verb == b"charge".as_slice() {
        let event = charge_line(words)?;
        return Ok(Some(event));
    }
    if verb == b"settle".as_slice() {
        let client = client_in(words)?;
        return Ok(Some(Event::Settle { client }));
    }
    if verb == b"waive".as_slice() {
        let client = client_in(words)?;
        return Ok(Some(Event::Waive { client }));
    }
    if verb == b"usage".as_slice() {
        let client = client_in(words)?;
        return Ok(Some(Event::Usage { client }));
    }
    if verb == b"stand".as_slice() {
        let event = stand_line(words)?;
        return Ok(Some(event));
    }
    if verb == b"fall".as_slice() {
        let (client, name) = client_and_name(words)?;
        return Ok(Some(Event::Fall { client, name }));
    }
    if verb == b"standing".as_slice() {
        let client = client_in(words)?;
        return Ok(Some(Event::Standing { client }));
    }
    Ok(None)
}

/// The event of a verb on trails and the hand, if it is one.
#[tactic(auto, unfolding(crate::specs::Line::trail_event))]
fn trail_event(verb: &[u8], words: &[&[u8]]) -> Result<Option<Event>, TextFault>
    ensures { result ≡ trail_event verb.now (map (λ w. w.now) words.now) }
{
    if verb == b"count".as_slice() {
        let (client, slot) = client_and_slot(words)?;
        return Ok(Some(Event::Count { client, slot }));
    }
    if verb == b"pass".as_slice() {
        let (client, slot) = client_and_slot(words)?;
        return Ok(Some(Event::Pass { client, slot }));
    }
    if verb == b"unpass".as_slice() {
        let (client, slot) = client_and_slot(words)?;
        return Ok(Some(Event::Unpass { client, slot }));
    }
    if verb == b"turn".as_slice() {
        let client = client_in(words)?;
        return Ok(Some(Event::Turn { client }));
    }
    Ok(None)
}

#[tactic(auto, unfolding(crate::specs::Line::show_line))]
fn show_line(alloc: Global, words: &[&[u8]]) -> Result<Event, LineError>
    ensures { Gives result (show_line (map (λ w. w.now) words.now)) }
{
    if words.len() != 8 {
        return Err(LineError::Fault(TextFault::BadWord));
    }
    let client = small_number(word(words, 1))?;
    let key0 = number(word(words, 2))?;
    let key1 = number(word(words, 3))?;
    let charge = charge(word(words, 4))?;
    let countdown = number(word(words, 5))?;
    let name = name(word(words, 6))?;
    let value = value(alloc, MOST_VALUE, word(words, 7))?;
    Ok(Event::Show {
        client,
        key0,
        key1,
        charge,
        countdown,
        name,
        value: Listed::from_vec(value),
    })
}

#[tactic(auto, unfolding(crate::specs::Line::acquire_line))]
fn acquire_line(words: &[&[u8]]) -> Result<Event, TextFault>
    ensures { result ≡ acquire_line (map (λ w. w.now) words.now) }
{
    if words.len() != 5 {
        return Err(TextFault::BadWord);
    }
    let client = small_number(word(words, 1))?;
    let slot = small_number(word(words, 2))?;
    let weight = number(word(words, 3))?;
    let name = number(word(words, 4))?;
    Ok(Event::Acquire {
        client,
        slot,
        weight,
        name,
    })
}

#[tactic(auto, unfolding(crate::specs::Line::free_line))]
fn free_line(words: &[&[u8]]) -> Result<Event, TextFault>
    ensures { result ≡ free_line (map (λ w. w.now) words.now) }
{
    if words.len() != 4 {
        return Err(TextFault::BadWord);
    }
    let client = small_number(word(words, 1))?;
    let slot = small_number(word(words, 2))?;
    let name = name(word(words, 3))?;
    Ok(Event::Free { client, slot, name })
}

#[tactic(auto, unfolding(crate::specs::Line::charge_line))]
fn charge_line(words: &[&[u8]]) -> Result<Event, TextFault>
    ensures { result ≡ charge_line (map (λ w. w.now) words.now) }
{
    if words.len() != 3 {
        return Err(TextFault::BadWord);
    }
    let client = small_number(word(words, 1))?;
    let charge = charge(word(words, 2))?;
    Ok(Event::Charge { client, charge })
}

#[tactic(auto, unfolding(crate::specs::Line::stand_line))]
fn stand_line(words: &[&[u8]]) -> Result<Event, TextFault>
    ensures { result ≡ stand_line (map (λ w. w.now) words.now) }
{
    if words.len() != 4 {
        return Err(TextFault::BadWord);
    }
    let client = small_number(word(words, 1))?;
    let charge = charge(word(words, 2))?;
    let name = number(word(words, 3))?;
    Ok(Event::Stand {
        client,
        charge,
        name,
    })
}

/// The client of a line that has nothing else behind its verb.
#[tactic(auto, unfolding(crate::specs::Line::client_in))]
fn client_in(words: &[&[u8]]) -> Result<u32, TextFault>
    ensures { result ≡ client_in (map (λ w. w.now) words.now) }
{
    if words.len() != 2 {
        return Err(TextFault::BadWord);
    }
    small_number(word(words, 1))
}

/// The client and the slot of a line that has these two behind its verb.
#[tactic(auto, unfolding(crate::specs::Line::client_and_slot))]
fn client_and_slot(words: &[&[u8]]) -> Result<(u32, u32), TextFault>
    ensures { result ≡ client_and_slot (map (λ w. w.now) words.now) }
{
    if words.len() != 3 {
        return Err(TextFault::BadWord);
    }
    let client = small_number(word(words, 1))?;
    let slot = small_number(word(words, 2))?;
    Ok((client, slot))
}

/// The client and the name of a line that has these two behind its verb.
#[tactic(auto, unfolding(crate::specs::Line::client_and_name))]
fn client_and_name(words: &[&[u8]]) -> Result<(u32, u64), TextFault>
    ensures { result ≡ client_and_name (map (λ w. w.now) words.now) }
{
    if words.len() != 3 {
        return Err(TextFault::BadWord);
    }
    let client = small_number(word(words, 1))?;
    let name = number(word(words, 2))?;
    Ok((client, name))
}
