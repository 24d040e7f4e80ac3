//! Writes replies and slots as text.
ghost use Rattle.std.specs.Prelude.{◌≡◌, ◌++◌, ◌∷◌, OnOk, string_bytes, decimal};
ghost use Rattle.std.specs.List.{flat_map};
ghost use Rattle.hcc_player.specs.Text.{phase_text, shown_text, mark_text, value_text, byte_text};
ghost use Rattle.hcc_player.specs.Text.{shows_text, reply_text, refusal_text};
ghost use Rattle.hcc_player.specs.Text.{reference_text, references_text};
ghost use Rattle.hcc_player.specs.Text.{entry_text, initial_text, hit_text, resident_text};
ghost use Rattle.hcc_player.specs.Text.{slot_text, gap, slots_from, totals_text, world_text};
ghost use Rattle.hcc_player.specs.Text.{answer_text, line_text};

use hcc_core::event::{CoreError, Phase, Reply};
use hcc_core::slot::{Entry, Reference, Resident, Slot, Stamp};
use hcc_core::world::World;
use std::alloc::AllocError;

fn push_phase(out: &mut String, phase: Phase) -> Result<(), AllocError>
    ensures { OnOk result (string_bytes out.new ≡ string_bytes out.old ++ phase_text phase) }
{
    match phase {
        Phase::Empty => out.push_str("empty"),
        Phase::Building => out.push_str("building"),
        Phase::Shown => out.push_str("shown"),
        Phase::Hidden => out.push_str("hidden"),
    }
}

fn push_shown(out: &mut String, shown: bool) -> Result<(), AllocError>
    ensures { OnOk result (string_bytes out.new ≡ string_bytes out.old ++ shown_text shown) }
{
    if shown {
        out.push_str("shown")
    } else {
        out.push_str("hidden")
    }
}

/// Writes the mark of a reference that doesn't count.
fn push_mark(out: &mut String, counting: bool, mark: &str) -> Result<(), AllocError>
    ensures { OnOk result
        (string_bytes out.new ≡ string_bytes out.old ++ mark_text counting mark.now) }
{
    if counting {
        return Ok(());
    }
    out.push_str(mark)
}

/// Writes a byte as two hexadecimal digits.
#[tactic(auto, using(std::proofs::lemmas::Fmt::hex_byte))]
fn push_byte(out: &mut String, byte: u8) -> Result<(), AllocError>
    ensures { OnOk result (string_bytes out.new ≡ string_bytes out.old ++ byte_text byte) }
{
    write!(out, "{byte:02x}")
}

#[tactic(auto, using(std::proofs::lemmas::List::flat_map_more))]
pub fn push_bytes(out: &mut String, bytes: &[u8]) -> Result<(), AllocError>
    ensures { OnOk result
        (string_bytes out.new ≡ string_bytes out.old ++ flat_map byte_text bytes.now) }
{
    for byte in bytes {
        push_byte(out, *byte)?;
    }
    Ok(())
}

/// Writes a value as a script has it.
#[tactic(auto, unfolding(crate::specs::Text::value_text))]
pub fn push_value(out: &mut String, value: &[u8]) -> Result<(), AllocError>
    ensures { OnOk result
        (string_bytes out.new ≡ string_bytes out.old ++ value_text value.now) }
{
    if value.is_empty() {
        return out.push_str("-");
    }
    push_bytes(out, value)
}

/// Writes which entry is shown in a slot, if one is.
#[tactic(auto, unfolding(crate::specs::Text::shows_text))]
fn push_shows(out: &mut String, stamp: Option<Stamp>) -> Result<(), AllocError>
    ensures { OnOk result
        (string_bytes out.new ≡ string_bytes out.old ++ shows_text stamp) }
{
    let Some(stamp) = stamp else {
        return out.push_str("shows nothing");
    };
    let client = stamp.client;
    let number = stamp.number;
    write!(out, "shows {client} {number}")
}

/// Writes a reply.
#[tactic(auto, unfolding(crate::specs::Text::reply_text))]
pub fn push_reply(out: &mut String, reply: &Reply) -> Result<(), AllocError>
    ensures { OnOk result
        (string_bytes out.new ≡ string_bytes out.old ++ reply_text reply.now) }
{
    match reply {
        Reply::Ok => out.push_str("ok"),
        Reply::Saw(phase) => {
            out.push_str("saw ")?;
            push_phase(out, *phase)
        }
        Reply::Taken => out.push_str("taken"),
        Reply::Got { shown, counting } => {
            out.push_str("got ")?;
            push_shown(out, *shown)?;
            push_mark(out, *counting, " !")
        }
        Reply::Stray => out.push_str("stray"),
        Reply::Left { references, phase } => {
            write!(out, "left {references} ")?;
            push_phase(out, *phase)
        }
        Reply::Hid => out.push_str("hid"),
        Reply::Again => out.push_str("again"),
        Reply::Freed { charge } => write!(out, "freed {charge}"),
        Reply::Entry { key0, key1, value } => {
            write!(out, "entry {key0}.{key1} ")?;
            push_value(out, value.as_slice())
        }
        Reply::Split { granted, needed } => write!(out, "split {granted} {needed}"),
        Reply::Granted => out.push_str("granted"),
        Reply::Open => out.push_str("open"),
        Reply::Uses(uses) => write!(out, "uses {uses}"),
        Reply::Count(count) => write!(out, "count {count}"),
        Reply::Shows(stamp) => push_shows(out, *stamp),
    }
}

/// Writes a refusal.
#[tactic(auto, unfolding(crate::specs::Text::refusal_text))]
pub fn push_refusal(out: &mut String, error: CoreError) -> Result<(), AllocError>
    ensures { OnOk result
        (string_bytes out.new ≡ string_bytes out.old ++ refusal_text error) }
{
    match error {
        CoreError::NoSuchSlot => out.push_str("refused NoSuchSlot"),
        CoreError::NoSuchClient => out.push_str("refused NoSuchClient"),
        CoreError::NotAllowed => out.push_str("refused NotAllowed"),
        CoreError::OutOfMemory => out.push_str("refused OutOfMemory"),
    }
}

#[tactic(auto, unfolding(crate::specs::Text::reference_text))]
fn push_reference(out: &mut String, reference: Reference) -> Result<(), AllocError>
    ensures { OnOk result
        (string_bytes out.new ≡ string_bytes out.old ++ reference_text reference) }
{
    let client = reference.client;
    let name = reference.name;
    let weight = reference.weight;
    write!(out, "{client}.{name}x{weight}")?;
    push_mark(out, reference.counting, "!")
}

/// Writes references that stand behind others.
#[tactic(auto, using(std::proofs::lemmas::List::flat_map_more))]
fn push_more_references(out: &mut String, references: &[Reference]) -> Result<(), AllocError>
    ensures { OnOk result (string_bytes out.new ≡
        string_bytes out.old ++ flat_map (λ r. 38 ∷ reference_text r) references.now) }
{
    for reference in references {
        out.push_str("&")?;
        push_reference(out, *reference)?;
    }
    Ok(())
}

#[tactic(auto, unfolding(crate::specs::Text::references_text))]
fn push_references(out: &mut String, references: &[Reference]) -> Result<(), AllocError>
    ensures { OnOk result
        (string_bytes out.new ≡ string_bytes out.old ++ references_text references.now) }
{
    match references {
        [] => out.push_str("-"),
        [first, rest @ ..] => {
            push_reference(out, *first)?;
            push_more_references(out, rest)
        }
    }
}

/// Writes an entry: its key, its stamp and its charge.
#[tactic(auto, unfolding(crate::specs::Text::entry_text))]
fn push_entry(out: &mut String, entry: &Entry) -> Result<(), AllocError>
    ensures { OnOk result
        (string_bytes out.new ≡ string_bytes out.old ++ entry_text entry.now) }
{
    let key0 = entry.key0;
    let key1 = entry.key1;
    let client = entry.stamp.client;
    let number = entry.stamp.number;
    let charge = entry.charge;
    write!(out, "{key0}.{key1}")?;
    write!(out, "@{client}.{number}")?;
    write!(out, "#{charge}")
}

fn push_initial(out: &mut String, shown: bool) -> Result<(), AllocError>
    ensures { OnOk result (string_bytes out.new ≡ string_bytes out.old ++ initial_text shown) }
{
    if shown {
        out.push_str("S")
    } else {
        out.push_str("H")
    }
}

fn push_hit(out: &mut String, hit: bool) -> Result<(), AllocError>
    ensures { OnOk result (string_bytes out.new ≡ string_bytes out.old ++ hit_text hit) }
{
    if hit {
        out.push_str(",h1")
    } else {
        out.push_str(",h0")
    }
}

/// Writes an entry, and what the slot keeps beside it.
#[tactic(auto, unfolding(crate::specs::Text::resident_text))]
fn push_resident(out: &mut String, resident: &Resident) -> Result<(), AllocError>
    ensures { OnOk result
        (string_bytes out.new ≡ string_bytes out.old ++ resident_text resident.now) }
{
    let uses = resident.uses;
    push_initial(out, resident.shown)?;
    push_entry(out, &resident.entry)?;
    write!(out, ",u{uses},r")?;
    push_references(out, resident.references.as_slice())?;
    push_hit(out, resident.hit)
}

/// Writes a slot that stands in trails so many times.
#[tactic(auto, unfolding(crate::specs::Text::slot_text))]
pub fn push_slot(out: &mut String, slot: &Slot, passed: u64) -> Result<(), AllocError>
    ensures { OnOk result
        (string_bytes out.new ≡ string_bytes out.old ++ slot_text slot.now passed) }
{
    match slot {
        Slot::Empty { strays } => write!(out, "E+{strays}/{passed}"),
        Slot::Building { client, strays } => write!(out, "B{client}+{strays}/{passed}"),
        Slot::Shareable(resident) => {
            push_resident(out, resident)?;
            write!(out, "/{passed}")
        }
    }
}

fn push_gap(out: &mut String, slot: u32) -> Result<(), AllocError>
    ensures { OnOk result (string_bytes out.new ≡ string_bytes out.old ++ gap slot) }
{
    if slot == 0 {
        return Ok(());
    }
    out.push_str(" ")
}

/// Writes the slots of a world, with a space between two.
fn push_slots(out: &mut String, world: &World) -> Result<(), AllocError>
    ensures { OnOk result
        (string_bytes out.new ≡ string_bytes out.old ++ slots_from world.now 0 world.now.slots) }
{
    for number in 0..u32::MAX {
        let Some(slot) = world.slot(number) else {
            return Ok(());
        };
        push_gap(out, number)?;
        push_slot(out, slot, world.passed(number))?;
    }
    Ok(())
}

/// Writes the sums over a world, and its hand.
#[tactic(auto, unfolding(crate::specs::Text::totals_text))]
fn push_totals(out: &mut String, world: &World) -> Result<(), AllocError>
    ensures { OnOk result
        (string_bytes out.new ≡ string_bytes out.old ++ totals_text world.now) }
{
    let usage = world.usage();
    let occupancy = world.occupancy();
    let standing = world.standing();
    let hand = world.hand();
    write!(out, "{usage} {occupancy} {standing} {hand}")
}

#[tactic(auto, unfolding(crate::specs::Text::world_text))]
fn push_world(out: &mut String, world: &World) -> Result<(), AllocError>
    ensures { OnOk result
        (string_bytes out.new ≡ string_bytes out.old ++ world_text world.now) }
{
    push_slots(out, world)?;
    out.push_str(" | ")?;
    push_totals(out, world)
}

fn push_answer(out: &mut String, answer: &Result<Reply, CoreError>) -> Result<(), AllocError>
    ensures { OnOk result
        (string_bytes out.new ≡ string_bytes out.old ++ answer_text answer.now) }
{
    match answer {
        Ok(reply) => push_reply(out, reply),
        Err(error) => push_refusal(out, *error),
    }
}

/// Writes the line of an event that was answered so, and left this world.
///
/// It costs, for each slot, a pass over the world's trails.
#[tactic(auto, unfolding(crate::specs::Text::line_text))]
pub fn push_line(
    out: &mut String,
    answer: &Result<Reply, CoreError>,
    world: &World,
) -> Result<(), AllocError>
    ensures { OnOk result
        (string_bytes out.new ≡ string_bytes out.old ++ line_text answer.now world.now) }
{
    push_answer(out, answer)?;
    out.push_str(" : ")?;
    push_world(out, world)?;
    out.push_str("\n")
}
