//! Worked scripts of the protocol: what each event answers, and all that a line of a script's
//! output shows of the world after it.
//!
//! Where memory is refused a test ends early, with that as its result. Any other answer than the
//! table's, and any other world, stops it by an assertion.
ghost use Rattle.hcc_core.specs.Opening.{CanOpen};

use hcc_core::event::{CoreError, Event, Phase, Reply};
use hcc_core::listed::Listed;
use hcc_core::setup::Setup;
use hcc_core::slot::{Entry, Reference, Slot, Stamp};
use hcc_core::world::World;
use std::alloc::{AllocError, Global};
use std::process::Abort;

/// One event, what it answers, and after it slot 1 and the totals: usage, occupancy, what stands
/// and the hand. Slot 0 is empty throughout.
#[derive(Drop)]
struct Row(Event, Result<Reply, CoreError>, Seen, [u64; 4]);

/// A slot. Client 0 builds there, or has built: its first entry, of key 7, 9 and charge 5.
#[derive(Clone, Copy, PartialEq, Eq)]
struct Seen {
    phase: Phase,
    strays: u64,
    uses: u64,
    /// The only one.
    reference: Option<Reference>,
    hit: bool,
    passed: u64,
}

const EMPTY: Seen = Seen {
    phase: Phase::Empty,
    strays: 0,
    uses: 0,
    reference: None,
    hit: false,
    passed: 0,
};

const BUILDING: Seen = Seen {
    phase: Phase::Building,
    ..EMPTY
};

const SMALL: Setup = Setup {
    slots: 2,
    clients: 2,
    capacity: 600,
    strict: false,
};

/// What most events answer.
const DONE: Result<Reply, CoreError> = Ok(Reply::Ok);

const NOT_ALLOWED: Result<Reply, CoreError> = Err(CoreError::NotAllowed);

const SAW_SHOWN: Result<Reply, CoreError> = Ok(Reply::Saw(Phase::Shown));

/// The first entry of client 0.
const FIRST: Stamp = Stamp {
    client: 0,
    number: 0,
};

const FIRST_SHOWN: Result<Reply, CoreError> = Ok(Reply::Shows(Some(FIRST)));

const NOTHING_SHOWN: Result<Reply, CoreError> = Ok(Reply::Shows(None));

const LOOK: Event = Event::Look { client: 1, slot: 1 };

const FREE: Event = Event::Free {
    client: 0,
    slot: 1,
    name: None,
};

fn charge(client: u32, charge: u32) -> Event {
    Event::Charge { client, charge }
}

fn split(granted: u64, needed: u64) -> Result<Reply, CoreError> {
    Ok(Reply::Split { granted, needed })
}

/// The answer to a use or a give after which no reference is left.
fn left(phase: Phase) -> Result<Reply, CoreError> {
    Ok(Reply::Left {
        references: 0,
        phase,
    })
}

fn peek(client: u32, slot: u32) -> Event {
    Event::Peek { client, slot }
}

/// Client 1 acquires in slot 1.
fn acquire(weight: u64) -> Event {
    Event::Acquire {
        client: 1,
        slot: 1,
        weight,
        name: 4,
    }
}

/// Client 0 shows its entry.
fn show(
    alloc: Global,
    countdown: u64,
    name: Option<u64>,
    bytes: &[u8],
) -> Result<Event, AllocError> {
    Ok(Event::Show {
        client: 0,
        key0: 7,
        key1: 9,
        charge: 5,
        countdown,
        name,
        value: Listed::from_vec(bytes.to_vec(alloc)?),
    })
}

fn shown(uses: u64, reference: Option<Reference>) -> Seen {
    Seen {
        phase: Phase::Shown,
        uses,
        reference,
        ..EMPTY
    }
}

fn hidden(uses: u64, reference: Option<Reference>) -> Seen {
    Seen {
        phase: Phase::Hidden,
        ..shown(uses, reference)
    }
}

/// A reference of weight 1.
fn held(client: u32, name: u64) -> Option<Reference> {
    Some(Reference {
        client,
        name,
        weight: 1,
        counting: true,
    })
}

/// A slot as tables have it, or `None` where no table could have it.
fn look_at(world: &World, slot: u32) -> Option<Seen> {
    let passed = world.passed(slot);
    match world.slot(slot)? {
        Slot::Empty { strays } => Some(Seen {
            strays: *strays,
            passed,
            ..EMPTY
        }),
        Slot::Building { client: 0, strays } => Some(Seen {
            strays: *strays,
            passed,
            ..BUILDING
        }),
        Slot::Shareable(resident) if is_first(&resident.entry) => {
            let references = resident.references.as_slice();
            if references.len() > 1 {
                return None;
            }
            Some(Seen {
                phase: if resident.shown {
                    Phase::Shown
                } else {
                    Phase::Hidden
                },
                strays: 0,
                uses: resident.uses,
                reference: references.first().copied(),
                hit: resident.hit,
                passed,
            })
        }
        _ => None,
    }
}

fn is_first(entry: &Entry) -> bool {
    entry.stamp == FIRST && entry.key0 == 7 && entry.key1 == 9 && entry.charge == 5
}

/// All that a line shows of a world of two slots.
fn printed(world: &World) -> (Option<Seen>, Option<Seen>, [u64; 4]) {
    let totals = [
        world.usage(),
        world.occupancy(),
        world.standing(),
        world.hand(),
    ];
    (look_at(world, 0), look_at(world, 1), totals)
}

/// The word of an answer, its numbers and its bytes.
fn told(answer: &Result<Reply, CoreError>) -> (&str, u64, u64, &[u8]) {
    match answer {
        Ok(Reply::Ok) => ("ok", 0, 0, &[]),
        Ok(Reply::Saw(phase)) => ("saw", *phase as u64, 0, &[]),
        Ok(Reply::Taken) => ("taken", 0, 0, &[]),
        Ok(Reply::Got { shown, counting }) => ("got", *shown as u64, *counting as u64, &[]),
        Ok(Reply::Stray) => ("stray", 0, 0, &[]),
        Ok(Reply::Left { references, phase }) => ("left", *references, *phase as u64, &[]),
        Ok(Reply::Hid) => ("hid", 0, 0, &[]),
        Ok(Reply::Again) => ("again", 0, 0, &[]),
        Ok(Reply::Freed { charge }) => ("freed", *charge, 0, &[]),
        Ok(Reply::Entry { key0, key1, value }) => ("entry", *key0, *key1, value.as_slice()),
        Ok(Reply::Split { granted, needed }) => ("split", *granted, *needed, &[]),
        Ok(Reply::Granted) => ("granted", 0, 0, &[]),
        Ok(Reply::Open) => ("open", 0, 0, &[]),
        Ok(Reply::Uses(uses)) => ("uses", *uses, 0, &[]),
        Ok(Reply::Count(count)) => ("count", *count, 0, &[]),
        Ok(Reply::Shows(None)) => ("shows nothing", 0, 0, &[]),
        Ok(Reply::Shows(Some(stamp))) => ("shows", stamp.client as u64, stamp.number, &[]),
        Err(error) => ("refused", *error as u64, 0, &[]),
    }
}

/// A new world. Only want of memory keeps it from opening.
fn opened(rt: &impl Abort, alloc: Global, setup: Setup) -> Result<World, AllocError>
    requires { CanOpen setup }
{
    match World::opening(alloc, setup) {
        Ok(world) => Ok(world),
        Err(error) => {
            assert!(rt;
                error == CoreError::OutOfMemory,
                "the opening answered {error:?}"
            );
            Err(AllocError)
        }
    }
}

/// Whether the event may be answered that memory ran out.
fn may_run_out(event: &Event) -> bool {
    match event {
        Event::Look { .. }
        | Event::Acquire { .. }
        | Event::Give { .. }
        | Event::Use { .. }
        | Event::Occupy { .. }
        | Event::Show { name: Some(_), .. }
        | Event::Hide { .. }
        | Event::Free { name: Some(_), .. }
        | Event::Read { .. }
        | Event::Mark { .. }
        | Event::Correct { .. }
        | Event::Stand { .. }
        | Event::Pass { .. } => true,
        _ => false,
    }
}

/// Plays the rows on this world, up to the first want of memory, which changes nothing.
fn play<const N: usize>(
    rt: &impl Abort,
    alloc: Global,
    world: &mut World,
    rows: [Row; N],
) -> Result<(), AllocError> {
    let mut number = 0u64;
    for row in Vec::from_array(alloc, rows)? {
        let Row(event, wanted, slot, totals) = row;
        let before = printed(world);
        let may_run_out = may_run_out(&event);
        let answer = world.step(event);
        if told(&answer) == told(&Err(CoreError::OutOfMemory)) {
            assert!(rt; may_run_out, "{number} takes no memory");
            assert!(rt; printed(world) == before, "memory was refused at {number}");
            return Err(AllocError);
        }
        assert!(rt; told(&answer) == told(&wanted), "the answer to {number}");
        let after = (Some(EMPTY), Some(slot), totals);
        assert!(rt; printed(world) == after, "the world after {number}");
        number = number.saturating_add(1);
    }
    Ok(())
}

/// A world in which client 0 has a place and charge 5, and builds in slot 1.
fn building(rt: &impl Abort, alloc: Global) -> Result<World, AllocError> {
    let mut world = opened(rt, alloc, SMALL)?;
    let enter = Event::Enter { client: 0 };
    let occupy = Event::Occupy { client: 0, slot: 1 };
    let rows = [
        Row(Event::Start { client: 0 }, DONE, EMPTY, [0, 0, 0, 0]),
        Row(Event::Start { client: 1 }, DONE, EMPTY, [0, 0, 0, 0]),
        Row(enter, Ok(Reply::Granted), EMPTY, [0, 1, 0, 0]),
        Row(charge(0, 5), split(5, 0), EMPTY, [5, 1, 0, 0]),
        Row(occupy, Ok(Reply::Taken), BUILDING, [5, 1, 0, 0]),
    ];
    play(rt, alloc, &mut world, rows)?;
    Ok(world)
}

#[test]
fn refuses_by_the_first_name_that_is_due(rt: HostRuntime) -> Result<(), AllocError> {
    let mut world = opened(&rt, rt.alloc(), SMALL)?;
    let look = Event::Look { client: 5, slot: 5 };
    let no_client = Err(CoreError::NoSuchClient);
    let no_slot = Err(CoreError::NoSuchSlot);
    let rows = [
        Row(Event::Start { client: 0 }, DONE, EMPTY, [0, 0, 0, 0]),
        Row(Event::Start { client: 0 }, NOT_ALLOWED, EMPTY, [0, 0, 0, 0]),
        Row(Event::Start { client: 2 }, no_client, EMPTY, [0, 0, 0, 0]),
        Row(look, no_slot, EMPTY, [0, 0, 0, 0]),
    ];
    play(&rt, rt.alloc(), &mut world, rows)
}

#[test]
fn hides_and_frees_an_entry(rt: HostRuntime) -> Result<(), AllocError> {
    let mut world = building(&rt, rt.alloc())?;
    let show = show(rt.alloc(), 2, None, &[0xaa])?;
    let got = Ok(Reply::Got {
        shown: true,
        counting: true,
    });
    let hide = Event::Hide { client: 1, name: 4 };
    let spend = Event::Use { client: 1, name: 4 };
    let freed = Ok(Reply::Freed { charge: 5 });
    let four = held(1, 4);
    let rows = [
        Row(show, DONE, shown(2, None), [5, 1, 0, 0]),
        Row(LOOK, SAW_SHOWN, shown(2, None), [5, 1, 0, 0]),
        Row(acquire(1), got, shown(2, four), [5, 1, 0, 0]),
        Row(hide, Ok(Reply::Hid), hidden(2, four), [5, 1, 0, 0]),
        Row(FREE, NOT_ALLOWED, hidden(2, four), [5, 1, 0, 0]),
        Row(spend, left(Phase::Hidden), hidden(3, None), [5, 1, 0, 0]),
        Row(FREE, freed, BUILDING, [5, 1, 0, 0]),
        Row(Event::Empty { client: 0 }, DONE, EMPTY, [5, 1, 0, 0]),
        Row(Event::Slots { client: 0 }, DONE, EMPTY, [5, 0, 0, 0]),
        Row(Event::Settle { client: 0 }, DONE, EMPTY, [0, 0, 0, 0]),
    ];
    play(&rt, rt.alloc(), &mut world, rows)
}

#[test]
fn strays_where_an_entry_went(rt: HostRuntime) -> Result<(), AllocError> {
    let mut world = building(&rt, rt.alloc())?;
    let show = show(rt.alloc(), 2, None, &[0xaa])?;
    let freed = Ok(Reply::Freed { charge: 5 });
    let strayed = Seen {
        strays: 2,
        ..BUILDING
    };
    let rows = [
        Row(show, DONE, shown(2, None), [5, 1, 0, 0]),
        Row(LOOK, SAW_SHOWN, shown(2, None), [5, 1, 0, 0]),
        Row(FREE, freed, BUILDING, [5, 1, 0, 0]),
        Row(acquire(2), Ok(Reply::Stray), strayed, [5, 1, 0, 0]),
        Row(Event::Empty { client: 0 }, DONE, EMPTY, [5, 1, 0, 0]),
    ];
    play(&rt, rt.alloc(), &mut world, rows)
}

#[test]
fn keeps_a_reference_on_what_it_shows(rt: HostRuntime) -> Result<(), AllocError> {
    let mut world = building(&rt, rt.alloc())?;
    let show = show(rt.alloc(), 2, Some(3), &[])?;
    let read = Event::Read { client: 0, name: 3 };
    let whole = Ok(Reply::Entry {
        key0: 7,
        key1: 9,
        value: Listed::from_vec(Vec::new(rt.alloc())),
    });
    let give = Event::Give { client: 0, name: 3 };
    let three = held(0, 3);
    let rows = [
        Row(show, DONE, shown(1, three), [5, 1, 0, 0]),
        Row(read, whole, shown(1, three), [5, 1, 0, 0]),
        Row(give, left(Phase::Shown), shown(1, None), [5, 1, 0, 0]),
    ];
    play(&rt, rt.alloc(), &mut world, rows)
}

#[test]
fn splits_a_charge_under_strict(rt: HostRuntime) -> Result<(), AllocError> {
    let setup = Setup {
        capacity: 100,
        strict: true,
        ..SMALL
    };
    let mut world = opened(&rt, rt.alloc(), setup)?;
    let rows = [
        Row(Event::Start { client: 0 }, DONE, EMPTY, [0, 0, 0, 0]),
        Row(Event::Start { client: 1 }, DONE, EMPTY, [0, 0, 0, 0]),
        Row(charge(0, 60), split(60, 0), EMPTY, [60, 0, 0, 0]),
        Row(charge(1, 60), split(40, 20), EMPTY, [120, 0, 0, 0]),
    ];
    play(&rt, rt.alloc(), &mut world, rows)
}

#[test]
fn counts_down_and_ends(rt: HostRuntime) -> Result<(), AllocError> {
    let mut world = building(&rt, rt.alloc())?;
    let show = show(rt.alloc(), 3, None, &[])?;
    let clock = Event::Clock { client: 0, slot: 1 };
    let rows = [
        Row(show, DONE, shown(3, None), [5, 1, 0, 0]),
        Row(clock, Ok(Reply::Uses(2)), shown(2, None), [5, 1, 0, 0]),
    ];
    play(&rt, rt.alloc(), &mut world, rows)?;
    let mut other = opened(&rt, rt.alloc(), SMALL)?;
    let rows = [
        Row(Event::Start { client: 0 }, DONE, EMPTY, [0, 0, 0, 0]),
        Row(Event::End { client: 0 }, DONE, EMPTY, [0, 0, 0, 0]),
    ];
    play(&rt, rt.alloc(), &mut other, rows)
}

#[test]
fn passes_and_stands(rt: HostRuntime) -> Result<(), AllocError> {
    let mut world = opened(&rt, rt.alloc(), SMALL)?;
    let pass = Event::Pass { client: 0, slot: 1 };
    let passed = Seen { passed: 1, ..EMPTY };
    let unpass = Event::Unpass { client: 0, slot: 1 };
    let turn = Event::Turn { client: 0 };
    let stand = Event::Stand {
        client: 0,
        charge: 5,
        name: 7,
    };
    let fall = Event::Fall { client: 0, name: 7 };
    let rows = [
        Row(Event::Start { client: 0 }, DONE, EMPTY, [0, 0, 0, 0]),
        Row(pass, DONE, passed, [0, 0, 0, 0]),
        Row(unpass, DONE, EMPTY, [0, 0, 0, 0]),
        Row(turn, Ok(Reply::Count(0)), EMPTY, [0, 0, 0, 4]),
        Row(charge(0, 5), split(5, 0), EMPTY, [5, 0, 0, 4]),
        Row(stand, DONE, EMPTY, [5, 0, 5, 4]),
        Row(fall, DONE, EMPTY, [5, 0, 0, 4]),
        Row(Event::Waive { client: 0 }, DONE, EMPTY, [0, 0, 0, 4]),
    ];
    play(&rt, rt.alloc(), &mut world, rows)
}

/// A load without a reference tells which entry is shown in a slot.
#[test]
fn peeks_at_what_is_shown(rt: HostRuntime) -> Result<(), AllocError> {
    let mut world = building(&rt, rt.alloc())?;
    let show = show(rt.alloc(), 2, Some(3), &[])?;
    let hide = Event::Hide { client: 0, name: 3 };
    let there = shown(1, held(0, 3));
    let gone = hidden(1, held(0, 3));
    let no_client = Err(CoreError::NoSuchClient);
    let no_slot = Err(CoreError::NoSuchSlot);
    let rows = [
        Row(peek(1, 0), NOTHING_SHOWN, BUILDING, [5, 1, 0, 0]),
        Row(peek(1, 1), NOTHING_SHOWN, BUILDING, [5, 1, 0, 0]),
        Row(show, DONE, there, [5, 1, 0, 0]),
        Row(peek(1, 1), FIRST_SHOWN, there, [5, 1, 0, 0]),
        Row(hide, Ok(Reply::Hid), gone, [5, 1, 0, 0]),
        Row(peek(1, 1), NOTHING_SHOWN, gone, [5, 1, 0, 0]),
        Row(peek(5, 5), no_slot, gone, [5, 1, 0, 0]),
        Row(peek(5, 1), no_client, gone, [5, 1, 0, 0]),
        Row(Event::End { client: 1 }, DONE, gone, [5, 1, 0, 0]),
        Row(peek(1, 1), NOT_ALLOWED, gone, [5, 1, 0, 0]),
    ];
    play(&rt, rt.alloc(), &mut world, rows)
}

/// The events that no script above has.
#[test]
fn marks_and_tells(rt: HostRuntime) -> Result<(), AllocError> {
    let mut world = building(&rt, rt.alloc())?;
    let show = show(rt.alloc(), 2, Some(3), &[])?;
    let enter = Event::Enter { client: 1 };
    let mark = Event::Mark { client: 0, name: 3 };
    let marked = Seen {
        hit: true,
        ..shown(1, held(0, 3))
    };
    let correct = Event::Correct { client: 0, name: 3 };
    let hide = Event::Hide { client: 0, name: 3 };
    let again = Event::Hide { client: 0, name: 3 };
    let gone = Seen {
        phase: Phase::Hidden,
        ..marked
    };
    let count = Event::Count { client: 0, slot: 1 };
    let usage = Event::Usage { client: 1 };
    let occupancy = Event::Occupancy { client: 1 };
    let standing = Event::Standing { client: 1 };
    let rows = [
        Row(Event::Write { client: 0 }, DONE, BUILDING, [5, 1, 0, 0]),
        Row(enter, Ok(Reply::Open), BUILDING, [5, 2, 0, 0]),
        Row(Event::Quit { client: 1 }, DONE, BUILDING, [5, 1, 0, 0]),
        Row(show, DONE, shown(1, held(0, 3)), [5, 1, 0, 0]),
        Row(mark, DONE, marked, [5, 1, 0, 0]),
        Row(correct, NOT_ALLOWED, marked, [5, 1, 0, 0]),
        Row(hide, Ok(Reply::Hid), gone, [5, 1, 0, 0]),
        Row(again, Ok(Reply::Again), gone, [5, 1, 0, 0]),
        Row(count, Ok(Reply::Count(0)), gone, [5, 1, 0, 0]),
        Row(usage, Ok(Reply::Count(5)), gone, [5, 1, 0, 0]),
        Row(occupancy, Ok(Reply::Count(1)), gone, [5, 1, 0, 0]),
        Row(standing, Ok(Reply::Count(0)), gone, [5, 1, 0, 0]),
    ];
    play(&rt, rt.alloc(), &mut world, rows)
}
