//! Sums over the slots and the clients of a world, as they are now.
ghost use Rattle.std.specs.Prelude.{◌≡◌, ◌<◌, ◌+◌, ◌^◌, ◌==◌, sum_by, count_by};
ghost use Rattle.hcc_core.specs.Sums.{total};
ghost use Rattle.hcc_core.specs.World.{charge_of, is_shareable, is_placed, trail_of, standing_of};
ghost use Rattle.hcc_core.specs.World.{charged_to, taken_by_slot, occupied_by, passed_by};

use crate::client::Client;
use crate::slot::Slot;

/// The charges of all entries, and all that clients were granted, need, freed or keep in
/// standalone entries.
pub(crate) fn usage(slots: &[Slot], clients: &[Client]) -> u64
    requires { total charge_of slots.now + total charged_to clients.now < 2 ^ 64 }
    ensures { result ≡ total charge_of slots.now + total charged_to clients.now }
{
    let entries = charges(slots);
    let granted = granted(clients);
    let needed = needed(clients);
    let freed = freed(clients);
    let standing = standing(clients);
    entries + granted + needed + freed + standing
}

/// The entries, and what clients hold of places and freed slots.
pub(crate) fn occupancy(slots: &[Slot], clients: &[Client]) -> u64
    requires { total taken_by_slot slots.now + total occupied_by clients.now < 2 ^ 64 }
    ensures { result ≡ total taken_by_slot slots.now + total occupied_by clients.now }
{
    let residents = residents(slots) as u64;
    let places = places(clients) as u64;
    let freed_slots = freed_slots(clients);
    residents + places + freed_slots
}

/// How often a slot stands in the trails of entries and clients.
pub(crate) fn passed(slots: &[Slot], clients: &[Client], slot: u32) -> u64
    requires { passed_by slots.now clients.now slot < 2 ^ 64 }
    ensures { result ≡ passed_by slots.now clients.now slot }
{
    let entries = in_entries(slots, slot);
    let hands = in_hands(clients, slot);
    entries + hands
}

/// The charges of all entries.
fn charges(slots: &[Slot]) -> u64
    requires { sum_by charge_of slots.now < 2 ^ 64 }
    ensures { result ≡ sum_by charge_of slots.now }
{
    slots.iter().map(|slot| slot.charge()).sum()
}

/// The amounts granted.
fn granted(clients: &[Client]) -> u64
    requires { sum_by (λ c. c.granted) clients.now < 2 ^ 64 }
    ensures { result ≡ sum_by (λ c. c.granted) clients.now }
{
    clients.iter().map(|client| client.granted).sum()
}

/// The amounts needed.
fn needed(clients: &[Client]) -> u64
    requires { sum_by (λ c. c.needed) clients.now < 2 ^ 64 }
    ensures { result ≡ sum_by (λ c. c.needed) clients.now }
{
    clients.iter().map(|client| client.needed).sum()
}

/// The amounts freed.
fn freed(clients: &[Client]) -> u64
    requires { sum_by (λ c. c.freed) clients.now < 2 ^ 64 }
    ensures { result ≡ sum_by (λ c. c.freed) clients.now }
{
    clients.iter().map(|client| client.freed).sum()
}

/// The charges of all standalone entries.
pub(crate) fn standing(clients: &[Client]) -> u64
    requires { total standing_of clients.now < 2 ^ 64 }
    ensures { result ≡ total standing_of clients.now }
{
    let mut sum = 0;
    for client in clients {
        sum += client.standing();
    }
    sum
}

/// How many slots have an entry.
fn residents(slots: &[Slot]) -> usize
    ensures { result ≡ count_by is_shareable slots.now }
{
    slots.iter().filter(|slot| slot.is_shareable()).count()
}

/// How many clients have a place, open or granted.
fn places(clients: &[Client]) -> usize
    ensures { result ≡ count_by (λ c. is_placed c.place) clients.now }
{
    clients
        .iter()
        .filter(|client| client.place.is_placed())
        .count()
}

/// How many slots were freed and not yet given back.
fn freed_slots(clients: &[Client]) -> u64
    requires { sum_by (λ c. c.freed_slots) clients.now < 2 ^ 64 }
    ensures { result ≡ sum_by (λ c. c.freed_slots) clients.now }
{
    clients.iter().map(|client| client.freed_slots).sum()
}

/// How often a slot stands in the trails of entries.
fn in_entries(slots: &[Slot], slot: u32) -> u64
    requires { sum_by (λ s. count_by (λ t. t == slot) (trail_of s)) slots.now < 2 ^ 64 }
    ensures { result ≡ sum_by (λ s. count_by (λ t. t == slot) (trail_of s)) slots.now }
{
    slots.iter().map(|seen| times(seen.trail(), slot)).sum()
}

/// How often a slot stands in the trails of clients.
fn in_hands(clients: &[Client], slot: u32) -> u64
    requires { sum_by (λ c. count_by (λ t. t == slot) c.trail) clients.now < 2 ^ 64 }
    ensures { result ≡ sum_by (λ c. count_by (λ t. t == slot) c.trail) clients.now }
{
    clients
        .iter()
        .map(|client| times(client.trail.as_slice(), slot))
        .sum()
}

fn times(trail: &[u32], slot: u32) -> u64
    ensures { result ≡ count_by (λ t. t == slot) trail.now }
{
    trail.iter().filter(|passed| **passed == slot).count() as u64
}
