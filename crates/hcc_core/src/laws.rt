//! What holds of every run, and what the clock can't see.
ghost use Rattle.std.specs.Prelude.{◌≡◌, ℕ, ◌+◌, ◌<◌, true, false, List, Some, slice_get};
ghost use Rattle.std.specs.List.{list_any};
ghost use Rattle.hcc_core.specs.declared.slot.Entry.{Entry};
ghost use Rattle.hcc_core.specs.declared.slot.Reference.{Reference};
ghost use Rattle.hcc_core.specs.declared.slot.Slot.{Slot};
ghost use Rattle.hcc_core.specs.declared.event.Event.{Event};
ghost use Rattle.hcc_core.specs.declared.event.Event.TheVariants.{Clock};
ghost use Rattle.hcc_core.specs.declared.limits.TheConstants.{MOST_CLOCKED};
ghost use Rattle.hcc_core.specs.declared.setup.Setup.{Setup};
ghost use Rattle.hcc_core.specs.World.{State, has_reference, is_shareable, uses_of};
ghost use Rattle.hcc_core.specs.Outcomes.{with_slot};
ghost use Rattle.hcc_core.specs.References.{slot_acquired, slot_used};
ghost use Rattle.hcc_core.specs.Uses.{slot_with_uses};
ghost use Rattle.hcc_core.specs.Steps.{outcome_of};
ghost use Rattle.hcc_core.specs.Lawful.{Lawful};
ghost use Rattle.hcc_core.specs.Runs.{AreGiven, CountersFit, FindsOne, KeepsPlaces, StandsBetween, after_all, held_at, takes_away};
ghost use Rattle.hcc_core.specs.Runs.{AreBalanced, AreGone, AreOnce, FreesAreGiven};
ghost use Rattle.hcc_core.specs.Opening.{CanOpen, opening_of};

/// What holds of every world on the way of every run from an opening world, whatever events come
/// and in whatever order. Events that are refused change nothing. Only `lawful`, `counters` and
/// `stands` need that the setup can be opened.
///
/// It does nothing when it runs: its contract is the law.
pub fn law_every_run()
    // The world after any events is lawful.
    ensures lawful { (setup : Setup) (events : List Event) → CanOpen setup
        → Lawful (after_all (opening_of setup) events) }

    // In each slot uses and references together are below 2^30, and so are strays.
    ensures counters { (setup : Setup) (events : List Event) → CanOpen setup
        → CountersFit (after_all (opening_of setup) events) }

    // A reference that stands in two worlds and in all between them has one slot and one entry.
    ensures places { (setup : Setup) (before events : List Event)
        → KeepsPlaces (after_all (opening_of setup) before) events }

    // A reference stands until its own client gives or uses it, or frees its slot, by its name.
    ensures stands { (setup : Setup) (before events : List Event) → CanOpen setup
        → (client name slot : ℕ) (entry : Entry)
        → list_any (takes_away client name) events ≡ false
        → held_at (after_all (opening_of setup) before) client name slot ≡ Some entry
        → held_at (after_all (after_all (opening_of setup) before) events) client name slot
        ≡ Some entry }

    // A client has one reference of a name at most, and steps find its slot by the name.
    ensures found { (setup : Setup) (events : List Event)
        → FindsOne (after_all (opening_of setup) events) }

    // An entry that stands in a slot at two moments stands there between them: no entry returns.
    ensures between { (setup : Setup) (before events : List Event) → CanOpen setup
        → StandsBetween (after_all (opening_of setup) before) events }

    // The entry of the stamp of a client and a number is what that client's show of this number
    // gave: of its shows that were allowed, from 0.
    ensures entries { (setup : Setup) (events : List Event)
        → AreGiven (opening_of setup) events }
{}

/// Where entries are: each that is shown in a run stands in one slot after it, or was taken once,
/// by a free of that slot. The run may begin in any lawful world, as each world of a run from an
/// opening world is; whatever events come, and in whatever order.
///
/// It does nothing when it runs: its contract is the law.
pub fn law_every_entry()
    // However entries are weighed, those in the slots after the events and those that clients freed
    // weigh together what those in the slots before and those that clients showed do.
    ensures balance { (world : State) (events : List Event) → Lawful world
        → AreBalanced world events }

    // An entry that was shown stands in one slot after the events, once, or was freed by one of
    // them, once.
    ensures once { (world : State) (events : List Event) → Lawful world → AreOnce world events }

    // An entry that was freed stands in no slot after the events, and nobody holds a reference on
    // it.
    ensures gone { (world : State) (events : List Event) → Lawful world → AreGone world events }

    // In a run from an opening world, an entry that was freed is what the show of its stamp gave.
    ensures given { (setup : Setup) (events : List Event)
        → FreesAreGiven (opening_of setup) events }
{}

/// Which uses the clock can't see. A visit leaves [`MOST_CLOCKED`](crate::limits::MOST_CLOCKED)
/// uses of an entry at most: so where it has more, one more is spare.
///
/// It does nothing when it runs: its contract is the law.
pub fn law_spare_uses()
    // Where an entry has more uses than a visit leaves, any number of uses on top of these changes
    // neither what a visit answers nor the world that it leaves.
    ensures clock { (world : State) (client slot : ℕ) (seen : Slot) (more : ℕ)
        → slice_get world.slots slot ≡ Some seen → MOST_CLOCKED < uses_of seen
        → outcome_of (with_slot world slot (slot_with_uses (uses_of seen + more) seen))
        (Clock client slot)
        ≡ outcome_of world (Clock client slot) }

    // Acquiring a reference by a name that the client doesn't hold there, and then using it, leaves
    // the slot with so many uses more as it weighs, and nothing else.
    ensures used { (k : Reference) (seen : Slot) → is_shareable seen ≡ true
        → has_reference k.client k.name seen ≡ false
        → slot_used k.client k.name k (slot_acquired seen k)
        ≡ slot_with_uses (uses_of seen + k.weight) seen }
{}
