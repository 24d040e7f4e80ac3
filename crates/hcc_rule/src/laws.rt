//! What holds of every state that keeps the rule: so between any two atomic steps of any threads.
//!
//! No function here does anything when it runs: its contract is the law. `h.world` is the lawful
//! world that the words and the views of a state show. A state is meant without the seats' logs
//! (`unlogged`), except what its words are before the first step (`HoldsLogged`).
ghost use Rattle.std.specs.Prelude.{◌≡◌, ◌≢◌, ◌⊎◌, ℕ, ◌+◌, ◌/◌, ◌^◌, ◌<◌, ◌≤◌, true, false, List, [], ◌++◌, Some, Ok, slice_get, slice_index};
ghost use Rattle.std.specs.List.{list_any};
ghost use Rattle.atomic_table.specs.Table.{opening};
ghost use Rattle.hcc_word.specs.declared.layout.TheConstants.{VISIBLE};
ghost use Rattle.hcc_word.specs.Word.{word_of};
ghost use Rattle.hcc_core.specs.declared.client.Client.{Client};
ghost use Rattle.hcc_core.specs.declared.slot.Entry.{Entry};
ghost use Rattle.hcc_core.specs.declared.event.Event.{Event};
ghost use Rattle.hcc_core.specs.declared.event.Event.TheVariants.{Start};
ghost use Rattle.hcc_core.specs.declared.event.Reply.TheVariants as replies;
ghost use Rattle.hcc_core.specs.declared.limits.TheConstants.{SLOTS_PER_TURN};
ghost use Rattle.hcc_core.specs.Lawful.{Lawful, real_in, taken_in};
ghost use Rattle.hcc_core.specs.Opening.{opening_of};
ghost use Rattle.hcc_core.specs.Runs.{CountersFit, FindsOne, KeepsPlaces, after_all, held_at, takes_away};
ghost use Rattle.hcc_core.specs.Shown.{TellsTaken, changes_shown, may_take, shown_at};
ghost use Rattle.hcc_core.specs.Steps.{outcome_of};
ghost use Rattle.hcc_core.specs.Sums.{total};
ghost use Rattle.hcc_core.specs.World.{State, limit_of, occupancy_of, passed_by, standing_in, times};
ghost use Rattle.hcc_rule.specs.declared.image.ImageEntry.{ImageEntry};
ghost use Rattle.hcc_rule.specs.declared.key.Key.{Key};
ghost use Rattle.hcc_rule.specs.declared.layout.TheConstants.{META, USAGE, OCCUPANCY, STANDING, HAND};
ghost use Rattle.hcc_rule.specs.declared.rule.Plan.{Plan};
ghost use Rattle.hcc_rule.specs.declared.table.RuleTable.{RuleTable};
ghost use Rattle.hcc_rule.specs.declared.view.Done.{Done};
ghost use Rattle.hcc_rule.specs.declared.view.Logged.{Logged};
ghost use Rattle.hcc_rule.specs.declared.view.Record.{Record};
ghost use Rattle.hcc_rule.specs.declared.view.View.{View};
ghost use Rattle.hcc_rule.specs.Acts.{IsAllowed, IsFront, IsKnown, IsNoStepOf, IsRun, IsStepBy, KeepsTrails, RecordsStand, client_by, events_of, past, world_of};
ghost use Rattle.hcc_rule.specs.Callers.{plan_of, world_at};
ghost use Rattle.hcc_rule.specs.Closing.{key_at};
ghost use Rattle.hcc_rule.specs.Images.{entries_in};
ghost use Rattle.hcc_rule.specs.ImageLimits.{AreRising, IsImageFor};
ghost use Rattle.hcc_rule.specs.Laws.{LoggedStateOf, StateOf, due_in, ledger_word, displacement_word, has_entry, references_counted, references_held, AreMade, AreOfMade, AreTaken, HasWordsOfRecords, HoldsNothingTaken};
ghost use Rattle.hcc_rule.specs.Logs.{HasBegun, HoldsLogged, first_logged, moves_in};
ghost use Rattle.hcc_rule.specs.Opening.{begun_world};
ghost use Rattle.hcc_rule.specs.Probes.{probe_slot};
ghost use Rattle.hcc_rule.specs.Records.{record_in};
ghost use Rattle.hcc_rule.specs.Rule.{hand_after, setup_of, Holds};
ghost use Rattle.hcc_rule.specs.Runs.{AreShown};
ghost use Rattle.hcc_rule.specs.Seats.{IsPlanned, SeatOf};
ghost use Rattle.hcc_rule.specs.Shown.{IsTakenAway, KnowsShownAt};
ghost use Rattle.hcc_rule.specs.Views.{Each, is_seated};
ghost use Rattle.hcc_rule.specs.Words.{field_at};

use crate::key::Tag;
use std::alloc::Allocator;

/// The words with which a shard begins, of the entries that its plan names.
pub fn law_opening<T: Tag>()
    // Words of these entries meet the rule, with the view of the first seat.
    ensures opens { (p : Plan T) → IsPlanned p.geometry p.capacity
        → IsImageFor T.fits p.tag p.geometry p.capacity p.strict (entries_in p.image)
        → (words : List ℕ) → HasBegun p words
        → HoldsLogged T.fits p (opening words [] (first_logged p)) }

    // As long as no seat has made a step, the words are those of the entries.
    ensures words { (p : Plan T) (s : LoggedStateOf T) → HoldsLogged T.fits p s → moves_in s ≡ 0
        → HasBegun p s.words }

    // In these words each entry is Visible in its slot, with its uses, no references and no hit
    // bit.
    ensures shown { (p : Plan T) (words : List ℕ) → HasBegun p words
        → AreRising 0 p.geometry.slots (entries_in p.image) → (number : ℕ) (e : ImageEntry)
        → slice_get (entries_in p.image) number ≡ Some e
        → slice_index words (field_at p.geometry.room e.slot META)
        ≡ word_of e.uses e.uses false VISIBLE }

    // The word of any other slot is 0.
    ensures others { (p : Plan T) (words : List ℕ) → HasBegun p words
        → (slot : ℕ) → slot < p.geometry.slots
        → ((number : ℕ) (e : ImageEntry) → slice_get (entries_in p.image) number ≡ Some e
        → e.slot ≢ slot)
        → slice_index words (field_at p.geometry.room slot META) ≡ 0 }
{}

/// The ledger words, and the limits that they keep.
pub fn law_ledgers<T: Tag>()
    // The usage word is the real charge, that is the charges of all entries with what clients were
    // granted, what they freed and their standalone entries, and what clients still need.
    ensures usage { (p : Plan T) (s : StateOf T) (h : Holds T.fits p s)
        → ledger_word p s USAGE
        ≡ real_in h.world.slots h.world.clients + total (λ (c : Client). c.needed) h.world.clients }

    // Under strict capacity the real charge is within the capacity.
    ensures real { (p : Plan T) (s : StateOf T) (h : Holds T.fits p s) → p.strict ≡ true
        → real_in h.world.slots h.world.clients ≤ p.capacity }

    // The usage word is below 2^60.
    ensures usage_low { (p : Plan T) (s : StateOf T) → Holds T.fits p s
        → ledger_word p s USAGE < 2 ^ 60 }

    // The entries, with the places that were granted and the slots that were freed, are within the
    // limit.
    ensures places { (p : Plan T) (s : StateOf T) (h : Holds T.fits p s)
        → taken_in h.world.slots h.world.clients ≤ limit_of (setup_of p) }

    // The occupancy word is the entries with all places and the freed slots: at most the limit,
    // with an open place for each client.
    ensures occupancy { (p : Plan T) (s : StateOf T) (h : Holds T.fits p s)
        → (ledger_word p s OCCUPANCY ≡ occupancy_of h.world)
        × (ledger_word p s OCCUPANCY ≤ limit_of (setup_of p) + p.geometry.clients) }

    // The word of standalone charges is these in sum: at most the usage.
    ensures standing { (p : Plan T) (s : StateOf T) (h : Holds T.fits p s)
        → (ledger_word p s STANDING ≡ standing_in h.world)
        × (ledger_word p s STANDING ≤ ledger_word p s USAGE) }
{}

/// The hand, and the slots that are due to be visited.
pub fn law_hand<T: Tag>()
    // The hand word is the slots of a turn for each turn that all views count, modulo 2^64.
    ensures hand { (p : Plan T) (s : StateOf T) → Holds T.fits p s
        → ledger_word p s HAND ≡ hand_after s.views }

    // Turns that follow in the hand's order, as many as there are fours of slots, have each slot
    // once, from wherever the hand is. Visits are due then, not made: a client that is stalled
    // makes its own late.
    ensures due { (p : Plan T) → IsPlanned p.geometry p.capacity → (hand slot : ℕ)
        → slot < p.geometry.slots
        → times slot (due_in p.geometry.slots hand (p.geometry.slots / SLOTS_PER_TURN)) ≡ 1 }
{}

/// The entries, and what clients made.
pub fn law_made<T: Tag>()
    // In each slot with an entry stands one insertion, whoever holds it: its key, its value, its
    // charge and its serial are a member of its maker's list. No two slots have the same. Each
    // member of such a list stands in one slot and nobody took it, or one view took it once and it
    // stands in none.
    ensures slots { (p : Plan T) (s : StateOf T) → Holds T.fits p s → AreMade T.fits p s }

    // So is the entry of each record of each view.
    ensures records { (p : Plan T) (s : StateOf T) → Holds T.fits p s → (number : ℕ) (v : View T)
        → slice_get s.views number ≡ Some v → AreOfMade T.fits p s v }

    // So is each entry that a view took, and it took as many as it counts.
    ensures taken { (p : Plan T) (s : StateOf T) → Holds T.fits p s → (number : ℕ) (v : View T)
        → slice_get s.views number ≡ Some v → AreTaken s v }

    // Nobody took what anyone holds.
    ensures held { (p : Plan T) (s : StateOf T) → Holds T.fits p s → (number : ℕ) (v : View T)
        → slice_get s.views number ≡ Some v → HoldsNothingTaken s v }
{}

/// The trails of entries, by which searches end.
pub fn law_trails<T: Tag>()
    // Where an entry of a key is at one of its probes, visible or not, the displacement word of
    // each probe before is at least 1.
    ensures { (p : Plan T) (s : StateOf T) → Holds T.fits p s → IsPlanned p.geometry p.capacity
        → (key : Key) (i j : ℕ) → j < i → i < p.geometry.slots
        → has_entry p s (probe_slot p.geometry.slots key i) ≡ true
        → key_at p.geometry.room s.words (probe_slot p.geometry.slots key i) ≡ key
        → 1 ≤ displacement_word p s (probe_slot p.geometry.slots key j) }
{}

/// The words of a slot.
pub fn law_slots<T: Tag>()
    // A displacement word is how often its slot stands in the trails of entries and clients.
    ensures displacement { (p : Plan T) (s : StateOf T) (h : Holds T.fits p s) (slot : ℕ)
        → slot < p.geometry.slots
        → displacement_word p s slot ≡ passed_by h.world.slots h.world.clients slot }

    // In a slot with an entry, acquires less releases are the references that clients hold there.
    ensures references { (p : Plan T) (s : StateOf T) → Holds T.fits p s → (slot : ℕ)
        → slot < p.geometry.slots → has_entry p s slot ≡ true
        → references_counted p s slot ≡ references_held p s slot }

    // The data words of a slot are those of the entry of each record on it.
    ensures entries { (p : Plan T) (s : StateOf T) → Holds T.fits p s
        → (slot number : ℕ) (v : View T)
        → slice_get s.views number ≡ Some v → HasWordsOfRecords p s slot v }
{}

/// The events of a shard: its words show, between any two steps of any threads, the world to which
/// a run of the protocol's machine leads.
///
/// The history of a state is that run (`h.history`). Each seat knows a front of it (`Logged.past`),
/// and each step function says by which event with which reply it goes on.
pub fn law_run<T: Tag>()
    // The machine allows the events of the history one after another, each with the reply that
    // stands there, from the world that the shard began with to the world that its words show.
    ensures run { (p : Plan T) (s : LoggedStateOf T) (h : HoldsLogged T.fits p s)
        → IsRun (begun_world p) h.history h.rule.world }

    // So that is the world after these events.
    ensures world { (p : Plan T) (s : LoggedStateOf T) (h : HoldsLogged T.fits p s)
        → h.rule.world ≡ after_all (begun_world p) (events_of h.history) }

    // In the world after each front of it the trail of each entry is the probes of its key before
    // its slot.
    ensures trails { (p : Plan T) (s : LoggedStateOf T) (h : HoldsLogged T.fits p s)
        → KeepsTrails p h.history }

    // With no image the shard began with the opening world, in which client 0 was started.
    ensures opening { (p : Plan T) → IsPlanned p.geometry p.capacity → entries_in p.image ≡ []
        → outcome_of (opening_of (setup_of p)) (Start 0) ≡ Ok (replies.Ok, begun_world p) }

    // Each seat knows a front of the history, and behind it come only steps of clients that the
    // seat doesn't name, with starts and ends.
    ensures fronts { (p : Plan T) (s : LoggedStateOf T) (h : HoldsLogged T.fits p s)
        → (number : ℕ) (l : Logged T) → slice_get s.views number ≡ Some l
        → IsFront p.geometry.clients h.history l }

    // So the machine allows all that a seat knows.
    ensures allowed { (p : Plan T) (s : LoggedStateOf T) → HoldsLogged T.fits p s
        → (number : ℕ) (l : Logged T) → slice_get s.views number ≡ Some l
        → IsAllowed p l.past }

    // Some seat knows all of it except starts and ends that came since: so the views of a state
    // leave open no more of the history than these.
    ensures known { (p : Plan T) (s : LoggedStateOf T) (h : HoldsLogged T.fits p s)
        → IsKnown h.history s.views }

    // After any events from the world that the shard began with, refused or not, and so after each
    // front of each history, the world is lawful.
    ensures lawful { (p : Plan T) → IsPlanned p.geometry p.capacity
        → IsImageFor T.fits p.tag p.geometry p.capacity p.strict (entries_in p.image)
        → (events : List Event) → Lawful (after_all (begun_world p) events) }

    // In each slot uses and references together are below 2^30 then, and so are strays.
    ensures counters { (p : Plan T) → IsPlanned p.geometry p.capacity
        → IsImageFor T.fits p.tag p.geometry p.capacity p.strict (entries_in p.image)
        → (events : List Event) → CountersFit (after_all (begun_world p) events) }

    // A reference that stands in two worlds and in all between them has one slot and one entry.
    ensures places { (p : Plan T) (before events : List Event)
        → KeepsPlaces (after_all (begun_world p) before) events }

    // What a seat has on record at one moment its client still holds at each later one, on that
    // slot and entry, unless an event of that client between them gave or used the reference, or
    // freed its slot, by its name. Of what others do nothing is asked.
    ensures kept { (p : Plan T) (s t : LoggedStateOf T) (h : HoldsLogged T.fits p s)
        (g : HoldsLogged T.fits p t) (since : List Done) → g.history ≡ h.history ++ since
        → (number : ℕ) (l : Logged T) → slice_get s.views number ≡ Some l
        → is_seated l.known ≡ true → (name : ℕ) (r : Record)
        → record_in name l.known.records ≡ Some r
        → list_any (takes_away l.known.client name) (events_of since) ≡ false
        → held_at g.rule.world l.known.client name r.slot ≡ Some r.entry }

    // So what stood in the world after all that a seat knew stands in the one after all that it
    // knows later. Each step function says of its seat that its records stand (`event`).
    ensures kept_known { (p : Plan T) → IsPlanned p.geometry p.capacity
        → IsImageFor T.fits p.tag p.geometry p.capacity p.strict (entries_in p.image)
        → (old new : Logged T) (since : List Done) → RecordsStand p old
        → new.past ≡ old.past ++ since → (name : ℕ) (r : Record)
        → record_in name old.known.records ≡ Some r
        → list_any (takes_away old.known.client name) (events_of since) ≡ false
        → held_at (world_of p new.past) old.known.client name r.slot ≡ Some r.entry }

    // What isn't a step of a client takes none of its references away: so nothing does that comes
    // between two events of its seat (`IsNext.apart`).
    ensures others { (client name : ℕ) (others : List Done) → Each (IsNoStepOf client) others
        → list_any (takes_away client name) (events_of others) ≡ false }

    // A client has one reference of a name at most, and steps find its slot by the name.
    ensures found { (p : Plan T) (events : List Event)
        → FindsOne (after_all (begun_world p) events) }

    // The entry of the stamp of a client and a number is what that client's show of this number
    // gave. The entries of the image are the first that client 0 showed.
    ensures entries { (p : Plan T) → IsPlanned p.geometry p.capacity → (events : List Event)
        → AreShown p events }
{}

/// What a slot shows stays so, with any number of clients, until an event takes it away: a hide by
/// a reference on the slot, or a free of it.
pub fn law_shown<T: Tag>()
    // What a slot shows in the world after any events it shows after all that come behind them; or
    // one of these took it away, until when it was shown. Whose events they are, and what else they
    // do, doesn't matter.
    ensures stays { (p : Plan T) → IsPlanned p.geometry p.capacity
        → IsImageFor T.fits p.tag p.geometry p.capacity p.strict (entries_in p.image)
        → (front more : List Done) (slot : ℕ) (entry : Entry)
        → shown_at (world_of p front) slot ≡ Some entry
        → (shown_at (world_of p (front ++ more)) slot ≡ Some entry)
        ⊎ IsTakenAway slot entry (world_of p front) more }

    // So it is between two states of a shard, by the worlds that their words show.
    ensures states { (p : Plan T) (s t : LoggedStateOf T) (h : HoldsLogged T.fits p s)
        (g : HoldsLogged T.fits p t) (since : List Done) → g.history ≡ h.history ++ since
        → (slot : ℕ) (entry : Entry) → shown_at h.rule.world slot ≡ Some entry
        → (shown_at g.rule.world slot ≡ Some entry)
        ⊎ IsTakenAway slot entry h.rule.world since }

    // That event is another client's where a client made no hide and no free.
    ensures others { (client slot : ℕ) (entry : Entry) (world : State) (more : List Done)
        → Each (λ (done : Done). IsStepBy client done.event → may_take done.event ≡ false) more
        → (t : IsTakenAway slot entry world more) → client_by t.done.event ≢ client }

    // In a history its reply says so: of a hide that it hid the entry, of a free what it freed. So
    // a hide of what was hidden before took nothing away.
    ensures replied { (p : Plan T) (front more : List Done) → IsAllowed p (front ++ more)
        → (slot : ℕ) (entry : Entry) (t : IsTakenAway slot entry (world_of p front) more)
        → TellsTaken t.done.event t.done.reply }

    // Where no event shows, hides or frees an entry, each slot shows what it showed.
    ensures quiet { (p : Plan T) → IsPlanned p.geometry p.capacity
        → IsImageFor T.fits p.tag p.geometry p.capacity p.strict (entries_in p.image)
        → (front more : List Done) → list_any changes_shown (events_of more) ≡ false
        → (slot : ℕ) → shown_at (world_of p (front ++ more)) slot
        ≡ shown_at (world_of p front) slot }
{}

/// What a seat knows to be shown it knows so later, at the end of any call, with any number of
/// clients, unless an event took it away between.
pub fn law_known_shown<T: Tag, A: Allocator>()
    // The entries with which the shard began keep their limits: where it was new it had none.
    ensures { (table : RuleTable T A)
        → IsImageFor T.fits (plan_of table).tag (plan_of table).geometry (plan_of table).capacity
        (plan_of table).strict (entries_in (plan_of table).image)
        → (old new : SeatOf T) (more : List Done) → past new ≡ past old ++ more
        → (slot : ℕ) (entry : Entry) → KnowsShownAt table slot entry old
        → KnowsShownAt table slot entry new ⊎ IsTakenAway slot entry (world_at table old) more }
{}

/// The events of a shard of one client: its seat knows all of them, so the world that the words
/// show is a function of what the seat knows.
pub fn law_alone<T: Tag>()
    // The machine allows the events that the seat knows, from the world that the shard began with
    // to the world that the words show.
    ensures run { (p : Plan T) (s : LoggedStateOf T) (h : HoldsLogged T.fits p s)
        → p.geometry.clients ≡ 1 → (number : ℕ) (l : Logged T)
        → slice_get s.views number ≡ Some l → is_seated l.known ≡ true
        → IsRun (begun_world p) l.past h.rule.world }

    // So that is the world after these events, with its slots, its clients and all sums of them.
    ensures world { (p : Plan T) (s : LoggedStateOf T) (h : HoldsLogged T.fits p s)
        → p.geometry.clients ≡ 1 → (number : ℕ) (l : Logged T)
        → slice_get s.views number ≡ Some l → is_seated l.known ≡ true
        → h.rule.world ≡ after_all (begun_world p) (events_of l.past) }
{}
