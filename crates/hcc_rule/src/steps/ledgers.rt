//! Steps on the usage word.
ghost use Rattle.std.specs.Prelude.{◌≡◌, ◌+◌, ◌-◌, ◌*◌, ◌^◌, ◌<◌, ◌≤◌, true};
ghost use Rattle.hcc_core.specs.Lawful.{real_to};
ghost use Rattle.hcc_core.specs.World.{charged_to};
ghost use Rattle.hcc_rule.specs.declared.layout.TheConstants.{LEDGER_WORDS, USAGE};
ghost use Rattle.hcc_rule.specs.declared.view.Record.{Record};
ghost use Rattle.hcc_rule.specs.Callers.{capacity_of, clients_of, id_of, is_strict, plan_of, IsEvent, IsSeatAt};
ghost use Rattle.hcc_rule.specs.Addresses.{address_of_ledger};
ghost use Rattle.hcc_rule.specs.Events.{charge_done, settle_done, usage_done, waive_done};
ghost use Rattle.hcc_rule.specs.Rule.{setup_of};
ghost use Rattle.hcc_rule.specs.Seats.{IsSameSeat, Makes, MakesSome, view};
ghost use Rattle.hcc_rule.specs.ToldLedgers.{Charged, after_usage, after_charge, after_settle, after_waive, waived};
ghost use Rattle.hcc_rule.specs.Views.{charge_made, Each};
ghost use Rattle.hcc_rule.specs.Records.{charge_held};
ghost use Rattle.hcc_rule.specs.Words.{ledger_at};

use crate::key::Tag;
use crate::layout::USAGE;
use crate::steps::does::Does;
use crate::table::{RuleSeat, RuleTable};
use crate::view::View;
use std::alloc::Allocator;
use std::marker::Brand;

/// What a subtraction of the freed charge shows.
pub struct Settle;

impl<T: Tag> Does<View<T>> for Settle {
    ghost use Rattle.hcc_rule.specs.ToldLedgers.{settles};

    ghost then = { settles };
}

/// What a subtraction of all of a client's amounts shows.
pub struct Waive;

impl<T: Tag> Does<View<T>> for Waive {
    ghost use Rattle.hcc_rule.specs.ToldLedgers.{waives};

    ghost then = { waives };
}

impl<T: Tag, A: Allocator> RuleTable<T, A> {
    /// The address of a ledger word.
    #[inline(always)]
    pub(crate) fn ledger(&self, ledger: usize) -> usize
        requires { ledger < LEDGER_WORDS }
        ensures value { result ≡ ledger_at self.now.geometry.slots self.now.geometry.room ledger }
        ensures inside { result < (id_of self.now).words }
    {
        self.geometry.slots as usize * self.stride + ledger
    }

    /// Loads the usage: all charges of entries, and what stands for clients. The view's seen list
    /// grows by the answer. That is below 2^60, and at least what stands for the client itself with
    /// the charges of all entries that it holds references on. Each of these counts once: its
    /// records on one slot are on one entry, and the first of them stands for it in the sum
    /// (`different`). Under strict capacity, these charges with the client's real charge (what it
    /// was granted, what it freed, and its standalone entries) are at most the capacity, and the
    /// usage is above that by what clients still need at most: less than 2^32 for each other
    /// client. Where the shard has one client, it is at most the charges of all that the client
    /// showed, with what stands for it.
    ///
    /// It allocates nothing. It costs one load.
    pub fn usage(&self, seat: &mut RuleSeat<T>) -> u64
        requires seat { IsSeatAt self.now seat.old }
        ensures seat { IsSameSeat seat.old seat.new }
        ensures view { view seat.new ≡ after_usage result (view seat.old) }
        ensures own { charged_to (view seat.old).work ≤ result }
        ensures entries { charged_to (view seat.old).work + charge_held (view seat.old).records
            ≤ result }
        ensures held { Each (λ (r : Record). charged_to (view seat.old).work + r.entry.charge
            ≤ result) (view seat.old).records }
        ensures low { result < 2 ^ 60 }
        ensures real { is_strict self.now ≡ true
            → real_to (view seat.old).work + charge_held (view seat.old).records
            ≤ capacity_of self.now }
        ensures most { is_strict self.now ≡ true
            → result ≤ capacity_of self.now + (view seat.old).work.needed + 2 ^ 32
            * (clients_of self.now - 1) }
        ensures alone { clients_of self.now ≡ 1
            → result ≤ charged_to (view seat.old).work + charge_made (view seat.old) }
        ensures step { Makes (address_of_ledger self.now USAGE) 0 0 result seat.old seat.new }
        ensures event { IsEvent self.now (usage_done result (view seat.old))
            seat.old seat.new }
    {
        self.load::<Brand, _>(seat, self.ledger(USAGE), ())
    }

    /// Adds a charge to the usage, for a client that has nothing granted and nothing needed.
    /// Without strict capacity all of it is granted at once; with it, as much as the found usage
    /// leaves of the capacity. The rest is needed: the client has to free as much before it may use
    /// any, and the charge joins the view's tight list.
    ///
    /// It returns the usage before: below 2^60, and at least what stood for the client with the
    /// charges of all entries that it holds references on. Under strict capacity it is above the
    /// capacity by what other clients still need at most. Where the shard has one client, it is at
    /// most the charges of all that the client showed, with what stood for it.
    ///
    /// It allocates nothing. It costs one atomic add.
    pub fn charge(&self, seat: &mut RuleSeat<T>, amount: u32) -> u64
        requires seat { IsSeatAt self.now seat.old }
        requires spent { ((view seat.old).work.granted ≡ 0) × ((view seat.old).work.needed ≡ 0) }
        ensures seat { IsSameSeat seat.old seat.new }
        ensures view { view seat.new ≡ after_charge (setup_of (plan_of self.now)) amount result
            (view seat.old) }
        ensures entries { charged_to (view seat.old).work + charge_held (view seat.old).records
            ≤ result }
        ensures low { result < 2 ^ 60 }
        ensures real { is_strict self.now ≡ true
            → real_to (view seat.old).work + charge_held (view seat.old).records
            ≤ capacity_of self.now }
        ensures most { is_strict self.now ≡ true
            → result ≤ capacity_of self.now + 2 ^ 32 * (clients_of self.now - 1) }
        ensures alone { clients_of self.now ≡ 1
            → result ≤ charged_to (view seat.old).work + charge_made (view seat.old) }
        ensures step { Makes (address_of_ledger self.now USAGE) amount 0 result seat.old seat.new }
        ensures event { IsEvent self.now (charge_done (setup_of (plan_of self.now)) amount result
            (view seat.old))
            seat.old seat.new }
    {
        self.fetch_add::<Brand, _>(seat, self.ledger(USAGE), amount as u64, ())
    }

    /// Takes the charge that the client freed from the usage. It must be some, and cover what the
    /// client still needed, which is granted then.
    ///
    /// It allocates nothing. It costs one atomic subtraction.
    pub fn settle(&self, seat: &mut RuleSeat<T>, amount: u64)
        requires seat { IsSeatAt self.now seat.old }
        requires amount { ((view seat.old).work.freed ≡ amount) × (0 < amount) }
        requires covered { (view seat.old).work.needed ≤ amount }
        ensures seat { IsSameSeat seat.old seat.new }
        ensures view { view seat.new ≡ after_settle (view seat.old) }
        ensures step { MakesSome (address_of_ledger self.now USAGE) amount 0 seat.old seat.new }
        ensures event { IsEvent self.now (settle_done (view seat.old))
            seat.old seat.new }
    {
        self.fetch_sub::<Settle, _>(seat, self.ledger(USAGE), amount, ());
    }

    /// Takes all that the client was granted, needed or freed from the usage, which is `amount` and
    /// isn't 0: the client has none of it then.
    ///
    /// It allocates nothing. It costs one atomic subtraction.
    pub fn waive(&self, seat: &mut RuleSeat<T>, amount: u64)
        requires seat { IsSeatAt self.now seat.old }
        requires amount { (waived (view seat.old).work ≡ amount) × (0 < amount) }
        ensures seat { IsSameSeat seat.old seat.new }
        ensures view { view seat.new ≡ after_waive (view seat.old) }
        ensures step { MakesSome (address_of_ledger self.now USAGE) amount 0 seat.old seat.new }
        ensures event { IsEvent self.now (waive_done (view seat.old))
            seat.old seat.new }
    {
        self.fetch_sub::<Waive, _>(seat, self.ledger(USAGE), amount, ());
    }
}
