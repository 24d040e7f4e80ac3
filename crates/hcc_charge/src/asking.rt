//! How much charge a reservation asks eviction for.
ghost use Rattle.std.specs.Prelude.{◌≡◌, ◌+◌, ◌*◌, ◌^◌, ◌<◌, ◌≤◌};
ghost use Rattle.hcc_rule.specs.declared.layout.TheConstants.{MOST_CAPACITY};
ghost use Rattle.hcc_charge.specs.Reserved.{ask_of, at_least_one, still_needed};

/// What is asked for without strict capacity, by the usage that was found: nothing where the charge
/// fits, or where it is more than all that is used; else the charge, and a little more where the
/// usage is above the capacity already.
pub(crate) fn ask(capacity: u64, used: u64, charge: u32) -> u64
    requires used { used < 2 ^ 60 }
    requires capacity { capacity ≤ MOST_CAPACITY }
    ensures value { result ≡ ask_of capacity used charge }
    ensures low { result ≤ 2 * charge + 1 }
{
    let charge = charge as u64;
    if used + charge <= capacity || charge > used {
        0
    } else if used > capacity {
        charge + (capacity / 1024).min(charge) + 1
    } else {
        charge
    }
}

/// What is needed under strict capacity, by the usage that was found: what of the charge isn't
/// granted.
pub(crate) fn needed(capacity: u64, used: u64, charge: u32) -> u64
    ensures value { result ≡ still_needed capacity used charge }
    ensures low { result ≤ charge }
{
    let charge = charge as u64;
    charge - charge.min(capacity - used.min(capacity))
}

/// At least 1 where a place has to be freed.
pub(crate) fn at_least_one(ask: u64, full: bool) -> u64
    ensures value { result ≡ at_least_one full ask }
    ensures low { result ≤ ask + 1 }
{
    if full { ask.max(1) } else { ask }
}
