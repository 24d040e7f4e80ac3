//! Seeded keys: the 128 bits of a key go through two rounds that can be undone.

ghost use Rattle.std.specs.Prelude.{◌≡◌, ℕ, ◌^◌, ◌<◌};
ghost use Rattle.hcc_word.specs.Seeding.{mixture, seeded_key, unseeded_key};

/// The odd factor that spreads a word's low bits over its high ones.
pub const SEED_MULTIPLIER: u64 = 0x9e37_79b9_7f4a_7c15;

/// The key that stands for the key (`k0`, `k1`) under this seed. Seed 0 changes nothing.
///
/// Word 1 gains a mixture of word 0, and then word 0 gains one of the new word 1. Different keys
/// stay different, for [`unseeded`] gives each one back.
pub fn seeded(seed: u64, k0: u64, k1: u64) -> (u64, u64)
    ensures words { result ≡ seeded_key seed (k0, k1) }
    ensures undone { unseeded_key seed result ≡ (k0, k1) }
    ensures unchanged { seed ≡ 0 → result ≡ (k0, k1) }
    ensures distinct { (j0 j1 : ℕ) → j0 < 2 ^ 64 → j1 < 2 ^ 64 → seeded_key seed (j0, j1) ≡ result
        → (j0 ≡ k0) × (j1 ≡ k1) }
{
    let h1 = k1.wrapping_add(mixed(seed, k0));
    let h0 = k0.wrapping_add(mixed(seed, h1));
    (h0, h1)
}

/// The key that (`h0`, `h1`) stands for under this seed.
pub fn unseeded(seed: u64, h0: u64, h1: u64) -> (u64, u64)
    ensures words { result ≡ unseeded_key seed (h0, h1) }
    ensures undone { seeded_key seed result ≡ (h0, h1) }
{
    let k0 = h0.wrapping_sub(mixed(seed, h1));
    let k1 = h1.wrapping_sub(mixed(seed, k0));
    (k0, k1)
}

/// What a round adds for this word: it is spread by the seed and a multiplier, and its high half is
/// folded onto the low one. Under seed 0 it is 0.
fn mixed(seed: u64, word: u64) -> u64
    ensures { result ≡ mixture seed word }
{
    if seed == 0 {
        return 0;
    }
    let product = (word ^ seed).wrapping_mul(SEED_MULTIPLIER);
    product ^ (product >> 32)
}
