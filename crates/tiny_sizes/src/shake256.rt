// The same with SHAKE256's rate, as categories 3 and 5 have it.
ghost use Rattle.std.specs.Prelude.{◌≡◌};
ghost use Rattle.tiny_sizes.specs.Tiny.{tiny_shake256};
ghost use Rattle.scheme.specs.Entries.{MakesKey, Signs, Verifies, VerifiesRound};

use gridprofile::entries::Entries;
use parameters::{Category, Params};

const TINY: Params = Params {
    n: 4,
    k: 2,
    t: 5,
    w: 3,
    digest: 3,
    seed: 2,
    rate: 136,
    matrix: 4,
    exponents: 2,
    mask: 4,
    first: 5,
    second: 8,
};

const BLOCK: usize = TINY.matrix;

const MATRIX: usize = (TINY.n - TINY.k) * TINY.k + 8;

const SEEDS: usize = TINY.t * TINY.seed;

const STATES: usize = TINY.t * (2 * TINY.n + 2 * TINY.digest);

const KEY: usize = TINY.digest + (7 * (TINY.n - TINY.k) + 7) / 8;

fn entries() -> Entries<BLOCK, MATRIX, SEEDS, STATES, KEY>
    ensures { result.category.sizes ≡ tiny_shake256 }
{
    Entries {
        category: Category { sizes: TINY },
    }
}

// The public key of a private seed.
#[unsafe(no_mangle)]
pub extern "C" fn tiny_shake256_make_key(private: &[u8], key: &mut [u8]) -> u8
    ensures { MakesKey tiny_shake256 private.now key.old result key.new }
{
    entries().make_key(private, key)
}

// The signature of a message.
#[unsafe(no_mangle)]
pub extern "C" fn tiny_shake256_sign(
    private: &[u8],
    master: &[u8],
    salt: &[u8],
    msg: &[u8],
    sig: &mut [u8],
) -> u8
    ensures { Signs tiny_shake256 private.now master.now salt.now msg.now
        sig.old result sig.new }
{
    entries().sign(private, master, salt, msg, sig)
}

// Whether a signature is one of the message under the key.
#[unsafe(no_mangle)]
pub extern "C" fn tiny_shake256_verify(key: &[u8], msg: &[u8], sig: &[u8]) -> u8
    ensures { Verifies tiny_shake256 key.now msg.now sig.now result }
{
    entries().verify(key, msg, sig)
}

// The round examiner: one round, given its challenges and commitments.
#[unsafe(no_mangle)]
pub extern "C" fn tiny_shake256_verify_round(
    key: &[u8],
    salt: &[u8],
    i: u32,
    c0: &[u8],
    c1: &[u8],
    beta: u32,
    h: &[u8],
    challenge: u32,
    reply: &[u8],
) -> u8
    ensures { VerifiesRound tiny_shake256 key.now salt.now i c0.now c1.now beta
        h.now challenge reply.now result }
{
    entries().verify_round(key, salt, i, c0, c1, beta, h, challenge, reply)
}
