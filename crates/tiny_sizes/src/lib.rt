// The scheme at tiny sizes, only for the tests that run it beside another program: a draw that falls short is too rare
// at the sizes of a category to be met there. No part of the C interface.
#![tactic(auto)]

pub mod shake256;

ghost use Rattle.std.specs.Prelude.{◌≡◌};
ghost use Rattle.tiny_sizes.specs.Tiny.{tiny};
ghost use Rattle.scheme.specs.Entries.{MakesKey, Signs, Verifies, VerifiesRound};

use gridprofile::entries::Entries;
use parameters::{Category, Params};

const TINY: Params = Params {
    n: 4,
    k: 2,
    t: 5,
    w: 3,
    digest: 3,
    seed: 2,
    rate: 168,
    matrix: 4,
    exponents: 2,
    mask: 4,
    first: 5,
    second: 8,
};

const BLOCK: usize = TINY.matrix;

const MATRIX: usize = (TINY.n - TINY.k) * TINY.k + 8;

const SEEDS: usize = TINY.t * TINY.seed;

const STATES: usize = TINY.t * (2 * TINY.n + 2 * TINY.digest);

const KEY: usize = TINY.digest + (7 * (TINY.n - TINY.k) + 7) / 8;

fn entries() -> Entries<BLOCK, MATRIX, SEEDS, STATES, KEY>
    ensures { result.category.sizes ≡ tiny }
{
    Entries {
        category: Category { sizes: TINY },
    }
}

// The public key of a private seed.
#[unsafe(no_mangle)]
pub extern "C" fn tiny_make_key(private: &[u8], key: &mut [u8]) -> u8
    ensures { MakesKey tiny private.now key.old result key.new }
{
    entries().make_key(private, key)
}

// The signature of a message.
#[unsafe(no_mangle)]
pub extern "C" fn tiny_sign(
    private: &[u8],
    master: &[u8],
    salt: &[u8],
    msg: &[u8],
    sig: &mut [u8],
) -> u8
    ensures { Signs tiny private.now master.now salt.now msg.now
        sig.old result sig.new }
{
    entries().sign(private, master, salt, msg, sig)
}

// Whether a signature is one of the message under the key.
#[unsafe(no_mangle)]
pub extern "C" fn tiny_verify(key: &[u8], msg: &[u8], sig: &[u8]) -> u8
    ensures { Verifies tiny key.now msg.now sig.now result }
{
    entries().verify(key, msg, sig)
}

// The round examiner: one round, given its challenges and commitments.
#[unsafe(no_mangle)]
pub extern "C" fn tiny_verify_round(
    key: &[u8],
    salt: &[u8],
    i: u32,
    c0: &[u8],
    c1: &[u8],
    beta: u32,
    h: &[u8],
    challenge: u32,
    reply: &[u8],
) -> u8
    ensures { VerifiesRound tiny key.now salt.now i c0.now c1.now beta
        h.now challenge reply.now result }
{
    entries().verify_round(key, salt, i, c0, c1, beta, h, challenge, reply)
}
