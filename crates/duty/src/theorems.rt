// The theorems of what C calls, at every category: the entries are those that gridprofile's modules category1, category3 and
// category5 make, or those of any other sizes that are sound.
ghost use Rattle.duty.specs.Carried.{SignsAndVerifies, VerifiesFourRounds, MakesAndLoads};

use crate::{FourRounds, Loaded, Signed};
use gridprofile::entries::Entries;
use gridprofile::gridprofile_lookup as lookup;
use profile::LONGEST;

// First half: where signing answers 0, the verifier accepts what it wrote, under the key that make_key wrote.
pub fn sign_and_verify<
    const BLOCK: usize,
    const MATRIX: usize,
    const SEEDS: usize,
    const STATES: usize,
    const KEY: usize,
>(
    entries: &Entries<BLOCK, MATRIX, SEEDS, STATES, KEY>,
    private: &[u8],
    master: &[u8],
    salt: &[u8],
    msg: &[u8],
    sig: &mut [u8],
) -> Signed
    ensures { SignsAndVerifies entries.now.category.sizes private.now master.now salt.now msg.now
        sig.old result sig.new }
{
    let mut public = [0u8; KEY];
    let key = entries.make_key(private, &mut public);
    let sign = entries.sign(private, master, salt, msg, sig);
    let verify = entries.verify(&public, msg, sig);
    Signed { key, sign, verify }
}

// Second half: four replies to one commitment pair that all pass open the key, or a pair of strings excuses.
pub fn verify_four_rounds<
    const BLOCK: usize,
    const MATRIX: usize,
    const SEEDS: usize,
    const STATES: usize,
    const KEY: usize,
>(
    entries: &Entries<BLOCK, MATRIX, SEEDS, STATES, KEY>,
    key: &[u8],
    salt: &[u8],
    i: u32,
    c0: &[u8],
    c1: &[u8],
    beta: u32,
    other: u32,
    h: &[u8],
    h_other: &[u8],
    r0: &[u8],
    r1: &[u8],
    s0: &[u8],
    s1: &[u8],
) -> FourRounds
    ensures { VerifiesFourRounds entries.now.category.sizes key.now salt.now i c0.now c1.now beta other
        h.now h_other.now r0.now r1.now
        s0.now s1.now result }
{
    let a = entries.verify_round(key, salt, i, c0, c1, beta, h, 0, r0);
    let b = entries.verify_round(key, salt, i, c0, c1, beta, h, 1, r1);
    let c = entries.verify_round(key, salt, i, c0, c1, other, h_other, 0, s0);
    let d = entries.verify_round(key, salt, i, c0, c1, other, h_other, 1, s1);
    FourRounds { a, b, c, d }
}

// A package is made of a line and loaded into a store under the key that make_key wrote, and the device's triple is
// looked up.
pub fn make_and_load<
    const BLOCK: usize,
    const MATRIX: usize,
    const SEEDS: usize,
    const STATES: usize,
    const KEY: usize,
>(
    entries: &Entries<BLOCK, MATRIX, SEEDS, STATES, KEY>,
    table: &[u8],
    private: &[u8],
    master: &[u8],
    salt: &[u8],
    line: &[u8],
    store: &mut [u8],
    country: &[u8],
    class: u32,
    hertz: u32,
    out: &mut [u8],
) -> Loaded
    ensures { MakesAndLoads entries.now.category.sizes table.now private.now master.now salt.now
        line.now country.now class hertz store.old out.old result
        store.new out.new }
{
    let mut public = [0u8; KEY];
    let mut length: usize = 0;
    let key = entries.make_key(private, &mut public);
    let make = entries.make_package(table, private, master, salt, line, out, &mut length);
    let load = entries.load(store, &public, &out[..length], country, class, hertz);
    let mut found = [0u8; LONGEST];
    let mut found_length: usize = 0;
    let lookup = lookup(store, country, class, hertz, &mut found, &mut found_length);
    Loaded {
        key,
        make,
        load,
        lookup,
    }
}
