// Making keys, over the sizes of a category and lent scratch.
#![tactic(auto)]

ghost use Rattle.std.specs.Prelude.{◌≡◌, ◌++◌, ◌+◌, ◌*◌, ◌≤◌, T, length};
ghost use Rattle.outcome.specs.Result.{number_in};
ghost use Rattle.packing.specs.Packing.{all_below, pack};
ghost use Rattle.linear.specs.Linear.{syndrome, powers};
ghost use Rattle.scheme.specs.Key.{matrix_count, key_size};
ghost use Rattle.scheme.specs.Entries.{MakesKey};
ghost use Rattle.keygen.specs.InnerMaterial.{Material};

use expand::scratch::Scratch;
use outcome::Refusal;
use packing::VALUE;
use parameters::{Category, DRAWN_PLACES, PLACES, TWO_DIGESTS};
use scheme::tag;

// Both seeds, V and the key exponents of a private seed.
pub fn material(
    p: Category,
    private: &[u8],
    seeds: &mut [u8],
    block: &mut [u8],
    vs: &mut [u8],
    es: &mut [u8],
) -> Result<(), Refusal>
    requires { (length seeds.old ≡ 2 * p.sizes.digest) × (length block.old ≡ p.sizes.matrix)
        × (length vs.old ≡ matrix_count p.sizes + 8) × (p.sizes.n + 8 ≤ length es.old) }
    ensures { Material p.sizes private.now (number_in result) seeds.new vs.new es.new }
{
    let d = p.sizes.digest;
    hashing::hash(p.sizes.rate, tag::KEY_SEEDS, &[private], seeds);
    expand::matrix(p, &seeds[d..], block, vs)?;
    expand::key_exponents(p, &seeds[..d], es)
}

// The public key of a public seed, V and key exponents.
fn write_key(p: Category, public: &[u8], vs: &[u8], es: &[u8], key: &mut [u8])
    requires { (length public.now ≡ p.sizes.digest) × (length vs.now ≡ matrix_count p.sizes)
        × T (all_below 127 vs.now) × (length es.now ≡ p.sizes.n) × T (all_below 7 es.now)
        × (length key.old ≡ key_size p.sizes) }
    ensures { key.new ≡ public.now
        ++ pack 7 (syndrome p.sizes.k vs.now (powers es.now)) }
{
    let n = p.sizes.n;
    let k = p.sizes.k;
    let d = p.sizes.digest;
    let rows = n - k;
    let mut x = [0u8; PLACES];
    let mut s = [0u8; PLACES];
    linear::powers(es, &mut x[..n]);
    linear::syndrome(k, vs, &x[..n], &mut s[..rows]);
    linear::normalize(&mut s[..rows]);
    key[..d].copy_from_slice(public);
    expand::pack::<VALUE>(&s[..rows], &mut key[d..]);
}

// The public key of a private seed into `key`; scratch for V and its block is lent.
pub fn make_key(private: &[u8], scratch: &mut Scratch<'_>, key: &mut [u8]) -> Result<(), Refusal>
    ensures key { MakesKey scratch.old.category.sizes private.now key.old (number_in result) key.new }
    ensures category { scratch.new.category ≡ scratch.old.category }
{
    let p = scratch.category;
    let n = p.sizes.n;
    let k = p.sizes.k;
    let d = p.sizes.digest;
    if private.len() != d {
        return Err(Refusal::BadSize);
    }
    if key.len() != scheme::key_size(p) {
        return Err(Refusal::BadSize);
    }
    let both = 2 * d;
    let count = (n - k) * k;
    let mut seeds = [0u8; TWO_DIGESTS];
    let mut es = [0u8; DRAWN_PLACES];
    material(
        p,
        private,
        &mut seeds[..both],
        &mut *scratch.block,
        &mut *scratch.vs,
        &mut es,
    )?;
    write_key(p, &seeds[d..both], &scratch.vs[..count], &es[..n], key);
    Ok(())
}
