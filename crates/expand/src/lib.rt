// Seeds expanded: strings are hashed into a block, and the block is sampled into lent scratch that has eight places
// to spare.
#![tactic(auto)]

pub mod numbers;
pub mod scratch;

ghost use Rattle.std.specs.Prelude.{◌≡◌, [], ◌∷◌, ◌+◌, ◌-◌, ◌^◌, ◌<◌, ◌≤◌, T, length};
ghost use Rattle.outcome.specs.Result.{number_in};
ghost use Rattle.shake.specs.Shake.{shake, behind};
ghost use Rattle.packing.specs.Packing.{all_below, pack, size, digits};
ghost use Rattle.sampling.specs.Sampling.{enough, yield};
ghost use Rattle.sampling.specs.InnerScratch.{Room};
ghost use Rattle.scheme.specs.Strings.{key_exponents_string, mask_exponents_string};
ghost use Rattle.scheme.specs.Key.{matrix as matrixOf, matrix_drawn, matrix_count, exponents_from, exponents_drawn};
ghost use Rattle.scheme.specs.Round.{mask_exponents, mask_values, mask_block};
ghost use Rattle.scheme.specs.Sign.{first_challenges, first_drawn, second_challenges, second_drawn};
ghost use Rattle.expand.specs.InnerExpanded.{Expanded, ExpandedFrom};
ghost use Rattle.expand.specs.InnerScratch.{Scratch};

use outcome::Refusal;
use packing::VALUE;
use parameters::Category;
use sampling::Draw;
use scheme::tag;

// The round i in two bytes, low byte first.
pub fn round_number(i: usize) -> [u8; 2]
    ensures { result ≡ digits 8 2 i }
{
    ((i % 0x1_0000) as u16).to_le_bytes()
}

// A draw into `out`, unless the block is short.
fn sampled(d: Draw, block: &[u8], out: &mut [u8]) -> Result<(), Refusal>
    requires { Room d out.old }
    ensures { ExpandedFrom d block.now (number_in result) out.new }
{
    let n = d.count;
    if sampling::sample::sample(out, block, d) < n {
        return Err(Refusal::ShortDraw);
    }
    Ok(())
}

// The same from a tag and the parts behind it, hashed into a block of as many bytes as the draw has.
fn hashed(p: Category, d: Draw, tag: u8, parts: &[&[u8]], out: &mut [u8]) -> Result<(), Refusal>
    requires { (d.bytes ≤ 384) × Room d out.old }
    ensures { ExpandedFrom d (shake p.sizes.rate (behind (tag ∷ []) parts.now) d.bytes)
        (number_in result) out.new }
{
    let bytes = d.bytes;
    let mut block = [0u8; parameters::BLOCK];
    hashing::hash(p.sizes.rate, tag, parts, &mut block[..bytes]);
    sampled(d, &block[..bytes], out)
}

// V of a public seed.
pub fn matrix(p: Category, public: &[u8], block: &mut [u8], vs: &mut [u8]) -> Result<(), Refusal>
    requires { Scratch p.sizes block.old vs.old }
    ensures { Expanded (matrix_drawn p.sizes public.now) (matrix_count p.sizes) (matrixOf p.sizes public.now) (number_in result)
        vs.new }
{
    hashing::hash(p.sizes.rate, tag::MATRIX, &[public], block);
    sampled(numbers::matrix(p), block, vs)
}

// The key exponents of a secret seed.
pub fn key_exponents(p: Category, secret: &[u8], es: &mut [u8]) -> Result<(), Refusal>
    requires { p.sizes.n + 8 ≤ length es.old }
    ensures { Expanded (exponents_drawn p.sizes (key_exponents_string secret.now)) p.sizes.n
        (exponents_from p.sizes (key_exponents_string secret.now)) (number_in result) es.new }
{
    let bytes = p.sizes.exponents;
    let mut block = [0u8; parameters::EXPONENTS_BLOCK];
    hashing::hash(p.sizes.rate, tag::EXPONENTS, &[secret], &mut block[..bytes]);
    sampled(numbers::exponents(p.sizes), &block[..bytes], es)
}

// e' of round i.
pub fn mask_exponents(
    p: Category,
    seed: &[u8],
    salt: &[u8],
    i: usize,
    es: &mut [u8],
) -> Result<(), Refusal>
    requires { p.sizes.n + 8 ≤ length es.old }
    ensures { Expanded (exponents_drawn p.sizes (mask_exponents_string seed.now salt.now i)) p.sizes.n
        (mask_exponents p.sizes seed.now salt.now i) (number_in result) es.new }
{
    let number = round_number(i);
    hashed(
        p,
        numbers::exponents(p.sizes),
        tag::EXPONENTS,
        &[seed, salt, &number],
        es,
    )
}

// u' of round i.
pub fn mask_values(
    p: Category,
    seed: &[u8],
    salt: &[u8],
    i: usize,
    us: &mut [u8],
) -> Result<(), Refusal>
    requires { p.sizes.n + 8 ≤ length us.old }
    ensures { Expanded (enough p.sizes.n (yield 7 127 0 (mask_block p.sizes seed.now salt.now i)))
        p.sizes.n (mask_values p.sizes seed.now salt.now i) (number_in result) us.new }
{
    let number = round_number(i);
    hashed(
        p,
        numbers::mask_values(p.sizes),
        tag::MASK_VALUES,
        &[seed, salt, &number],
        us,
    )
}

// The first challenges.
pub fn first_challenges(
    p: Category,
    c: &[u8],
    salt: &[u8],
    msg: &[u8],
    bs: &mut [u8],
) -> Result<(), Refusal>
    requires { p.sizes.t + 8 ≤ length bs.old }
    ensures { Expanded (first_drawn p.sizes c.now salt.now msg.now) p.sizes.t
        (first_challenges p.sizes c.now salt.now msg.now) (number_in result) bs.new }
{
    hashed(
        p,
        numbers::first_challenges(p.sizes),
        tag::FIRST_CHALLENGES,
        &[c, salt, msg],
        bs,
    )
}

// Fields in range, packed where there is room for just them.
pub fn pack<const W: usize>(xs: &[u8], out: &mut [u8])
    requires { (0 < W) × (W ≤ 8) × T (all_below (2 ^ W - 1) xs.now) × (length out.old ≡ size W (length xs.now)) }
    ensures { out.new ≡ pack W xs.now }
{
    let _ = packing::pack::<W>(xs, out);
}

// The second challenges, of the first challenges bs. The strings lie in one array with what is packed here, and so have
// one lifetime.
pub fn second_challenges<'a>(
    p: Category,
    c: &'a [u8],
    bs: &[u8],
    h: &'a [u8],
    salt: &'a [u8],
    msg: &'a [u8],
    out: &mut [u8],
) -> Result<(), Refusal>
    requires { (length bs.now ≡ p.sizes.t) × T (all_below 127 bs.now) × (length out.old ≡ p.sizes.t) }
    ensures { Expanded
        (second_drawn p.sizes c.now bs.now h.now salt.now msg.now)
        p.sizes.t
        (second_challenges p.sizes c.now bs.now h.now salt.now msg.now)
        (number_in result) out.new }
{
    let bytes = p.sizes.second;
    let size = packing::packed_size(p.sizes.t, 7);
    let mut packed = [0u8; parameters::PACKED_CHALLENGES];
    pack::<VALUE>(bs, &mut packed[..size]);
    let first = &packed[..size];
    let mut block = [0u8; parameters::SECOND_BLOCK];
    hashing::hash(
        p.sizes.rate,
        tag::SECOND_CHALLENGE,
        &[c, first, h, salt, msg],
        &mut block[..bytes],
    );
    sampling::shuffle::shuffle(out, &block[..bytes], p.sizes.w)
}
