// Keccak-f[1600], the permutation of FIPS 202 (section 3): specs/Keccak.antt.
// A round goes from one array of lanes to another, plane by plane, and keeps six lanes complemented: specs/InnerPlanes.antt.
#![tactic(auto)]

ghost use Rattle.std.specs.Prelude.{◌<◌, [], ◌∷◌, ◌≡◌, length};
ghost use Rattle.keccak.specs.Keccak.{rotl, complement, beside as besideOf, parities, offsets, keccak_f};
ghost use Rattle.keccak.specs.InnerPlanes.{reveal, reveal_row, sided_row, held_plane, Parity, Beside, Hidden, Round};

// By how many bits ρ turns lane (x, y), at x + 5y.
const ROTATIONS: [u32; 25] = [
    0, 1, 62, 28, 27, 36, 44, 6, 55, 20, 3, 10, 43, 25, 39, 41, 45, 15, 21, 8, 18, 2, 61, 56, 14,
];

// What ι adds in each round.
const CONSTANTS: [u64; 24] = [
    0x1,
    0x8082,
    0x800000000000808a,
    0x8000000080008000,
    0x808b,
    0x80000001,
    0x8000000080008081,
    0x8000000000008009,
    0x8a,
    0x88,
    0x80008009,
    0x8000000a,
    0x8000808b,
    0x800000000000008b,
    0x8000000000008089,
    0x8000000000008003,
    0x8000000000008002,
    0x8000000000000080,
    0x800a,
    0x800000008000000a,
    0x8000000080008081,
    0x8000000000008080,
    0x80000001,
    0x8000000080008008,
];

// The second shift is by 64 - r, in two steps since no shift is by 64.
fn turned(x: u64, r: u32) -> u64
    requires { r < 64 }
    ensures { result ≡ rotl x r }
{
    (x << r) | (x >> 1 >> (63 - r))
}

fn complemented(x: u64) -> u64
    ensures { (result ≡ complement x) × (complement result ≡ x) }
{
    !x
}

fn parity(a: u64, b: u64, c: u64, d: u64, e: u64) -> u64
    ensures { Parity a b c d e result }
{
    a ^ b ^ c ^ d ^ e
}

fn beside(before: u64, after: u64) -> u64
    ensures { Beside before after result }
{
    before ^ turned(after, 1)
}

// Plane y of a round before ι: lane x is the one that π brings to (x, y), with the sum beside its column, turned and
// mixed by χ. Which lanes are complemented decides between ∧ and ∨, and leaves one complement to a plane.
fn plane0(a: [u64; 5], d: [u64; 5]) -> [u64; 5]
    ensures { reveal_row 0 result ≡ held_plane offsets 0 a d }
{
    let by = ROTATIONS;
    let [a0, a1, a2, a3, a4] = a;
    let [d0, d1, d2, d3, d4] = d;
    let b0 = turned(a0 ^ d0, by[0]);
    let b1 = turned(a1 ^ d1, by[6]);
    let b2 = turned(a2 ^ d2, by[12]);
    let b3 = turned(a3 ^ d3, by[18]);
    let b4 = turned(a4 ^ d4, by[24]);
    let n2 = !b2;
    [
        b0 ^ (b1 | b2),
        b1 ^ (n2 | b3),
        b2 ^ (b3 & b4),
        b3 ^ (b4 | b0),
        b4 ^ (b0 & b1),
    ]
}

fn plane1(a: [u64; 5], d: [u64; 5]) -> [u64; 5]
    ensures { reveal_row 1 result ≡ held_plane offsets 1 a d }
{
    let by = ROTATIONS;
    let [a0, a1, a2, a3, a4] = a;
    let [d0, d1, d2, d3, d4] = d;
    let b0 = turned(a0 ^ d0, by[3]);
    let b1 = turned(a1 ^ d1, by[9]);
    let b2 = turned(a2 ^ d2, by[10]);
    let b3 = turned(a3 ^ d3, by[16]);
    let b4 = turned(a4 ^ d4, by[22]);
    let n4 = !b4;
    [
        b0 ^ (b1 | b2),
        b1 ^ (b2 & b3),
        b2 ^ (b3 | n4),
        b3 ^ (b4 | b0),
        b4 ^ (b0 & b1),
    ]
}

fn plane2(a: [u64; 5], d: [u64; 5]) -> [u64; 5]
    ensures { reveal_row 2 result ≡ held_plane offsets 2 a d }
{
    let by = ROTATIONS;
    let [a0, a1, a2, a3, a4] = a;
    let [d0, d1, d2, d3, d4] = d;
    let b0 = turned(a0 ^ d0, by[1]);
    let b1 = turned(a1 ^ d1, by[7]);
    let b2 = turned(a2 ^ d2, by[13]);
    let b3 = turned(a3 ^ d3, by[19]);
    let b4 = turned(a4 ^ d4, by[20]);
    let n3 = !b3;
    [
        b0 ^ (b1 | b2),
        b1 ^ (b2 & b3),
        b2 ^ (n3 & b4),
        n3 ^ (b4 | b0),
        b4 ^ (b0 & b1),
    ]
}

fn plane3(a: [u64; 5], d: [u64; 5]) -> [u64; 5]
    ensures { reveal_row 3 result ≡ held_plane offsets 3 a d }
{
    let by = ROTATIONS;
    let [a0, a1, a2, a3, a4] = a;
    let [d0, d1, d2, d3, d4] = d;
    let b0 = turned(a0 ^ d0, by[4]);
    let b1 = turned(a1 ^ d1, by[5]);
    let b2 = turned(a2 ^ d2, by[11]);
    let b3 = turned(a3 ^ d3, by[17]);
    let b4 = turned(a4 ^ d4, by[23]);
    let n3 = !b3;
    [
        b0 ^ (b1 & b2),
        b1 ^ (b2 | b3),
        b2 ^ (n3 | b4),
        n3 ^ (b4 & b0),
        b4 ^ (b0 | b1),
    ]
}

fn plane4(a: [u64; 5], d: [u64; 5]) -> [u64; 5]
    ensures { reveal_row 4 result ≡ held_plane offsets 4 a d }
{
    let by = ROTATIONS;
    let [a0, a1, a2, a3, a4] = a;
    let [d0, d1, d2, d3, d4] = d;
    let b0 = turned(a0 ^ d0, by[2]);
    let b1 = turned(a1 ^ d1, by[8]);
    let b2 = turned(a2 ^ d2, by[14]);
    let b3 = turned(a3 ^ d3, by[15]);
    let b4 = turned(a4 ^ d4, by[21]);
    let n1 = !b1;
    [
        b0 ^ (n1 & b2),
        n1 ^ (b2 | b3),
        b2 ^ (b3 & b4),
        b3 ^ (b4 | b0),
        b4 ^ (b0 & b1),
    ]
}

// θ's sums beside the columns; those of the columns 0 and 3 come out complemented.
fn sides(s: &[u64; 25]) -> [u64; 5]
    ensures { sided_row result ≡ besideOf (parities (reveal s.now)) }
{
    let c0 = parity(s[0], s[5], s[10], s[15], s[20]);
    let c1 = parity(s[1], s[6], s[11], s[16], s[21]);
    let c2 = parity(s[2], s[7], s[12], s[17], s[22]);
    let c3 = parity(s[3], s[8], s[13], s[18], s[23]);
    let c4 = parity(s[4], s[9], s[14], s[19], s[24]);
    [
        beside(c4, c1),
        beside(c0, c2),
        beside(c1, c3),
        beside(c2, c4),
        beside(c3, c0),
    ]
}

// Each lane is read again after the stores: kept in a local, it would be spilled. The stores go one by one: with a copy of
// each plane into its place a round takes half as long again, and 104 bytes of stack.
fn round(s: &[u64; 25], t: &mut [u64; 25], k: u64)
    requires { length t.old ≡ 25 }
    ensures { Round k s.now t.new }
{
    let [d0, d1, d2, d3, d4] = sides(s);
    let p0 = plane0([s[0], s[6], s[12], s[18], s[24]], [d0, d1, d2, d3, d4]);
    t[0] = p0[0] ^ k;
    t[1] = p0[1];
    t[2] = p0[2];
    t[3] = p0[3];
    t[4] = p0[4];
    let p1 = plane1([s[3], s[9], s[10], s[16], s[22]], [d3, d4, d0, d1, d2]);
    t[5] = p1[0];
    t[6] = p1[1];
    t[7] = p1[2];
    t[8] = p1[3];
    t[9] = p1[4];
    let p2 = plane2([s[1], s[7], s[13], s[19], s[20]], [d1, d2, d3, d4, d0]);
    t[10] = p2[0];
    t[11] = p2[1];
    t[12] = p2[2];
    t[13] = p2[3];
    t[14] = p2[4];
    let p3 = plane3([s[4], s[5], s[11], s[17], s[23]], [d4, d0, d1, d2, d3]);
    t[15] = p3[0];
    t[16] = p3[1];
    t[17] = p3[2];
    t[18] = p3[3];
    t[19] = p3[4];
    let p4 = plane4([s[2], s[8], s[14], s[15], s[21]], [d2, d3, d4, d0, d1]);
    t[20] = p4[0];
    t[21] = p4[1];
    t[22] = p4[2];
    t[23] = p4[3];
    t[24] = p4[4];
}

// Complements the six lanes, which are the same on the way in and on the way out.
fn hide(s: &mut [u64; 25])
    ensures { Hidden s.old s.new }
{
    let h1 = complemented(s[1]);
    let h2 = complemented(s[2]);
    let h8 = complemented(s[8]);
    let h12 = complemented(s[12]);
    let h17 = complemented(s[17]);
    let h20 = complemented(s[20]);
    *s = [
        s[0], h1, h2, s[3], s[4], s[5], s[6], s[7], h8, s[9], s[10], s[11], h12, s[13], s[14],
        s[15], s[16], h17, s[18], s[19], h20, s[21], s[22], s[23], s[24],
    ];
}

// The whole permutation, in place; the rounds go from `s` to `t` and back.
pub fn permute(s: &mut [u64; 25])
    ensures { s.new ≡ keccak_f s.old }
{
    let mut t = [0u64; 25];
    let ks = CONSTANTS;
    hide(s);
    for i in 0..12 {
        round(s, &mut t, ks[2 * i]);
        round(&t, s, ks[2 * i + 1]);
    }
    hide(s);
}
