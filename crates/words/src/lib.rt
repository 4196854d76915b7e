// Numbers of four bytes, low byte first, as images hold them.
#![tactic(auto)]

ghost use Rattle.std.specs.Prelude.{◌≡◌, ◌++◌, ◌+◌, ◌≤◌, length};
ghost use Rattle.decimal.specs.Decimal.{Appended};
ghost use Rattle.words.specs.Words.{word_at, word, Small};

// The number at a place.
pub fn word_at(image: &[u8], at: usize) -> u32
    requires { at + 4 ≤ length image.now }
    ensures { result ≡ word_at image.now at }
{
    u32::from_le_bytes([image[at], image[at + 1], image[at + 2], image[at + 3]])
}

// Writes a number from place `at`, and returns the place after it.
pub fn append_word(n: u32, out: &mut [u8], at: usize) -> usize
    requires { at + 4 ≤ length out.old }
    ensures { Appended out.old at (word n) out.new result }
{
    out[at..at + 4].copy_from_slice(&n.to_le_bytes());
    at + 4
}

// Three numbers, one after the other. That each is below 2^32, as every value of its type is, is ensured along with
// their bytes.
pub fn append_words(a: u32, b: u32, c: u32, out: &mut [u8], at: usize) -> usize
    requires { at + 12 ≤ length out.old }
    ensures appended { Appended out.old at (word a ++ (word b ++ word c)) out.new result }
    ensures small { Small a × Small b × Small c }
{
    let second = append_word(a, out, at);
    let third = append_word(b, out, second);
    append_word(c, out, third)
}
