// Numbers in decimal: written into a buffer at a place, and read from a slice at a place.
#![tactic(auto)]

ghost use Rattle.std.specs.Prelude.{◌≡◌, ◌+◌, ◌-◌, ◌*◌, min, ◌≤◌, ◌<◌, length};
ghost use Rattle.decimal.specs.Decimal.{decimal, largest, NumberAt, NumberBehind, Room, Appended};

// A number that was read, and the place after its last digit.
#[derive(Clone, Copy)]
pub struct Number {
    pub value: u32,
    pub end: usize,
}

// The byte of a digit.
fn digit_byte(d: u32) -> u8
    requires { d < 10 }
    ensures { result ≡ 48 + d }
{
    b'0' + d as u8
}

// How many digits a number has.
pub fn width(n: u32) -> usize
    ensures { result ≡ length (decimal n) }
{
    n.max(1).ilog10() as usize + 1
}

// Stores the digits of `n` from place `at`, the last digit first, and returns the place after them. A buffer that is lent
// stays in no struct: each contract on such a struct would have to say that it still holds the same reference.
pub fn write_decimal(n: u32, out: &mut [u8], at: usize) -> usize
    requires { Room out.old at (decimal n) }
    ensures { Appended out.old at (decimal n) out.new result }
{
    let end = at + width(n);
    let mut rest = n;
    for i in (at..end).rev() {
        out[i] = digit_byte(rest % 10);
        rest /= 10;
    }
    end
}

// `n` followed by one more digit; a number past the largest stays at the largest, so that no length of digits wraps.
fn with_digit(n: u32, b: u8) -> u32
    requires { 48 ≤ b }
    ensures { result ≡ min largest (n * 10 + (b - 48)) }
{
    // b'0' comes off last: only then does the compiled loop branch at the largest number and not wait for it each time.
    let longer = u64::from(n) * 10 + u64::from(b) - u64::from(b'0');
    u32::try_from(longer).unwrap_or(u32::MAX)
}

// The number that stands at place `at`; 0 where no digit stands there. From a place past the end nothing is read.
pub fn read_decimal(s: &[u8], at: usize) -> Number
    ensures { NumberAt s.now at result }
{
    if s.len() < at {
        return Number { value: 0, end: at };
    }
    let mut value = 0;
    for end in at..s.len() {
        let b = s[end];
        if !b.is_ascii_digit() {
            return Number { value, end };
        }
        value = with_digit(value, b);
    }
    Number {
        value,
        end: s.len(),
    }
}

// The number that stands `skip` bytes behind a place; where the slice ends before it, 0 at the slice's end.
pub fn number_behind(s: &[u8], at: usize, skip: usize) -> Number
    requires { at ≤ length s.now }
    ensures { NumberBehind s.now at skip result }
{
    if s.len() - at < skip {
        return Number {
            value: 0,
            end: s.len(),
        };
    }
    read_decimal(s, at + skip)
}
