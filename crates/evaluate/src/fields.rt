// What the bytes of an input say before its fields are read.
ghost use Rattle.std.specs.Prelude.{◌≡◌};
ghost use Rattle.evaluate.specs.Evaluate.{is_closed};

// Whether the first LF is the last byte.
pub fn is_closed(input: &[u8]) -> bool
    ensures { result ≡ is_closed input.now }
{
    match input.iter().position(|b| *b == b'\n') {
        Some(i) => i + 1 == input.len(),
        None => false,
    }
}
