// SHAKE128 and SHAKE256 of published examples, a line of hexadecimal digits for each.

#![tactic(auto)]

use std::io;

fn digit(n: u8) -> u8 {
    if n < 10 {
        return b'0' + n;
    }
    if n < 16 {
        return b'a' + (n - 10);
    }
    b'?'
}

fn show(to: &impl Print, out: &[u8]) -> io::Result<()> {
    for b in out {
        to.write_all(&[digit(*b / 16), digit(*b % 16)])?;
    }
    to.write_all(b"\n")
}

// Hashes the input into the buffer, and prints the buffer.
fn show128(to: &impl Print, input: &[u8], out: &mut [u8]) -> io::Result<()> {
    shake::shake128(input, out);
    show(to, out)
}

fn show256(to: &impl Print, input: &[u8], out: &mut [u8]) -> io::Result<()> {
    shake::shake256(input, out);
    show(to, out)
}

// The example files of FIPS 202: the empty string, and 200 bytes A3.
fn standard(to: &impl Print) -> io::Result<()> {
    let none = [0u8; 1];
    let mut short = [0u8; 32];
    let mut long = [0u8; 512];
    show128(to, &none[0..0], &mut short)?;
    show128(to, &none[0..0], &mut long)?;
    let bytes = [0xA3u8; 200];
    show128(to, &bytes, &mut long)?;
    show256(to, &none[0..0], &mut long)?;
    show256(to, &bytes, &mut long)
}

// The first short messages of NIST's validation suite (SHAKE128ShortMsg), with 16 bytes of output.
fn short_messages(to: &impl Print) -> io::Result<()> {
    let one = [0x0Eu8];
    let two = [0xD9u8, 0xE8];
    let three = [0x1Bu8, 0x3B, 0x6E];
    let mut out = [0u8; 16];
    show128(to, &one, &mut out)?;
    show128(to, &two, &mut out)?;
    show128(to, &three, &mut out)
}

// The same of SHAKE256ShortMsg, with 32 bytes of output.
fn short_messages_256(to: &impl Print) -> io::Result<()> {
    let one = [0x0Fu8];
    let two = [0x0Du8, 0xC1];
    let mut out = [0u8; 32];
    show256(to, &one, &mut out)?;
    show256(to, &two, &mut out)
}

fn main(rt: HostRuntime) -> io::Result<()> {
    standard(&rt)?;
    short_messages(&rt)?;
    short_messages_256(&rt)
}
