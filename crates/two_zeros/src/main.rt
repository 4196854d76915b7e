// The two spellings of zero in the running code: for a syndrome, a response and a difference of kept inputs, the place as the
// sum leaves it, which is 127, and as normalize leaves it, which is 0.
#![tactic(auto, unfolding(packing::specs::Packing::all_below))]

pub mod kept;

use crate::kept::{DIFFERENCE, RESPONSE, ROW, X};
use field::Value;
use std::io;

fn syndrome(to: &impl Print) -> io::Result<()> {
    let mut s = [0u8; 1];
    linear::syndrome(76, &ROW, &X, &mut s);
    println!(to; "{:03}", s[0])?;
    linear::normalize(&mut s);
    println!(to; "{:03}", s[0])
}

fn response(to: &impl Print) -> io::Result<()> {
    let [u, e, b] = RESPONSE;
    let mut y = [0u8; 1];
    linear::respond(Value(b), &[u], &[e], &mut y);
    println!(to; "{:03}", y[0])?;
    linear::normalize(&mut y);
    println!(to; "{:03}", y[0])
}

fn difference(to: &impl Print) -> io::Result<()> {
    let [x, b, s] = DIFFERENCE;
    let mut out = [0u8; 1];
    linear::subtract(Value(b), &[x], &[s], &mut out);
    println!(to; "{:03}", out[0])?;
    linear::normalize(&mut out);
    println!(to; "{:03}", out[0])
}

fn main(rt: HostRuntime) -> io::Result<()> {
    syndrome(&rt)?;
    response(&rt)?;
    difference(&rt)
}
