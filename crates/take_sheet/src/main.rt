// Takes a sheet out of a bundle: the bundle on standard input, the number of the sheet, from 0, as the argument, and the sheet on standard output.

#![tactic(auto)]

ghost use Rattle.std.specs.Prelude.{[], ◌∷◌, ◌++◌, ◌≡◌, ◌^◌, ◌<◌, ◌≤◌, is_some, IfOk, IfErr, OnOk, OnErr, IfSome, length, take};
ghost use Rattle.io.specs.Counts.{IsPrefixLen};
ghost use Rattle.text_read.specs.Text.{number_of};
ghost use Rattle.take_sheet.specs.Output.{sheet_output, output_of, last_two};
ghost use Rattle.take_sheet.specs.Input.{KeptOf};

use std::env::{Env, FillError};
use std::io::{Read, Result};
use text::Writer;

// One byte more than the longest bundle has: the largest offset, a part of 199 bytes there, and the trailer.
const LONGER: usize = 65535 + 199 + (2 * bundle::MOST_SHEETS + 2) + 1;

// More turns than an input has parts of 65,536 bytes.
const MOST_TURNS: u64 = 1 << 48;

// The bytes for a sheet of a bundle, written in `out`.
fn write_sheet<'a>(bundle: &[u8], n: u64, out: &'a mut [u8; 256]) -> &'a [u8]
    ensures { result.now ≡ sheet_output bundle.now n }
{
    match bundle::check_bundle(bundle, n) {
        Ok(()) => {
            let mut w = Writer::new(out);
            w.bytes(bundle::bundle_sheet(bundle, n));
            w.written()
        }
        Err(refusal) => line::refused(refusal.number(), out),
    }
}

// The bytes for a bundle and an argument, if it is a number.
fn answer<'a>(bundle: &[u8], number: &[u8], out: &'a mut [u8; 256]) -> Option<&'a [u8]>
    ensures some { is_some result ≡ is_some (number_of number.now) }
    ensures bytes { IfSome result (λ bytes. bytes.now ≡ output_of bundle.now (number_of number.now)) }
{
    let n = text_read::read_number(number)?;
    Some(write_sheet(bundle, n, out))
}

// One byte more: the last byte moves one place to the front, and the new one takes its place.
// Each function asks for two bytes in a clause: with an array of `LONGER` bytes as the type, each loop's invariant would have to say its length again.
fn push(b: u8, bytes: &mut [u8])
    requires { 2 ≤ length bytes.old }
    ensures { (length bytes.new ≡ length bytes.old) × (last_two bytes.new ≡ last_two (bytes.old ++ b ∷ [])) }
{
    let end = bytes.len();
    bytes[end - 2] = bytes[end - 1];
    bytes[end - 1] = b;
}

// More bytes: the last two are then those of all the bytes together.
fn push_all(more: &[u8], bytes: &mut [u8])
    requires { 2 ≤ length bytes.old }
    ensures { (length bytes.new ≡ length bytes.old) × (last_two bytes.new ≡ last_two (bytes.old ++ more.now)) }
{
    for &b in more {
        push(b, bytes);
    }
}

// Reads on to the end of the input. What is longer than any bundle is refused by its last two bytes alone (`last_refused`). The loop is like that of
// `read_qasm`, but what is kept of a part, and what ends it early, differ.
fn read_on<R: Read>(input: &mut R, bytes: &mut [u8]) -> Result<()>
    requires { 2 ≤ length bytes.old }
    ensures last { OnOk result (IfSome (R.remaining input.old) (λ more. length more < 2 ^ 64 → last_two bytes.new ≡ last_two (bytes.old ++ more))) }
    ensures err { OnErr result (length bytes.new ≡ length bytes.old) }
{
    let mut more = io::large_buffer();
    for turns in 0..MOST_TURNS {
        let n = streams::read_full(input, &mut more)?;
        if n == 0 {
            return Ok(());
        }
        push_all(&more[..n], bytes);
    }
    Ok(())
}

// Reads the input, and answers how many bytes of the buffer are kept of it.
fn read_input<R: Read>(input: &mut R, bytes: &mut [u8]) -> Result<usize>
    requires { 2 ≤ length bytes.old }
    ensures within { IfOk result (λ n. IsPrefixLen n bytes.new) }
    ensures kept { IfOk result (λ n. IfSome (R.remaining input.old) (λ all. length all < 2 ^ 64 → KeptOf (length bytes.old) all (take n bytes.new))) }
    ensures err { IfErr result (λ _. length bytes.new ≡ length bytes.old) }
{
    let n = streams::read_full(input, bytes)?;
    if n < bytes.len() {
        return Ok(n);
    }
    read_on(input, bytes)?;
    Ok(bytes.len())
}

fn usage(rt: &impl Eprint) -> Result<()> {
    rt.eprintln("usage: take_sheet N")
}

// An argument that is missing or longer than its buffer has no bytes here, and is no number.
fn main(rt: HostRuntime) -> Result<()> {
    let mut number = io::buffer();
    let m = rt.arg(1, &mut number).unwrap_or(0);
    let is_last = matches!(rt.arg(2, &mut []), Err(FillError::NotPresent));
    if !is_last || m == 0 {
        return usage(&rt);
    }
    let mut bundle = [0u8; LONGER];
    let length = read_input(&mut rt.stdin(), &mut bundle)?;
    match answer(&bundle[..length], &number[..m], &mut [0u8; 256]) {
        Some(bytes) => rt.write_all(bytes),
        None => usage(&rt),
    }
}
