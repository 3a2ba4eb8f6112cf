// Operator files of either kind, short or long, read into an operator's 36 entries, and an operator written as the kind that its exponent
// calls for. The contracts cite specs/File.antt.

#![tactic(auto)]

ghost use Rattle.std.specs.Prelude.{◌≡◌, ◌+◌, ◌*◌, ◌<◌, ◌≤◌, length};
ghost use Rattle.refusal.specs.Refusal.{numbered};
ghost use Rattle.file.specs.File.{Fits, short_file, long_file, entry_of, exponent_of, file_matrix, file_of, is_length, kind_for, kind_of, length_for, length_of, two_at, width_of, written};
ghost use Rattle.file.specs.Writing.{FileWritten};

use matrix::Scaled;
use refusal::Refusal;
use std::array;

// The bytes of a short operator file and of a long one. The kind of a file is its length, or what its exponent calls for, and no enum: each function
// that asks for it asks once, and has one of these in hand.
pub const SHORT_LENGTH: usize = 73;

pub const LONG_LENGTH: usize = 145;

// The largest exponent of a short file, and of a long one.
pub const SHORT_EXPONENT: u8 = 28;

pub const LARGEST_EXPONENT: u8 = 60;

// Whether an operator file may have so many bytes.
pub fn is_length(length: usize) -> bool
    ensures { result ≡ is_length length }
{
    length == SHORT_LENGTH || length == LONG_LENGTH
}

// The largest exponent that a file of so many bytes may carry.
pub fn largest_exponent(length: usize) -> u8
    ensures { result ≡ exponent_of (kind_of length) }
{
    if length == LONG_LENGTH {
        return LARGEST_EXPONENT;
    }
    SHORT_EXPONENT
}

// The bytes of the file that is written for the exponent k.
pub fn length_for(k: u8) -> usize
    ensures { result ≡ length_for k }
{
    if SHORT_EXPONENT < k {
        return LONG_LENGTH;
    }
    SHORT_LENGTH
}

// The 16 bits at a place.
pub fn two_at(bytes: &[u8], i: usize) -> usize
    requires { i + 1 < length bytes.now }
    ensures { (result ≡ two_at bytes.now i) × (result < 65536) }
{
    u16::from_le_bytes([bytes[i], bytes[i + 1]]) as usize
}

// Entry n of a short file: 16 bits.
pub fn short_entry(bytes: &[u8], n: usize) -> i64
    requires { 2 + 2 * n < length bytes.now }
    ensures { result ≡ entry_of short_file bytes.now n }
{
    let at = 1 + 2 * n;
    i16::from_le_bytes([bytes[at], bytes[at + 1]]) as i64
}

// Entry n of a long file: 32 bits. The two are the library's conversions to two types; one function over the width would extend the sign by hand again.
fn long_entry(bytes: &[u8], n: usize) -> i64
    requires { 4 + 4 * n < length bytes.now }
    ensures { result ≡ entry_of long_file bytes.now n }
{
    let at = 1 + 4 * n;
    i32::from_le_bytes([bytes[at], bytes[at + 1], bytes[at + 2], bytes[at + 3]]) as i64
}

// Entry n of a file of either kind.
fn entry_at(bytes: &[u8], n: usize) -> i64
    requires { (n < 36) × (length bytes.now ≡ length_of (kind_of (length bytes.now))) }
    ensures { result ≡ entry_of (kind_of (length bytes.now)) bytes.now n }
{
    if bytes.len() == LONG_LENGTH {
        return long_entry(bytes, n);
    }
    short_entry(bytes, n)
}

// The entries of an operator file.
pub fn decode(bytes: &[u8]) -> [i64; 36]
    requires { length bytes.now ≡ length_of (kind_of (length bytes.now)) }
    ensures { result ≡ file_matrix bytes.now }
{
    array::from_fn(|n| entry_at(bytes, n))
}

// The file of an operator at the front of `out`, with entries of W bytes, as its exponent calls for. The width is a constant, so that an entry is stored
// without a call of memcpy.
fn encode_as<const W: usize>(operator: &Scaled, out: &mut [u8])
    requires { (W ≡ width_of (kind_for operator.now.exponent)) × (length_for operator.now.exponent ≤ length out.old) × Fits (kind_for operator.now.exponent) operator.now.matrix }
    ensures { out.new ≡ written out.old (file_of operator.now.exponent operator.now.matrix) }
{
    out[0] = operator.exponent;
    for n in 0..36 {
        let at = 1 + W * n;
        let bits = (operator.matrix[n] as i32).to_le_bytes();
        out[at..at + W].copy_from_slice(&bits[..W]);
    }
}

// The file of an operator, of the kind that its exponent calls for, at the front of `out`; the bytes past it stay.
pub fn encode(operator: &Scaled, out: &mut [u8])
    requires { (length_for operator.now.exponent ≤ length out.old) × Fits (kind_for operator.now.exponent) operator.now.matrix }
    ensures { out.new ≡ written out.old (file_of operator.now.exponent operator.now.matrix) }
{
    if operator.exponent <= SHORT_EXPONENT {
        encode_as::<2>(operator, out);
    } else {
        encode_as::<4>(operator, out);
    }
}

// The same, where `out` has room for it; the exponent is answered.
// Wrong, and refused: a buffer of 73 bytes taken for a long file; one a byte too short taken in, and one that just has room refused; half of the exponent answered.
pub fn write_file(operator: &Scaled, out: &mut [u8]) -> Result<u8, Refusal>
    requires { Fits (kind_for operator.now.exponent) operator.now.matrix }
    ensures { FileWritten operator.now.exponent operator.now.matrix out.old out.new (numbered result) }
{
    if out.len() < length_for(operator.exponent) {
        return Err(Refusal::Buffer);
    }
    encode(operator, out);
    Ok(operator.exponent)
}
