// Sheets taken out of a bundle: refusals 20, 21 and 22. The contracts cite specs/Bundle.antt.

#![tactic(auto)]

ghost use Rattle.std.specs.Prelude.{◌≡◌, ◌+◌, ◌-◌, ◌<◌, ◌≤◌, length, get_or};
ghost use Rattle.refusal.specs.Refusal.{numbered, refusal_of};
ghost use Rattle.bundle.specs.Bundle.{bundle_refusal, has_sheets, offset as Bundle·offset, part_of, place_in, Placed, sheet_count, sheet_in, trailer_length};

use refusal::Refusal;

// The most sheets of a bundle.
pub const MOST_SHEETS: usize = 512;

// The least first byte of a sheet, and what a first byte is above the sheet's length.
pub const LEAST_FIRST: u8 = 64;

const ABOVE_LENGTH: u8 = 56;

// Where a sheet stands in a bundle: the place of its first byte and its length.
#[derive(Clone, Copy, Debug, PartialEq, Eq)]
pub struct Part {
    pub start: usize,
    pub length: usize,
}

// The byte at a place, 0 past the end; no `Option`, since the definitions read bytes so (`get_or`).
pub fn byte_at(bytes: &[u8], at: usize) -> u8
    ensures { result ≡ get_or bytes.now at 0 }
{
    bytes.get(at).copied().unwrap_or(0)
}

// The length of a sheet, by its first byte.
pub fn sheet_length(first: u8) -> usize
    requires { 56 ≤ first }
    ensures { (result ≡ first - 56) × (result < 200) }
{
    (first - ABOVE_LENGTH) as usize
}

// The offset of sheet n of `count`, by the trailer.
fn offset(bytes: &[u8], count: usize, n: usize) -> usize
    requires { (count ≡ sheet_count bytes.now) × (trailer_length count ≤ length bytes.now) × (n < count) }
    ensures { (result ≡ Bundle·offset bytes.now n) × (result < 65536) }
{
    file::two_at(bytes, bytes.len() - (2 * count + 2) + 2 * n)
}

// Whether the sheets follow one another up to the trailer, as their offsets say. `count` is the number of sheets that the trailer says, and no length of
// a buffer. The place goes on by each sheet's length, so a chain would be a `try_fold`, no plainer than a loop that returns.
fn has_sheets(bytes: &[u8], count: usize) -> bool
    requires { (count ≡ sheet_count bytes.now) × (trailer_length count ≤ length bytes.now) × (count < 65536) }
    ensures { result ≡ has_sheets bytes.now }
{
    let mut at = 0usize;
    for n in 0..count {
        let first = byte_at(bytes, at);
        if first < LEAST_FIRST {
            return false;
        }
        let says = offset(bytes, count, n);
        if says != at {
            return false;
        }
        at += sheet_length(first);
    }
    at == bytes.len() - (2 * count + 2)
}

// Whether a bundle and the number of a sheet earn no refusal. Each call takes the two as docs/USE.md names them.
// Wrong, and refused: 513 sheets taken; 22 before 21; offsets that are trusted, and not followed from sheet to sheet; a gap before the trailer.
pub fn check_bundle(bytes: &[u8], n: u64) -> Result<(), Refusal>
    ensures { refusal_of (numbered result) ≡ bundle_refusal bytes.now n }
{
    let len = bytes.len();
    if len < 2 {
        return Err(Refusal::Trailer);
    }
    let count = file::two_at(bytes, len - 2);
    if len < 2 * count + 2 || MOST_SHEETS < count {
        return Err(Refusal::Trailer);
    }
    if !has_sheets(bytes, count) {
        return Err(Refusal::Offsets);
    }
    if count as u64 <= n {
        return Err(Refusal::SheetNumber);
    }
    Ok(())
}

// "a check of the same bytes and n gives the number, or 0 if there is none" (document 02, P7), so it is no `Result`.
pub fn bundle_refusal(bytes: &[u8], n: u64) -> u8
    ensures { result ≡ bundle_refusal bytes.now n }
{
    match check_bundle(bytes, n) {
        Ok(()) => 0,
        Err(refusal) => refusal.number(),
    }
}

// Where sheet n of a bundle stands.
// Wrong, and refused: the offset of the sheet after; one refusal for all; the place for the length too.
pub fn bundle_part(bytes: &[u8], n: u64) -> Result<Part, Refusal>
    ensures { (numbered result ≡ part_of bytes.now n) × Placed (numbered result) }
{
    check_bundle(bytes, n)?;
    let count = file::two_at(bytes, bytes.len() - 2);
    let start = offset(bytes, count, n as usize);
    let length = sheet_length(bytes[start]);
    Ok(Part { start, length })
}

// Sheet n of a bundle, as a part of the bytes handed in, which points to its place in them; an empty part, at their front, on a refusal, as the
// definition `sheet_in` has it ("On a refusal the part is empty").
// Wrong, and refused: a part one byte longer; all bytes from the first on; the bytes from another place.
pub fn bundle_sheet(bytes: &[u8], n: u64) -> &[u8]
    ensures { (result.now ≡ sheet_in bytes.now n) × (length result.now < 200) × (result.ref_ptr ≡ (bytes.entry.ref_ptr.0, bytes.entry.ref_ptr.1 + place_in bytes.now n)) }
{
    match bundle_part(bytes, n) {
        Ok(part) => {
            let end = part.start + part.length;
            &bytes[part.start..end]
        }
        Err(_) => &bytes[0..0],
    }
}
