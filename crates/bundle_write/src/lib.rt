// Sheets that are stored end to end, written as a bundle: refusals 20, 21 and 6. The contracts cite specs/Writing.antt.

#![tactic(auto)]

ghost use Rattle.std.specs.Prelude.{Some, None, cond, ◌≡◌, ◌+◌, ◌*◌, ◌<◌, ◌≤◌, length};
ghost use Rattle.file.specs.File.{Appended};
ghost use Rattle.text.specs.Writer.{Room, Writes};
ghost use Rattle.refusal.specs.Refusal.{numbered};
ghost use Rattle.bundle.specs.Bundle.{most_sheets, trailer_length, length_at, start_of, two_bytes, offsets, bundle_of};
ghost use Rattle.bundle_write.specs.Writing.{is_whole, stored_count, BundlePromise};

use refusal::Refusal;
use text::Writer;

// The most bytes of a bundle that is written: for each sheet its own and two of its offset, and two of the number of sheets.
pub const LONGEST_BUNDLE: usize = bundle::MOST_SHEETS * (sheet_bytes::LONGEST + 2) + 2;

// The most sheets that are counted: one more than a bundle holds.
const MOST_COUNTED: usize = bundle::MOST_SHEETS + 1;

// How many whole sheets stand end to end from the front on, and where they end.
#[derive(Clone, Copy, Debug, PartialEq, Eq)]
struct Stored {
    count: usize,
    end: usize,
}

// Where the sheet at a place ends, if a whole sheet stands there.
fn sheet_end(sheets: &[u8], at: usize) -> Option<usize>
    requires { at ≤ length sheets.now }
    ensures { result ≡ cond (is_whole sheets.now at) (Some (at + length_at sheets.now at)) None }
{
    let first = bundle::byte_at(sheets, at);
    if first < bundle::LEAST_FIRST {
        return None;
    }
    let size = bundle::sheet_length(first);
    if sheet_bytes::LONGEST < size || sheets.len() - at < size {
        return None;
    }
    Some(at + size)
}

// The whole sheets that stand end to end, up to one more than a bundle holds.
fn count_sheets(sheets: &[u8]) -> Stored
    ensures { (result.count ≡ stored_count sheets.now) × (result.end ≡ start_of sheets.now (stored_count sheets.now)) }
{
    let mut end = 0usize;
    for count in 0..MOST_COUNTED {
        let Some(next) = sheet_end(sheets, end) else {
            return Stored { count, end };
        };
        end = next;
    }
    Stored {
        count: MOST_COUNTED,
        end,
    }
}

// 16 bits, low byte first.
fn write_two(x: u16, w: &mut Writer<'_>)
    requires { Room (two_bytes x) w.old }
    ensures { Writes (two_bytes x) w.old w.new }
{
    w.bytes(&x.to_le_bytes());
}

// The offsets of the sheets.
fn write_offsets(sheets: &[u8], count: usize, w: &mut Writer<'_>)
    requires { (count ≡ stored_count sheets.now) × (count ≤ most_sheets) × Room (offsets sheets.now count) w.old }
    ensures { Writes (offsets sheets.now count) w.old w.new }
{
    let mut start = 0usize;
    for n in 0..count {
        write_two(start as u16, w);
        start = sheet_end(sheets, start).unwrap();
    }
}

// The bundle of the sheets, at the front of `out`.
fn write_bundle(sheets: &[u8], count: usize, out: &mut [u8]) -> usize
    requires { (count ≡ stored_count sheets.now) × (count ≤ most_sheets) × (length sheets.now + trailer_length count ≤ length out.old) }
    ensures { Appended (bundle_of sheets.now count) 0 out.old out.new result }
{
    let mut w = Writer::new(out);
    w.bytes(sheets);
    write_offsets(sheets, count, &mut w);
    write_two(count as u16, &mut w);
    w.at
}

// Sheets that are stored end to end into a bundle at the front of `out`.
// Wrong, and refused: a sheet of 69 bytes, or one that is cut short, taken; what follows the sheets left out; the numbers of the sheets for their
// offsets; no number at the end; 22 for more than 512 sheets.
pub fn sheets_to_bundle(sheets: &[u8], out: &mut [u8]) -> Result<usize, Refusal>
    ensures { BundlePromise sheets.now out.old out.new (numbered result) }
{
    let found = count_sheets(sheets);
    let count = found.count;
    if bundle::MOST_SHEETS < count {
        return Err(Refusal::Trailer);
    }
    if found.end != sheets.len() {
        return Err(Refusal::Offsets);
    }
    if out.len() < sheets.len() + (2 * count + 2) {
        return Err(Refusal::Buffer);
    }
    Ok(write_bundle(sheets, count, out))
}
