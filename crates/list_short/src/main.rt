// Lists the short sheets: those of count 0, 1 and 2 whose Clifford is the identity and whose last byte is 0, a line for each on standard output.

#![tactic(auto)]

ghost use Rattle.std.specs.Prelude.{◌≡◌, ◌+◌, ◌≤◌, eqb, length};
ghost use Rattle.text.specs.Writer.{RoomFor, Writes};
ghost use Rattle.sheet_bytes.specs.Bytes.{shortest};
ghost use Rattle.sheet_bytes.specs.Sheet.{sheet_refusal};
ghost use Rattle.short_sheet.specs.Short.{if_read, plain_sheets};
ghost use Rattle.list_short.specs.Output.{lines_of, pairs_of, short_text};

use std::io::Result;
use text::Writer;

// Whether these bytes are read as a sheet.
fn is_read(sheet: &[u8]) -> bool
    ensures { result ≡ eqb (sheet_refusal sheet.now) 0 }
{
    let mut file = [0u8; file::LONG_LENGTH];
    sheet::sheet_to_operator(sheet, &mut file).is_ok()
}

// The line of a sheet of at most two numbers, if it is read: at most ten bytes.
fn write_entry(sheet: &[u8], w: &mut Writer<'_>)
    requires { (shortest ≤ length sheet.now) × (length sheet.now ≤ shortest + 2) × RoomFor 10 w.old }
    ensures { Writes (lines_of (if_read sheet.now)) w.old w.new }
{
    if is_read(sheet) {
        let count = sheet.len() - sheet_bytes::SHORTEST;
        w.line(&[b'0' + count as u8], &sheet[1..count + 1]);
    }
}

// The lines of the sheets of one number.
fn write_ones(w: &mut Writer<'_>)
    requires { RoomFor 150 w.old }
    ensures { Writes (lines_of (plain_sheets 1)) w.old w.new }
{
    for g in 1u8..=15 {
        write_entry(&[65, g, 1, 2, 3, 4, 5, 6, 0], w);
    }
}

// The lines of the sheets of two numbers of which g is the first.
fn write_pairs(g: u8, w: &mut Writer<'_>)
    requires { RoomFor 150 w.old }
    ensures { Writes (lines_of (pairs_of g)) w.old w.new }
{
    for h in 1u8..=15 {
        write_entry(&[66, g, h, 1, 2, 3, 4, 5, 6, 0], w);
    }
}

// The lines of the sheets of two numbers.
fn write_twos(w: &mut Writer<'_>)
    requires { RoomFor 2250 w.old }
    ensures { Writes (lines_of (plain_sheets 2)) w.old w.new }
{
    for g in 1u8..=15 {
        write_pairs(g, w);
    }
}

// The text, written in `out`.
fn answer(out: &mut [u8; 4096]) -> &[u8]
    ensures { result.now ≡ short_text }
{
    let mut w = Writer::new(out);
    write_entry(&[64, 1, 2, 3, 4, 5, 6, 0], &mut w);
    write_ones(&mut w);
    write_twos(&mut w);
    w.written()
}

fn main(rt: HostRuntime) -> Result<()> {
    rt.write_all(answer(&mut [0u8; 4096]))
}
