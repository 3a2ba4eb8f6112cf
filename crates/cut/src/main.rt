// Cuts an operator: an operator file on standard input, its count, its sheet and L on standard output.

#![tactic(auto)]

ghost use Rattle.std.specs.Prelude.{◌≡◌};
ghost use Rattle.cut.specs.Output.{cut_text};

use line::Word;
use std::io::Result;
use text::Writer;

// The text for a file, written in `out`.
fn answer<'a>(file: &[u8], out: &'a mut [u8; 512]) -> &'a [u8]
    ensures { result.now ≡ cut_text file.now }
{
    let mut sheet = [0u8; sheet_bytes::LONGEST];
    match operator::operator_to_sheet(file, &mut sheet) {
        Ok(cuts) => {
            let end = cuts.count as usize + sheet_bytes::SHORTEST;
            let mut w = Writer::new(out);
            line::write_line(Word::Count, &[cuts.count], &mut w);
            line::write_line(Word::Sheet, &sheet[..end], &mut w);
            line::write_line(Word::Loose, &[cuts.loose], &mut w);
            w.written()
        }
        Err(refusal) => line::refused(refusal.number(), out),
    }
}

// A buffer larger than a file, so that whatever is longer is seen to be.
fn main(rt: HostRuntime) -> Result<()> {
    let mut file = io::buffer();
    let length = streams::read_full(&mut rt.stdin(), &mut file)?;
    let mut text = [0u8; 512];
    rt.write_all(answer(&file[..length], &mut text))
}
