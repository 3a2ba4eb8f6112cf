// Lists an operator's gates: an operator file on standard input, its count, a gate list, L and the list's sign on
// standard output.

#![tactic(auto)]

ghost use Rattle.list_gates.specs.Output.{ListText};

use line::Word;
use std::io::Result;
use text::Writer;

// The text for a file, written in `out`.
fn answer<'a>(file: &[u8], out: &'a mut [u8; 16384]) -> &'a [u8]
    ensures { ListText file.now result.now }
{
    let mut gates = [0u8; gate::GATES_BUFFER];
    match operator::operator_to_gates(file, &mut gates) {
        Ok(list) => {
            let mut w = Writer::new(out);
            line::write_list(list.count, &gates[..list.letters], list.loose, &mut w);
            line::write_line(Word::Sign, &[list.sign], &mut w);
            w.written()
        }
        Err(refusal) => line::refused(refusal.number(), out),
    }
}

// A buffer larger than a file, so that whatever is longer is seen to be.
fn main(rt: HostRuntime) -> Result<()> {
    let mut file = io::buffer();
    let length = streams::read_full(&mut rt.stdin(), &mut file)?;
    let mut text = [0u8; 16384];
    rt.write_all(answer(&file[..length], &mut text))
}
