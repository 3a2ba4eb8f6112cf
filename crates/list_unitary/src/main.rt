// Lists a unitary's gates: its 65 bytes on standard input, its count, a gate list, L and the power of ω on standard output.

#![tactic(auto)]

ghost use Rattle.list_unitary.specs.Output.{UnitaryText};

use line::Word;
use std::io::Result;
use text::Writer;

// The text for the bytes, written in `out`.
// Wrong, and refused: L in the line of the power; the power over L.
fn answer<'a>(bytes: &[u8], out: &'a mut [u8; 16384]) -> &'a [u8]
    ensures { UnitaryText bytes.now result.now }
{
    let mut gates = [0u8; gate::GATES_BUFFER];
    match unitary_gates::unitary_to_gates(bytes, &mut gates) {
        Ok(list) => {
            let mut w = Writer::new(out);
            line::write_list(list.count, &gates[..list.letters], list.loose, &mut w);
            line::write_line(Word::Omega, &[list.power], &mut w);
            w.written()
        }
        Err(refusal) => line::refused(refusal.number(), out),
    }
}

// A buffer larger than a unitary, so that whatever is longer is seen to be.
fn main(rt: HostRuntime) -> Result<()> {
    let mut bytes = io::buffer();
    let length = streams::read_full(&mut rt.stdin(), &mut bytes)?;
    let mut text = [0u8; 16384];
    rt.write_all(answer(&bytes[..length], &mut text))
}
