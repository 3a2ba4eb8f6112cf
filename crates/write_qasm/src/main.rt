// Writes a gate list as OpenQASM 2.0 text: the list on standard input, with or without a line feed behind it, and the text on standard output.

#![tactic(auto)]

ghost use Rattle.std.specs.Prelude.{◌≡◌};
ghost use Rattle.text_read.specs.Text.{without_line_feed};
ghost use Rattle.qasm.specs.Text.{text_of};
ghost use Rattle.qasm.specs.Reading.{read_letters};
ghost use Rattle.qasm.specs.Output.{output_of};

use std::io::Result;

// The bytes for a gate list, written in `out`.
fn answer<'a>(input: &[u8], out: &'a mut [u8; qasm::LONGEST_TEXT]) -> &'a [u8]
    ensures { result.now ≡ output_of text_of (read_letters (without_line_feed input.now)) }
{
    let letters = text_read::without_line_feed(input);
    match qasm::gates_to_qasm(letters, out) {
        Ok(bytes) => &out[..bytes],
        Err(refusal) => line::refused(refusal.number(), out),
    }
}

// A buffer larger than the longest list, so that whatever is longer is seen to be.
fn main(rt: HostRuntime) -> Result<()> {
    let mut input = io::large_buffer();
    let length = streams::read_full(&mut rt.stdin(), &mut input)?;
    let mut output = [0u8; qasm::LONGEST_TEXT];
    rt.write_all(answer(&input[..length], &mut output))
}
