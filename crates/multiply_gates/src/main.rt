// Multiplies gates: a gate list on standard input, with or without a line feed behind it, and its operator file on standard output.

#![tactic(auto)]

ghost use Rattle.std.specs.Prelude.{◌≡◌};
ghost use Rattle.gate.specs.Reading.{reading};
ghost use Rattle.text_read.specs.Text.{without_line_feed};
ghost use Rattle.multiply_gates.specs.Output.{output_of};

use std::io::Result;

// The bytes for a gate list, written in `out`.
fn answer<'a>(input: &[u8], out: &'a mut [u8; 256]) -> &'a [u8]
    ensures { result.now ≡ output_of (reading (without_line_feed input.now)) }
{
    let letters = text_read::without_line_feed(input);
    match gate::gates_to_operator(letters, out) {
        Ok(count) => &out[..file::length_for(count)],
        Err(refusal) => line::refused(refusal.number(), out),
    }
}

// A buffer larger than the longest list, so that whatever is longer is seen to be.
fn main(rt: HostRuntime) -> Result<()> {
    let mut input = io::large_buffer();
    let length = streams::read_full(&mut rt.stdin(), &mut input)?;
    let mut output = [0u8; 256];
    rt.write_all(answer(&input[..length], &mut output))
}
