// Multiplies a sheet: its bytes on standard input, and its operator file on standard output.

#![tactic(auto)]

ghost use Rattle.std.specs.Prelude.{◌≡◌};
ghost use Rattle.multiply_sheet.specs.Output.{output_of};

use std::io::Result;

// The bytes for a sheet, written in `out`.
fn answer<'a>(bytes: &[u8], out: &'a mut [u8; 256]) -> &'a [u8]
    ensures { result.now ≡ output_of bytes.now }
{
    match sheet::sheet_to_operator(bytes, out) {
        Ok(count) => &out[..file::length_for(count)],
        Err(refusal) => line::refused(refusal.number(), out),
    }
}

// A buffer larger than a sheet, so that whatever is longer is seen to be.
fn main(rt: HostRuntime) -> Result<()> {
    let mut bytes = io::buffer();
    let length = streams::read_full(&mut rt.stdin(), &mut bytes)?;
    let mut output = [0u8; 256];
    rt.write_all(answer(&bytes[..length], &mut output))
}
