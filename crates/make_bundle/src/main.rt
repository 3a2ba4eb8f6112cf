// Makes a bundle: sheets end to end on standard input, as labs store them, and their bundle on standard output.

#![tactic(auto)]

ghost use Rattle.std.specs.Prelude.{◌≡◌};
ghost use Rattle.make_bundle.specs.Output.{output_of};

use std::io::Result;

// One byte more than 513 first bytes can say, 199 each: what follows decides nothing (`long_sheets`).
const LONGER: usize = 199 * 513 + 1;

// The bytes for sheets, written in `out`.
fn answer<'a>(sheets: &[u8], out: &'a mut [u8; bundle_write::LONGEST_BUNDLE]) -> &'a [u8]
    ensures { result.now ≡ output_of sheets.now }
{
    match bundle_write::sheets_to_bundle(sheets, out) {
        Ok(bytes) => &out[..bytes],
        Err(refusal) => line::refused(refusal.number(), out),
    }
}

fn main(rt: HostRuntime) -> Result<()> {
    let mut sheets = [0u8; LONGER];
    let length = streams::read_full(&mut rt.stdin(), &mut sheets)?;
    let mut output = [0u8; bundle_write::LONGEST_BUNDLE];
    rt.write_all(answer(&sheets[..length], &mut output))
}
