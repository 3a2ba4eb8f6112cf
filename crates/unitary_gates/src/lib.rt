// Unitaries to gate lists: refusals 17, 18, 19 and 6. The contracts cite specs/Promise.antt.

#![tactic(auto)]

ghost use Rattle.refusal.specs.Refusal.{numbered};
ghost use Rattle.unitary_gates.specs.Promise.{UnitaryPromise};

use refusal::Refusal;
use unitary_file::Entries;

// What the call answers: the count with the number of letters written, L and the power of ω. `Listed` of `operator` has a sign in the place of the power:
// 0 to 7 is no sign, and each promise names its own.
#[derive(Clone, Copy, Debug, PartialEq, Eq)]
pub struct Synthesis {
    pub count: u8,
    pub letters: usize,
    pub loose: u8,
    pub power: u8,
}

// A unitary's 65 bytes into a gate list at the front of `out`. Both of its forms have the same letters, so either is cut.
// Wrong, and refused: the power of ω one off; the power 0 for every list; L for the power; the power found with no exponent; the exponent that the form is
// computed with for the count; no L; 17 for a buffer that is too short.
pub fn unitary_to_gates(bytes: &[u8], out: &mut [u8]) -> Result<Synthesis, Refusal>
    ensures { UnitaryPromise bytes.now out.old out.new (numbered result) }
{
    let read = Entries::read(bytes)?;
    let form = six_form::form_of(&read);
    let cut = acceptance::cut_orthogonal(&form);
    if out.len() < 256 * (cut.count as usize + 1) {
        return Err(Refusal::Buffer);
    }
    let list = gate_list::write_list(&cut, out);
    let power = omega::power_of(read.exponent, read.entries, &out[..list.letters]);
    Ok(Synthesis {
        count: cut.count,
        letters: list.letters,
        loose: cut.loose,
        power,
    })
}
