// Operator files to sheets and gate lists: refusals 1 to 6. The contracts cite specs/Promise.antt.

#![tactic(auto)]

ghost use Rattle.std.specs.Prelude.{◌≡◌, ◌+◌, ◌≤◌, length};
ghost use Rattle.refusal.specs.Refusal.{numbered};
ghost use Rattle.file.specs.File.{written};
ghost use Rattle.reduction.specs.Taken.{numbers_in};
ghost use Rattle.sheet_bytes.specs.Bytes.{shortest, sheet_bytes};
ghost use Rattle.operator.specs.Promise.{SheetPromise, GatesPromise};

use reduction::Cut;
use refusal::Refusal;

// The sheet of a normal form, at the front of `out`; the bytes past it stay.
fn write_sheet(cut: &Cut, out: &mut [u8])
    requires { cut.now.count + shortest ≤ length out.old }
    ensures { out.new ≡ written out.old (sheet_bytes (numbers_in cut.now) cut.now.columns) }
{
    let end = cut.count as usize + sheet_bytes::SHORTEST;
    for n in 0..end {
        out[n] = sheet_bytes::sheet_byte(cut, n);
    }
}

// What the call for a sheet answers: the count with L.
#[derive(Clone, Copy, Debug, PartialEq, Eq)]
pub struct Cuts {
    pub count: u8,
    pub loose: u8,
}

// An operator file into a sheet at the front of `out`.
// Wrong, and refused: the first generator's number in every place; the exponent that the file carries as the count; the count itself as the
// first byte; a last byte of 0 for every operator; the count for L.
pub fn operator_to_sheet(bytes: &[u8], out: &mut [u8]) -> Result<Cuts, Refusal>
    ensures { SheetPromise bytes.now out.old out.new (numbered result) }
{
    let cut = acceptance::cut_file(bytes)?;
    if out.len() < cut.count as usize + sheet_bytes::SHORTEST {
        return Err(Refusal::Buffer);
    }
    write_sheet(&cut, out);
    Ok(Cuts {
        count: cut.count,
        loose: cut.loose,
    })
}

// What the call for a gate list answers: the count with the number of letters written, L and the sign.
#[derive(Clone, Copy, Debug, PartialEq, Eq)]
pub struct Listed {
    pub count: u8,
    pub letters: usize,
    pub loose: u8,
    pub sign: u8,
}

// An operator file into a gate list at the front of `out`. The room is asked for by one `if` here and in
// `unitary_gates`; a function of both would bring refusals into `gate_list`, and a definition of what it hands out.
// Wrong, and refused: a count that is not the number of letters C; 4 for a file that earns 3 first; no L; the sign 0 for every list; L for the
// sign.
pub fn operator_to_gates(bytes: &[u8], out: &mut [u8]) -> Result<Listed, Refusal>
    ensures { GatesPromise bytes.now out.old out.new (numbered result) }
{
    let cut = acceptance::cut_file(bytes)?;
    if out.len() < 256 * (cut.count as usize + 1) {
        return Err(Refusal::Buffer);
    }
    let list = gate_list::write_list(&cut, out);
    let count = cut.count;
    let loose = cut.loose;
    Ok(Listed {
        count,
        letters: list.letters,
        loose,
        sign: list.sign,
    })
}
