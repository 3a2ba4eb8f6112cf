// Sheets read into operator files: refusals 10, 16, 11, 12, 15, 13 and 6. The contracts cite specs/Promise.antt.

#![tactic(auto)]

ghost use Rattle.std.specs.Prelude.{true, ◌≡◌, ◌+◌, ◌≤◌, length};
ghost use Rattle.refusal.specs.Refusal.{numbered};
ghost use Rattle.matrix.specs.List.{same_list};
ghost use Rattle.matrix.specs.Matrix.{listed};
ghost use Rattle.matrix.specs.Operator.{Orthogonal};
ghost use Rattle.matrix.specs.Array.{operator_of};
ghost use Rattle.clifford.specs.Columns.{are_permutation, columns_matrix};
ghost use Rattle.reduction.specs.Reduction.{normal_form};
ghost use Rattle.reduction.specs.Laws.NormalForm.{Numbers};
ghost use Rattle.reduction.specs.Taken.{numbers_in};
ghost use Rattle.sheet_bytes.specs.Bytes.{sheet_bytes};
ghost use Rattle.sheet.specs.Promise.{CutAgain, SheetRead, OperatorPromise};

use matrix::Scaled;
use reduction::Cut;
use refusal::Refusal;

// The product of the generators of these numbers and a Clifford.
fn multiplied(numbers: &[u8], columns: [u8; 6]) -> [i64; 36]
    requires { (length numbers.now ≤ 60) × Numbers numbers.now × (are_permutation columns ≡ true) }
    ensures { result ≡ listed (normal_form numbers.now (columns_matrix columns)).matrix }
{
    let mut m = times::identity();
    for number in numbers {
        let next = times::times_generator(m, *number as usize);
        m = next;
    }
    times::times_columns(m, columns)
}

// Whether the bytes are the sheet of a normal form.
fn is_sheet(bytes: &[u8], cut: &Cut) -> bool
    ensures { result ≡ same_list (sheet_bytes (numbers_in cut.now) cut.now.columns) bytes.now }
{
    bytes.len() == cut.count as usize + sheet_bytes::SHORTEST
        && bytes
            .iter()
            .enumerate()
            .all(|(n, b)| sheet_bytes::sheet_byte(cut, n) == *b)
}

// The operator at its least exponent, if cutting it gives these bytes.
fn cut_again(bytes: &[u8], mut operator: Scaled) -> Result<Scaled, Refusal>
    requires { (operator.exponent ≤ 60) × Orthogonal (operator_of operator) }
    ensures { CutAgain bytes.now operator.exponent operator.matrix (numbered result) }
{
    if !is_sheet(bytes, &acceptance::cut_orthogonal(&operator)) {
        return Err(Refusal::NotCanonical);
    }
    matrix::least_form(&mut operator);
    Ok(operator)
}

// The operator of a sheet at its least exponent, or the sheet's refusal.
fn read_sheet(bytes: &[u8]) -> Result<Scaled, Refusal>
    ensures { SheetRead bytes.now (numbered result) }
{
    sheet_bytes::check_bytes(bytes)?;
    let count = bytes.len() - sheet_bytes::SHORTEST;
    let columns = sheet_bytes::columns_from(bytes, bytes[bytes.len() - 1]);
    let matrix = multiplied(&bytes[1..1 + count], columns);
    let exponent = count as u8;
    cut_again(bytes, Scaled { exponent, matrix })
}

// A sheet into an operator file at the front of `out`.
// Wrong, and refused: a sheet taken in that cutting would not give; the first generator multiplied in every place; the first byte taken for
// a generator; the sign read from the last column; a buffer of 73 bytes taken for a long file.
pub fn sheet_to_operator(bytes: &[u8], out: &mut [u8]) -> Result<u8, Refusal>
    ensures { OperatorPromise bytes.now out.old out.new (numbered result) }
{
    let read = read_sheet(bytes)?;
    file::write_file(&read, out)
}
