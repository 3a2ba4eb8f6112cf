// A sheet's bytes, written one at a time, and tested: refusals 10, 16, 11, 12 and 15. The contracts cite specs/Bytes.antt and specs/Sheet.antt.

#![tactic(auto)]

ghost use Rattle.std.specs.Prelude.{true, not, cond, ◌≡◌, ◌+◌, ◌≤◌, ◌<◌, length, get_or};
ghost use Rattle.matrix.specs.Range.{every};
ghost use Rattle.refusal.specs.Refusal.{numbered, refusal_of};
ghost use Rattle.clifford.specs.Columns.{are_column_bytes, signed};
ghost use Rattle.reduction.specs.Taken.{numbers_in};
ghost use Rattle.sheet_bytes.specs.Bytes.{shortest, longest, sign_byte, sheet_bytes, sheet_columns};
ghost use Rattle.sheet_bytes.specs.Sheet.{is_counted, is_number, is_clifford, has_wrong_sign, bytes_refusal};

use reduction::Cut;
use refusal::Refusal;

// The fewest and the most bytes of a sheet: the count, six columns and the sign, and with them up to 60 generators.
pub const SHORTEST: usize = 8;

pub const LONGEST: usize = 68;

// The sign of what remains: 1 where column 1 has -1.
fn sign_byte(columns: [u8; 6]) -> u8
    ensures { result ≡ sign_byte columns }
{
    clifford::is_minus(columns[0]) as u8
}

// Byte n of the sheet of a normal form.
pub fn sheet_byte(cut: &Cut, n: usize) -> u8
    requires { n < cut.now.count + shortest }
    ensures { result ≡ get_or (sheet_bytes (numbers_in cut.now) cut.now.columns) n 0 }
{
    if n == 0 {
        return 64 + cut.count;
    }
    let t = cut.count as usize;
    if n <= t {
        return cut.numbers[n - 1];
    }
    let sign = sign_byte(cut.columns);
    if n == t + 7 {
        return sign;
    }
    clifford::signed_byte(cut.columns[n - 1 - t], sign)
}

// Whether the first byte is the length plus 56.
fn is_counted(bytes: &[u8]) -> bool
    requires { (shortest ≤ length bytes.now) × (length bytes.now ≤ longest) }
    ensures { result ≡ is_counted bytes.now }
{
    bytes[0] == bytes.len() as u8 + 56
}

// Whether all bytes are generator numbers.
fn are_numbers(numbers: &[u8]) -> bool
    ensures { result ≡ every (length numbers.now) (λ n. is_number (get_or numbers.now n 0)) }
{
    numbers.iter().all(|g| (1..=15).contains(g))
}

// The six column bytes, times a sign.
pub fn columns_from(bytes: &[u8], sign: u8) -> [u8; 6]
    requires { 7 ≤ length bytes.now }
    ensures { result ≡ signed sign (sheet_columns bytes.now) }
{
    let at = bytes.len() - 7;
    std::array::from_fn(|c| clifford::signed_byte(bytes[at + c], sign))
}

// Whether six column bytes are those of a Clifford.
fn is_clifford(columns: [u8; 6]) -> bool
    requires { are_column_bytes columns ≡ true }
    ensures { result ≡ is_clifford columns }
{
    clifford::rows_differ(columns) && sign::is_even(columns)
}

// Whether the last byte is above 1, or column 1 negative.
fn has_wrong_sign(columns: [u8; 6], sign: u8) -> bool
    ensures { result ≡ has_wrong_sign columns sign }
{
    1 < sign || clifford::is_minus(columns[0])
}

// Whether six column bytes and a last byte earn no refusal.
fn check_columns(columns: [u8; 6], sign: u8) -> Result<(), Refusal>
    ensures { refusal_of (numbered result) ≡ cond (not (are_column_bytes columns)) 11 (cond (not (is_clifford columns)) 12 (cond (has_wrong_sign columns sign) 15 0)) }
{
    if !clifford::are_column_bytes(columns) {
        return Err(Refusal::SheetByte);
    }
    if !is_clifford(columns) {
        return Err(Refusal::NotClifford);
    }
    if has_wrong_sign(columns, sign) {
        return Err(Refusal::SheetSign);
    }
    Ok(())
}

// Whether a sheet's bytes earn no refusal before its operator is looked at.
pub fn check_bytes(bytes: &[u8]) -> Result<(), Refusal>
    ensures { refusal_of (numbered result) ≡ bytes_refusal bytes.now 0 }
{
    if bytes.len() < SHORTEST || LONGEST < bytes.len() {
        return Err(Refusal::SheetLength);
    }
    if !is_counted(bytes) {
        return Err(Refusal::SheetCount);
    }
    if !are_numbers(&bytes[1..bytes.len() - 7]) {
        return Err(Refusal::SheetByte);
    }
    check_columns(columns_from(bytes, 0), bytes[bytes.len() - 1])
}
