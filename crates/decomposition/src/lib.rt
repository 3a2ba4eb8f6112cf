// A Clifford taken apart into the rotations and parts of its word, by their rows in the tables. The contracts cite the definitions of `word`.

#![tactic(auto)]

ghost use Rattle.std.specs.Prelude.{◌≡◌, [], ◌∷◌, ◌+◌, ◌*◌, ◌<◌, ◌≤◌, get_or};
ghost use Rattle.clifford.specs.Columns.{row_of, is_even};
ghost use Rattle.word.specs.Word.{is_low, bit, low_bits, part_inverses, local_columns, axis_number};

// The columns of the inverse of each part.
const INVERSES: [[u8; 6]; 16] = [
    [134, 5, 132, 3, 130, 1],
    [3, 134, 5, 4, 1, 2],
    [130, 134, 5, 4, 3, 129],
    [2, 3, 134, 133, 4, 1],
    [1, 134, 5, 4, 3, 130],
    [1, 3, 134, 133, 4, 130],
    [130, 1, 134, 133, 4, 3],
    [1, 2, 3, 4, 5, 6],
    [1, 2, 3, 4, 5, 6],
    [1, 2, 3, 4, 5, 6],
    [1, 2, 3, 6, 132, 133],
    [1, 2, 3, 4, 5, 6],
    [1, 2, 3, 6, 133, 4],
    [1, 2, 3, 133, 4, 6],
    [1, 2, 3, 6, 133, 4],
    [1, 2, 3, 4, 5, 6],
];

// The columns of the inverse of a part.
fn part_inverse(part: usize) -> [u8; 6]
    requires { part < 16 }
    ensures { result ≡ get_or part_inverses part [] }
{
    INVERSES[part]
}

// 1 where a column's entry is in rows 1 to 3.
fn low_bit(b: u8) -> usize
    ensures { (result ≡ bit (is_low b)) × (result < 2) }
{
    (clifford::row_of(b) < 3) as usize
}

// Which of three columns from column c on have their entry in rows 1 to 3.
pub fn low_bits(columns: [u8; 6], c: usize) -> usize
    requires { c ≤ 3 }
    ensures { (result ≡ low_bits columns c) × (result < 8) }
{
    4 * low_bit(columns[c]) + 2 * low_bit(columns[c + 1]) + low_bit(columns[c + 2])
}

// The columns that are left when both parts are taken off.
pub fn local_columns(columns: [u8; 6]) -> [u8; 6]
    ensures { result ≡ local_columns columns }
{
    let first = part_inverse(low_bits(columns, 0));
    let second = part_inverse(8 + low_bits(columns, 3));
    let rest = letter::compose(columns, second);
    letter::compose(rest, first)
}

// Whether three columns of one half have determinant 1.
pub fn is_even(a: u8, b: u8, c: u8) -> bool
    ensures { result ≡ is_even (a ∷ b ∷ c ∷ []) }
{
    sign::is_even([a, b, c])
}

// The number of a signed row within its half; with the other sign where the half is not even.
fn axis_number(even: bool, b: u8) -> usize
    ensures { (result ≡ axis_number even b) × (result < 6) }
{
    let row = (clifford::row_of(b) % 3) as usize;
    if clifford::is_minus(b) == even {
        row + 3
    } else {
        row
    }
}

// The row of the rotation table.
pub fn rotation_row(even: bool, b: u8, c: u8) -> usize
    ensures { (result ≡ 6 * axis_number even b + axis_number even c) × (result < 36) }
{
    6 * axis_number(even, b) + axis_number(even, c)
}
