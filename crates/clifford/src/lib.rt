// Signed permutations by their six column bytes. The contracts cite specs/Columns.antt.

#![tactic(auto)]

ghost use Rattle.std.specs.Prelude.{map, ◌≡◌, ◌+◌, ◌<◌, drop, get_or};
ghost use Rattle.matrix.specs.Matrix.{entry};
ghost use Rattle.clifford.specs.Columns.{are_column_bytes, column_byte, column_bytes, differs, different, is_column_byte, is_minus, negated, row_of, signed_byte};

// The byte of column c: of its first entry that is not 0. Where there is none it is 135; no `Option`, since the definition `column_byte` has the 135.
fn column_byte(m: [i64; 36], c: usize) -> u8
    requires { c < 6 }
    ensures { result ≡ column_byte (entry m) c }
{
    for r in 0u8..6 {
        let x = m[(r as usize) * 6 + c];
        if x == 1 {
            return r + 1;
        }
        if x != 0 {
            return r + 129;
        }
    }
    135
}

// The six column bytes of a matrix. Six bytes are an array, and that they are a permutation is a clause: the definitions speak of every list of bytes,
// and most functions take them as they come.
pub fn columns_of(m: [i64; 36]) -> [u8; 6]
    ensures { result ≡ column_bytes (entry m) }
{
    std::array::from_fn(|c| column_byte(m, c))
}

// Whether a byte is a column's.
fn is_column_byte(b: u8) -> bool
    ensures { result ≡ is_column_byte b }
{
    matches!(b, 1..=6 | 129..=134)
}

// Whether all six bytes are columns'.
pub fn are_column_bytes(columns: [u8; 6]) -> bool
    ensures { result ≡ are_column_bytes columns }
{
    columns.iter().all(|b| is_column_byte(*b))
}

// The row of a column byte's entry, counted from 0.
pub fn row_of(b: u8) -> u8
    ensures { result ≡ row_of b }
{
    match b {
        0 => 0,
        1..=128 => b - 1,
        129..=255 => b - 129,
    }
}

// Whether a column's entry is −1.
// Wrong, and refused: −1 in row 1 taken for +1; 128 taken for a column.
pub fn is_minus(b: u8) -> bool
    ensures { result ≡ is_minus b }
{
    129 <= b
}

// The byte of −1 times a column.
pub fn negate(b: u8) -> u8
    ensures { result ≡ negated b }
{
    if b < 128 {
        return b + 128;
    }
    b - 128
}

// A column's byte times a sign: 0 for +1, any other number for −1.
pub fn signed_byte(b: u8, sign: u8) -> u8
    ensures { result ≡ signed_byte sign b }
{
    if sign == 0 {
        return b;
    }
    negate(b)
}

// Whether no column after c has the row of column c.
fn row_differs(columns: [u8; 6], c: usize) -> bool
    requires { c < 6 }
    ensures { result ≡ differs (row_of (get_or columns c 0)) (map row_of (drop (c + 1) columns)) }
{
    let row = row_of(columns[c]);
    columns[c + 1..].iter().all(|b| row != row_of(*b))
}

// Whether no two columns have one row.
pub fn rows_differ(columns: [u8; 6]) -> bool
    ensures { result ≡ different (map row_of columns) }
{
    (0..6).all(|c| row_differs(columns, c))
}
