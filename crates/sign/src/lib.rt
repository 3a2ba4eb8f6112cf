// The sign of a signed permutation, by its column bytes. The contracts cite specs/Columns.antt of `clifford`.

#![tactic(auto)]

ghost use Rattle.std.specs.Prelude.{map, ◌≡◌, ◌+◌, ◌<◌, ◌≤◌, drop, get_or, length};
ghost use Rattle.clifford.specs.Columns.{below, inversions, is_even, minuses, row_of};

// How many columns after c have their row below that of column c. That there are at most six is a clause of these three: with an array of a const length
// in its place, the part behind c is one that the borrow checker does not cover.
fn rows_below(columns: &[u8], c: usize) -> u8
    requires { (c < length columns.now) × (length columns.now ≤ 6) }
    ensures { (result < 6) × (result ≡ below (row_of (get_or columns.now c 0)) (map row_of (drop (c + 1) columns.now))) }
{
    let row = clifford::row_of(columns[c]);
    columns[c + 1..]
        .iter()
        .filter(|b| clifford::row_of(**b) < row)
        .count() as u8
}

// How many pairs of columns have their rows in the other order.
fn inversions_of(columns: &[u8]) -> u8
    requires { length columns.now ≤ 6 }
    ensures { (result < 64) × (result ≡ inversions (map row_of columns.now)) }
{
    (0..columns.len()).map(|c| rows_below(columns, c)).sum()
}

// How many columns have -1.
fn minuses_of(columns: &[u8]) -> u8
    requires { length columns.now ≤ 6 }
    ensures { (result < 7) × (result ≡ minuses columns.now) }
{
    columns.iter().filter(|b| clifford::is_minus(**b)).count() as u8
}

// Whether the permutation and its minus signs make an even number: the sign of the determinant, of all six columns or of the three of one half.
pub fn is_even<const N: usize>(columns: [u8; N]) -> bool
    requires { N ≤ 6 }
    ensures { result ≡ is_even columns.entry }
{
    (inversions_of(&columns) + minuses_of(&columns)) % 2 == 0
}
