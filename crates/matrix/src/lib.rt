// Exact arithmetic on a matrix of 36 whole numbers, row by row.
// The contracts cite the definitions of specs/Array.antt; entries of at most 2^30 in size leave room for the sum of six products.
//
// Facts that stay clauses, here and in the crates above: that an index is below 4 or 6, for a range or a table gives it as a number and `i * 6 + c` or the
// table takes it as one, apart from the matrix, which is lent for all of its indices; and that entries are bounded, for a sum of two of them may not be, and
// what bounds them is that an operator is orthogonal.

#![tactic(auto)]

ghost use Rattle.std.specs.Prelude.{◌≡◌, ◌<◌, ◌≤◌, ◌^◌, pos, nat_abs, get_or};
ghost use Rattle.matrix.specs.Integer.{parity};
ghost use Rattle.matrix.specs.Matrix.{entry, listed, row_product};
ghost use Rattle.matrix.specs.Array.{Bounded, row_mask, before_odd, halved, half_sums, half_pair, least_form};

// The product of rows i and j.
pub fn row_product(m: &[i64; 36], i: usize, j: usize) -> i64
    requires { (i < 6) × (j < 6) × Bounded (2 ^ 30) (entry m.now) }
    ensures { result ≡ row_product 6 (entry m.now) i j }
{
    let mut sum = 0i64;
    for c in 0..6 {
        sum += m[i * 6 + c] * m[j * 6 + c];
    }
    sum
}

// 1 where x is odd, 0 where it is even.
pub fn parity_of(x: i64) -> u8
    ensures { result ≡ parity x }
{
    (x % 2 != 0) as u8
}

// How many entries, row by row, stand before the first odd one: 36 if all are even, which document 02, P6, asks for, and so no `Option`.
// Wrong, and refused: the last odd entry's place; the first odd entry counted too; 35 if all are even.
pub fn before_odd(m: &[i64; 36]) -> usize
    ensures { result ≡ before_odd (entry m.now) }
{
    m.iter().position(|x| parity_of(*x) == 1).unwrap_or(36)
}

// Every entry halved.
pub fn halve(m: &mut [i64; 36])
    ensures { m.new ≡ listed (halved (entry m.old)) }
{
    for x in m.iter_mut() {
        *x /= 2;
    }
}

// The odd entries of row r as bits, that of column 0 lowest.
pub fn row_mask(m: &[i64; 36], r: usize) -> u8
    requires { r < 6 }
    ensures { result ≡ row_mask (entry m.now) r }
{
    let mut mask = 0u8;
    for c in (0..6).rev() {
        mask = parity_of(m[r * 6 + c]) + 2 * mask;
    }
    mask
}

// A matrix of 36 whole numbers, row by row, with an exponent k (document 01, "Operators"): it stands for the matrix over root two to the power k.
// That it is orthogonal, of an exponent of at most 60, is a clause where it is asked for: an operator that is read is tested here, a product of two is
// orthogonal by a theorem and may have 61 before 9 is asked (`read_letter` of `gate`), and the definitions have the same record for them all.
#[derive(Clone, Copy, Debug, PartialEq, Eq)]
pub struct Scaled {
    pub exponent: u8,
    pub matrix: [i64; 36],
}

// The operator brought to its least exponent, in place: most operators are there already, and none is copied. By value it is slower.
// Wrong, and refused: an exponent lower by one for each halving; an operator halved whose last entry is odd.
pub fn least_form(operator: &mut Scaled)
    ensures { operator.new ≡ least_form operator.old.exponent operator.old.matrix }
{
    while 2 <= operator.exponent && before_odd(&operator.matrix) == 36 {
        halve(&mut operator.matrix);
        operator.exponent -= 2;
    }
}

// The entries x at p and y at q replaced by half of x + y and half of y - x.
fn half_pair(m: &mut [i64; 36], p: usize, q: usize)
    requires { (p < 36) × (q < 36) × (nat_abs (get_or m.old p (pos 0)) ≤ 2 ^ 30) × (nat_abs (get_or m.old q (pos 0)) ≤ 2 ^ 30) }
    ensures { m.new ≡ half_pair p q m.old }
{
    let x = m[p];
    let y = m[q];
    m[p] = (x + y) / 2;
    m[q] = (y - x) / 2;
}

// Rows i and j replaced by half of their sum and half of their difference, row j less row i.
pub fn half_sums(m: &mut [i64; 36], i: usize, j: usize)
    requires { (i < j) × (j < 6) × Bounded (2 ^ 30) (entry m.old) }
    ensures { m.new ≡ listed (half_sums i j (entry m.old)) }
{
    for c in 0..6 {
        half_pair(m, i * 6 + c, j * 6 + c);
    }
}
