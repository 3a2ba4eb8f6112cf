// Whether an operator is orthogonal, and whether its entries are in range. The contracts cite specs/Array.antt of `matrix`.

#![tactic(auto)]

ghost use Rattle.std.specs.Prelude.{◌≡◌, ◌<◌, ◌≤◌, ◌^◌, pos};
ghost use Rattle.matrix.specs.Matrix.{entry};
ghost use Rattle.matrix.specs.Array.{Bounded, orthogonal_at, is_orthogonal, is_within};

use matrix::Scaled;

// 2 to the power k.
pub fn power_of_two(k: u8) -> i64
    requires { k ≤ 60 }
    ensures { result ≡ pos (2 ^ k) }
{
    (1u64 << k) as i64
}

// Whether rows i and j have the product of orthogonal rows: norm of a row with itself, else 0. Of the two orders of a pair, that with i < j is looked at.
fn rows_orthogonal(m: &[i64; 36], i: usize, j: usize, norm: i64) -> bool
    requires { (i < 6) × (j < 6) × Bounded (2 ^ 30) (entry m.now) }
    ensures { result ≡ orthogonal_at norm (entry m.now) i j }
{
    if j < i {
        true
    } else if i == j {
        matrix::row_product(m, i, j) == norm
    } else {
        matrix::row_product(m, i, j) == 0
    }
}

// Whether an operator is orthogonal.
pub fn is_orthogonal(operator: &Scaled) -> bool
    requires { (operator.now.exponent ≤ 60) × Bounded (2 ^ 30) (entry operator.now.matrix) }
    ensures { result ≡ is_orthogonal operator.now.exponent (entry operator.now.matrix) }
{
    let norm = power_of_two(operator.exponent);
    (0..36).all(|n| rows_orthogonal(&operator.matrix, n / 6, n % 6, norm))
}

// Whether no entry's square exceeds 2 to the power k, the operator's exponent.
pub fn is_within(operator: &Scaled) -> bool
    requires { (operator.now.exponent ≤ 60) × Bounded (2 ^ 31) (entry operator.now.matrix) }
    ensures { result ≡ is_within operator.now.exponent (entry operator.now.matrix) }
{
    let limit = power_of_two(operator.exponent);
    operator.matrix.iter().all(|x| *x * *x <= limit)
}
