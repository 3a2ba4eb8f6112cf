// The reduction of an operator to its normal form. The contracts cite specs/Reduction.antt.

#![tactic(auto)]

ghost use Rattle.std.specs.Prelude.{◌≡◌, ◌≤◌, ◌^◌};
ghost use Rattle.matrix.specs.Matrix.{entry, listed};
ghost use Rattle.matrix.specs.Operator.{Orthogonal, Reduced};
ghost use Rattle.matrix.specs.Array.{Bounded, operator_of};
ghost use Rattle.reduction.specs.Reduction.{cut};
ghost use Rattle.reduction.specs.Result.{Cuttable, StepOf, Whole, WholeOf};

use matrix::Scaled;

// The most generators that a reduction takes here.
pub const MAX_GENERATORS: usize = 60;

// What one cut gives: the generator's number, whether the rows grouped as 2 and 4, and the matrix that is left.
#[derive(Clone, Copy, Debug, PartialEq, Eq)]
pub struct Step {
    pub number: u8,
    pub loose: bool,
    pub matrix: [i64; 36],
}

// What a reduction gives: the generators' numbers, of which the first `count` count, how many of these cuts were loose, and the matrix that remains.
// The array has all sixty bytes, since `WholeOf` says that those behind the count are 0. `Cut` has the same but for what remains: a struct of the three
// fields inside both would make each name of a field two, and a type parameter would give a matrix and six columns one name.
#[derive(Clone, Copy, Debug, PartialEq, Eq)]
pub struct Normal {
    pub count: u8,
    pub loose: u8,
    pub numbers: [u8; 60],
    pub matrix: [i64; 36],
}

// A normal form: the generators' numbers, of which the first `count` count, how many of the cuts were loose, and the columns of the Clifford that remains.
// `CutFrom` says of its array what `WholeOf` says of that of `Normal`.
#[derive(Clone, Copy, Debug, PartialEq, Eq)]
pub struct Cut {
    pub count: u8,
    pub loose: u8,
    pub numbers: [u8; 60],
    pub columns: [u8; 6],
    ghost in_range: { count ≤ 60 },
}

// Generator g's inverse on the left.
fn cut_by(m: [i64; 36], g: usize) -> [i64; 36]
    requires { (1 ≤ g) × (g ≤ 15) × Bounded (2 ^ 30) (entry m) }
    ensures { result ≡ listed (cut g (entry m)) }
{
    let pairs = residue::pairs_of(g);
    let mut out = m;
    matrix::half_sums(&mut out, pairs[4] as usize, pairs[5] as usize);
    matrix::half_sums(&mut out, pairs[2] as usize, pairs[3] as usize);
    matrix::half_sums(&mut out, pairs[0] as usize, pairs[1] as usize);
    out
}

// One cut: the inverse of the lowest-numbered generator that fits, on the left. Its rows grouped as 2 and 4 if one of them has no odd entry.
// Wrong, and refused: another generator than the one chosen; a flag that is always false.
pub fn cut_once(m: [i64; 36]) -> Step
    requires { Cuttable m }
    ensures { StepOf m result }
{
    let masks = residue::row_masks(&m);
    let g = residue::first_fit(masks);
    let even_row = residue::has_even_row(masks);
    let matrix = cut_by(m, g);
    Step {
        number: g as u8,
        loose: even_row,
        matrix,
    }
}

// The cutting of a reduced orthogonal operator, one generator a turn.
fn reduce(operator: Scaled) -> Normal
    requires { (operator.exponent ≤ 60) × Orthogonal (operator_of operator) × Reduced (operator_of operator) }
    ensures { Whole operator.exponent operator.matrix result }
{
    let mut numbers = [0u8; 60];
    let mut loose = 0u8;
    let mut matrix = operator.matrix;
    for n in 0..operator.exponent {
        let step = cut_once(matrix);
        numbers[n as usize] = step.number;
        loose += step.loose as u8;
        matrix = step.matrix;
    }
    Normal {
        count: operator.exponent,
        loose,
        numbers,
        matrix,
    }
}

// The cutting of an orthogonal operator, from its least exponent.
pub fn normal_form(mut operator: Scaled) -> Normal
    requires { (operator.exponent ≤ 60) × Orthogonal (operator_of operator) }
    ensures { WholeOf operator.exponent operator.matrix result }
{
    matrix::least_form(&mut operator);
    reduce(operator)
}
