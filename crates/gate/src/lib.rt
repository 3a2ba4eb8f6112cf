// Gate lists: what they multiply to, read into operator files. The contracts cite specs/.
//
// Only C can change the exponent. So the Clifford letters since the last C are kept by the columns of their product, and the matrix is
// touched at C and at the end.

#![tactic(auto)]

ghost use Rattle.std.specs.Prelude.{◌≡◌, true, [], ◌≤◌, length};
ghost use Rattle.refusal.specs.Refusal.{numbered};
ghost use Rattle.matrix.specs.Operator.{Orthogonal};
ghost use Rattle.matrix.specs.Array.{operator_of};
ghost use Rattle.clifford.specs.Columns.{are_permutation};
ghost use Rattle.file.specs.File.{largest_exponent};
ghost use Rattle.letter.specs.Gate.{gate_of};
ghost use Rattle.gate.specs.Reading.{ReadAs, read_from};
ghost use Rattle.gate.specs.Stretch.{composed_letter, EndsStretch, StretchOf, times_columns, read_byte};
ghost use Rattle.gate.specs.Promise.{ProductPromise};

use letter::Gate;
use matrix::Scaled;
use refusal::Refusal;

// The columns of a Clifford with the letter of byte b behind it; none where b is no Clifford letter.
fn compose_byte(columns: [u8; 6], b: u8) -> Option<[u8; 6]>
    ensures { result ≡ composed_letter columns (gate_of b) }
{
    let g = Gate::try_from(b).ok()?;
    if letter::is_cs(g) {
        return None;
    }
    Some(letter::compose_gate(columns, g))
}

// The Clifford letters from a place on: the columns of their product, and the place after them.
#[derive(Clone, Copy)]
pub struct Stretch {
    pub columns: [u8; 6],
    pub next: usize,
}

// The stretch that begins at `at`.
fn read_stretch(letters: &[u8], at: usize) -> Stretch
    requires { at ≤ length letters.now }
    ensures { StretchOf letters.now at result }
{
    let mut columns = [1u8, 2, 3, 4, 5, 6];
    for next in at..letters.len() {
        match compose_byte(columns, letters[next]) {
            Some(more) => columns = more,
            None => return Stretch { columns, next },
        }
    }
    Stretch {
        columns,
        next: letters.len(),
    }
}

// The byte that ends a stretch, behind a product and the stretch's columns.
fn read_letter(product: Scaled, columns: [u8; 6], b: u8) -> Result<Scaled, Refusal>
    requires { (product.exponent ≤ largest_exponent) × Orthogonal (operator_of product) × (are_permutation columns ≡ true) × EndsStretch (gate_of b) }
    ensures { numbered result ≡ read_byte product.exponent (times_columns product.matrix columns) (gate_of b) }
{
    if b != b'C' {
        return Err(Refusal::Letter);
    }
    let before = times::times_columns(product.matrix, columns);
    let mut next = Scaled {
        exponent: product.exponent + 1,
        matrix: times::times_cs(before),
    };
    matrix::least_form(&mut next);
    if file::LARGEST_EXPONENT < next.exponent {
        return Err(Refusal::ProductExponent);
    }
    Ok(next)
}

// The letters from the left on, a stretch and the letter behind it a turn.
fn read_letters(letters: &[u8]) -> Result<Scaled, Refusal>
    ensures { ReadAs (read_from [] letters.now) (numbered result) }
{
    let mut product = Scaled {
        exponent: 0,
        matrix: times::identity(),
    };
    let mut n = 0;
    while n < letters.len() {
        let stretch = read_stretch(letters, n);
        if letters.len() <= stretch.next {
            product.matrix = times::times_columns(product.matrix, stretch.columns);
            return Ok(product);
        }
        product = read_letter(product, stretch.columns, letters[stretch.next])?;
        n = stretch.next + 1;
    }
    Ok(product)
}

// The most letters of a gate list.
pub const LARGEST_LIST: usize = 16384;

// The bytes that have room for every gate list that is written.
pub const GATES_BUFFER: usize = 256 * (file::LARGEST_EXPONENT as usize + 1);

// A gate list into an operator file at the front of `out`.
// Wrong, and refused: 9 at a beginning whose least exponent is 29, or 60; the product at another exponent than its least one; a buffer of 73
// bytes taken for a long file.
pub fn gates_to_operator(letters: &[u8], out: &mut [u8]) -> Result<u8, Refusal>
    ensures { ProductPromise letters.now out.old out.new (numbered result) }
{
    if LARGEST_LIST < letters.len() {
        return Err(Refusal::ListLength);
    }
    let product = read_letters(letters)?;
    file::write_file(&product, out)
}
