// The six-by-six form of a unitary, up to sign. The contracts cite specs/Places.antt and specs/Form.antt of `unitary`.

#![tactic(auto)]

ghost use Rattle.std.specs.Prelude.{◌≡◌, ◌-◌, ◌^◌, ◌<◌};
ghost use Rattle.gaussian.specs.Gaussian.{Within, ◌⊗◌, product};
ghost use Rattle.unitary.specs.Unitary.{Unitary, matrix_of};
ghost use Rattle.unitary.specs.Form.{row_at, column_at, compound, basis, six_form};
ghost use Rattle.unitary_file.specs.Reading.{unitary_in};
ghost use Rattle.six_form.specs.Places.{place_of, form_entries, real_parts, imaginary_parts, is_zero, FormAs};

use gaussian::Gaussian;
use matrix::Scaled;
use unitary_file::Entries;

// The row and the column of each place above the diagonal.
// Wrong, and refused: another row or column for a place; the columns of two places exchanged.
const PAIRS: [(usize, usize); 6] = [(0, 1), (0, 2), (0, 3), (1, 2), (1, 3), (2, 3)];

fn row_at(p: usize) -> usize
    requires { p < 6 }
    ensures { (result ≡ row_at p) × (result < 4) }
{
    PAIRS[p].0
}

fn column_at(p: usize) -> usize
    requires { p < 6 }
    ensures { (result ≡ column_at p) × (result < 4) }
{
    PAIRS[p].1
}

// The product of entries (a, c) and (b, d).
// Wrong, and refused: the first factor from the transpose; both factors from one row.
fn product_of(u: &Entries, a: usize, c: usize, b: usize, d: usize) -> Gaussian
    requires { (a < 4) × (c < 4) × (b < 4) × (d < 4) }
    ensures { (result ≡ matrix_of u.now.entries a c ⊗ matrix_of u.now.entries b d) × Within (2 ^ 31) result }
{
    gaussian::times(u.entry(a, c), u.entry(b, d))
}

// The two-by-two minor at the rows of place p and the columns of place q.
// Wrong, and refused: that of the transpose; one product taken off itself.
fn minor(u: &Entries, p: usize, q: usize) -> Gaussian
    requires { (p < 6) × (q < 6) }
    ensures { (result ≡ compound (matrix_of u.now.entries) p q) × Within (2 ^ 32) result }
{
    let a = row_at(p);
    let b = column_at(p);
    let c = row_at(q);
    let d = column_at(q);
    let x = product_of(u, a, c, b, d);
    let y = product_of(u, a, d, b, c);
    gaussian::minus(x, y)
}

// The units.
const ONE: Gaussian = Gaussian { re: 1, im: 0 };

const MINUS_ONE: Gaussian = Gaussian { re: -1, im: 0 };

const I: Gaussian = Gaussian { re: 0, im: 1 };

const MINUS_I: Gaussian = Gaussian { re: 0, im: -1 };

// The basis: of each matrix the lower place, and its entries there and at the complementary place.
// Wrong, and refused: one place for all; the places of two pairs exchanged; another sign or another phase of an entry.
const BASIS: [(usize, Gaussian, Gaussian); 6] = [
    (0, I, MINUS_I),
    (0, ONE, ONE),
    (2, MINUS_I, I),
    (1, MINUS_ONE, ONE),
    (1, I, I),
    (2, ONE, ONE),
];

#[tactic(auto, unfolding(unitary::specs::Form::basis))]
fn basis(c: usize) -> (usize, Gaussian, Gaussian)
    requires { c < 6 }
    ensures place { (result.0 ≡ place_of c) × (result.0 < 3) }
    ensures lower { (result.1 ≡ basis (place_of c) c) × Within 1 result.1 }
    ensures upper { (result.2 ≡ basis (5 - place_of c) c) × Within 1 result.2 }
{
    // By reference: the table itself would be laid on the stack at each call.
    let basis = &BASIS;
    basis[c]
}

// The minors times the basis: two of the six products count.
// Wrong, and refused: the rows of another place; the minor of another place.
fn half_entry(u: &Entries, p: usize, c: usize) -> Gaussian
    requires { (p < 6) × (c < 6) }
    ensures { (result ≡ product 6 (compound (matrix_of u.now.entries)) basis p c) × Within (2 ^ 34) result }
{
    let (q, lower, upper) = basis(c);
    let left = gaussian::times(lower, minor(u, p, q));
    let right = gaussian::times(upper, minor(u, p, 5 - q));
    gaussian::plus(left, right)
}

// An entry of the form, twice.
// Wrong, and refused: the place of the column for that of the row; the column of the row's number.
fn form_entry(u: &Entries, r: usize, c: usize) -> Gaussian
    requires { (r < 6) × (c < 6) }
    ensures { (result ≡ six_form (matrix_of u.now.entries) r c) × Within (2 ^ 36) result }
{
    let (p, lower, upper) = basis(r);
    let left = gaussian::times(gaussian::conjugate(lower), half_entry(u, p, c));
    let right = gaussian::times(gaussian::conjugate(upper), half_entry(u, 5 - p, c));
    gaussian::plus(left, right)
}

// All entries, twice, row by row.
// Wrong, and refused: the entries column by column.
fn form_entries(u: &Entries) -> [Gaussian; 36]
    ensures { result ≡ form_entries (matrix_of u.now.entries) }
{
    std::array::from_fn(|i| form_entry(u, i / 6, i % 6))
}

// Their real parts.
fn real_parts(entries: &[Gaussian; 36]) -> [i64; 36]
    ensures { result ≡ real_parts entries.now }
{
    std::array::from_fn(|i| entries[i].re)
}

// Their imaginary parts.
// Wrong, and refused: the real parts.
fn imaginary_parts(entries: &[Gaussian; 36]) -> [i64; 36]
    ensures { result ≡ imaginary_parts entries.now }
{
    std::array::from_fn(|i| entries[i].im)
}

// Whether all of them are imaginary.
// Wrong, and refused: the first row alone; the first half alone; 1 in place of 0; true for every number.
fn is_imaginary(entries: &[Gaussian; 36]) -> bool
    ensures { result ≡ is_zero (real_parts entries.now) }
{
    entries.iter().all(|x| x.re == 0)
}

// Whether all of them are real.
fn is_real(entries: &[Gaussian; 36]) -> bool
    ensures { result ≡ is_zero (imaginary_parts entries.now) }
{
    entries.iter().all(|x| x.im == 0)
}

// The form, up to sign. All entries have one phase: they are real, or imaginary, or all of them are multiples of 1 + i or of 1 - i, and then the real
// part is half of what a power of ω makes them.
// Wrong, and refused: the real part of a form that is imaginary; one exponent for all phases.
pub fn form_of(u: &Entries) -> Scaled
    requires { Unitary (unitary_in u.now) }
    ensures { FormAs (unitary_in u.now) result }
{
    let entries = form_entries(u);
    if is_imaginary(&entries) {
        return Scaled {
            exponent: 2 * u.exponent + 2,
            matrix: imaginary_parts(&entries),
        };
    }
    if is_real(&entries) {
        return Scaled {
            exponent: 2 * u.exponent + 2,
            matrix: real_parts(&entries),
        };
    }
    Scaled {
        exponent: 2 * u.exponent + 1,
        matrix: real_parts(&entries),
    }
}
