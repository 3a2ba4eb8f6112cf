// A unitary's 65 bytes read and tested: refusals 17, 18 and 19. The contracts cite specs/Unitary.antt and specs/Reading.antt.

#![tactic(auto)]

ghost use Rattle.std.specs.Prelude.{◌≡◌, ◌^◌, ◌<◌, ◌≤◌, length};
ghost use Rattle.refusal.specs.Refusal.{numbered};
ghost use Rattle.gaussian.specs.Gaussian.{Within, conj, norm_of, product, adjoint};
ghost use Rattle.unitary.specs.Unitary.{matrix_of};
ghost use Rattle.unitary_file.specs.Unitary.{Narrow, is_small, is_unitary, largest_unitary, unitary_at, unitary_entries, unitary_length};

use gaussian::Gaussian;
use refusal::Refusal;

// The bytes of a unitary.
pub const UNITARY_LENGTH: usize = 65;

// The largest exponent that they may carry.
pub const LARGEST_UNITARY: u8 = 29;

// A unitary: its exponent k, and its entries row by row, real then imaginary part, as the bytes and the definition `matrix_of` have them.
#[derive(Clone, Copy)]
pub struct Entries {
    pub exponent: u8,
    pub entries: [i64; 32],
    ghost in_range: { exponent ≤ largest_unitary },
    ghost narrow: { Narrow entries },
}

// The 32 numbers.
// Wrong, and refused: the first number for each; each of the first numbers twice.
fn decode(bytes: &[u8]) -> [i64; 32]
    requires { length bytes.now ≡ unitary_length }
    ensures { result ≡ unitary_entries bytes.now }
{
    std::array::from_fn(|i| file::short_entry(bytes, i))
}

impl Entries {
    ghost use Rattle.unitary_file.specs.Reading.{ReadAs};

    // The exponent and the entries of a unitary's bytes, or their refusal.
    // Wrong, and refused: 19 before 18; 18 for whatever is not unitary; an exponent of 30 taken in.
    pub fn read(bytes: &[u8]) -> Result<Entries, Refusal>
        ensures { ReadAs bytes.now (numbered result) }
    {
        if bytes.len() != UNITARY_LENGTH || LARGEST_UNITARY < bytes[0] {
            return Err(Refusal::UnitaryLength);
        }
        let read = Entries {
            exponent: bytes[0],
            entries: decode(bytes),
        };
        if !read.is_small() {
            return Err(Refusal::UnitaryEntry);
        }
        if !read.is_unitary() {
            return Err(Refusal::NotUnitary);
        }
        Ok(read)
    }

    // Entry (i, j).
    // Wrong, and refused: the transpose; the parts exchanged.
    pub fn entry(&self, i: usize, j: usize) -> Gaussian
        requires { (i < 4) × (j < 4) }
        ensures { (result ≡ matrix_of self.now.entries i j) × Within (2 ^ 15) result }
    {
        Gaussian {
            re: self.entries[8 * i + 2 * j],
            im: self.entries[8 * i + 2 * j + 1],
        }
    }

    // The squared size of entry (i, j).
    // Wrong, and refused: that of the transpose's entry; its remainder by 7.
    fn square_size(&self, i: usize, j: usize) -> i64
        requires { (i < 4) × (j < 4) }
        ensures { result ≡ norm_of (matrix_of self.now.entries i j) }
    {
        let x = self.entry(i, j);
        x.re * x.re + x.im * x.im
    }

    // Whether no entry's squared size exceeds 2 to the power k.
    // Wrong, and refused: 2 to the power k itself refused; the diagonal alone.
    fn is_small(&self) -> bool
        ensures { result ≡ is_small self.now.exponent (matrix_of self.now.entries) }
    {
        let limit = orthogonality::power_of_two(self.exponent);
        (0..16).all(|p| self.square_size(p / 4, p % 4) <= limit)
    }

    // The conjugate of entry (i, j).
    // Wrong, and refused: the entry itself, with no conjugate; the conjugate of the transpose's.
    fn conjugate(&self, i: usize, j: usize) -> Gaussian
        requires { (i < 4) × (j < 4) }
        ensures { (result ≡ conj (matrix_of self.now.entries i j)) × Within (2 ^ 15) result }
    {
        gaussian::conjugate(self.entry(i, j))
    }

    // Row i times the conjugate of row j.
    // Wrong, and refused: row j with itself; a column in place of row j.
    fn row_product(&self, i: usize, j: usize) -> Gaussian
        requires { (i < 4) × (j < 4) }
        ensures { result ≡ product 4 (matrix_of self.now.entries) (adjoint (matrix_of self.now.entries)) i j }
    {
        let mut sum = Gaussian { re: 0, im: 0 };
        for c in 0..4 {
            let x = self.entry(i, c);
            let y = self.conjugate(j, c);
            sum = gaussian::plus(sum, gaussian::times(x, y));
        }
        sum
    }

    // Whether rows i and j have the product that rows of a unitary have: norm of a row with itself, else 0.
    // Wrong, and refused: norm for any two rows; the real part in place of the imaginary one.
    fn rows_unitary(&self, i: usize, j: usize, norm: i64) -> bool
        requires { (i < 4) × (j < 4) }
        ensures { result ≡ unitary_at norm (matrix_of self.now.entries) i j }
    {
        let product = self.row_product(i, j);
        product.im == 0 && product.re == if i == j { norm } else { 0 }
    }

    // Whether the numbers over root two to the power k are unitary.
    // Wrong, and refused: each row with itself alone; the first row alone.
    fn is_unitary(&self) -> bool
        ensures { result ≡ is_unitary self.now.exponent (matrix_of self.now.entries) }
    {
        let norm = orthogonality::power_of_two(self.exponent);
        (0..16).all(|p| self.rows_unitary(p / 4, p % 4, norm))
    }
}
