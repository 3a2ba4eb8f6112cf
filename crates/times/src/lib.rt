// Products on the right, with a generator or a Clifford. The contracts cite specs/Times.antt.

#![tactic(auto)]

ghost use Rattle.std.specs.Prelude.{◌≡◌, true, ℕ, ℤ, ◌^◌, ◌≤◌, ◌<◌, get_or};
ghost use Rattle.matrix.specs.Matrix.{δ, entry, listed, product, replaced};
ghost use Rattle.matrix.specs.Array.{Bounded};
ghost use Rattle.clifford.specs.Columns.{columns_matrix, is_column_byte, are_permutation};
ghost use Rattle.residue.specs.Generator.{generator};
ghost use Rattle.times.specs.Times.{paired, partners, pair_entry, signed_entry};

// The partners of the columns, with i and j as each other's.
fn paired_by(partners: [usize; 6], i: usize, j: usize) -> [usize; 6]
    requires { (i < 6) × (j < 6) }
    ensures { result ≡ paired i j partners }
{
    let mut out = partners;
    out[i] = j;
    out[j] = i;
    out
}

// The other of the pair in which generator g has each column.
fn partners_of(g: usize) -> [usize; 6]
    requires { (1 ≤ g) × (g ≤ 15) }
    ensures { result ≡ partners g }
{
    let pairs = residue::pairs_of(g);
    let first = paired_by([0; 6], pairs[0] as usize, pairs[1] as usize);
    let second = paired_by(first, pairs[2] as usize, pairs[3] as usize);
    paired_by(second, pairs[4] as usize, pairs[5] as usize)
}

// An entry of the product with a generator, where p is the partner of c.
fn pair_entry(m: &[i64; 36], r: usize, c: usize, p: usize) -> i64
    requires { (r < 6) × (c < 6) × (p < 6) × Bounded (2 ^ 30) (entry m.now) }
    ensures { result ≡ pair_entry (entry m.now) r c p }
{
    if c < p {
        return m[r * 6 + c] + m[r * 6 + p];
    }
    m[r * 6 + c] - m[r * 6 + p]
}

// Row r of the numbers that `at` gives, into `out`: those of any f that has each of its answers.
fn fill_row<F: Fn(usize, usize) -> i64>(at: &F, r: usize, out: &mut [i64; 36])
    requires { (r < 6) × ((c : ℕ) → c < 6 → F.pre at.now r c) }
    ensures { (f : ℕ → ℤ) → ((c : ℕ) (x : ℤ) → c < 6 → F.post at.now r c x → x ≡ f c) → out.new ≡ listed (replaced r f (entry out.old)) }
{
    for c in 0..6 {
        out[r * 6 + c] = at(r, c);
    }
}

// The numbers that `at` gives, row by row. Two loops of six are unrolled; `array::from_fn` is one of 36, which divides for the row and the column.
fn fill<F: Fn(usize, usize) -> i64>(at: F) -> [i64; 36]
    requires { (r c : ℕ) → r < 6 → c < 6 → F.pre at r c }
    ensures { (f : ℕ → ℕ → ℤ) → ((r c : ℕ) (x : ℤ) → r < 6 → c < 6 → F.post at r c x → x ≡ f r c) → result ≡ listed f }
{
    let mut out = [0i64; 36];
    for r in 0..6 {
        fill_row(&at, r, &mut out);
    }
    out
}

// The product with a generator that has these partners.
fn times_pairs(m: &[i64; 36], partners: [usize; 6]) -> [i64; 36]
    requires { ((c : ℕ) → c < 6 → get_or partners c 0 < 6) × Bounded (2 ^ 30) (entry m.now) }
    ensures { result ≡ listed (λ r c. pair_entry (entry m.now) r c (get_or partners c 0)) }
{
    fill(|r, c| pair_entry(m, r, c, partners[c]))
}

// The product with generator g on the right.
pub fn times_generator(m: [i64; 36], g: usize) -> [i64; 36]
    requires { (1 ≤ g) × (g ≤ 15) × Bounded (2 ^ 30) (entry m) }
    ensures { result ≡ listed (product 6 (entry m) (generator g)) }
{
    times_pairs(&m, partners_of(g))
}

// The product with CS, generator 3, on the right: its partners are known beforehand.
pub fn times_cs(m: [i64; 36]) -> [i64; 36]
    requires { Bounded (2 ^ 30) (entry m) }
    ensures { result ≡ listed (product 6 (entry m) (generator 3)) }
{
    times_pairs(&m, [1, 0, 5, 4, 3, 2])
}

// An entry of the product with a Clifford, in the column of byte b.
fn signed_entry(m: &[i64; 36], r: usize, b: u8) -> i64
    requires { (r < 6) × (is_column_byte b ≡ true) × Bounded (2 ^ 30) (entry m.now) }
    ensures { result ≡ signed_entry (entry m.now) r b }
{
    let row = clifford::row_of(b) as usize;
    if clifford::is_minus(b) {
        return -m[r * 6 + row];
    }
    m[r * 6 + row]
}

// The product with the Clifford of these columns on the right.
pub fn times_columns(m: [i64; 36], columns: [u8; 6]) -> [i64; 36]
    requires { (are_permutation columns ≡ true) × Bounded (2 ^ 30) (entry m) }
    ensures { result ≡ listed (product 6 (entry m) (columns_matrix columns)) }
{
    fill(|r, c| signed_entry(&m, r, columns[c]))
}

// An entry of the identity.
fn unit(r: usize, c: usize) -> i64
    ensures { result ≡ δ r c }
{
    (r == c) as i64
}

// The identity. `fill` would be unrolled in each of its callers, 36 entries at a time.
pub fn identity() -> [i64; 36]
    ensures { result ≡ listed δ }
{
    std::array::from_fn(|n| unit(n / 6, n % 6))
}
