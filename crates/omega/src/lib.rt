// The power of ω by which a gate list gives a unitary, found modulo 17: the list's letters are undone one after the other on the first column of the
// unitary, and what is left is a power of 2. The contracts cite specs/Modular.antt.

#![tactic(auto)]

ghost use Rattle.std.specs.Prelude.{List, map, ◌≡◌, ◌+◌, ◌*◌, ◌%◌, ◌^◌, ◌<◌};
ghost use Rattle.letter.specs.declared.Gate.{Gate};
ghost use Rattle.letter.specs.Gate.{letter};
ghost use Rattle.gaussian.specs.Gaussian.{gaussian};
ghost use Rattle.unitary.specs.Unitary.{quotient, matrix_of};
ghost use Rattle.omega.specs.Modular.{remainder, residue_of, Residues, first_column, undone, exponent_of, power_of};

use letter::Gate;

// A residue is a number, and that it is below 17 a clause: the definitions (`undone`, `first_column`) are of numbers, and a type would be taken apart for
// each of them. The powers of 14. The sixteenth is 1 again.
const ROOT_POWERS: [u64; 16] = [1, 14, 9, 7, 13, 12, 15, 6, 16, 3, 8, 10, 4, 5, 2, 11];

// 14 to the power k.
// Wrong, and refused: the powers begun again at the fifteenth; the power 0 for every k.
fn root_power(k: u8) -> u64
    ensures { (result ≡ 14 ^ k % 17) × (result < 17) }
{
    ROOT_POWERS[(k % 16) as usize]
}

// The remainder of x. The machine's has the sign of x.
// Wrong, and refused: 17 more for what is not negative; the remainder by 16.
fn remainder_of(x: i64) -> u64
    ensures { (result ≡ remainder x) × (result < 17) }
{
    (x % 17 + 17) as u64 % 17
}

// The residue of an entry over root two to the power k.
// Wrong, and refused: the real and the imaginary part exchanged; −i for i; root two left out.
fn residue(k: u8, re: i64, im: i64) -> u64
    ensures { result ≡ residue_of k (gaussian re im) }
{
    root_power(k) * (remainder_of(re) + 4 * remainder_of(im)) % 17
}

// The first column of the unitary (k, n).
// Wrong, and refused: the first row; the second column.
fn first_column(k: u8, n: [i64; 32]) -> [u64; 4]
    ensures { result ≡ first_column (quotient k (matrix_of n)) }
{
    std::array::from_fn(|i| residue(k, n[8 * i], n[8 * i + 1]))
}

// The sum of two residues over root two.
// Wrong, and refused: root two left out; the other sign.
fn sum(a: u64, b: u64) -> u64
    requires { (a < 17) × (b < 17) }
    ensures { result ≡ 14 * (a + b) % 17 }
{
    14 * (a + b) % 17
}

// Their difference over root two: −14 is 3.
// Wrong, and refused: root two left out; the difference the other way round.
fn difference(a: u64, b: u64) -> u64
    requires { (a < 17) × (b < 17) }
    ensures { result ≡ (14 * a + 3 * b) % 17 }
{
    (14 * a + 3 * b) % 17
}

// The inverse of a gate times a column. The inverse of i is 13, and −1 is 16.
// Wrong, and refused: H or S of the first qubit on the right tensor factor; root two left out of H; S in place of its inverse; CZ for CS.
fn undo(g: Gate, v: [u64; 4]) -> [u64; 4]
    requires { Residues v }
    ensures { result ≡ undone g v }
{
    let a = v[0];
    let b = v[1];
    let c = v[2];
    let d = v[3];
    match g {
        Gate::H1 => [sum(a, c), sum(b, d), difference(a, c), difference(b, d)],
        Gate::H2 => [sum(a, b), difference(a, b), sum(c, d), difference(c, d)],
        Gate::S1 => [a, b, 13 * c % 17, 13 * d % 17],
        Gate::S2 => [a, 13 * b % 17, c, 13 * d % 17],
        Gate::Cz => [a, b, c, 16 * d % 17],
        Gate::Cs => [a, b, c, 13 * d % 17],
    }
}

// The inverse of a letter's gate times a column. A byte that is no letter leaves the column.
// Wrong, and refused: H for every letter; the letter s passed over.
fn undo_letter(b: u8, v: [u64; 4]) -> [u64; 4]
    requires { Residues v }
    ensures { Residues result × ((g : Gate) → b ≡ letter g → result ≡ undone g v) }
{
    match Gate::try_from(b) {
        Ok(g) => undo(g, v),
        Err(_) => v,
    }
}

// The power of 2 that a residue is; 8 where it is none, and no `Option`, since the definition `exponent_of` has the 8.
// Wrong, and refused: one more than the power; 0 for what is no power.
fn exponent_of(x: u64) -> u8
    ensures { result ≡ exponent_of x }
{
    match x {
        1 => 0,
        2 => 1,
        4 => 2,
        8 => 3,
        16 => 4,
        15 => 5,
        13 => 6,
        9 => 7,
        _ => 8,
    }
}

// The power of ω by which the letters give the unitary (k, n), where they give it by some power.
// The exponent and the numbers come apart, and are no `Entries` of `unitary_file`: docs/THEOREMS.md names this function, which takes any of them.
// Wrong, and refused: the second half of the letters left out; every second letter left out; the first letter in place of each; the power read from place
// 1; the exponent k left out.
pub fn power_of(k: u8, n: [i64; 32], letters: &[u8]) -> u8
    ensures { (w : List Gate) → letters.now ≡ map letter w → result ≡ power_of (quotient k (matrix_of n)) w }
{
    let mut v = first_column(k, n);
    for b in letters {
        v = undo_letter(*b, v);
    }
    exponent_of(v[0])
}
