// The letters of a gate list, and products of signed permutations by the bytes of their columns.
// The contracts cite the definitions of specs/Gate.antt and specs/Composition.antt.

#![tactic(auto)]

ghost use Rattle.std.specs.Prelude.{◌≡◌, true, ok_or};
ghost use Rattle.refusal.specs.declared.Refusal.TheVariants as Refusal;
ghost use Rattle.clifford.specs.Columns.{is_column_byte, are_column_bytes};
ghost use Rattle.letter.specs.Gate.{letter, gate_of, is_cs};
ghost use Rattle.letter.specs.Composition.{image_of, composed, composed_gate};

use refusal::Refusal;

// A letter of a gate list (document 01, "Gate images").
#[derive(Clone, Copy, Debug, PartialEq, Eq)]
pub enum Gate {
    // H: H, first qubit
    H1,
    // h: H, second qubit
    H2,
    // S: S, first qubit
    S1,
    // s: S, second qubit
    S2,
    // Z: CZ
    Cz,
    // C: CS
    Cs,
}

// The ASCII byte of a gate.
impl From<Gate> for u8 {
    ghost from_gives = { λ g b. b ≡ letter g };

    fn from(g: Gate) -> u8 {
        match g {
            Gate::H1 => b'H',
            Gate::H2 => b'h',
            Gate::S1 => b'S',
            Gate::S2 => b's',
            Gate::Cz => b'Z',
            Gate::Cs => b'C',
        }
    }
}

// The gate of a byte; every byte between the letters has none.
impl TryFrom<u8> for Gate {
    type Error = Refusal;

    ghost try_from_gives = { λ b r. r ≡ ok_or (gate_of b) Refusal.Letter };

    #[tactic(auto, unfolding(crate::specs::Gate::gate_of))]
    fn try_from(b: u8) -> Result<Gate, Refusal> {
        match b {
            b'H' => Ok(Gate::H1),
            b'h' => Ok(Gate::H2),
            b'S' => Ok(Gate::S1),
            b's' => Ok(Gate::S2),
            b'Z' => Ok(Gate::Cz),
            b'C' => Ok(Gate::Cs),
            0..=66 | 68..=71 | 73..=82 | 84..=89 | 91..=103 | 105..=114 | 116..=255 => {
                Err(Refusal::Letter)
            }
        }
    }
}

// Whether a gate is CS.
pub fn is_cs(g: Gate) -> bool
    ensures { result ≡ is_cs g }
{
    matches!(g, Gate::Cs)
}

// Where the matrix with these columns takes the column of byte b.
fn image(columns: [u8; 6], b: u8) -> u8
    requires { is_column_byte b ≡ true }
    ensures { result ≡ image_of columns b }
{
    let row = clifford::row_of(b) as usize;
    let c = columns[row];
    if clifford::is_minus(b) {
        return clifford::negate(c);
    }
    c
}

// The columns of a product. A loop over six: with `from_fn` it would be no shorter, and its closure would have to show of each byte that it is a column's.
pub fn compose(left: [u8; 6], right: [u8; 6]) -> [u8; 6]
    requires { are_column_bytes right ≡ true }
    ensures { result ≡ composed left right }
{
    let mut out = [0; 6];
    for c in 0..6 {
        out[c] = image(left, right[c]);
    }
    out
}

// The columns of a product with a Clifford gate on the right. CS, which is none, leaves them.
pub fn compose_gate(columns: [u8; 6], g: Gate) -> [u8; 6]
    ensures { result ≡ composed_gate columns g }
{
    match g {
        Gate::H1 => compose(columns, [3, 130, 1, 4, 5, 6]),
        Gate::H2 => compose(columns, [1, 2, 3, 6, 133, 4]),
        Gate::S1 => compose(columns, [2, 129, 3, 4, 5, 6]),
        Gate::S2 => compose(columns, [1, 2, 3, 5, 132, 6]),
        Gate::Cz => compose(columns, [2, 129, 6, 5, 132, 131]),
        Gate::Cs => columns,
    }
}
