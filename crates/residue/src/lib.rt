// The fifteen generators, and which of them a matrix's odd entries call for. The contracts cite specs/Generator.antt.

#![tactic(auto)]

ghost use Rattle.std.specs.Prelude.{◌≡◌, ◌≤◌};
ghost use Rattle.matrix.specs.Range.{tabulate};
ghost use Rattle.matrix.specs.Matrix.{entry};
ghost use Rattle.matrix.specs.Array.{row_mask};
ghost use Rattle.residue.specs.Generator.{pair_rows, first_fit};
ghost use Rattle.residue.specs.Masks.{AreRows, mask_at, pairs_fit, has_even_row};

// The three pairs of each generator, in the order of their numbers; rows are counted from 0. One after the other, as the definition `pair_rows` has them.
const PAIRS: [[u8; 6]; 15] = [
    [0, 1, 2, 3, 4, 5],
    [0, 1, 2, 4, 3, 5],
    [0, 1, 2, 5, 3, 4],
    [0, 2, 1, 3, 4, 5],
    [0, 2, 1, 4, 3, 5],
    [0, 2, 1, 5, 3, 4],
    [0, 3, 1, 2, 4, 5],
    [0, 3, 1, 4, 2, 5],
    [0, 3, 1, 5, 2, 4],
    [0, 4, 1, 2, 3, 5],
    [0, 4, 1, 3, 2, 5],
    [0, 4, 1, 5, 2, 3],
    [0, 5, 1, 2, 3, 4],
    [0, 5, 1, 3, 2, 4],
    [0, 5, 1, 4, 2, 3],
];

// The rows of generator g, pair by pair. That a number is one of the fifteen is a clause, and no type: numbers stand as bytes in sheets and normal forms,
// and a type would be built from the byte at each use.
pub fn pairs_of(g: usize) -> [u8; 6]
    requires { (1 ≤ g) × (g ≤ 15) }
    ensures { result ≡ pair_rows g }
{
    PAIRS[g - 1]
}

// The masks of the six rows.
pub fn row_masks(m: &[i64; 36]) -> [u8; 6]
    ensures { result ≡ tabulate (row_mask (entry m.now)) 0 6 }
{
    std::array::from_fn(|r| matrix::row_mask(m, r))
}

// Whether the rows of each pair have equal masks.
fn pairs_fit(masks: &[u8; 6], pairs: [u8; 6]) -> bool
    requires { AreRows pairs }
    ensures { result ≡ pairs_fit masks.now pairs }
{
    (0..3).all(|p| masks[pairs[p * 2] as usize] == masks[pairs[p * 2 + 1] as usize])
}

// The lowest-numbered generator whose every pair lies inside a group of rows, or 16; no `Option`, since the definition `first_fit` has the 16.
// A loop, since by `position` the number would be `map_or(16, |i| i + 1)` of a place; the table is named before it, since it is laid out where it is named.
pub fn first_fit(masks: [u8; 6]) -> usize
    ensures { result ≡ first_fit (mask_at masks) }
{
    let table = PAIRS;
    for g in 1..16 {
        if pairs_fit(&masks, table[g - 1]) {
            return g;
        }
    }
    16
}

// Whether some row has no odd entry.
// Wrong, and refused: the first row alone; a row of four odd entries for one of none.
pub fn has_even_row(masks: [u8; 6]) -> bool
    ensures { result ≡ has_even_row (mask_at masks) }
{
    masks.iter().any(|mask| mask.count_ones() == 0)
}
