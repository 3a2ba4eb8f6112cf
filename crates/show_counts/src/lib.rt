// Lines for the laws of the count (document 02, P11): two gate lists, their counts, and the count of their product.

#![tactic(auto)]

use refusal::Refusal;
use std::io::Result;

// Lists that are parted into two factors.
const CHC: [u8; 3] = *b"CHC";

const CHCC: [u8; 4] = *b"CHCC";

const UNDONE: [u8; 18] = *b"CHCCCCCCCCHCCCCCCC";

const CLIFFORD_RIGHT: [u8; 6] = *b"CHChSZ";

const CLIFFORD_LEFT: [u8; 6] = *b"hSZCHC";

const NEGATIVE: [u8; 5] = *b"CHCZZ";

// What the call for the operator of a list answers.
fn count_of(letters: &[u8]) -> std::result::Result<u8, Refusal> {
    let mut file = [0u8; file::LONG_LENGTH];
    gate::gates_to_operator(letters, &mut file)
}

// Two lists and the list of both, by their counts.
fn product_case(rt: &impl Print, first: &[u8], second: &[u8], both: &[u8]) -> Result<()> {
    show::show(rt, first)?;
    show::show(rt, b" times ")?;
    show::show(rt, second)?;
    show::show_answer(rt, b": counts ", count_of(first))?;
    show::show_answer(rt, b" and ", count_of(second))?;
    show::end_line(rt, b", product ", count_of(both))
}

// A product with the sum of the counts, one that is lower by two, and one by the whole sum: the second list undoes the first.
fn bounds(rt: &impl Print) -> Result<()> {
    product_case(rt, &CHC[..2], &CHC[2..], &CHC)?;
    product_case(rt, &CHCC[..3], &CHCC[3..], &CHCC)?;
    product_case(rt, &UNDONE[..3], &UNDONE[3..], &UNDONE)
}

// A Clifford on either side, and -1.
fn cliffords(rt: &impl Print) -> Result<()> {
    product_case(
        rt,
        &CLIFFORD_RIGHT[..3],
        &CLIFFORD_RIGHT[3..],
        &CLIFFORD_RIGHT,
    )?;
    product_case(rt, &CLIFFORD_LEFT[..3], &CLIFFORD_LEFT[3..], &CLIFFORD_LEFT)?;
    product_case(rt, &NEGATIVE[..3], &NEGATIVE[3..], &NEGATIVE)
}

pub fn cases(rt: &impl Print) -> Result<()> {
    bounds(rt)?;
    cliffords(rt)
}
