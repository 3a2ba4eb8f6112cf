// Document 01's trial cuts, and the cases of document 02, P1 to P5 and P7 to P12, run through the calls: a line for each case, with the answer. I is the
// identity, and the six rows are those of the example of `cut`.

#![tactic(auto)]

use std::io::Result;

// An entry of −1, in the 16 bits of an operator file.
const MINUS_ONE: u16 = 65535;

// The operator file of the example of `cut`, for k = 2: a row a line, two bytes an entry.
const EXAMPLE: [u8; file::SHORT_LENGTH] = *b"\x02\
\x01\0\x01\0\x01\0\0\0\0\0\xff\xff\
\xff\xff\xff\xff\x01\0\0\0\0\0\xff\xff\
\x01\0\xff\xff\xff\xff\0\0\0\0\xff\xff\
\0\0\0\0\0\0\0\0\xfe\xff\0\0\
\0\0\0\0\0\0\x02\0\0\0\0\0\
\x01\0\xff\xff\x01\0\0\0\0\0\x01\0";

// The bundle of the sheets of the identity, of `C` and of `CHC`: a sheet a line, then the trailer.
const BUNDLE: [u8; 35] = *b"\
\x40\x01\x02\x03\x04\x05\x06\0\
\x41\x03\x01\x02\x03\x04\x05\x06\0\
\x42\x03\x0d\x03\x82\x01\x04\x05\x06\0\
\0\0\x08\0\x11\0\x03\0";

// The operator file of x times the identity, with another first entry.
fn diagonal(k: u8, first: u16, x: u16) -> [u8; file::SHORT_LENGTH] {
    let [lo, hi] = x.to_le_bytes();
    let [first_lo, first_hi] = first.to_le_bytes();
    let mut file = [0u8; file::SHORT_LENGTH];
    for n in 0..6 {
        file[14 * n + 1] = lo;
        file[14 * n + 2] = hi;
    }
    file[0] = k;
    file[1] = first_lo;
    file[2] = first_hi;
    file
}

// The operator file of x times the identity, with another first entry, cut.
fn cut_case(rt: &impl Print, name: &[u8], k: u8, first: u16, x: u16) -> Result<()> {
    show::cut_case(rt, name, &diagonal(k, first, x))
}

fn operators(rt: &impl Print) -> Result<()> {
    cut_case(rt, b"I, k 0", 0, 1, 1)?;
    cut_case(rt, b"2 I, k 2", 2, 2, 2)?;
    show::cut_case(rt, b"the six rows, k 2", &EXAMPLE)
}

fn limits(rt: &impl Print) -> Result<()> {
    cut_case(rt, b"16384 I, k 28", 28, 16384, 16384)?;
    cut_case(rt, b"16384 I, k 29", 29, 16384, 16384)?;
    cut_case(rt, b"entry 3, k 2", 2, 3, 2)
}

fn refused(rt: &impl Print) -> Result<()> {
    cut_case(rt, b"zero, k 0", 0, 0, 0)?;
    cut_case(rt, b"I, k 1", 1, 1, 1)?;
    cut_case(rt, b"I with -1, k 0", 0, MINUS_ONE, 1)
}

fn gate_lists(rt: &impl Print) -> Result<()> {
    show_gates::gates_case(rt, b"C")?;
    show_gates::gates_case(rt, b"CC")?;
    show_gates::gates_case(rt, b"Z")?;
    show_gates::gates_case(rt, b"CHC")?;
    show_gates::gates_case(rt, b"ZZ")
}

fn names(rt: &impl Print) -> Result<()> {
    show_gates::same_case(rt, b"HH", b": I", &diagonal(0, 1, 1))?;
    show_gates::same_case(rt, b"ZZ", b": -I", &diagonal(0, MINUS_ONE, MINUS_ONE))?;
    show_gates::same_case(rt, b"CCCCCCCC", b": I", &diagonal(0, 1, 1))
}

fn listed(rt: &impl Print) -> Result<()> {
    show_gates::list_case(rt, b"gates of I", &diagonal(0, 1, 1))?;
    show_gates::list_case(rt, b"gates of -I", &diagonal(0, MINUS_ONE, MINUS_ONE))?;
    show_gates::list_case(rt, b"gates of the six rows", &EXAMPLE)
}

fn sheets(rt: &impl Print) -> Result<()> {
    show::sheet_case(rt, &[66, 3, 13, 3, 130, 1, 4, 5, 6, 0])?;
    show::sheet_case(rt, &[64, 1, 2, 3, 4, 5, 6, 1])?;
    show::sheet_case(rt, &[66, 13, 3, 1, 2, 3, 4, 5, 6, 0])?;
    show::sheet_case(rt, &[66, 3, 3, 1, 2, 3, 4, 5, 6, 0])
}

fn signs(rt: &impl Print) -> Result<()> {
    show::sheet_case(rt, &[64, 1, 2, 3, 4, 5, 6, 2])?;
    show::sheet_case(rt, &[66, 3, 3, 1, 2, 3, 4, 5, 6, 2])?;
    show::sheet_case(rt, &[64, 129, 130, 131, 132, 133, 134, 0])?;
    show::sheet_case(rt, &[64, 129, 2, 3, 4, 5, 6, 0])
}

fn counts(rt: &impl Print) -> Result<()> {
    show::sheet_case(rt, &[3, 13, 3, 130, 1, 4, 5, 6, 0])?;
    show::sheet_case(rt, &[3, 13, 3, 130, 1, 4, 5, 6])?;
    show::sheet_case(rt, &[65, 1, 2, 3, 4, 5, 6, 0])?;
    show::sheet_case(rt, &[65, 0, 2, 3, 4, 5, 6, 0])?;
    show::sheet_case(rt, &[63, 1, 2, 3, 4, 5, 6])?;
    show::sheet_case(rt, &[1, 2, 3, 4, 5, 6, 0])
}

fn orders(rt: &impl Print) -> Result<()> {
    show::order_case(rt, 10, 50)?;
    show::order_case(rt, 10, 150)?;
    show::order_case(rt, 28, 50)?;
    show::order_case(rt, 0, 1000)?;
    show::order_case(rt, 28, 1000)?;
    show::order_case(rt, 1, 500)?;
    show::order_case(rt, 3, 500)
}

fn bundles(rt: &impl Print) -> Result<()> {
    show_bundle::bundle_case(rt, &BUNDLE, 0)?;
    show_bundle::bundle_case(rt, &BUNDLE, 2)?;
    show_bundle::bundle_case(rt, &BUNDLE, 3)?;
    show_bundle::bundle_case(rt, &[0, 0], 0)
}

fn no_bundles(rt: &impl Print) -> Result<()> {
    show_bundle::bundle_case(rt, &[], 0)?;
    show_bundle::bundle_case(rt, &[0, 1, 0], 0)?;
    show_bundle::bundle_case(rt, &[63, 1, 2, 3, 4, 5, 6, 0, 0, 1, 0], 0)?;
    show_bundle::bundle_case(rt, &[64, 1, 2, 3, 4, 5, 6, 0, 1, 0, 1, 0], 1)
}

fn stored(rt: &impl Print) -> Result<()> {
    show_bundle::sheets_case(rt, &[])?;
    show_bundle::sheets_case(rt, &BUNDLE[..27])?;
    show_bundle::sheets_case(rt, &[64, 1, 2, 3, 4, 5, 6])
}

// Pairs of numbers that are listed, the second one higher and lower; pairs that are not, of different and of equal numbers; and what is no number.
fn pairs(rt: &impl Print) -> Result<()> {
    show::sheet_case(rt, &[66, 1, 2, 1, 2, 3, 4, 5, 6, 0])?;
    show::sheet_case(rt, &[66, 7, 2, 1, 2, 3, 4, 5, 6, 0])?;
    show::sheet_case(rt, &[66, 2, 1, 1, 2, 3, 4, 5, 6, 0])?;
    show::sheet_case(rt, &[66, 1, 1, 1, 2, 3, 4, 5, 6, 0])?;
    show::sheet_case(rt, &[66, 1, 16, 1, 2, 3, 4, 5, 6, 0])
}

fn main(rt: HostRuntime) -> Result<()> {
    operators(&rt)?;
    limits(&rt)?;
    refused(&rt)?;
    gate_lists(&rt)?;
    names(&rt)?;
    listed(&rt)?;
    sheets(&rt)?;
    signs(&rt)?;
    counts(&rt)?;
    orders(&rt)?;
    bundles(&rt)?;
    no_bundles(&rt)?;
    stored(&rt)?;
    show_qasm::cases(&rt)?;
    show_unitary::cases(&rt)?;
    show_long::cases(&rt)?;
    show_counts::cases(&rt)?;
    pairs(&rt)
}
