// Lines for the two kinds of operator file (document 02, P10): long files of small operators, the limits of either kind, and gate lists whose
// product needs a long file.

#![tactic(auto)]

use std::io::Result;

// The long files of the identity, of the six rows and of 2^30 times the identity: a row a line after the exponent, four bytes an entry.
const IDENTITY: [u8; file::LONG_LENGTH] = *b"\0\
\x01\0\0\0\0\0\0\0\0\0\0\0\0\0\0\0\0\0\0\0\0\0\0\0\
\0\0\0\0\x01\0\0\0\0\0\0\0\0\0\0\0\0\0\0\0\0\0\0\0\
\0\0\0\0\0\0\0\0\x01\0\0\0\0\0\0\0\0\0\0\0\0\0\0\0\
\0\0\0\0\0\0\0\0\0\0\0\0\x01\0\0\0\0\0\0\0\0\0\0\0\
\0\0\0\0\0\0\0\0\0\0\0\0\0\0\0\0\x01\0\0\0\0\0\0\0\
\0\0\0\0\0\0\0\0\0\0\0\0\0\0\0\0\0\0\0\0\x01\0\0\0";

const EXAMPLE: [u8; file::LONG_LENGTH] = *b"\x02\
\x01\0\0\0\x01\0\0\0\x01\0\0\0\0\0\0\0\0\0\0\0\xff\xff\xff\xff\
\xff\xff\xff\xff\xff\xff\xff\xff\x01\0\0\0\0\0\0\0\0\0\0\0\xff\xff\xff\xff\
\x01\0\0\0\xff\xff\xff\xff\xff\xff\xff\xff\0\0\0\0\0\0\0\0\xff\xff\xff\xff\
\0\0\0\0\0\0\0\0\0\0\0\0\0\0\0\0\xfe\xff\xff\xff\0\0\0\0\
\0\0\0\0\0\0\0\0\0\0\0\0\x02\0\0\0\0\0\0\0\0\0\0\0\
\x01\0\0\0\xff\xff\xff\xff\x01\0\0\0\0\0\0\0\0\0\0\0\x01\0\0\0";

const LARGEST: [u8; file::LONG_LENGTH] = *b"\x3c\
\0\0\0\x40\0\0\0\0\0\0\0\0\0\0\0\0\0\0\0\0\0\0\0\0\
\0\0\0\0\0\0\0\x40\0\0\0\0\0\0\0\0\0\0\0\0\0\0\0\0\
\0\0\0\0\0\0\0\0\0\0\0\x40\0\0\0\0\0\0\0\0\0\0\0\0\
\0\0\0\0\0\0\0\0\0\0\0\0\0\0\0\x40\0\0\0\0\0\0\0\0\
\0\0\0\0\0\0\0\0\0\0\0\0\0\0\0\0\0\0\0\x40\0\0\0\0\
\0\0\0\0\0\0\0\0\0\0\0\0\0\0\0\0\0\0\0\0\0\0\0\x40";

// Sixty-one times `CHh`, each of which raises the least exponent by 1.
const DEEP: [u8; 183] = *b"\
CHhCHhCHhCHhCHhCHhCHhCHhCHhCHhCHhCHhCHhCHhCHhCHhCHhCHhCHhCHh\
CHhCHhCHhCHhCHhCHhCHhCHhCHhCHhCHhCHhCHhCHhCHhCHhCHhCHhCHhCHh\
CHhCHhCHhCHhCHhCHhCHhCHhCHhCHhCHhCHhCHhCHhCHhCHhCHhCHhCHhCHh\
CHh";

fn kinds(rt: &impl Print) -> Result<()> {
    show::cut_case(rt, b"long I, k 0", &IDENTITY)?;
    show::cut_case(rt, b"long, the six rows, k 2", &EXAMPLE)?;
    show_gates::list_case(rt, b"gates of the six rows, long", &EXAMPLE)?;
    show::cut_case(rt, b"2^30 I, k 60", &LARGEST)
}

fn lengths(rt: &impl Print) -> Result<()> {
    show::cut_case(rt, b"74 bytes", &IDENTITY[..74])?;
    show::cut_case(rt, b"144 bytes", &IDENTITY[..144])?;
    show::cut_case(rt, b"146 bytes", &[0; 146])
}

// The long file with another exponent and other bytes for its first entry.
fn changed(
    rt: &impl Print,
    name: &[u8],
    file: [u8; file::LONG_LENGTH],
    k: u8,
    low: u8,
    high: u8,
) -> Result<()> {
    let mut other = file;
    other[0] = k;
    other[1] = low;
    other[4] = high;
    show::cut_case(rt, name, &other)
}

fn refused(rt: &impl Print) -> Result<()> {
    changed(rt, b"2^30 I, k 61", LARGEST, 61, 0, 64)?;
    changed(
        rt,
        b"2^30 I, k 60, first entry one more",
        LARGEST,
        60,
        1,
        64,
    )?;
    changed(rt, b"2^30 I, k 60, first entry -2^31", LARGEST, 60, 0, 128)?;
    changed(rt, b"long I, k 1", IDENTITY, 1, 1, 0)?;
    changed(rt, b"2^30 I, k 60, first entry -2^30", LARGEST, 60, 0, 192)
}

fn lists(rt: &impl Print) -> Result<()> {
    show_gates::product_case(rt, b"CHh 28 times", &DEEP[..84])?;
    show_gates::product_case(rt, b"CHh 29 times", &DEEP[..87])?;
    show_gates::product_case(rt, b"CHh 60 times", &DEEP[..180])?;
    show_gates::product_case(rt, b"CHh 61 times", &DEEP)
}

fn rooms(rt: &impl Print) -> Result<()> {
    show_gates::room_case(rt, b"CHh 28 times, 72 bytes", &DEEP[..84], &mut [0; 72])?;
    show_gates::room_case(rt, b"CHh 28 times, 73 bytes", &DEEP[..84], &mut [0; 73])?;
    show_gates::room_case(rt, b"CHh 29 times, 144 bytes", &DEEP[..87], &mut [0; 144])?;
    show_gates::room_case(rt, b"CHh 29 times, 145 bytes", &DEEP[..87], &mut [0; 145])
}

fn orders(rt: &impl Print) -> Result<()> {
    show::order_case(rt, 60, 50)?;
    show::order_case(rt, 60, 1000)?;
    show::order_case(rt, 61, 0)
}

pub fn cases(rt: &impl Print) -> Result<()> {
    kinds(rt)?;
    lengths(rt)?;
    refused(rt)?;
    lists(rt)?;
    rooms(rt)?;
    orders(rt)
}
