// Lines for unitaries: each with the count, L, the power of ω and the gate list that the call for it answers, or with its refusal.

#![tactic(auto)]

use std::io::Result;

// The unitaries of P5's cases, a row a line after the exponent: four bytes an entry, the real part and the imaginary part.
const IDENTITY: [u8; 65] = *b"\0\
\x01\0\0\0\0\0\0\0\0\0\0\0\0\0\0\0\
\0\0\0\0\x01\0\0\0\0\0\0\0\0\0\0\0\
\0\0\0\0\0\0\0\0\x01\0\0\0\0\0\0\0\
\0\0\0\0\0\0\0\0\0\0\0\0\x01\0\0\0";

const OMEGA: [u8; 65] = *b"\x01\
\x01\0\x01\0\0\0\0\0\0\0\0\0\0\0\0\0\
\0\0\0\0\x01\0\x01\0\0\0\0\0\0\0\0\0\
\0\0\0\0\0\0\0\0\x01\0\x01\0\0\0\0\0\
\0\0\0\0\0\0\0\0\0\0\0\0\x01\0\x01\0";

const H_FIRST: [u8; 65] = *b"\x01\
\x01\0\0\0\0\0\0\0\x01\0\0\0\0\0\0\0\
\0\0\0\0\x01\0\0\0\0\0\0\0\x01\0\0\0\
\x01\0\0\0\0\0\0\0\xff\xff\0\0\0\0\0\0\
\0\0\0\0\x01\0\0\0\0\0\0\0\xff\xff\0\0";

const H_SECOND: [u8; 65] = *b"\x01\
\x01\0\0\0\x01\0\0\0\0\0\0\0\0\0\0\0\
\x01\0\0\0\xff\xff\0\0\0\0\0\0\0\0\0\0\
\0\0\0\0\0\0\0\0\x01\0\0\0\x01\0\0\0\
\0\0\0\0\0\0\0\0\x01\0\0\0\xff\xff\0\0";

const CS: [u8; 65] = *b"\0\
\x01\0\0\0\0\0\0\0\0\0\0\0\0\0\0\0\
\0\0\0\0\x01\0\0\0\0\0\0\0\0\0\0\0\
\0\0\0\0\0\0\0\0\x01\0\0\0\0\0\0\0\
\0\0\0\0\0\0\0\0\0\0\0\0\0\0\x01\0";

const CZ: [u8; 65] = *b"\0\
\x01\0\0\0\0\0\0\0\0\0\0\0\0\0\0\0\
\0\0\0\0\x01\0\0\0\0\0\0\0\0\0\0\0\
\0\0\0\0\0\0\0\0\x01\0\0\0\0\0\0\0\
\0\0\0\0\0\0\0\0\0\0\0\0\xff\xff\0\0";

const SWAP: [u8; 65] = *b"\0\
\x01\0\0\0\0\0\0\0\0\0\0\0\0\0\0\0\
\0\0\0\0\0\0\0\0\x01\0\0\0\0\0\0\0\
\0\0\0\0\x01\0\0\0\0\0\0\0\0\0\0\0\
\0\0\0\0\0\0\0\0\0\0\0\0\x01\0\0\0";

const CHC: [u8; 65] = *b"\x01\
\x01\0\0\0\0\0\0\0\x01\0\0\0\0\0\0\0\
\0\0\0\0\x01\0\0\0\0\0\0\0\0\0\x01\0\
\x01\0\0\0\0\0\0\0\xff\xff\0\0\0\0\0\0\
\0\0\0\0\0\0\x01\0\0\0\0\0\x01\0\0\0";

// A unitary, by its gate list.
fn unitary_case(rt: &impl Print, name: &[u8], bytes: &[u8]) -> Result<()> {
    let mut gates = [show::UNWRITTEN; gate::GATES_BUFFER];
    show::show(rt, name)?;
    match unitary_gates::unitary_to_gates(bytes, &mut gates) {
        Ok(list) => {
            show::show_number(rt, b": count ", list.count)?;
            show::show_number(rt, b", loose ", list.loose)?;
            show::show_number(rt, b", omega ", list.power)?;
            show::show(rt, b", gates ")?;
            show::show(rt, show::front(&gates))?;
            show::show(rt, b"\n")
        }
        Err(refusal) => show::end_refused(rt, refusal),
    }
}

fn cliffords(rt: &impl Print) -> Result<()> {
    unitary_case(rt, b"unitary I", &IDENTITY)?;
    unitary_case(rt, b"unitary omega I", &OMEGA)?;
    unitary_case(rt, b"unitary H, first qubit", &H_FIRST)?;
    unitary_case(rt, b"unitary H, second qubit", &H_SECOND)?;
    unitary_case(rt, b"unitary CZ", &CZ)?;
    unitary_case(rt, b"unitary SWAP", &SWAP)
}

// The identity with another exponent and another first entry.
fn changed_case(rt: &impl Print, name: &[u8], k: u8, first: u8) -> Result<()> {
    let mut bytes = IDENTITY;
    bytes[0] = k;
    bytes[1] = first;
    unitary_case(rt, name, &bytes)
}

fn refused(rt: &impl Print) -> Result<()> {
    unitary_case(rt, b"64 bytes", &IDENTITY[..64])?;
    changed_case(rt, b"unitary I, k 30", 30, 1)?;
    changed_case(rt, b"unitary I, k 1", 1, 1)?;
    changed_case(rt, b"unitary I, first entry 2", 0, 2)?;
    changed_case(rt, b"unitary I, first entry 2, k 2", 2, 2)
}

pub fn cases(rt: &impl Print) -> Result<()> {
    cliffords(rt)?;
    unitary_case(rt, b"unitary CS", &CS)?;
    unitary_case(rt, b"unitary CHC", &CHC)?;
    refused(rt)
}
