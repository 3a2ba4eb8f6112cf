// A line for a call: what is handed in, and what it answers. Those of gate lists are in `show_gates`. The handle, a case's name and what is handed in come
// apart: a struct of them would be built for the one call of each case.

#![tactic(auto)]

use refusal::Refusal;
use std::io::Result;

// A byte that stands in no sheet and in no gate list.
pub const UNWRITTEN: u8 = 255;

// What a call has written into a buffer of these bytes.
pub fn front(buffer: &[u8]) -> &[u8] {
    let end = buffer
        .iter()
        .position(|b| *b == UNWRITTEN)
        .unwrap_or(buffer.len());
    &buffer[..end]
}

pub fn show(rt: &impl Print, text: &[u8]) -> Result<()> {
    rt.write_all(text)
}

pub fn show_number(rt: &impl Print, word: &[u8], n: u8) -> Result<()> {
    show(rt, word)?;
    rt.print(n)
}

// Bytes in decimal after a word.
pub fn show_bytes(rt: &impl Print, word: &[u8], bytes: &[u8]) -> Result<()> {
    show(rt, word)?;
    for b in bytes {
        show_number(rt, b" ", *b)?;
    }
    Ok(())
}

// A refusal, by its number.
pub fn show_refusal(rt: &impl Print, refusal: Refusal) -> Result<()> {
    print!(rt; ": {refusal}")
}

// The same, and the end of the line.
pub fn end_refused(rt: &impl Print, refusal: Refusal) -> Result<()> {
    show_refusal(rt, refusal)?;
    show(rt, b"\n")
}

// A number after a word, or a refusal.
pub fn show_answer(
    rt: &impl Print,
    word: &[u8],
    answer: std::result::Result<u8, Refusal>,
) -> Result<()> {
    match answer {
        Ok(n) => show_number(rt, word, n),
        Err(refusal) => show_refusal(rt, refusal),
    }
}

// The same, and the end of the line.
pub fn end_line(
    rt: &impl Print,
    word: &[u8],
    answer: std::result::Result<u8, Refusal>,
) -> Result<()> {
    show_answer(rt, word, answer)?;
    show(rt, b"\n")
}

// The count, the sheet and L of an operator file, or its refusal.
pub fn show_cut(rt: &impl Print, file: &[u8]) -> Result<()> {
    let mut sheet = [UNWRITTEN; sheet_bytes::LONGEST];
    match operator::operator_to_sheet(file, &mut sheet) {
        Ok(cuts) => {
            show_number(rt, b": count ", cuts.count)?;
            show_bytes(rt, b", sheet", front(&sheet))?;
            show_number(rt, b", loose ", cuts.loose)?;
            show(rt, b"\n")
        }
        Err(refusal) => end_refused(rt, refusal),
    }
}

// An operator file, by its count, sheet and L, or by its refusal.
pub fn cut_case(rt: &impl Print, name: &[u8], file: &[u8]) -> Result<()> {
    show(rt, name)?;
    show_cut(rt, file)
}

// A sheet, by the count of its operator.
pub fn sheet_case(rt: &impl Print, sheet: &[u8]) -> Result<()> {
    let mut file = [0u8; file::LONG_LENGTH];
    let answer = sheet::sheet_to_operator(sheet, &mut file);
    show_bytes(rt, b"sheet", sheet)?;
    end_line(rt, b": count ", answer)
}

// A count and a spoilage, by the states to order.
pub fn order_case(rt: &impl Print, t: u64, p: u64) -> Result<()> {
    print!(rt; "t {t}, p {p}")?;
    end_line(rt, b": order ", order::states_to_order(t, p))
}
