// A line for a gate list that is read or handed out.

#![tactic(auto)]

use operator::Listed;
use refusal::Refusal;
use std::io::Result;

// The operator that a gate list multiplies to.
fn show_product(rt: &impl Print, letters: &[u8]) -> Result<()> {
    let mut file = [0u8; file::LONG_LENGTH];
    match gate::gates_to_operator(letters, &mut file) {
        Ok(count) => show::show_cut(rt, &file[..file::length_for(count)]),
        Err(refusal) => show::end_refused(rt, refusal),
    }
}

// A gate list by its name, and its operator.
pub fn product_case(rt: &impl Print, name: &[u8], letters: &[u8]) -> Result<()> {
    show::show(rt, name)?;
    show_product(rt, letters)
}

// A gate list by its name, and what the call for its operator answers, where this buffer is lent.
pub fn room_case(rt: &impl Print, name: &[u8], letters: &[u8], out: &mut [u8]) -> Result<()> {
    show::show(rt, name)?;
    show::end_line(rt, b": count ", gate::gates_to_operator(letters, out))
}

// A gate list, by its operator.
pub fn gates_case(rt: &impl Print, letters: &[u8]) -> Result<()> {
    product_case(rt, letters, letters)
}

// A gate list, by a file's name if it multiplies to the file's operator.
pub fn same_case(rt: &impl Print, letters: &[u8], name: &[u8], file: &[u8]) -> Result<()> {
    let mut product = [0u8; file::SHORT_LENGTH];
    let answer = gate::gates_to_operator(letters, &mut product);
    show::show(rt, letters)?;
    if &product[..] == file {
        show::show(rt, name)?;
    }
    show::end_line(rt, b", count ", answer)
}

// How many letters are this one.
fn number_of(letters: &[u8], letter: u8) -> usize {
    letters.iter().filter(|b| **b == letter).count()
}

// The letters C and Z of a gate list, and the operator that it multiplies to.
fn show_list(rt: &impl Print, letters: &[u8]) -> Result<()> {
    let c = number_of(letters, b'C');
    let z = number_of(letters, b'Z');
    print!(rt; ", letters C {c}, letters Z {z}; multiplied")?;
    show_product(rt, letters)
}

// What was written into the buffer for a gate list, if it has as many letters as the answer says.
fn end_list(
    rt: &impl Print,
    answer: std::result::Result<Listed, Refusal>,
    buffer: &[u8],
) -> Result<()> {
    match answer {
        Ok(listed) => {
            show::show_number(rt, b": count ", listed.count)?;
            show::show_number(rt, b", loose ", listed.loose)?;
            show::show_number(rt, b", sign ", listed.sign)?;
            let list = show::front(buffer);
            if list.len() == listed.letters {
                show_list(rt, list)?;
            }
            Ok(())
        }
        Err(refusal) => show::end_refused(rt, refusal),
    }
}

// An operator file, by its gate list.
pub fn list_case(rt: &impl Print, name: &[u8], file: &[u8]) -> Result<()> {
    let mut gates = [show::UNWRITTEN; gate::GATES_BUFFER];
    show::show(rt, name)?;
    end_list(rt, operator::operator_to_gates(file, &mut gates), &gates)
}
