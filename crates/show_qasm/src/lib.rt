// Lines for gate lists that are written as OpenQASM 2.0 text, and for texts that are read.

#![tactic(auto)]

use std::io::Result;
use text::Writer;

// A gate list, by its text.
fn letters_case(rt: &impl Print, name: &[u8], letters: &[u8]) -> Result<()> {
    let mut text = [show::UNWRITTEN; 128];
    show::show(rt, b"text of ")?;
    show::show(rt, name)?;
    match qasm::gates_to_qasm(letters, &mut text) {
        Ok(_) => {
            show::show(rt, b":\n")?;
            show::show(rt, show::front(&text))
        }
        Err(refusal) => show::end_refused(rt, refusal),
    }
}

// A text, by its letters.
fn text_case(rt: &impl Print, name: &[u8], text: &[u8]) -> Result<()> {
    let mut letters = [show::UNWRITTEN; 16];
    show::show(rt, name)?;
    match qasm_read::qasm_to_gates(text, &mut letters) {
        Ok(_) => {
            show::show(rt, b": letters ")?;
            show::show(rt, show::front(&letters))?;
            show::show(rt, b"\n")
        }
        Err(refusal) => show::end_refused(rt, refusal),
    }
}

// A text of the first three lines and others, by its letters.
fn lines_case(rt: &impl Print, name: &[u8], lines: &[u8]) -> Result<()> {
    let mut text = [0u8; 128];
    if 64 < lines.len() {
        return Ok(());
    }
    let mut w = Writer::new(&mut text);
    w.bytes(&qasm::FIRST_LINES);
    w.bytes(lines);
    let end = w.at;
    text_case(rt, name, &text[..end])
}

fn written(rt: &impl Print) -> Result<()> {
    letters_case(rt, b"no letters", b"")?;
    letters_case(rt, b"Ch", b"Ch")?;
    letters_case(rt, b"CX", b"CX")
}

fn read(rt: &impl Print) -> Result<()> {
    lines_case(rt, b"no statement", b"")?;
    lines_case(rt, b"two statements", b"h q[1];\ncu1(pi/2) q[0],q[1];\n")?;
    lines_case(
        rt,
        b"qubits reversed",
        b"cz q[1],q[0];\ncu1(pi/2) q[1],q[0];\n",
    )
}

fn first_lines(rt: &impl Print) -> Result<()> {
    text_case(rt, b"no text", b"")?;
    text_case(rt, b"a first line missing", &qasm::FIRST_LINES[..36])?;
    lines_case(rt, b"a first line repeated", b"qreg q[2];\n")
}

fn other_lines(rt: &impl Print) -> Result<()> {
    lines_case(rt, b"no line feed", b"h q[0];")?;
    lines_case(rt, b"an empty line", b"\n")?;
    lines_case(rt, b"a space after the comma", b"cz q[0], q[1];\n")?;
    lines_case(rt, b"a third qubit", b"h q[2];\n")?;
    lines_case(rt, b"a qubit twice", b"cz q[0],q[0];\n")
}

// The cases of document 02, P8.
pub fn cases(rt: &impl Print) -> Result<()> {
    written(rt)?;
    read(rt)?;
    first_lines(rt)?;
    other_lines(rt)
}
