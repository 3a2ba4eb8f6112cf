// Gate lists read from OpenQASM 2.0 text (document 02, P8): refusals 23, 7 and 6. The contracts cite specs/ and those of `qasm`.
//
// A place in a text stays a number, and what is behind it no slice: `place_after`, `LineAt` and `StatementsFrom` speak of the place, and `read_qasm` asks
// for it to keep the bytes from there on.

#![tactic(auto)]

ghost use Rattle.std.specs.Prelude.{map, ◌≡◌, ◌≤◌, length, Ok};
ghost use Rattle.refusal.specs.Refusal.{numbered};
ghost use Rattle.file.specs.File.{written};
ghost use Rattle.letter.specs.Gate.{letter};
ghost use Rattle.qasm.specs.Promise.{size, LettersPromise};
ghost use Rattle.qasm_read.specs.Statements.{place_after, line_at, read_from, list_in, LineAt, StatementsFrom};

use letter::Gate;
use refusal::Refusal;

// A statement of a text: its gate and the place after it.
#[derive(Clone, Copy)]
struct Statement {
    gate: Gate,
    end: usize,
}

// Statements that stand one after the other: how many, and the place after them.
#[derive(Clone, Copy)]
pub struct Statements {
    pub count: usize,
    pub end: usize,
}

// The two-qubit statements with their qubits in the reverse order.
const CZ_REVERSED: [u8; 14] = *b"cz q[1],q[0];\n";

const CS_REVERSED: [u8; qasm::LONGEST_STATEMENT] = *b"cu1(pi/2) q[1],q[0];\n";

// The place after a line, if it stands at a place.
// Byte by byte, since a text takes more than twice the instructions with `starts_with`.
pub fn after(text: &[u8], at: usize, line: &[u8]) -> Option<usize>
    requires { at ≤ length text.now }
    ensures { result ≡ place_after text.now at line.now }
{
    if text.len() - at < line.len() {
        return None;
    }
    for i in 0..line.len() {
        if text[at + i] != line[i] {
            return None;
        }
    }
    Some(at + line.len())
}

// A gate's statement by one of its lines, if the line stands at a place.
fn line_at(text: &[u8], at: usize, line: &[u8], gate: Gate) -> Option<Statement>
    requires { at ≤ length text.now }
    ensures { result ≡ line_at text.now at line.now gate }
{
    after(text, at, line).map(|end| Statement { gate, end })
}

// The statement that stands at a place. Each line is tried by itself: with `or_else` what was found is copied from try to try, and a text takes nearly twice
// the instructions.
fn statement_at(text: &[u8], at: usize) -> Option<Statement>
    requires { at ≤ length text.now }
    ensures { LineAt text.now at result }
{
    let statement = line_at(text, at, &qasm::H_FIRST, Gate::H1);
    if statement.is_some() {
        return statement;
    }
    let statement = line_at(text, at, &qasm::H_SECOND, Gate::H2);
    if statement.is_some() {
        return statement;
    }
    let statement = line_at(text, at, &qasm::S_FIRST, Gate::S1);
    if statement.is_some() {
        return statement;
    }
    let statement = line_at(text, at, &qasm::S_SECOND, Gate::S2);
    if statement.is_some() {
        return statement;
    }
    let statement = line_at(text, at, &qasm::CZ, Gate::Cz);
    if statement.is_some() {
        return statement;
    }
    let statement = line_at(text, at, &CZ_REVERSED, Gate::Cz);
    if statement.is_some() {
        return statement;
    }
    let statement = line_at(text, at, &qasm::CS, Gate::Cs);
    if statement.is_some() {
        return statement;
    }
    line_at(text, at, &CS_REVERSED, Gate::Cs)
}

// The statements that stand one after the other from a place on.
pub fn statements_from(text: &[u8], at: usize) -> Statements
    requires { at ≤ length text.now }
    ensures { StatementsFrom text.now at result }
{
    let mut count = 0;
    let mut end = at;
    while end < text.len() {
        match statement_at(text, end) {
            Some(statement) => end = statement.end,
            None => return Statements { count, end },
        }
        count += 1;
    }
    Statements { count, end }
}

// The letters of the statements from a place on, the last statement's first, at the front of `out`.
// By index, since of a slice that `iter_mut().rev()` wrote a proof knows the length alone.
fn write_letters(text: &[u8], at: usize, count: usize, out: &mut [u8])
    requires { (at ≤ length text.now) × (Ok count ≡ size (map letter) (read_from text.now at)) × (count ≤ length out.old) }
    ensures { out.new ≡ written out.old (map letter (list_in (read_from text.now at))) }
{
    let mut next = at;
    for left in (0..count).rev() {
        let Some(statement) = statement_at(text, next) else {
            return;
        };
        out[left] = u8::from(statement.gate);
        next = statement.end;
    }
}

// OpenQASM 2.0 text into a gate list at the front of `out`.
// Wrong, and refused: a last line with no line feed, or `cz q[0], q[1];`, taken; 7 before 23; other first lines read; the letters in the order of the
// statements; 7 at 16,384 statements; a buffer that the letters fill refused.
pub fn qasm_to_gates(text: &[u8], out: &mut [u8]) -> Result<usize, Refusal>
    ensures { LettersPromise text.now out.old out.new (numbered result) }
{
    let Some(first) = after(text, 0, &qasm::FIRST_LINES) else {
        return Err(Refusal::Line);
    };
    let read = statements_from(text, first);
    if read.end < text.len() {
        return Err(Refusal::Line);
    }
    let count = read.count;
    if gate::LARGEST_LIST < count {
        return Err(Refusal::ListLength);
    }
    if out.len() < count {
        return Err(Refusal::Buffer);
    }
    write_letters(text, first, count, out);
    Ok(count)
}
