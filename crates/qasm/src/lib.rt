// Gate lists written as OpenQASM 2.0 text (document 02, P8): refusals 7, 8 and 6. The contracts cite specs/.

#![tactic(auto)]

ghost use Rattle.std.specs.Prelude.{◌≡◌, ◌≤◌, length};
ghost use Rattle.refusal.specs.Refusal.{numbered};
ghost use Rattle.letter.specs.Gate.{gate_of};
ghost use Rattle.gate.specs.Reading.{largest_list};
ghost use Rattle.text.specs.Writer.{Room, Writes};
ghost use Rattle.qasm.specs.Text.{statement, text_of};
ghost use Rattle.qasm.specs.Reading.{letters_of, line_of, body_of};
ghost use Rattle.qasm.specs.Promise.{size, TextPromise};

use letter::Gate;
use refusal::Refusal;
use text::Writer;

// The bytes of the first three lines, of the longest statement, and of the longest text that is written.
pub const FIRST_LENGTH: usize = 47;

pub const LONGEST_STATEMENT: usize = 21;

pub const LONGEST_TEXT: usize = FIRST_LENGTH + LONGEST_STATEMENT * gate::LARGEST_LIST;

// The first three lines.
pub const FIRST_LINES: [u8; FIRST_LENGTH] =
    *b"OPENQASM 2.0;\ninclude \"qelib1.inc\";\nqreg q[2];\n";

// The statements, in the order of the gates.
pub const H_FIRST: [u8; 8] = *b"h q[0];\n";

pub const H_SECOND: [u8; 8] = *b"h q[1];\n";

pub const S_FIRST: [u8; 8] = *b"s q[0];\n";

pub const S_SECOND: [u8; 8] = *b"s q[1];\n";

pub const CZ: [u8; 14] = *b"cz q[0],q[1];\n";

pub const CS: [u8; LONGEST_STATEMENT] = *b"cu1(pi/2) q[0],q[1];\n";

// The line of a gate.
fn statement(g: Gate) -> &'static [u8]
    ensures { result.now ≡ statement g }
{
    match g {
        Gate::H1 => &H_FIRST,
        Gate::H2 => &H_SECOND,
        Gate::S1 => &S_FIRST,
        Gate::S2 => &S_SECOND,
        Gate::Cz => &CZ,
        Gate::Cs => &CS,
    }
}

// How many bytes the text of a list has, or 8.
fn text_length(letters: &[u8]) -> Result<usize, Refusal>
    requires { length letters.now ≤ largest_list }
    ensures { numbered result ≡ size text_of (letters_of letters.now) }
{
    let mut n = FIRST_LENGTH;
    for &b in letters.iter().rev() {
        let g = Gate::try_from(b)?;
        n += statement(g).len();
    }
    Ok(n)
}

// A statement. An arm for each, so that its line is a constant there: with that of `statement` a text takes nearly twice the instructions.
fn write_statement(g: Gate, w: &mut Writer<'_>)
    requires { Room (statement g) w.old }
    ensures { Writes (statement g) w.old w.new }
{
    match g {
        Gate::H1 => w.bytes(&H_FIRST),
        Gate::H2 => w.bytes(&H_SECOND),
        Gate::S1 => w.bytes(&S_FIRST),
        Gate::S2 => w.bytes(&S_SECOND),
        Gate::Cz => w.bytes(&CZ),
        Gate::Cs => w.bytes(&CS),
    }
}

// The statement of a letter; that of another byte is none.
fn write_letter(b: u8, w: &mut Writer<'_>)
    requires { Room (line_of (gate_of b)) w.old }
    ensures { Writes (line_of (gate_of b)) w.old w.new }
{
    if let Ok(g) = Gate::try_from(b) {
        write_statement(g, w);
    }
}

// The statements of the letters, from the last to the first.
fn write_statements(letters: &[u8], w: &mut Writer<'_>)
    requires { Room (body_of letters.now) w.old }
    ensures { Writes (body_of letters.now) w.old w.new }
{
    for &b in letters.iter().rev() {
        write_letter(b, w);
    }
}

// A gate list into OpenQASM 2.0 text at the front of `out`.
// Wrong, and refused: the letters in the list's own order; q[1] for the first qubit; a byte that is no letter taken for the end; 7 at 16,384 letters; a
// buffer that the text fills refused; the statements over the first lines.
pub fn gates_to_qasm(letters: &[u8], out: &mut [u8]) -> Result<usize, Refusal>
    ensures { TextPromise letters.now out.old out.new (numbered result) }
{
    if gate::LARGEST_LIST < letters.len() {
        return Err(Refusal::ListLength);
    }
    let length = text_length(letters)?;
    if out.len() < length {
        return Err(Refusal::Buffer);
    }
    let mut w = Writer::new(out);
    w.bytes(&FIRST_LINES);
    write_statements(letters, &mut w);
    Ok(length)
}
