// Reads OpenQASM 2.0 text: the text on standard input, and its letters on standard output.

#![tactic(auto)]

ghost use Rattle.std.specs.Prelude.{◌++◌, map, ◌≡◌, ◌+◌, ◌≤◌, IfOk, IfErr, length, take};
ghost use Rattle.io.specs.Counts.{IsPrefixLen};
ghost use Rattle.refusal.specs.Refusal.{number};
ghost use Rattle.letter.specs.Gate.{letter};
ghost use Rattle.qasm.specs.Reading.{read_qasm};
ghost use Rattle.qasm.specs.Output.{output_of};
ghost use Rattle.read_qasm.specs.Long.{longer, StartOf, LeftOf, Earned, last_refusal, OutputBehind};

use refusal::Refusal;
use std::io::{Read, Result};

// A text of so many bytes has more than 16,384 statements, or a line that is none.
const LONGER: usize = qasm::LONGEST_TEXT + qasm::LONGEST_STATEMENT;

// Room for part of a statement and the bytes that are read at a time.
const WINDOW: usize = qasm::LONGEST_STATEMENT + 65536;

// More turns than an input has parts of 65,536 bytes.
const MOST_TURNS: u64 = 1 << 48;

// The bytes for a text, written in `out`.
fn answer<'a>(text: &[u8], out: &'a mut [u8; gate::LARGEST_LIST]) -> &'a [u8]
    ensures { result.now ≡ output_of (map letter) (read_qasm text.now) }
{
    match qasm_read::qasm_to_gates(text, out) {
        Ok(bytes) => &out[..bytes],
        Err(refusal) => line::refused(refusal.number(), out),
    }
}

// How many bytes of a long text are its first three lines and statements; none if a line is wrong.
fn start_of(text: &[u8]) -> Option<usize>
    requires { longer ≤ length text.now }
    ensures { StartOf text.now result }
{
    let first = qasm_read::after(text, 0, &qasm::FIRST_LINES)?;
    let read = qasm_read::statements_from(text, first);
    let end = read.end;
    if end <= qasm::LONGEST_TEXT {
        return None;
    }
    Some(end)
}

// Drops the statements at the front of the first `end` bytes, and returns how many are left.
fn drop_statements(bytes: &mut [u8], end: usize) -> usize
    requires { end ≤ length bytes.old }
    ensures { (length bytes.new ≡ length bytes.old) × LeftOf (take end bytes.old) bytes.new result }
{
    let read = qasm_read::statements_from(&bytes[..end], 0);
    let from = read.end;
    bytes.copy_within(from..end, 0);
    end - from
}

// More bytes behind the first `left` of a buffer, without the statements at the front of them all; returns how many are left.
fn take_in(more: &[u8], buffer: &mut [u8], left: usize) -> usize
    requires { left + length more.now ≤ length buffer.old }
    ensures { (length buffer.new ≡ length buffer.old) × LeftOf (take left buffer.old ++ more.now) buffer.new result }
{
    let end = left + more.len();
    buffer[left..end].copy_from_slice(more);
    drop_statements(buffer, end)
}

// The refusal of a long text of which so many bytes are left, that begin with no statement.
fn last_refusal(left: usize) -> Refusal
    ensures { number result ≡ last_refusal left }
{
    if left == 0 {
        Refusal::ListLength
    } else {
        Refusal::Line
    }
}

// Reads on behind the first bytes of a long text, and returns the refusal that it earns. Statements are dropped; as many bytes as any statement
// has that begin with none earn 23, whatever follows (`waiting_stuck`).
fn read_on<R: Read>(input: &mut R, text: &[u8]) -> Result<Refusal>
    requires { length text.now ≡ longer }
    ensures { IfOk result (λ r. Earned text.now (number r)) }
{
    let Some(start) = start_of(text) else {
        return Ok(Refusal::Line);
    };
    let mut buffer = [0u8; WINDOW];
    let mut more = io::large_buffer();
    let mut left = take_in(&text[start..], &mut buffer, 0);
    for _ in 0..MOST_TURNS {
        if qasm::LONGEST_STATEMENT <= left {
            return Ok(Refusal::Line);
        }
        let n = streams::read_full(input, &mut more)?;
        if n == 0 {
            return Ok(last_refusal(left));
        }
        left = take_in(&more[..n], &mut buffer, left);
    }
    Ok(last_refusal(left))
}

// The bytes for a text that goes on behind so many, at the front of `out`. How many, and no slice: where reading fails, what was lent stands, which an
// answer that borrows from it could not say.
fn answer_long<R: Read>(
    input: &mut R,
    text: &[u8],
    out: &mut [u8; gate::LARGEST_LIST],
) -> Result<usize>
    requires { length text.now ≡ longer }
    ensures ok { IfOk result (λ n. OutputBehind text.now out.old out.new n × IsPrefixLen n out.new) }
    ensures err { IfErr result (λ _. out.new ≡ out.old) }
{
    let refusal = read_on(input, text)?;
    Ok(line::write_refused(refusal.number(), out))
}

fn main(rt: HostRuntime) -> Result<()> {
    let mut input = rt.stdin();
    let mut text = [0u8; LONGER];
    let mut output = [0u8; gate::LARGEST_LIST];
    let length = streams::read_full(&mut input, &mut text)?;
    if length < LONGER {
        return rt.write_all(answer(&text[..length], &mut output));
    }
    let end = answer_long(&mut input, &text, &mut output)?;
    rt.write_all(&output[..end])
}
