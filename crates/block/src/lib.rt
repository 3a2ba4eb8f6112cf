// Blocks of a program, as bytes: refusals 24 and 25. The contracts cite specs/Block.antt.

#![tactic(auto)]

ghost use Rattle.std.specs.Prelude.{◌≡◌, ◌≤◌};
ghost use Rattle.refusal.specs.Refusal.{numbered, refusal_of};
ghost use Rattle.block.specs.Block.{is_on_two, are_on_two, program_refusal};

use refusal::Refusal;

// The most blocks of a program.
pub const MOST_BLOCKS: usize = 64;

// The number of qubits.
pub const QUBITS: u8 = 32;

// Whether a block on qubits x and y earns no 25.
// Wrong, and refused: qubit 32 taken; a qubit that is named twice taken.
fn is_on_two(x: u8, y: u8) -> bool
    ensures { result ≡ is_on_two (record { first = x; second = y }) }
{
    x < QUBITS && y < QUBITS && x != y
}

// Whether no block of w bytes earns 25.
// Wrong, and refused: the first qubit of a block in place of its second; a program taken at its first wrong block.
fn are_on_two(bytes: &[u8], w: usize) -> bool
    requires { (2 ≤ w) × (w ≤ 5) }
    ensures { result ≡ are_on_two w bytes.now }
{
    (0..bytes.len() / w).all(|n| is_on_two(bytes[w * n], bytes[w * n + 1]))
}

// Whether a program of blocks of w bytes earns no refusal.
// Wrong, and refused: 65 blocks taken; bytes that are left over taken; 25 before 24.
pub fn check_program(bytes: &[u8], w: usize) -> Result<(), Refusal>
    requires { (2 ≤ w) × (w ≤ 5) }
    ensures { refusal_of (numbered result) ≡ program_refusal w bytes.now }
{
    if bytes.len() % w != 0 || MOST_BLOCKS < bytes.len() / w {
        return Err(Refusal::ProgramLength);
    }
    if !are_on_two(bytes, w) {
        return Err(Refusal::Qubits);
    }
    Ok(())
}
