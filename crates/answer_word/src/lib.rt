// An answer as one word of 64 bits. The contracts cite specs/Encoding.antt.

#![tactic(auto)]

ghost use Rattle.std.specs.Prelude.{◌≡◌, ℕ, ◌^◌, ◌<◌, ◌≤◌, Result, Ok, Err, refl};
ghost use Rattle.refusal.specs.Refusal.{numbered};
ghost use Rattle.bundle.specs.Bundle.{Placed};
ghost use Rattle.answer_word.specs.Encoding.{Parts, packed, refused, answer_parts, cuts_parts, listed_parts, letters_of, synthesis_parts, synthesis_letters, bytes_of, part_parts, WordOf};

use bundle::Part;
use operator::{Cuts, Listed};
use refusal::Refusal;
use unitary_gates::Synthesis;

// The lowest bit of each part of a word; that of the refusal is 1.
const VALUE: u64 = 1 << 8;

const LENGTH: u64 = 1 << 32;

const LOOSE: u64 = 1 << 48;

const PHASE: u64 = 1 << 56;

// The word of an answer's parts.
// Wrong, and refused: L and the phase in each other's bits; a value from bit 9 on.
fn pack(refusal: u8, value: u32, length: u16, loose: u8, phase: u8) -> u64
    requires { value < 2 ^ 24 }
    ensures { result ≡ packed refusal value length loose phase }
{
    refusal as u64
        + VALUE * (value as u64)
        + LENGTH * (length as u64)
        + LOOSE * (loose as u64)
        + PHASE * (phase as u64)
}

// The word of a refusal, by its number and no `Refusal`: what is promised of a word (`parts_back`) is promised for every number from 1 on.
// Wrong, and refused: a value beside a refusal.
pub fn encode_refusal(number: u8) -> u64
    requires { 1 ≤ number }
    ensures { WordOf (refused number) result }
{
    pack(number, 0, 0, 0, 0)
}

// What a call hands out, as the parts of a word.
pub trait Answer {
    // What an answer says, a refusal too.
    ghost parts: { Result Self ℕ → Parts };

    // Its parts have room.
    ghost Room: { Result Self ℕ → Type 0 };

    fn pack(self) -> u64
        requires { Room (Ok self) }
        ensures { WordOf (parts (Ok self)) result };

    ghost refuses: { (n : ℕ) → parts (Err n) ≡ refused n };
}

// The word of an answer.
// Wrong, and refused: the number of one refusal for all; that of another for one.
pub fn encode<A: Answer>(answer: Result<A, Refusal>) -> u64
    requires { A.Room (numbered answer) }
    ensures { WordOf (A.parts (numbered answer)) result }
{
    match answer {
        Ok(answer) => answer.pack(),
        Err(refusal) => encode_refusal(refusal.number()),
    }
}

// A count, a number of states or of layers.
// Wrong, and refused: the count as a length.
impl Answer for u8 {
    ghost parts = { answer_parts };

    ghost Room = { λ _. Unit {0} };

    ghost refuses = { λ _. refl };

    fn pack(self) -> u64 {
        pack(0, u32::from(self), 0, 0, 0)
    }
}

// How many bytes a call wrote that writes as many as its input calls for.
// Wrong, and refused: the bytes as a length; a value beside a refusal.
impl Answer for usize {
    ghost parts = { answer_parts };

    ghost Room = { λ answer. bytes_of answer < 2 ^ 24 };

    ghost refuses = { λ _. refl };

    fn pack(self) -> u64 {
        pack(0, self as u32, 0, 0, 0)
    }
}

// What the call for a sheet answers.
// Wrong, and refused: L in the bits of the phase; L beside a refusal.
impl Answer for Cuts {
    ghost parts = { cuts_parts };

    ghost Room = { λ _. Unit {0} };

    ghost refuses = { λ _. refl };

    fn pack(self) -> u64 {
        let Cuts { count, loose } = self;
        pack(0, count as u32, 0, loose, 0)
    }
}

// What the call for a gate list answers.
// Wrong, and refused: the count as the number of letters; a refusal beside a count; L left out; the sign left out; L and the sign in each other's bits.
impl Answer for Listed {
    ghost parts = { listed_parts };

    ghost Room = { λ answer. letters_of answer < 2 ^ 16 };

    ghost refuses = { λ _. refl };

    fn pack(self) -> u64 {
        let Listed {
            count,
            letters,
            loose,
            sign,
        } = self;
        pack(0, count as u32, letters as u16, loose, sign)
    }
}

// What the call for a unitary answers.
// Wrong, and refused: the power of ω left out; L and the power in each other's bits.
impl Answer for Synthesis {
    ghost parts = { synthesis_parts };

    ghost Room = { λ answer. synthesis_letters answer < 2 ^ 16 };

    ghost refuses = { λ _. refl };

    fn pack(self) -> u64 {
        let Synthesis {
            count,
            letters,
            loose,
            power,
        } = self;
        pack(0, count as u32, letters as u16, loose, power)
    }
}

// Where a part stands.
// Wrong, and refused: the first byte and the length in each other's bits; the length left out.
impl Answer for Part {
    ghost parts = { part_parts };

    ghost Room = { Placed };

    ghost refuses = { λ _. refl };

    fn pack(self) -> u64 {
        let Part { start, length } = self;
        pack(0, start as u32, length as u16, 0, 0)
    }
}
