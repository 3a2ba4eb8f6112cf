// Words as numbers, written letter by letter. The contracts cite specs/Code.antt and specs/Writer.antt.

#![tactic(auto)]

ghost use Rattle.std.specs.Prelude.{List, ◌≡◌, ◌≤◌, length};
ghost use Rattle.letter.specs.declared.Gate.{Gate};
ghost use Rattle.text.specs.Writer.{RoomFor};
ghost use Rattle.word_code.specs.Code.{letter_at, encoded};
ghost use Rattle.word_code.specs.Writer.{WritesWord};

use text::Writer;

// The letter of an octal digit, 0 of one that is none; no `Option`, since the definition `letter_at` has the 0.
fn letter_at(digit: u64) -> u8
    ensures { result ≡ letter_at digit }
{
    match digit {
        1 => b'H',
        2 => b'h',
        3 => b'S',
        4 => b's',
        5 => b'Z',
        6 => b'C',
        _ => 0,
    }
}

// The most letters of a word in a table.
const LONGEST: usize = 16;

// Writes the letters of a number; the rest of the buffer stays.
pub fn write_code(code: u64, writer: &mut Writer<'_>)
    requires { RoomFor 16 writer.old }
    ensures { (w : List Gate) → code ≡ encoded w → length w ≤ 16 → WritesWord w writer.old writer.new }
{
    let mut rest = code;
    for _ in 0..LONGEST {
        if rest == 0 {
            return;
        }
        writer.byte(letter_at(rest % 8));
        rest /= 8;
    }
}
