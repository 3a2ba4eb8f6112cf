// The lines that the programs print. The contracts cite specs/Word.antt and the definitions of `text`.

#![tactic(auto)]

ghost use Rattle.std.specs.Prelude.{◌≡◌, ◌≤◌, length};
ghost use Rattle.file.specs.File.{Appended};
ghost use Rattle.text.specs.Text.{line, refused_line, gates_line, list_lines};
ghost use Rattle.text.specs.Writer.{Room, Writes};
ghost use Rattle.line.specs.Word.{word_of};

use text::Writer;

// The words that begin a line of numbers.
#[derive(Clone, Copy, Debug, PartialEq, Eq)]
pub enum Word {
    Count,
    Sheet,
    Loose,
    Sign,
    Omega,
    Refused,
    Order,
    Layers,
    Layer,
}

impl Word {
    fn bytes(self) -> &'static [u8]
        ensures { result.now ≡ word_of self }
    {
        match self {
            Word::Count => b"count",
            Word::Sheet => b"sheet",
            Word::Loose => b"loose",
            Word::Sign => b"sign",
            Word::Omega => b"omega",
            Word::Refused => b"refused",
            Word::Order => b"order",
            Word::Layers => b"layers",
            Word::Layer => b"layer",
        }
    }
}

// The line of a word and its numbers.
pub fn write_line(word: Word, numbers: &[u8], w: &mut Writer<'_>)
    requires { Room (line (word_of word) numbers.now) w.old }
    ensures { Writes (line (word_of word) numbers.now) w.old w.new }
{
    w.line(word.bytes(), numbers);
}

// The line of a refusal, at the front of `out`, and how many bytes it has: for `read_qasm`, which says of what was lent to it what it holds after an error.
pub fn write_refused(n: u8, out: &mut [u8]) -> usize
    requires { length (refused_line n) ≤ length out.old }
    ensures { Appended (refused_line n) 0 out.old out.new result }
{
    let mut w = Writer::new(out);
    write_line(Word::Refused, &[n], &mut w);
    w.at
}

// The line of a refusal, in `out`, by its number, as the definition `refused_line` has it.
// Wrong, and refused: the line without its line feed.
pub fn refused(n: u8, out: &mut [u8]) -> &[u8]
    requires { length (refused_line n) ≤ length out.old }
    ensures { result.now ≡ refused_line n }
{
    let mut w = Writer::new(out);
    write_line(Word::Refused, &[n], &mut w);
    w.written()
}

// The line of a gate list.
pub fn write_gates(letters: &[u8], w: &mut Writer<'_>)
    requires { Room (gates_line letters.now) w.old }
    ensures { Writes (gates_line letters.now) w.old w.new }
{
    w.bytes(b"gates ");
    w.bytes(letters);
    w.byte(b'\n');
}

// The lines of a gate list: its count, its letters and L.
// Wrong, and refused: the letters over the count; L over the letters.
pub fn write_list(count: u8, letters: &[u8], loose: u8, w: &mut Writer<'_>)
    requires { Room (list_lines count letters.now loose) w.old }
    ensures { Writes (list_lines count letters.now loose) w.old w.new }
{
    write_line(Word::Count, &[count], w);
    write_gates(letters, w);
    write_line(Word::Loose, &[loose], w);
}
