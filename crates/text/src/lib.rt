// Text written into a lent buffer: bytes, decimal numbers, a line of a word and numbers. The contracts cite specs/Text.antt and specs/Writer.antt.

#![tactic(auto)]

ghost use Rattle.std.specs.Prelude.{[], ◌∷◌, ◌≡◌, ◌≤◌, length, take};
ghost use Rattle.text.specs.Text.{decimal, spaced, line};
ghost use Rattle.text.specs.Writer.{Begins, Room, Writes};

use itoa::Buffer;

// A lent buffer and the place in it where the next byte is written.
#[derive(Drop)]
pub struct Writer<'a> {
    pub out: &'a mut [u8],
    pub at: usize,
}

impl<'a> Writer<'a> {
    // At the front of a buffer.
    // Wrong, and refused: behind its first place; at its end.
    pub fn new(out: &'a mut [u8]) -> Writer<'a>
        ensures { Begins out.entry result }
    {
        Writer { out, at: 0 }
    }

    // The bytes that were written.
    // Wrong, and refused: all but the last one; one more.
    pub fn written(self) -> &'a [u8]
        requires { self.at ≤ length self.out.now }
        ensures { result.now ≡ take self.entry.at self.entry.out.now }
    {
        let Writer { out, at } = self;
        &out[..at]
    }

    // One byte.
    // Wrong, and refused: each at the place of the one before; without its highest bit.
    pub fn byte(&mut self, b: u8)
        requires { Room (b ∷ []) self.old }
        ensures { Writes (b ∷ []) self.old self.new }
    {
        self.out[self.at] = b;
        self.at += 1;
    }

    // Bytes as they are. One after the other, for the compiler makes more of that than of `copy_from_slice`, with which a bundle takes twice the
    // instructions.
    // Wrong, and refused: the first one for each; the last one left out.
    pub fn bytes(&mut self, bytes: &[u8])
        requires { Room bytes.now self.old }
        ensures { Writes bytes.now self.old self.new }
    {
        for &b in bytes {
            self.byte(b);
        }
    }

    // A number in decimal.
    // Wrong, and refused: the number that is one less.
    pub fn decimal(&mut self, n: u8)
        requires { Room (decimal n) self.old }
        ensures { Writes (decimal n) self.old self.new }
    {
        self.bytes(Buffer::new().format(n).as_bytes());
    }

    // A space and a number in decimal.
    fn after_space(&mut self, n: u8)
        requires { Room (32 ∷ decimal n) self.old }
        ensures { Writes (32 ∷ decimal n) self.old self.new }
    {
        self.byte(b' ');
        self.decimal(n);
    }

    // Numbers in decimal, a space before each.
    fn spaced(&mut self, numbers: &[u8])
        requires { Room (spaced numbers.now) self.old }
        ensures { Writes (spaced numbers.now) self.old self.new }
    {
        for n in numbers {
            self.after_space(*n);
        }
    }

    // A line of a word and numbers.
    // Wrong, and refused: a space at its end.
    pub fn line(&mut self, word: &[u8], numbers: &[u8])
        requires { Room (line word.now numbers.now) self.old }
        ensures { Writes (line word.now numbers.now) self.old self.new }
    {
        self.bytes(word);
        self.spaced(numbers);
        self.byte(b'\n');
    }
}
