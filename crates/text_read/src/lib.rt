// Text read: decimal numbers, and what stands before a line feed. The contracts cite specs/Text.antt.

#![tactic(auto)]

ghost use Rattle.std.specs.Prelude.{◌≡◌};
ghost use Rattle.text_read.specs.Text.{capped, number_of, without_line_feed};

// The largest number that is read as itself.
pub const LARGEST_NUMBER: u64 = 1000000;

// A number, or the largest that is read as itself.
fn cap(n: u64) -> u64
    ensures { result ≡ capped n }
{
    n.min(LARGEST_NUMBER)
}

// A decimal number of any length. Digit by digit: `parse` of the library also takes a sign, and refuses a number too large for its type.
pub fn read_number(bytes: &[u8]) -> Option<u64>
    ensures { result ≡ number_of bytes.now }
{
    if bytes.is_empty() {
        return None;
    }
    let mut n = 0u64;
    for b in bytes {
        match *b {
            b'0'..=b'9' => n = cap(10 * n + (*b - b'0') as u64),
            _ => return None,
        }
    }
    Some(n)
}

// The bytes without one line feed at their very end.
pub fn without_line_feed(bytes: &[u8]) -> &[u8]
    ensures { result.now ≡ without_line_feed bytes.now }
{
    match bytes {
        [front @ .., b'\n'] => front,
        _ => bytes,
    }
}
