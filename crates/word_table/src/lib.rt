// The tables of words, and the word of a Clifford written from them. The contracts cite the definitions of `word` and `word_code`.

#![tactic(auto)]

ghost use Rattle.std.specs.Prelude.{[], map, ◌≡◌, ◌+◌, ◌<◌, get_or};
ghost use Rattle.text.specs.Writer.{RoomFor};
ghost use Rattle.word.specs.Word.{part_words, rotation_words, on_second, rotations_of, parts_of, clifford_word, word_sign};
ghost use Rattle.word_code.specs.Code.{encoded};
ghost use Rattle.word_code.specs.Writer.{WritesWord};

use text::Writer;

// The tables of specs/Word.antt of `word`. A word is a number; its letters are octal digits, the first one lowest: 1 to 6 for H, h, S, s, Z, C.
const ROTATIONS: [u64; 36] = [
    0, 0, 0o131, 0, 0o1331, 0o313, 0o13313, 0, 0o3331, 0o3, 0, 0o3133, 0o13, 0o133, 0, 0o3131, 0o1,
    0, 0, 0o331331, 0o33313, 0, 0o33, 0o33131, 0o333, 0, 0o133131, 0o31331, 0, 0o31, 0o333131,
    0o331, 0, 0o3313, 0o33133, 0,
];

const PARTS: [u64; 16] = [
    0o5215215, 0o15215, 0o35215, 0o15, 0o5215, 0o315, 0o5, 0, 0, 0, 0o42, 0, 0o2, 0o4, 0o2, 0,
];

// The number of a rotation, on the first qubit.
fn rotation_code(row: usize) -> u64
    requires { row < 36 }
    ensures { result ≡ encoded (get_or rotation_words row []) }
{
    ROTATIONS[row]
}

// The number of the same rotation on the second qubit: h and s have the digits after those of H and S, which are odd.
fn second_rotation_code(row: usize) -> u64
    requires { row < 36 }
    ensures { result ≡ encoded (map on_second (get_or rotation_words row [])) }
{
    let code = rotation_code(row);
    code + (code & 0o111111)
}

// The number of a part.
fn part_code(part: usize) -> u64
    requires { part < 16 }
    ensures { result ≡ encoded (get_or part_words part []) }
{
    PARTS[part]
}

// Writes both rotations.
fn write_rotations(even: bool, local: [u8; 6], writer: &mut Writer<'_>)
    requires { RoomFor 24 writer.old }
    ensures { WritesWord (rotations_of even local) writer.old writer.new }
{
    let first = decomposition::rotation_row(even, local[0], local[1]);
    let second = decomposition::rotation_row(even, local[3], local[4]);
    word_code::write_code(rotation_code(first), writer);
    word_code::write_code(second_rotation_code(second), writer);
}

// Writes both parts.
fn write_parts(columns: [u8; 6], writer: &mut Writer<'_>)
    requires { RoomFor 25 writer.old }
    ensures { WritesWord (parts_of columns) writer.old writer.new }
{
    let first = decomposition::low_bits(columns, 0);
    let second = 8 + decomposition::low_bits(columns, 3);
    word_code::write_code(part_code(first), writer);
    word_code::write_code(part_code(second), writer);
}

// Writes the word of a Clifford and answers its sign; the rest of the buffer stays.
// Wrong, and refused: the sign 0, or 1, for every Clifford; ZZZ in place of Z.
pub fn write_clifford(columns: [u8; 6], writer: &mut Writer<'_>) -> u8
    requires { RoomFor 37 writer.old }
    ensures { WritesWord (clifford_word columns) writer.old writer.new × (result ≡ word_sign columns) }
{
    let local = decomposition::local_columns(columns);
    let even = decomposition::is_even(local[0], local[1], local[2]);
    write_rotations(even, local, writer);
    write_parts(columns, writer);
    !even as u8
}
