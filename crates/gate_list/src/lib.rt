// The gate list of a normal form, written. The contracts cite specs/List.antt and specs/Stretches.antt.

#![tactic(auto)]

ghost use Rattle.std.specs.Prelude.{◌≡◌, true, ◌+◌, ◌*◌, ◌≤◌, length};
ghost use Rattle.clifford.specs.Columns.{are_column_bytes};
ghost use Rattle.reduction.specs.Laws.NormalForm.{Numbers};
ghost use Rattle.reduction.specs.Taken.{numbers_in};
ghost use Rattle.letter.specs.Written.{Written};
ghost use Rattle.text.specs.Writer.{RoomFor};
ghost use Rattle.word_code.specs.Writer.{WritesWord};
ghost use Rattle.gate_list.specs.List.{right_of, stretch, stretch_sign, gate_list, list_sign};
ghost use Rattle.gate_list.specs.Stretches.{stretch_codes};

use reduction::Cut;
use text::Writer;

// The stretch before generator h, where g is the generator before it, with the C of h: number 15 × (g − 1) + (h − 1), as `word_code` has words. Its
// sign stands above the letters: the octal digit 16.
const STRETCHES: [u64; 225] = [
    0o6,
    0o6442,
    0o624,
    0o10000064244233131,
    0o10000064424433131,
    0o10000006424233131,
    0o63331,
    0o10000623154433131,
    0o10000000623154433,
    0o10000064424433133,
    0o62315244131,
    0o642315244,
    0o6243331,
    0o10642315442433131,
    0o62315242131,
    0o624,
    0o6444,
    0o64442,
    0o10000064424233131,
    0o10000064244233131,
    0o10000006424433131,
    0o6243331,
    0o10062315442433131,
    0o10000062315442433,
    0o10000064244233133,
    0o6231524424131,
    0o64231524424,
    0o644423331,
    0o10006423154233131,
    0o62315244131,
    0o64442,
    0o644424,
    0o6,
    0o10000064424433131,
    0o10000064424233131,
    0o10000006244233131,
    0o644423331,
    0o10000623154233131,
    0o10000000623154233,
    0o10000064424233133,
    0o62315242131,
    0o642315242,
    0o63331,
    0o10006423154433131,
    0o6231524424131,
    0o10000644244233131,
    0o10000000624433131,
    0o10000006442433131,
    0o6444,
    0o62,
    0o6444242,
    0o10000644244233133,
    0o623152442,
    0o623152442131,
    0o623331,
    0o10000006231544233,
    0o10064231544233131,
    0o10000006442433133,
    0o64231524,
    0o10000623154424233,
    0o10000064424433131,
    0o10000006244233131,
    0o10000064424233131,
    0o64442,
    0o6,
    0o644424,
    0o10000064424433133,
    0o62315244,
    0o62315244131,
    0o63331,
    0o10000000623154433,
    0o10006423154433131,
    0o10000064424233133,
    0o642315242,
    0o10000062315442433,
    0o10000064424233131,
    0o10000006424433131,
    0o10000064244233131,
    0o624,
    0o64442,
    0o6444,
    0o10000064424233133,
    0o62315242,
    0o62315242131,
    0o644423331,
    0o10000000623154233,
    0o10006423154233131,
    0o10000064244233133,
    0o64231524424,
    0o10000000623154433,
    0o613,
    0o644213,
    0o62413,
    0o10000064244233133,
    0o10000064424433133,
    0o10000006424233133,
    0o6,
    0o10000623154433133,
    0o10000062315443313,
    0o10000064424431331,
    0o62315244133,
    0o64231524413,
    0o624,
    0o10642315442433133,
    0o62315242133,
    0o6315444242131,
    0o10062315442433131,
    0o62315242131,
    0o6544424333131,
    0o62524333131,
    0o10000625442423131,
    0o10000061542423313,
    0o6444,
    0o10000000625442423,
    0o10006231544243313,
    0o10006423154233131,
    0o6252152441331,
    0o10006215442423313,
    0o6231524424131,
    0o6315442442131,
    0o65442333131,
    0o10000625442443131,
    0o6254442333131,
    0o6315244242131,
    0o62315244131,
    0o10000623154233131,
    0o10000000631523313,
    0o6254442333,
    0o6,
    0o10006215442443313,
    0o10625215442433313,
    0o62315242131,
    0o10000062315423313,
    0o625215244241331,
    0o10006452154331331,
    0o10000006442443313,
    0o10000000624423313,
    0o10000006442423313,
    0o644421,
    0o61,
    0o6444241,
    0o10000644244331331,
    0o623152441,
    0o6231524413,
    0o6333,
    0o10000006231544331,
    0o10000642315443313,
    0o10000644242331331,
    0o6423152421,
    0o10000623154424331,
    0o62315244131,
    0o631544244131,
    0o10006423154233131,
    0o10006425442443131,
    0o65442333131,
    0o10000642542443131,
    0o10006215442443313,
    0o10064231542433131,
    0o10625215442433313,
    0o10000000631523313,
    0o6,
    0o64254442333,
    0o64215444213,
    0o6315442442131,
    0o10006423154433131,
    0o6252333131,
    0o65442333131,
    0o10000642542443131,
    0o10064231544233131,
    0o631544244131,
    0o10006423154233131,
    0o10000623154423313,
    0o62521524131,
    0o16423154424233131,
    0o10000006152443313,
    0o10000000062542443,
    0o6444,
    0o64231524424213,
    0o10000652154331331,
    0o10000625215433313,
    0o6444213,
    0o64442413,
    0o613,
    0o10000064424433133,
    0o10000064424233133,
    0o10000006244233133,
    0o64442,
    0o10000623154233133,
    0o10000062315423313,
    0o10000064424231331,
    0o62315242133,
    0o64231524213,
    0o6,
    0o10006423154433133,
    0o6231524424133,
    0o10064231544233131,
    0o10006423154233131,
    0o631544244131,
    0o6252333131,
    0o10000642542443131,
    0o65442333131,
    0o64215213,
    0o63154424131,
    0o16452154242331331,
    0o64231524424213,
    0o631524424131,
    0o10000652154331331,
    0o10000006152443313,
    0o6444,
    0o6242,
    0o10006423154233131,
    0o10000642315233131,
    0o6315244242131,
    0o6254442333131,
    0o10006425442443131,
    0o6542333131,
    0o64215444213,
    0o631542442131,
    0o10006452154331331,
    0o64231524413,
    0o6315444242131,
    0o10652154424331331,
    0o10000061542443313,
    0o624,
    0o6,
];

// The place of the sign, which shares a number with the letters: a second table would be laid out beside this one (docs/DECISIONS.md).
const SIGN: u64 = 0o10000000000000000;

// The columns of the Clifford on the right of CS in each generator.
const RIGHTS: [[u8; 6]; 15] = [
    [1, 2, 3, 6, 4, 5],
    [1, 2, 3, 5, 6, 4],
    [1, 2, 3, 4, 5, 6],
    [1, 3, 2, 6, 4, 133],
    [1, 3, 2, 4, 6, 5],
    [1, 3, 2, 5, 4, 6],
    [3, 1, 2, 6, 4, 5],
    [1, 5, 3, 2, 4, 6],
    [1, 3, 4, 2, 5, 6],
    [3, 1, 130, 4, 6, 5],
    [1, 4, 3, 5, 2, 6],
    [1, 3, 4, 133, 2, 6],
    [3, 1, 2, 4, 5, 6],
    [1, 4, 3, 133, 6, 2],
    [1, 4, 3, 6, 5, 2],
];

// The table of stretches, which a list names once for all of them.
// Wrong, and refused: a stretch that ends with ZZ in place of its sign; a sign left out; ZZ in a stretch that needs none, and its sign turned.
fn stretch_codes() -> [u64; 225]
    ensures { result ≡ stretch_codes }
{
    STRETCHES
}

// The columns of the Clifford on the right of CS in generator g.
fn right_of(g: usize) -> [u8; 6]
    requires { (1 ≤ g) × (g ≤ 15) }
    ensures { result ≡ right_of g }
{
    RIGHTS[g - 1]
}

// Writes the stretch between generators g and h, and the C of h, and answers its sign.
// Wrong, and refused: the sign taken for a letter; the sign 0 for every stretch.
fn write_stretch(codes: &[u64; 225], g: usize, h: usize, writer: &mut Writer<'_>) -> u8
    requires { (1 ≤ g) × (g ≤ 15) × (1 ≤ h) × (h ≤ 15) × RoomFor 16 writer.old × (codes.now ≡ stretch_codes) }
    ensures { WritesWord (stretch (right_of g) h) writer.old writer.new × (result ≡ stretch_sign (right_of g) h) }
{
    let code = codes[(g - 1) * 15 + (h - 1)];
    word_code::write_code(code % SIGN, writer);
    (code / SIGN) as u8
}

// The number of CS itself: a generator between two identities, so that the first stretch of a list may stand behind it.
const CS: usize = 3;

// How many letters a list that is written has, and its sign.
#[derive(Clone, Copy, Debug, PartialEq, Eq)]
pub struct List {
    pub letters: usize,
    pub sign: u8,
}

// Writes the gate list of a normal form to the front of `out`. Two stretches with sign 1 make a list of sign 0.
// Wrong, and refused: the sign 0 for every list; the sign of the last stretch alone; how many stretches have the sign 1, and not whether that is odd.
pub fn write_list(cut: &Cut, out: &mut [u8]) -> List
    requires { Numbers (numbers_in cut.now) × (are_column_bytes cut.now.columns ≡ true) × (256 * (cut.now.count + 1) ≤ length out.old) }
    ensures { Written (gate_list (numbers_in cut.now) cut.now.columns) 0 out.old out.new result.letters × (result.sign ≡ list_sign (numbers_in cut.now) cut.now.columns) }
{
    let codes = stretch_codes();
    let mut writer = Writer::new(out);
    let mut before = CS;
    let mut signs = 0u8;
    for number in &cut.numbers[..cut.count as usize] {
        let g = *number as usize;
        signs += write_stretch(&codes, before, g, &mut writer);
        before = g;
    }
    let last = letter::compose(right_of(before), cut.columns);
    let sign = word_table::write_clifford(last, &mut writer);
    List {
        letters: writer.at,
        sign: (signs + sign) % 2,
    }
}
