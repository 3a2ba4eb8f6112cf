// The refusals of the calls. The contracts cite specs/Refusal.antt.

#![tactic(auto)]

ghost use Rattle.std.specs.Prelude.{◌≡◌, ◌≤◌};
ghost use Rattle.refusal.specs.Refusal.{number};

use std::error::Error;
use std::fmt;

// Why a call hands nothing out. The words are those of documents 01 and 02, the numbers theirs.
#[derive(Clone, Copy, Debug, PartialEq, Eq)]
pub enum Refusal {
    // "the length is wrong" of an operator file
    FileLength = 1,
    // the exponent is above the largest of a file of that length
    FileExponent = 2,
    // "an entry whose square exceeds 2 to the power k"
    Entry = 3,
    NotOrthogonal = 4,
    // "orthogonal, not proper"
    NotProper = 5,
    // the lent buffer is shorter than what is to be written
    Buffer = 6,
    // more letters than a gate list may have
    ListLength = 7,
    // "a byte that is no letter of the table"
    Letter = 8,
    // "a beginning of the list whose product has a least exponent above" the largest
    ProductExponent = 9,
    SheetLength = 10,
    // "a generator byte outside 1 to 15, or a column byte outside 1 to 6 and 129 to 134"
    SheetByte = 11,
    // "the six columns are no Clifford"
    NotClifford = 12,
    // "cutting its operator gives another sheet"
    NotCanonical = 13,
    // a count or a spoilage above its limit
    Order = 14,
    // "a last byte above 1 or a negative column 1"
    SheetSign = 15,
    // "a first byte that isn't the length plus 56"
    SheetCount = 16,
    // "wrong length or k above" the largest, of a unitary
    UnitaryLength = 17,
    // "an entry whose squared size exceeds 2 to the power k"
    UnitaryEntry = 18,
    NotUnitary = 19,
    // "no trailer of a fitting length or more than 512"
    Trailer = 20,
    // "a sheet's first byte below 64, offsets that don't follow the sheets, or sheets that don't end where the trailer starts"
    Offsets = 21,
    // "no sheet n"
    SheetNumber = 22,
    // a line of OpenQASM text that is none of those read
    Line = 23,
    // a length that is no number of whole blocks, or "more than 64 blocks"
    ProgramLength = 24,
    // "a qubit above 31 or a block that names one qubit twice"
    Qubits = 25,
}

impl Refusal {
    // The number that documents 01 and 02 give a refusal.
    // Wrong, and refused: the number of the refusal before; 0 for one of them.
    pub fn number(self) -> u8
        ensures { (result ≡ number self) × (1 ≤ result) }
    {
        self as u8
    }
}

impl fmt::Display for Refusal {
    fn fmt<W: fmt::Write>(&self, f: &mut fmt::Formatter<W>) -> fmt::Result {
        write!(f, "refused {}", self.number())
    }
}

impl Error for Refusal {}
