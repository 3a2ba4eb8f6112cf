// Operator files taken in: refusals 1 to 5, and the normal form of an accepted operator. The contracts cite specs/.

#![tactic(auto)]

ghost use Rattle.std.specs.Prelude.{◌≤◌, ◌^◌};
ghost use Rattle.refusal.specs.Refusal.{numbered};
ghost use Rattle.matrix.specs.Matrix.{entry};
ghost use Rattle.matrix.specs.Operator.{Orthogonal};
ghost use Rattle.matrix.specs.Array.{Bounded, operator_of};
ghost use Rattle.acceptance.specs.Acceptance.{entries_refusal};
ghost use Rattle.acceptance.specs.Cutting.{CutFrom, CutAs, CutOf};

use matrix::Scaled;
use reduction::Cut;
use refusal::Refusal;

// The normal form of an orthogonal operator.
pub fn cut_orthogonal(operator: &Scaled) -> Cut
    requires { (operator.now.exponent ≤ 60) × Orthogonal (operator_of operator.now) }
    ensures { CutFrom operator.now.exponent operator.now.matrix result }
{
    let normal = reduction::normal_form(*operator);
    let numbers = normal.numbers;
    let columns = clifford::columns_of(normal.matrix);
    Cut {
        count: normal.count,
        loose: normal.loose,
        numbers,
        columns,
    }
}

// The normal form of an operator, or the refusal for its entries.
fn cut_operator(operator: &Scaled) -> Result<Cut, Refusal>
    requires { (operator.now.exponent ≤ 60) × Bounded (2 ^ 31) (entry operator.now.matrix) }
    ensures { CutAs (entries_refusal (operator_of operator.now)) operator.now.exponent operator.now.matrix (numbered result) }
{
    if !orthogonality::is_within(operator) {
        return Err(Refusal::Entry);
    }
    if !orthogonality::is_orthogonal(operator) {
        return Err(Refusal::NotOrthogonal);
    }
    let cut = cut_orthogonal(operator);
    if !sign::is_even(cut.columns) {
        return Err(Refusal::NotProper);
    }
    Ok(cut)
}

// The normal form of an operator file's operator, or the file's refusal.
pub fn cut_file(bytes: &[u8]) -> Result<Cut, Refusal>
    ensures { CutOf bytes.now (numbered result) }
{
    if !file::is_length(bytes.len()) {
        return Err(Refusal::FileLength);
    }
    let exponent = bytes[0];
    if file::largest_exponent(bytes.len()) < exponent {
        return Err(Refusal::FileExponent);
    }
    let matrix = file::decode(bytes);
    cut_operator(&Scaled { exponent, matrix })
}
