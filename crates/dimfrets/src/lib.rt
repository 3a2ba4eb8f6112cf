// The calls for programs in other languages (include/dimfrets.h). The contracts are those of the calls, through
// the words of `answer_word`; wrong, and refused there: the count in the bits of a length, a value beside a refusal, a refusal
// beside the number of bytes written. An input and an output each, as C hands them over.

#![tactic(auto)]

ghost use Rattle.gate.specs.Promise.{ProductPromise};
ghost use Rattle.operator.specs.Promise.{SheetPromise, GatesPromise};
ghost use Rattle.unitary_gates.specs.Promise.{UnitaryPromise};
ghost use Rattle.order.specs.Order.{order_answer};
ghost use Rattle.sheet.specs.Promise.{OperatorPromise};
ghost use Rattle.bundle.specs.Bundle.{part_of};
ghost use Rattle.bundle_write.specs.Writing.{BundlePromise};
ghost use Rattle.qasm.specs.Promise.{TextPromise, LettersPromise};
ghost use Rattle.layer.specs.Promise.{LayerPromise};
ghost use Rattle.answer_word.specs.Encoding.{answer_parts, cuts_parts, listed_parts, synthesis_parts, part_parts, WordOf, Encodes};

// An operator file into a sheet.
#[unsafe(no_mangle)]
pub extern "C" fn dimfrets_operator_to_sheet(input: &[u8], output: &mut [u8]) -> u64
    ensures { Encodes cuts_parts (SheetPromise input.now output.old output.new) result }
{
    let answer = operator::operator_to_sheet(input, output);
    answer_word::encode(answer)
}

// An operator file into a gate list.
#[unsafe(no_mangle)]
pub extern "C" fn dimfrets_operator_to_gates(input: &[u8], output: &mut [u8]) -> u64
    ensures { Encodes listed_parts (GatesPromise input.now output.old output.new) result }
{
    let answer = operator::operator_to_gates(input, output);
    answer_word::encode(answer)
}

// A unitary into a gate list.
#[unsafe(no_mangle)]
pub extern "C" fn dimfrets_unitary_to_gates(input: &[u8], output: &mut [u8]) -> u64
    ensures { Encodes synthesis_parts (UnitaryPromise input.now output.old output.new) result }
{
    let answer = unitary_gates::unitary_to_gates(input, output);
    answer_word::encode(answer)
}

// A gate list into an operator file.
#[unsafe(no_mangle)]
pub extern "C" fn dimfrets_gates_to_operator(input: &[u8], output: &mut [u8]) -> u64
    ensures { Encodes answer_parts (ProductPromise input.now output.old output.new) result }
{
    let answer = gate::gates_to_operator(input, output);
    answer_word::encode(answer)
}

// A sheet into an operator file.
#[unsafe(no_mangle)]
pub extern "C" fn dimfrets_sheet_to_operator(input: &[u8], output: &mut [u8]) -> u64
    ensures { Encodes answer_parts (OperatorPromise input.now output.old output.new) result }
{
    let answer = sheet::sheet_to_operator(input, output);
    answer_word::encode(answer)
}

// Where a sheet stands in a bundle.
// Wrong, and refused: the first sheet, whichever is asked for; the sheet of half the number.
#[unsafe(no_mangle)]
pub extern "C" fn dimfrets_bundle_sheet(input: &[u8], n: u64) -> u64
    ensures { WordOf (part_parts (part_of input.now n)) result }
{
    let part = bundle::bundle_part(input, n);
    answer_word::encode(part)
}

// Sheets that are stored end to end into a bundle.
#[unsafe(no_mangle)]
pub extern "C" fn dimfrets_sheets_to_bundle(input: &[u8], output: &mut [u8]) -> u64
    ensures { Encodes answer_parts (BundlePromise input.now output.old output.new) result }
{
    let answer = bundle_write::sheets_to_bundle(input, output);
    answer_word::encode(answer)
}

// A gate list into OpenQASM 2.0 text.
#[unsafe(no_mangle)]
pub extern "C" fn dimfrets_gates_to_qasm(input: &[u8], output: &mut [u8]) -> u64
    ensures { Encodes answer_parts (TextPromise input.now output.old output.new) result }
{
    let answer = qasm::gates_to_qasm(input, output);
    answer_word::encode(answer)
}

// OpenQASM 2.0 text into a gate list.
#[unsafe(no_mangle)]
pub extern "C" fn dimfrets_qasm_to_gates(input: &[u8], output: &mut [u8]) -> u64
    ensures { Encodes answer_parts (LettersPromise input.now output.old output.new) result }
{
    let answer = qasm_read::qasm_to_gates(input, output);
    answer_word::encode(answer)
}

// The blocks of a program into their layers.
#[unsafe(no_mangle)]
pub extern "C" fn dimfrets_blocks_to_layers(input: &[u8], output: &mut [u8]) -> u64
    ensures { Encodes answer_parts (LayerPromise input.now output.old output.new) result }
{
    let answer = layer::blocks_to_layers(input, output);
    answer_word::encode(answer)
}

// The number of CS states to order.
// Wrong, and refused: the count and the spoilage exchanged; the figure in the bits of a length.
#[unsafe(no_mangle)]
pub extern "C" fn dimfrets_states_to_order(t: u64, p: u64) -> u64
    ensures { WordOf (answer_parts (order_answer t p)) result }
{
    let answer = order::states_to_order(t, p);
    answer_word::encode(answer)
}
