// Says how many CS states to order: the arguments are the count and the spoilage in thousandths, in decimal.

#![tactic(auto)]

ghost use Rattle.std.specs.Prelude.{◌≡◌, ◌&&◌, is_some, IfSome};
ghost use Rattle.order.specs.Order.{order_answer};
ghost use Rattle.text_read.specs.Text.{number_of};
ghost use Rattle.order_states.specs.Output.{answer_line, order_text};

use line::Word;
use std::env::{Env, FillError};
use std::io::Result;
use text::Writer;

// The line for two numbers, written in `out`.
fn order_line(t: u64, p: u64, out: &mut [u8; 32]) -> &[u8]
    ensures { result.now ≡ answer_line (order_answer t p) }
{
    match order::states_to_order(t, p) {
        Ok(states) => {
            let mut w = Writer::new(out);
            line::write_line(Word::Order, &[states], &mut w);
            w.written()
        }
        Err(refusal) => line::refused(refusal.number(), out),
    }
}

// The line for two arguments, if both are numbers.
fn answer<'a>(count: &[u8], spoilage: &[u8], out: &'a mut [u8; 32]) -> Option<&'a [u8]>
    ensures some { is_some result ≡ is_some (number_of count.now) && is_some (number_of spoilage.now) }
    ensures line { IfSome result (λ line. line.now ≡ order_text (number_of count.now) (number_of spoilage.now)) }
{
    let t = text_read::read_number(count)?;
    let p = text_read::read_number(spoilage)?;
    Some(order_line(t, p, out))
}

// An argument that is missing or longer than its buffer has no bytes here, and is no number.
fn main(rt: HostRuntime) -> Result<()> {
    let mut count = io::buffer();
    let n = rt.arg(1, &mut count).unwrap_or(0);
    let mut spoilage = io::buffer();
    let m = rt.arg(2, &mut spoilage).unwrap_or(0);
    let is_last = matches!(rt.arg(3, &mut []), Err(FillError::NotPresent));
    match answer(&count[..n], &spoilage[..m], &mut [0u8; 32]) {
        Some(line) if is_last => rt.write_all(line),
        _ => rt.eprintln("usage: order_states T P"),
    }
}
