// States to order. The contracts cite specs/Order.antt.

#![tactic(auto)]

ghost use Rattle.std.specs.Prelude.{◌≡◌};
ghost use Rattle.refusal.specs.Refusal.{numbered};
ghost use Rattle.order.specs.Order.{nearest, order_answer};

use refusal::Refusal;

// The largest spoilage, in thousandths.
pub const LARGEST_SPOILAGE: u64 = 1000;

// A state, and half of one, in thousandths.
const STATE: u64 = 1000;

const HALF: u64 = 500;

// So many thousandths as whole states: the nearest, and of an exact half the even one.
// Wrong, and refused: rounded up; an exact half rounded up; an exact half rounded down; a half over an odd number dropped.
fn whole_states(thousandths: u64) -> u64
    ensures { result ≡ nearest thousandths }
{
    let whole = thousandths / STATE;
    let rest = thousandths % STATE;
    if HALF < rest {
        return whole + 1;
    }
    if rest < HALF {
        return whole;
    }
    whole + whole % 2
}

// How many CS states to order for a circuit of t CS gates, where p thousandths of them spoil.
// Wrong, and refused: a spoilage of 1000 turned away; the states that spoil without those that are used.
pub fn states_to_order(t: u64, p: u64) -> Result<u8, Refusal>
    ensures { numbered result ≡ order_answer t p }
{
    if (file::LARGEST_EXPONENT as u64) < t || LARGEST_SPOILAGE < p {
        return Err(Refusal::Order);
    }
    let states = t + whole_states(t * p);
    Ok(states as u8)
}
