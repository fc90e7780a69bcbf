// Checks that calls begin with, and the refusals that they answer with. The definitions of this crate say how a list of checks answers, what a lent buffer holds
// after bytes were written into it, whether two lists of bytes are equal, and what lists joined are.
#![tactic(auto)]

mod refusal;

ghost use Rattle.std.specs.Prelude.{◌≡◌, ◌+◌, ltb};

pub use refusal::{Refusal, number_of};

// Whether two numbers add up to more than the limit, also where their sum has more than 64 bits.
pub fn exceeds(limit: u64, a: u64, b: u64) -> bool
    ensures { result ≡ ltb limit (a + b) }
{
    a.checked_add(b).is_none_or(|sum| limit < sum)
}
