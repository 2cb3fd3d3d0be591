ghost use Rattle.std.specs.Prelude.{◌≡◌, ◌≤◌, length, IfSome, IfOk};
ghost use Rattle.seq_words.specs.Numbers.{value_from, number_in};
ghost use Rattle.seq_words.specs.Asked.{number_or};

use crate::command::{Opt, Words};

/// The number that at most ten digits spell.
#[tactic(auto, using(std::proofs::lemmas::List::drop_more))]
fn value(digits: &[u8]) -> Option<u64>
    requires { length digits.now ≤ 10 }
    ensures { result ≡ value_from 0 digits.now }
{
    let mut number = 0_u64;
    for digit in digits {
        if !digit.is_ascii_digit() {
            return None;
        }
        number = number * 10 + u64::from(*digit - b'0');
    }
    Some(number)
}

fn number(low: u64, high: u64, text: &str) -> Option<u64>
    ensures value { result ≡ number_in low high text.now }
    ensures limits { IfSome result (λ n. (low ≤ n) × (n ≤ high)) }
{
    let digits = text.as_bytes();
    if digits.is_empty() || digits.len() > 10 {
        return None;
    }
    match value(digits) {
        Some(number) if low <= number && number <= high => Some(number),
        _ => None,
    }
}

/// The number from `low` to `high` that a text spells in one to ten digits, or else that of `opt` is bad.
pub(crate) fn number_for(opt: Opt, low: u64, high: u64, text: &str) -> Result<u64, Words>
    ensures value { result ≡ number_or opt (number_in low high text.now) }
    ensures limits { IfOk result (λ n. (low ≤ n) × (n ≤ high)) }
{
    match number(low, high, text) {
        Some(number) => Ok(number),
        None => Err(Words::BadNumber(opt)),
    }
}
