ghost use Rattle.std.specs.Prelude.{◌≡◌, ◌<◌, ◌^◌, IfSome, unsigned_abs};
ghost use Rattle.std.specs.Option.{option_map};
ghost use Rattle.plan_text.specs.PlanText.{IsPlace};
ghost use Rattle.plan_text.specs.Lines.{first_named, state_line_at, object_at, numerator_at, place_at};

use crate::State;
use seq_model::Place;
use text_lines::{literal, whole};

// The first of the states whose line stands at the front.
fn first_named<'a>(states: &[State], bytes: &'a [u8]) -> Option<(State, &'a [u8])>
    ensures { option_map (λ x. (x.0, x.1.now)) result ≡ first_named states.now bytes.now }
{
    for state in states {
        if let Some(rest) = literal(bytes, state.line()) {
            return Some((*state, rest));
        }
    }
    None
}

/// The state whose line stands at the front, and the bytes after that line.
#[tactic(auto, unfolding(crate::specs::Lines::state_line_at))]
pub(crate) fn state_line(bytes: &[u8]) -> Option<(State, &[u8])>
    ensures { option_map (λ x. (x.0, x.1.now)) result ≡ state_line_at bytes.now }
{
    let states = [
        State::Found,
        State::Least,
        State::OpenBudget,
        State::OpenWide,
        State::NoPlan,
        State::UndecidedBudget,
        State::UndecidedWide,
    ];
    first_named(&states, bytes)
}

// An object number of 32 bits.
#[tactic(auto, unfolding(crate::specs::Lines::object_at))]
fn object(bytes: &[u8]) -> Option<(u32, &[u8])>
    ensures { option_map (λ x. (x.0, x.1.now)) result ≡ object_at bytes.now }
{
    let (n, rest) = whole(bytes)?;
    if n < 0 || n > 4_294_967_295 {
        return None;
    }
    Some((n as u32, rest))
}

// A numerator below 2^90 in size.
#[tactic(auto, unfolding(crate::specs::Lines::numerator_at))]
fn numerator(bytes: &[u8]) -> Option<(i128, &[u8])>
    ensures value { option_map (λ x. (x.0, x.1.now)) result ≡ numerator_at bytes.now }
    ensures small { IfSome result (λ x. unsigned_abs x.0 < 2 ^ 90) }
{
    let (n, rest) = whole(bytes)?;
    if n.unsigned_abs() >= 1 << 90 {
        return None;
    }
    Some((n, rest))
}

/// The place on a place line, and the bytes after that line.
#[tactic(auto, unfolding(crate::specs::Lines::place_at))]
pub(crate) fn place_line(bytes: &[u8]) -> Option<(Place, &[u8])>
    ensures value { option_map (λ x. (x.0, x.1.now)) result ≡ place_at bytes.now }
    ensures small { IfSome result (λ x. IsPlace x.0) }
{
    let rest = literal(bytes, b"place ")?;
    let (object, rest) = object(rest)?;
    let rest = literal(rest, b" ")?;
    let (x, rest) = numerator(rest)?;
    let rest = literal(rest, b" ")?;
    let (y, rest) = numerator(rest)?;
    let rest = literal(rest, b"\n")?;
    Some((Place { object, x, y }, rest))
}
