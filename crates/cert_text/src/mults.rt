ghost use Rattle.std.specs.Prelude.{◌≡◌, ◌≢◌, ◌≤ℤ◌, ◌≤◌, pos, int_lt, unsigned_abs, Ok, Err, IfOk, OnOk, All, ◌++◌, ◌∷◌, map};
ghost use Rattle.std.specs.List.{list_any};
ghost use Rattle.std.specs.Result.{result_map_both};
ghost use Rattle.cert_text.specs.Lines.{mult_of, is_far_pair, is_big, mults_of};
ghost use Rattle.cert_text.specs.Laws.Mults.{IsDue, IsFitting};

use crate::lines::{LineFault, Stop};
use crate::pairs::Pair;
use seq_model::Mult;
use std::alloc::{AllocError, Global};

fn is_far(pair: &Pair) -> bool
    ensures { result ≡ is_far_pair pair.now }
{
    pair.row > 4_294_967_295
}

fn is_big(pair: &Pair) -> bool
    ensures { result ≡ is_big pair.now }
{
    pair.times > 4_611_686_018_427_387_903
}

fn any_far(pairs: &[Pair]) -> bool
    ensures { result ≡ list_any is_far_pair pairs.now }
{
    for pair in pairs {
        if is_far(pair) {
            return true;
        }
    }
    false
}

fn any_big(pairs: &[Pair]) -> bool
    ensures { result ≡ list_any is_big pairs.now }
{
    for pair in pairs {
        if is_big(pair) {
            return true;
        }
    }
    false
}

fn mult(pair: &Pair) -> Mult
    requires { IsFitting pair.now }
    ensures { result ≡ mult_of pair.now }
{
    Mult {
        row: pair.row as u32,
        times: pair.times as i64,
    }
}

fn all_mults(alloc: Global, pairs: &[Pair]) -> Result<Vec<Mult>, AllocError>
    requires { All IsFitting pairs.now }
    ensures { IfOk result (λ mults. mults.items ≡ map mult_of pairs.now) }
{
    let mut mults = Vec::new(alloc);
    for pair in pairs {
        mults.push(mult(pair))?;
    }
    Ok(mults)
}

/// The multipliers of the pairs of a bound line.
pub(crate) fn mults_of_pairs(alloc: Global, pairs: &[Pair]) -> Result<Vec<Mult>, LineFault>
    requires { All IsDue pairs.now }
    ensures { result ≢ Err LineFault.NoMemory
        → result_map_both (λ m. m.items) (λ e. e) result
        ≡ result_map_both (λ m. m) LineFault.Stop (mults_of pairs.now) }
{
    if any_far(pairs) {
        return Err(LineFault::Stop(Stop::Range));
    }
    if any_big(pairs) {
        return Err(LineFault::Stop(Stop::Big));
    }
    match all_mults(alloc, pairs) {
        Ok(mults) => Ok(mults),
        Err(_) => Err(LineFault::NoMemory),
    }
}
