ghost use Rattle.std.specs.Prelude.{◌≡◌, ◌↔◌, ℕ, ◌+◌, ◌<◌, ◌^◌, ◌++◌, ◌∷◌, List, [], IsTrue, Contains, IfOk, OnOk, OnErr, length, slice_index_or, slice_set};
ghost use Rattle.std.specs.List.{range_with_len, swap_remove};
ghost use Rattle.row_dictionary.specs.Seen.{ArePlaces};
ghost use Rattle.row_dictionary.specs.Shrinking.{last_of};
ghost use Rattle.row_pivots.specs.Tables.{place_of};

use crate::making::range;
use std::alloc::{AllocError, Global};
use std::marker::Model;

/// The basic and the free variables at their places.
#[derive(Debug, Drop)]
pub struct Variables {
    basic: Vec<u32>,
    free: Vec<u32>,
    /// Of each variable and slack the place, among the basic or among the free ones.
    places: Vec<usize>,
}

impl Model for Variables {
    ghost use Rattle.row_dictionary.specs.Seen.{Standing, IsPlaced};

    ghost Value = { Standing };

    ghost view = { λ s. record { basic = s.basic.items; free = s.free.items } };

    ghost invariant = { λ s. IsPlaced s.places.items s.basic.items s.free.items };
}

impl Variables {
    /// The slacks are basic, and the variables free.
    pub fn of(alloc: Global, vars: u32, count: u32) -> Result<Variables, AllocError>
        requires { vars + count < 2 ^ 32 }
        ensures basic { IfOk result (λ v. v.basic ≡ range_with_len vars count) }
        ensures free { IfOk result (λ v. v.free ≡ range_with_len 0 vars) }
    {
        Ok(Variables {
            basic: range(alloc, vars, count)?,
            free: range(alloc, 0, vars)?,
            places: first_places(alloc, vars, count)?,
        })
    }

    pub fn basic(&self) -> &[u32]
        ensures { result.now ≡ self.now.basic }
    {
        self.basic.as_slice()
    }

    pub fn free(&self) -> &[u32]
        ensures { result.now ≡ self.now.free }
    {
        self.free.as_slice()
    }

    /// The place of a basic variable; their number where it isn't basic.
    pub fn basic_place(&self, z: u32) -> usize
        ensures { result ≡ place_of z self.now.basic }
    {
        kept_place(self.places.as_slice(), self.basic.as_slice(), z)
    }

    /// The place of a free variable; their number where it isn't free.
    pub fn free_place(&self, z: u32) -> usize
        ensures is { result ≡ place_of z self.now.free }
        ensures size { result < 2 ^ 63 }
    {
        kept_place(self.places.as_slice(), self.free.as_slice(), z)
    }

    pub fn is_basic(&self, z: u32) -> bool
        ensures { IsTrue result ↔ Contains self.now.basic z }
    {
        is_among(self.places.as_slice(), self.basic.as_slice(), z)
    }

    pub fn is_free(&self, z: u32) -> bool
        ensures { IsTrue result ↔ Contains self.now.free z }
    {
        is_among(self.places.as_slice(), self.free.as_slice(), z)
    }

    /// What stands at place r of the basic variables and what stands at place s of the free ones change places.
    pub fn exchange(&mut self, r: usize, s: usize)
        requires r { r < length self.old.basic }
        requires s { s < length self.old.free }
        ensures basic { self.new.basic ≡ slice_set self.old.basic r (slice_index_or self.old.free s 0) }
        ensures free { self.new.free ≡ slice_set self.old.free s (slice_index_or self.old.basic r 0) }
    {
        let out = self.basic[r];
        let into = self.free[s];
        self.basic[r] = into;
        self.free[s] = out;
        self.places[out as usize] = s;
        self.places[into as usize] = r;
    }

    /// The variable of the next number is basic, at the last place.
    pub fn grow(&mut self) -> Result<(), AllocError>
        requires { length self.old.basic + length self.old.free + 1 < 2 ^ 32 }
        ensures basic { OnOk result (self.new.basic
            ≡ self.old.basic ++ (length self.old.basic + length self.old.free) ∷ []) }
        ensures free { self.new.free ≡ self.old.free }
        ensures unchanged { OnErr result (self.new.basic ≡ self.old.basic) }
    {
        let next = self.basic.len() + self.free.len();
        self.basic.reserve(1)?;
        self.places.push(self.basic.len())?;
        self.basic.push(next as u32)?;
        Ok(())
    }

    /// The variable of the last number, which is basic, goes from its place, and the last basic one comes there.
    pub fn shrink(&mut self) -> usize
        requires { Contains self.old.basic (last_of self.old) }
        ensures place { result ≡ place_of (last_of self.old) self.old.basic }
        ensures inside { result < length self.old.basic }
        ensures basic { self.new.basic ≡ swap_remove self.old.basic result 0 }
        ensures free { self.new.free ≡ self.old.free }
    {
        let last = self.places.len() - 1;
        let at = self.places[last];
        self.places.truncate(last);
        self.basic.swap_remove(at);
        if at < self.basic.len() {
            let moved = self.basic[at];
            self.places[moved as usize] = at;
        }
        at
    }
}

/// Each variable stands at its own number, and each slack at that of its row.
fn first_places(alloc: Global, vars: u32, count: u32) -> Result<Vec<usize>, AllocError>
    ensures { IfOk result (λ list. list.items ≡ range_with_len 0 vars ++ range_with_len 0 count) }
{
    let mut list = Vec::with_capacity(alloc, vars as usize + count as usize)?;
    for z in 0..vars {
        list.push(z as usize)?;
    }
    for r in 0..count {
        list.push(r as usize)?;
    }
    Ok(list)
}

/// What is noted as the place of a variable, 0 where nothing is.
fn noted_place(places: &[usize], z: u32) -> usize
    ensures { result ≡ slice_index_or places.now z 0 }
{
    if z as usize >= places.len() {
        return 0;
    }
    places[z as usize]
}

fn stands_at(list: &[u32], at: usize, z: u32) -> bool
    ensures { IsTrue result ↔ (at < length list.now) × (slice_index_or list.now at 0 ≡ z) }
{
    at < list.len() && list[at] == z
}

/// The place of a variable in a list, the length of the list where it isn't in it.
fn kept_place(places: &[usize], list: &[u32], z: u32) -> usize
    requires { ArePlaces places.now list.now }
    ensures is { result ≡ place_of z list.now }
    ensures size { result < 2 ^ 63 }
{
    let at = noted_place(places, z);
    if stands_at(list, at, z) {
        return at;
    }
    list.len()
}

fn is_among(places: &[usize], list: &[u32], z: u32) -> bool
    requires { ArePlaces places.now list.now }
    ensures { IsTrue result ↔ Contains list.now z }
{
    stands_at(list, noted_place(places, z), z)
}
