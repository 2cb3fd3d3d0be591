ghost use Rattle.std.specs.Prelude.{◌≡◌, ◌^◌, ◌<◌, ◌≤◌, ◌+◌, ◌↔◌, ℕ, Some, IsSome, IsTrue, string_bytes, length, take, drop, vec_len, IfOk, is_err, true, false};
ghost use Rattle.std.specs.Io.{ReadsAtMost};
ghost use Rattle.std.specs.Io.KnownBytes.{Consumes, IsAtEnd, ReadConsumes};
ghost use Rattle.seq_io.specs.Counts.{Counted, raised};
ghost use Rattle.seq_io.specs.Files.{StartsFile, GivesFile, LongerThan};
ghost use Rattle.seq_io.specs.Views.{ShelfView};

use crate::Failed;
use std::alloc::Global;

/// The most bytes that one read is given room for.
const PIECE: usize = 64 * 1024;

/// Why a file wasn't read.
#[derive(Clone, Copy, Debug, PartialEq, Eq)]
pub enum ReadAll {
    ReadFault,
    TooLong,
    NoMemory,
}

/// Files by name, of which one at a time is read.
pub trait Shelf {
    /// Its files, the file that was started last, how many were started, and how many calls failed.
    ghost shows: { Self → ShelfView };

    /// Begins the first file of that name. Where none has it, nothing is left to read.
    fn start(&mut self, name: String) -> Result<(), Failed>
        ensures files { (shows self.new).files ≡ (shows self.old).files }
        ensures started { StartsFile (shows self.old).files (string_bytes name)
            (shows self.new).rest result }
        ensures named { (shows self.new).named ≡ Some (string_bytes name) }
        ensures starts { (shows self.new).starts ≡ raised true (shows self.old).starts }
        ensures broken { (shows self.new).broken ≡ is_err result }
        ensures count { Counted (is_err result) (shows self.old).faults (shows self.new).faults };

    /// Gives the next bytes of the file, and how many. None for a buffer with room is its end.
    fn read(&mut self, buf: &mut [u8]) -> Result<usize, Failed>
        ensures bound { ReadsAtMost result buf.new }
        ensures files { (shows self.new).files ≡ (shows self.old).files }
        ensures bytes { ReadConsumes (shows self.old).rest (shows self.new).rest result buf.new }
        ensures named { (shows self.new).named ≡ (shows self.old).named }
        ensures starts { (shows self.new).starts ≡ (shows self.old).starts }
        ensures broken { (shows self.new).broken ≡ is_err result }
        ensures count { Counted (is_err result) (shows self.old).faults (shows self.new).faults };

    /// What is left is told where the files are.
    ghost told: { (s : Self) → IsSome (shows s).files → IsSome (shows s).rest };
}

/// The bytes of the first file of that name, if they are at most `limit`.
///
/// It starts no other file, stops at the first byte past the limit, since each read but the last gives a byte, and the
/// first call that fails ends it.
pub fn read_all<S: Shelf>(
    alloc: Global,
    shelf: &mut S,
    name: String,
    limit: usize,
) -> Result<Vec<u8>, ReadAll>
    ensures bytes { IfOk result
        (λ v. GivesFile (S.shows shelf.old).files (string_bytes name) v.items) }
    ensures within { IfOk result (λ v. vec_len v ≤ limit) }
    ensures too_long { result ≡ Err ReadAll.TooLong
        → LongerThan limit (S.shows shelf.old).files (string_bytes name) }

    // One failed call of the shelf is answered as a fault, and nothing else is; no other call failed.
    ensures broken { IsTrue (S.shows shelf.new).broken ↔ (result ≡ Err ReadAll.ReadFault) }
    ensures count { Counted (S.shows shelf.new).broken
        (S.shows shelf.old).faults (S.shows shelf.new).faults }

    ensures named { (S.shows shelf.new).named ≡ Some (string_bytes name) }
    ensures starts { (S.shows shelf.new).starts ≡ raised true (S.shows shelf.old).starts }
    ensures files { (S.shows shelf.new).files ≡ (S.shows shelf.old).files }
{
    if shelf.start(name).is_err() {
        return Err(ReadAll::ReadFault);
    }
    let mut bytes = Vec::new(alloc);
    let mut filled = 0;
    loop {
        let count = read_piece(shelf, &mut bytes, filled, limit)?;
        filled += count;
        if filled > limit {
            return Err(ReadAll::TooLong);
        }
        if count == 0 {
            bytes.truncate(filled);
            return Ok(bytes);
        }
    }
}

// Reads behind the first `filled` bytes, into room for a piece, or for one byte more than `limit` in all.
fn read_piece<S: Shelf>(
    shelf: &mut S,
    bytes: &mut Vec<u8>,
    filled: usize,
    limit: usize,
) -> Result<usize, ReadAll>
    requires filled { filled ≤ vec_len bytes.old }
    requires within { filled ≤ limit }
    requires whole { (S.shows shelf.old).broken ≡ false }

    // What was read stays, and behind it stand the next bytes of the file, none only at its end.
    ensures front { take filled bytes.new.items ≡ take filled bytes.old.items }
    ensures fits { IfOk result (λ n. filled + n ≤ vec_len bytes.new) }
    ensures read { IfOk result (λ n. Consumes (S.shows shelf.old).rest (S.shows shelf.new).rest
        (take n (drop filled bytes.new.items))) }
    ensures end { IfOk result (λ n. n ≡ 0 → IsAtEnd (S.shows shelf.new).rest) }

    ensures broken { IsTrue (S.shows shelf.new).broken ↔ (result ≡ Err ReadAll.ReadFault) }
    ensures count { Counted (S.shows shelf.new).broken
        (S.shows shelf.old).faults (S.shows shelf.new).faults }
    ensures short { result ≡ Err ReadAll.TooLong → ⊥ }
    ensures named { (S.shows shelf.new).named ≡ (S.shows shelf.old).named }
    ensures starts { (S.shows shelf.new).starts ≡ (S.shows shelf.old).starts }
    ensures files { (S.shows shelf.new).files ≡ (S.shows shelf.old).files }
{
    let room = (limit - filled).min(PIECE - 1) + 1;
    if bytes.resize(filled + room, 0).is_err() {
        return Err(ReadAll::NoMemory);
    }
    match shelf.read(&mut bytes[filled..]) {
        Ok(count) => Ok(count),
        Err(Failed) => Err(ReadAll::ReadFault),
    }
}
