ghost use Rattle.std.specs.Prelude.{◌≡◌, ◌≤◌, ◌<◌, [], length, is_err, IfOk, Some};
ghost use Rattle.seq_io.specs.Counts.{Counted};
ghost use Rattle.seq_io.specs.MemSink.{write_fails, write_len, after_write};

use crate::{Failed, Sink};
use owned_lists::Items;
use seq_num::NoMemory;
use std::alloc::Global;
use std::marker::Model;

/// A sink in memory with a room of its own, which takes its memory when it is made, and with writes that fail.
///
/// Writes of at least one byte are numbered, from 0. Those whose numbers stand in `failing`, and those made when the
/// room is used up, fail.
#[derive(Debug, Drop)]
pub struct MemSink {
    taken: Vec<u8>,
    room: usize,
    faults: u64,
    calls: u64,
    piece: usize,
    failing: Items<u64>,
}

impl Model for MemSink {
    ghost use Rattle.std.specs.Prelude.{vec_len, vec_capacity};
    ghost use Rattle.seq_io.specs.MemSink.{SinkState, HasRoom};

    ghost Value = { SinkState };

    ghost view = { λ s. record {
      taken = s.taken.items;
      room = s.room;
      faults = s.faults;
      calls = s.calls;
      piece = s.piece;
      failing = s.failing;
    } };

    ghost invariant = { λ s. HasRoom s.piece (vec_len s.taken) s.room (vec_capacity s.taken) };
}

impl MemSink {
    /// Each write takes at most `piece` bytes, all together at most `room`.
    pub fn new(
        alloc: Global,
        room: usize,
        piece: usize,
        failing: Vec<u64>,
    ) -> Result<MemSink, NoMemory>
        requires { 1 ≤ piece }
        ensures { IfOk result (λ s. s ≡ record {
          taken = [];
          room = room;
          faults = 0;
          calls = 0;
          piece = piece;
          failing = failing.items;
        }) }
    {
        Ok(MemSink {
            taken: Vec::with_capacity(alloc, room)?,
            room,
            faults: 0,
            calls: 0,
            piece,
            failing: Items::from_vec(failing),
        })
    }

    pub fn taken(&self) -> &[u8]
        ensures { result.now ≡ self.now.taken }
    {
        &self.taken
    }
}

impl Sink for MemSink {
    ghost shows = { λ s. record { taken = Some s.taken; faults = s.faults } };

    fn write(&mut self, piece: &[u8]) -> Result<usize, Failed>
        ensures fails { is_err result ≡ write_fails self.old piece.now }
        ensures count { IfOk result (λ n. n ≡ write_len self.old piece.now) }
        ensures some { IfOk result (λ n. 0 < length piece.now → 0 < n) }
        ensures state { self.new ≡ after_write self.old piece.now }
        ensures faults { Counted (is_err result) self.old.faults self.new.faults }
    {
        if piece.is_empty() {
            return Ok(0);
        }
        let due = self.failing.as_slice().contains(&self.calls);
        self.calls = self.calls.saturating_add(1);
        let room = self.room - self.taken.len();
        if due || room == 0 {
            self.faults = self.faults.saturating_add(1);
            return Err(Failed);
        }
        let count = piece.len().min(room).min(self.piece);
        if self.taken.extend_from_slice(&piece[..count]).is_err() {
            unreachable!()
        }
        Ok(count)
    }
}
