ghost use Rattle.std.specs.Prelude.{◌≡◌, [], length, IfOk, IsTrue, MatchOption, Some, None, false, if◌then◌else◌};
ghost use Rattle.seq_io.specs.SureSink.{after_sure_write};

use crate::{Failed, Sink};
use seq_num::NoMemory;
use std::alloc::Global;
use std::marker::Model;

/// A sink in memory that never fails. Bytes past its room are counted as taken and not kept.
#[derive(Debug, Drop)]
pub struct SureSink {
    taken: Vec<u8>,
    room: usize,
    over: bool,
}

impl Model for SureSink {
    ghost use Rattle.std.specs.Prelude.{vec_len, vec_capacity};
    ghost use Rattle.seq_io.specs.MemSink.{HasRoom};
    ghost use Rattle.seq_io.specs.SureSink.{SureTaken};

    ghost Value = { SureTaken };

    ghost view = { λ s. record { taken = s.taken.items; room = s.room; over = s.over } };

    ghost invariant = { λ s. HasRoom 1 (vec_len s.taken) s.room (vec_capacity s.taken) };
}

impl SureSink {
    pub fn new(alloc: Global, room: usize) -> Result<SureSink, NoMemory>
        ensures { IfOk result (λ s. s ≡ record { taken = []; room = room; over = false }) }
    {
        Ok(SureSink {
            taken: Vec::with_capacity(alloc, room)?,
            room,
            over: false,
        })
    }

    /// The bytes, if all were kept.
    pub fn taken(&self) -> Option<&[u8]>
        ensures { MatchOption result (IsTrue self.now.over)
            (λ bytes. (self.now.over ≡ false) × (bytes.now ≡ self.now.taken)) }
    {
        if self.over { None } else { Some(&self.taken) }
    }
}

impl Sink for SureSink {
    ghost shows = { λ s. record { taken = if s.over then None else Some s.taken; faults = 0 } };

    fn write(&mut self, piece: &[u8]) -> Result<usize, Failed>
        ensures sure { result ≡ Ok (length piece.now) }
        ensures state { self.new ≡ after_sure_write self.old piece.now }
    {
        if self.over || piece.len() > self.room - self.taken.len() {
            self.over = true;
            return Ok(piece.len());
        }
        if self.taken.extend_from_slice(piece).is_err() {
            unreachable!()
        }
        Ok(piece.len())
    }
}
