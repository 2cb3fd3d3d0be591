ghost use Rattle.std.specs.Prelude.{◌≡◌, ◌<◌, length, None, Some, is_err, IfOk};
ghost use Rattle.std.specs.Result.{result_ok};
ghost use Rattle.std.specs.Io.{WritesAtMost};
ghost use Rattle.seq_io.specs.Counts.{raised, Counted};

use crate::{Failed, Sink};
use std::io::{self, Stderr, Stdout, Write};
use std::marker::Model;

#[derive(Drop)]
enum Stream {
    Out(Stdout),
    Err(Stderr),
}

/// A standard stream. What it has taken isn't told, but how often a write failed.
#[derive(Drop)]
pub struct StdSink {
    stream: Stream,
    faults: u64,
}

impl Model for StdSink {
    ghost use Rattle.std.specs.Prelude.{ℕ};

    ghost Value = { ℕ };

    ghost view = { λ s. s.faults };
}

impl StdSink {
    pub fn out(rt: &HostRuntime) -> StdSink
        ensures { result ≡ 0 }
    {
        StdSink {
            stream: Stream::Out(rt.stdout()),
            faults: 0,
        }
    }

    pub fn err(rt: &HostRuntime) -> StdSink
        ensures { result ≡ 0 }
    {
        StdSink {
            stream: Stream::Err(rt.stderr()),
            faults: 0,
        }
    }

    // Answers as the system did, and counts its failures. To take nothing of a piece is one.
    fn noted(&mut self, wrote: io::Result<usize>) -> Result<usize, Failed>
        ensures ok { IfOk wrote (λ n. 0 < n → result ≡ Ok n) }
        ensures some { IfOk result (λ n. (0 < n) × (result_ok wrote ≡ Some n)) }
        ensures state { self.new ≡ raised (is_err result) self.old }
        ensures count { Counted (is_err result) self.old self.new }
    {
        match wrote {
            Ok(count) if count > 0 => Ok(count),
            _ => {
                self.faults = self.faults.saturating_add(1);
                Err(Failed)
            }
        }
    }
}

impl Sink for StdSink {
    ghost shows = { λ s. record { taken = None; faults = s } };

    fn write(&mut self, piece: &[u8]) -> Result<usize, Failed>
        ensures most { WritesAtMost result piece.now }
        ensures some { IfOk result (λ n. 0 < length piece.now → 0 < n) }
        ensures none { length piece.now ≡ 0 → result ≡ Ok 0 }
        ensures state { self.new ≡ raised (is_err result) self.old }
        ensures count { Counted (is_err result) self.old self.new }
    {
        if piece.is_empty() {
            return Ok(0);
        }
        let wrote = match &mut self.stream {
            Stream::Out(to) => to.write(piece),
            Stream::Err(to) => to.write(piece),
        };
        self.noted(wrote)
    }
}
