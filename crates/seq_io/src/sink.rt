ghost use Rattle.std.specs.Prelude.{◌≡◌, ◌<◌, length, is_err, OnOk, OnErr, IfOk};
ghost use Rattle.std.specs.Io.{WritesAtMost};
ghost use Rattle.seq_io.specs.Counts.{Counted};
ghost use Rattle.seq_io.specs.Views.{SinkView};
ghost use Rattle.seq_io.specs.Taken.{BrokeIn, Took, Wrote};

use crate::Failed;

/// A write failed.
#[derive(Clone, Copy, Debug, PartialEq, Eq)]
pub struct SinkFault;

/// What takes bytes.
pub trait Sink {
    /// What it took, and how many writes failed.
    ghost shows: { Self → SinkView };

    /// Takes the first bytes of a piece, at least one where there is one, and gives how many.
    fn write(&mut self, piece: &[u8]) -> Result<usize, Failed>
        ensures most { WritesAtMost result piece.now }
        ensures some { IfOk result (λ n. 0 < length piece.now → 0 < n) }
        ensures none { length piece.now ≡ 0 → result ≡ Ok 0 }
        ensures taken { Took (shows self.old).taken (shows self.new).taken result piece.now }
        ensures count { Counted (is_err result) (shows self.old).faults (shows self.new).faults };
}

/// Writes all the bytes. The first write that fails ends it: the sink then took a proper part of them, from the first on.
pub fn write_all<K: Sink>(sink: &mut K, bytes: &[u8]) -> Result<(), SinkFault>
    ensures all { OnOk result (Wrote bytes.now (K.shows sink.old) (K.shows sink.new)) }
    ensures part { OnErr result (BrokeIn bytes.now (K.shows sink.old) (K.shows sink.new)) }
{
    let mut at = 0;
    while at < bytes.len() {
        let Ok(count) = sink.write(&bytes[at..]) else {
            return Err(SinkFault);
        };
        at += count;
    }
    Ok(())
}
