ghost use Rattle.std.specs.Prelude.{◌≡◌, ◌⊎◌, OnOk, OnErr, IfOk, IfErr, MatchResult};
ghost use Rattle.seq_io.specs.Taken.{BrokeIn, Wrote};
ghost use Rattle.run_lines.specs.Messages.{line_of, read_line};
ghost use Rattle.run_files.specs.Stops.{IsToldAs};
ghost use Rattle.run_files.specs.declared.stop.Stop.{Stop};

use crate::Verdict;
use owned_lists::Items;
use run_files::{Asked, Cause, NamedFile, Stop, name_in};
use run_lines::input_line;
use seq_io::{Sink, SinkFault, write_all};
use std::alloc::Global;

// Writes a line for a stop.
fn send<E: Sink>(err: &mut E, line: &[u8], stop: Stop) -> Result<Stop, Stop>
    ensures told { MatchResult result (λ told. told ≡ stop) (λ told. told ≡ stop) }
    ensures line { OnOk result (Wrote line.now (E.shows err.old) (E.shows err.new)) }
    ensures part { OnErr result (BrokeIn line.now (E.shows err.old) (E.shows err.new)) }
{
    match write_all(err, line) {
        Ok(()) => Ok(stop),
        Err(SinkFault) => Err(stop),
    }
}

// Writes the line of a failed read piece by piece, which takes no memory: a failed read is always told as one.
fn send_read<E: Sink>(err: &mut E, name: &str) -> Result<(), SinkFault>
    ensures line { OnOk result (Wrote (read_line name.now) (E.shows err.old) (E.shows err.new)) }
    ensures part { OnErr result (BrokeIn (read_line name.now) (E.shows err.old) (E.shows err.new)) }
{
    write_all(err, b"read: ")?;
    write_all(err, name.as_bytes())?;
    write_all(err, b"\n")
}

fn tell_read<E: Sink>(asked: &Asked, file: NamedFile, err: &mut E) -> Result<Stop, Stop>
    ensures told { MatchResult result (IsToldAs (Stop.Read file)) (IsToldAs (Stop.Read file)) }
    ensures line { IfOk result (λ told. Wrote (line_of asked.now told)
        (E.shows err.old) (E.shows err.new)) }
    ensures part { IfErr result (λ told. BrokeIn (line_of asked.now told)
        (E.shows err.old) (E.shows err.new)) }
{
    match send_read(err, name_in(asked, file)) {
        Ok(()) => Ok(Stop::Read(file)),
        Err(SinkFault) => Err(Stop::Read(file)),
    }
}

fn tell_input<E: Sink>(
    alloc: Global,
    asked: &Asked,
    file: NamedFile,
    cause: Cause,
    err: &mut E,
) -> Result<Stop, Stop>
    ensures told { MatchResult result (IsToldAs (Stop.Input file cause)) (IsToldAs
        (Stop.Input file cause)) }
    ensures line { IfOk result (λ told. Wrote (line_of asked.now told)
        (E.shows err.old) (E.shows err.new)) }
    ensures part { IfErr result (λ told. BrokeIn (line_of asked.now told)
        (E.shows err.old) (E.shows err.new)) }
{
    match input_line(alloc, name_in(asked, file), file, &cause) {
        Ok(line) => send(err, &line, Stop::Input(file, cause)),
        Err(_) => send(err, b"memory\n", Stop::Memory),
    }
}

/// Writes the line of a stop, and gives the stop that was told: where the line of a refused file finds no memory, want of
/// memory is told in its place, which takes none.
pub fn tell<E: Sink>(alloc: Global, asked: &Asked, stop: Stop, err: &mut E) -> Result<Stop, Stop>
    ensures told { MatchResult result (IsToldAs stop) (IsToldAs stop) }
    ensures line { IfOk result (λ told. Wrote (line_of asked.now told)
        (E.shows err.old) (E.shows err.new)) }
    ensures part { IfErr result (λ told. BrokeIn (line_of asked.now told)
        (E.shows err.old) (E.shows err.new)) }
{
    match stop {
        Stop::Read(file) => tell_read(asked, file, err),
        Stop::Input(file, cause) => tell_input(alloc, asked, file, cause, err),
        Stop::Memory => send(err, b"memory\n", Stop::Memory),
    }
}

/// What a run answers where its files can be used: its verdict, and what goes to `err` and then to `out`.
#[derive(Debug, Drop)]
pub struct Answer {
    pub verdict: Verdict,
    pub notes: Items<u8>,
    pub text: Items<u8>,
}

/// Writes an answer: its notes to `err`, then its text to `out`.
pub fn deliver<O: Sink, E: Sink>(answer: &Answer, out: &mut O, err: &mut E) -> Result<(), SinkFault>
    ensures notes { OnOk result (Wrote answer.now.notes (E.shows err.old) (E.shows err.new)) }
    ensures text { OnOk result (Wrote answer.now.text (O.shows out.old) (O.shows out.new)) }
    ensures broke { OnErr result (
        (BrokeIn answer.now.notes (E.shows err.old) (E.shows err.new) × (O.shows out.new
        ≡ O.shows out.old))
        ⊎ (Wrote answer.now.notes (E.shows err.old) (E.shows err.new)
        × BrokeIn answer.now.text (O.shows out.old) (O.shows out.new))) }
{
    write_all(err, answer.notes.as_slice())?;
    write_all(out, answer.text.as_slice())
}
