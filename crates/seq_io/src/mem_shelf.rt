ghost use Rattle.std.specs.Prelude.{◌≡◌, ◌≤◌, [], length, string_bytes, is_err, IfOk, None, Some, false, refl};
ghost use Rattle.std.specs.Io.KnownBytes.{ReadConsumes};
ghost use Rattle.seq_io.specs.Counts.{Counted};
ghost use Rattle.seq_io.specs.MemShelf.{start_fails, after_start, read_fails, read_len, after_read};

use crate::open_files::OpenFiles;
use crate::{Failed, MemFile, Shelf};
use owned_lists::{Items, Text};
use std::marker::Model;

/// Files in memory that are read in small pieces, with calls that fail.
///
/// The calls of `start` and `read` are numbered together, from 0. Those whose numbers stand in `failing` fail, and so
/// does a `start` of a name that isn't there.
#[derive(Debug, Drop)]
pub struct MemShelf {
    files: OpenFiles,
    named: Option<Text>,
    starts: u64,
    broken: bool,
    faults: u64,
    calls: u64,
    piece: usize,
    failing: Items<u64>,
}

impl Model for MemShelf {
    ghost use Rattle.std.specs.Prelude.{◌≤◌};
    ghost use Rattle.seq_io.specs.MemShelf.{ShelfState};

    ghost Value = { ShelfState };

    ghost view = { λ s. record {
      files = s.files.files;
      rest = s.files.rest;
      named = s.named;
      starts = s.starts;
      broken = s.broken;
      faults = s.faults;
      calls = s.calls;
      piece = s.piece;
      failing = s.failing;
    } };

    ghost invariant = { λ s. 1 ≤ s.piece };
}

impl MemShelf {
    /// Each read gives at most `piece` bytes.
    pub fn new(files: Vec<MemFile>, piece: usize, failing: Vec<u64>) -> MemShelf
        requires { 1 ≤ piece }
        ensures { result ≡ record {
          files = files.items;
          rest = [];
          named = None;
          starts = 0;
          broken = false;
          faults = 0;
          calls = 0;
          piece = piece;
          failing = failing.items;
        } }
    {
        MemShelf {
            files: OpenFiles::new(files),
            named: None,
            starts: 0,
            broken: false,
            faults: 0,
            calls: 0,
            piece,
            failing: Items::from_vec(failing),
        }
    }
}

impl Shelf for MemShelf {
    ghost shows = { λ s. record {
      files = Some s.files;
      rest = Some s.rest;
      named = s.named;
      starts = s.starts;
      broken = s.broken;
      faults = s.faults;
    } };

    ghost told = { λ s h. refl };

    fn start(&mut self, name: String) -> Result<(), Failed>
        ensures fails { is_err result ≡ start_fails self.old (string_bytes name) }
        ensures state { self.new ≡ after_start self.old (string_bytes name) }
        ensures count { Counted (is_err result) self.old.faults self.new.faults }
    {
        let due = self.failing.as_slice().contains(&self.calls);
        self.calls = self.calls.saturating_add(1);
        let found = self.files.open(name.as_str());
        self.named = Some(Text::from_string(name));
        self.starts = self.starts.saturating_add(1);
        self.broken = due || !found;
        if self.broken {
            self.files.close();
            self.faults = self.faults.saturating_add(1);
            return Err(Failed);
        }
        Ok(())
    }

    fn read(&mut self, buf: &mut [u8]) -> Result<usize, Failed>
        ensures fails { is_err result ≡ read_fails self.old }
        ensures given { IfOk result (λ n. n ≡ read_len self.old (length buf.old)) }
        ensures bytes { ReadConsumes (Some self.old.rest) (Some self.new.rest) result buf.new }
        ensures state { self.new ≡ after_read self.old (length buf.old) }
        ensures count { Counted (is_err result) self.old.faults self.new.faults }
    {
        self.broken = self.failing.as_slice().contains(&self.calls);
        self.calls = self.calls.saturating_add(1);
        if self.broken {
            self.faults = self.faults.saturating_add(1);
            return Err(Failed);
        }
        Ok(self.files.give(buf, self.piece))
    }
}
