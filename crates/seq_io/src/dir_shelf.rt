ghost use Rattle.std.specs.Prelude.{◌≡◌, string_bytes, is_err, None, Some, true, false, IfOk, OnErr, IsErr};
ghost use Rattle.std.specs.Io.{ReadsAtMost};
ghost use Rattle.seq_io.specs.Counts.{raised, Counted};

use crate::{Failed, Shelf};
use owned_lists::Text;
use std::fs::File;
use std::io::{self, Read};
use std::marker::Model;

/// The files of the system, by their paths from the current folder. What they hold isn't told.
#[derive(Drop)]
pub struct DirShelf {
    rt: HostRuntime,
    file: Option<File>,
    named: Option<Text>,
    starts: u64,
    broken: bool,
    faults: u64,
}

impl Model for DirShelf {
    ghost use Rattle.seq_io.specs.DirShelf.{DirState};

    ghost Value = { DirState };

    ghost view = { λ s. record { named = s.named; starts = s.starts; broken = s.broken; faults = s.faults } };
}

impl DirShelf {
    pub fn new(rt: HostRuntime) -> DirShelf
        ensures { result ≡ record { named = None; starts = 0; broken = false; faults = 0 } }
    {
        DirShelf {
            rt,
            file: None,
            named: None,
            starts: 0,
            broken: false,
            faults: 0,
        }
    }

    // Answers as the system did, and counts its failures.
    fn noted<T>(&mut self, outcome: io::Result<T>) -> Result<T, Failed>
        ensures ok { IfOk outcome (λ x. result ≡ Ok x) }
        ensures err { OnErr outcome (IsErr result) }
        ensures state { self.new ≡ record self.old {
          broken = is_err result;
          faults = raised (is_err result) self.old.faults;
        } }
        ensures count { Counted (is_err result) self.old.faults self.new.faults }
    {
        self.broken = outcome.is_err();
        if self.broken {
            self.faults = self.faults.saturating_add(1);
        }
        outcome.map_err(|_| Failed)
    }
}

impl Shelf for DirShelf {
    ghost shows = { λ s. record {
      files = None;
      rest = None;
      named = s.named;
      starts = s.starts;
      broken = s.broken;
      faults = s.faults;
    } };

    ghost told = { λ s h. h };

    fn start(&mut self, name: String) -> Result<(), Failed>
        ensures state { self.new ≡ record {
          named = Some (string_bytes name);
          starts = raised true self.old.starts;
          broken = is_err result;
          faults = raised (is_err result) self.old.faults;
        } }
        ensures count { Counted (is_err result) self.old.faults self.new.faults }
    {
        let opened = File::open(&self.rt, name.as_str());
        self.named = Some(Text::from_string(name));
        self.starts = self.starts.saturating_add(1);
        self.file = None;
        self.file = Some(self.noted(opened)?);
        Ok(())
    }

    fn read(&mut self, buf: &mut [u8]) -> Result<usize, Failed>
        ensures bound { ReadsAtMost result buf.new }
        ensures state { self.new ≡ record self.old {
          broken = is_err result;
          faults = raised (is_err result) self.old.faults;
        } }
        ensures count { Counted (is_err result) self.old.faults self.new.faults }
    {
        let Some(file) = &mut self.file else {
            self.broken = false;
            return Ok(0);
        };
        let read = file.read(buf);
        self.noted(read)
    }
}
