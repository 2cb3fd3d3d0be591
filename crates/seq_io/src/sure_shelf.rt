ghost use Rattle.std.specs.Prelude.{◌≡◌, [], length, drop, min, string_bytes, IsOk, Some, None, true, false, refl};
ghost use Rattle.std.specs.Io.KnownBytes.{ReadConsumes};
ghost use Rattle.seq_io.specs.Counts.{raised};
ghost use Rattle.seq_io.specs.Files.{bytes_of};

use crate::open_files::OpenFiles;
use crate::{Failed, MemFile, Shelf};
use owned_lists::Text;
use std::marker::Model;

/// Files in memory, of which no call fails. A name that isn't there reads as an empty file.
#[derive(Debug, Drop)]
pub struct SureShelf {
    files: OpenFiles,
    named: Option<Text>,
    starts: u64,
}

impl Model for SureShelf {
    ghost use Rattle.seq_io.specs.SureShelf.{SureState};

    ghost Value = { SureState };

    ghost view = { λ s. record {
      files = s.files.files;
      rest = s.files.rest;
      named = s.named;
      starts = s.starts;
    } };
}

impl SureShelf {
    pub fn new(files: Vec<MemFile>) -> SureShelf
        ensures { result ≡ record { files = files.items; rest = []; named = None; starts = 0 } }
    {
        SureShelf {
            files: OpenFiles::new(files),
            named: None,
            starts: 0,
        }
    }
}

impl Shelf for SureShelf {
    ghost shows = { λ s. record {
      files = Some s.files;
      rest = Some s.rest;
      named = s.named;
      starts = s.starts;
      broken = false;
      faults = 0;
    } };

    ghost told = { λ s h. refl };

    fn start(&mut self, name: String) -> Result<(), Failed>
        ensures sure { IsOk result }
        ensures state { self.new ≡ record {
          files = self.old.files;
          rest = bytes_of self.old.files (string_bytes name);
          named = Some (string_bytes name);
          starts = raised true self.old.starts;
        } }
    {
        self.files.open(name.as_str());
        self.named = Some(Text::from_string(name));
        self.starts = self.starts.saturating_add(1);
        Ok(())
    }

    fn read(&mut self, buf: &mut [u8]) -> Result<usize, Failed>
        ensures sure { result ≡ Ok (min (length self.old.rest) (length buf.old)) }
        ensures bytes { ReadConsumes (Some self.old.rest) (Some self.new.rest) result buf.new }
        ensures state { self.new ≡ record self.old { rest = drop (length buf.old) self.old.rest } }
    {
        let most = buf.len();
        Ok(self.files.give(buf, most))
    }
}
