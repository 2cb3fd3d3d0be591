ghost use Rattle.std.specs.Prelude.{◌≡◌, ◌≤◌, ◌-◌, ◌^◌, [], length, take, drop, min, is_some, IfSome, IfNone};
ghost use Rattle.seq_io.specs.Files.{has_file, bytes_of};
ghost use Rattle.seq_io.specs.OpenFiles.{bytes_at, rest_of};

use crate::MemFile;
use std::marker::Model;

/// Files in memory, of which one at a time is open: the place of that one, and how many of its bytes were given.
#[derive(Debug, Drop)]
pub struct OpenFiles {
    files: Vec<MemFile>,
    at: Option<usize>,
    given: usize,
}

impl Model for OpenFiles {
    ghost use Rattle.seq_io.specs.OpenFiles.{OpenState, rest_of};

    ghost Value = { OpenState };

    ghost view = { λ s. record { files = s.files.items; rest = rest_of s.files.items s.at s.given } };
}

impl OpenFiles {
    pub fn new(files: Vec<MemFile>) -> OpenFiles
        ensures { result ≡ record { files = files.items; rest = [] } }
    {
        OpenFiles {
            files,
            at: None,
            given: 0,
        }
    }

    /// Opens the first file of that name, if there is one, and says whether there is.
    pub fn open(&mut self, name: &str) -> bool
        ensures found { result ≡ has_file self.old.files name.now }
        ensures state { self.new
            ≡ record { files = self.old.files; rest = bytes_of self.old.files name.now } }
    {
        self.at = place_of(&self.files, name);
        self.given = 0;
        self.at.is_some()
    }

    /// Leaves no file open.
    pub fn close(&mut self)
        ensures { self.new ≡ record { files = self.old.files; rest = [] } }
    {
        self.at = None;
    }

    /// Gives the next bytes of the open file, as many as there are, fit and are wanted, and says how many.
    pub fn give(&mut self, to: &mut [u8], most: usize) -> usize
        ensures count { result ≡ min (min (length self.old.rest) (length to.old)) most }
        ensures bytes { take result to.new ≡ take result self.old.rest }
        ensures state { self.new
            ≡ record { files = self.old.files; rest = drop result self.old.rest } }
    {
        let count = copy_front(left_of(&self.files, self.at, self.given), to, most);
        self.given += count;
        count
    }
}

// The place of the first file of that name.
fn place_of(files: &[MemFile], name: &str) -> Option<usize>
    ensures has { is_some result ≡ has_file files.now name.now }
    ensures found { IfSome result (λ at. bytes_at files.now at ≡ bytes_of files.now name.now) }
    ensures none { IfNone result (bytes_of files.now name.now ≡ []) }
{
    for (at, file) in files.iter().enumerate() {
        if file.name.as_str() == name {
            return Some(at);
        }
    }
    None
}

// What is left of the file at a place after so many bytes.
fn left_of(files: &[MemFile], at: Option<usize>, given: usize) -> &[u8]
    ensures left { result.now ≡ rest_of files.now at given }
    ensures short { length result.now ≤ 2 ^ 64 - 1 - given }
{
    let Some(at) = at else {
        return &[];
    };
    let Some(file) = files.get(at) else {
        return &[];
    };
    let bytes = file.bytes.as_slice();
    if given < bytes.len() {
        &bytes[given..]
    } else {
        &[]
    }
}

// Copies the first bytes, as many as there are, fit and are wanted.
fn copy_front(from: &[u8], to: &mut [u8], most: usize) -> usize
    ensures count { result ≡ min (min (length from.now) (length to.old)) most }
    ensures copied { take result to.new ≡ take result from.now }
{
    let count = from.len().min(to.len()).min(most);
    to[..count].copy_from_slice(&from[..count]);
    count
}
