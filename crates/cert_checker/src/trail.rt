// The path of the node at hand, with what finds things on it at once.
ghost use Rattle.std.specs.Prelude.{◌≡◌, ◌+◌, ◌≤◌, ◌<◌, ◌∷◌, ◌++◌, [], ℕ, length, take, Contains, IfOk, IsTrue, ◌↔◌};
ghost use Rattle.seq_model.specs.declared.job.Job.{Job};
ghost use Rattle.seq_model.specs.declared.tree.Choice.{Choice};
ghost use Rattle.seq_model.specs.declared.tree.Choice.TheVariants as Choices;
ghost use Rattle.seq_model.specs.declared.tree.Contact.{Contact};
ghost use Rattle.seq_model.specs.declared.tree.Dir.{Dir};
ghost use Rattle.cert_checker.specs.Trails.{IsFit, IsRowFor, IsStamped, HasRoom, HasRows, stamp_at};

use crate::frames::put;
use difference_polygon::SideRow;
use seq_model::Choice;
use std::alloc::{AllocError, Global};

/// A path: its choices; for each, how many sides stand before it; the rows of its sides; and for each order of two objects below 16 the
/// place where it stands first, if it stands on the path. What is noted of an order that doesn't stand there means nothing.
#[derive(Debug, Drop)]
pub struct Trail {
    pub path: Vec<Choice>,
    pub marks: Vec<usize>,
    pub rows: Vec<SideRow>,
    pub stamps: Vec<usize>,
}

fn is_order(choice: &Choice, i: u32, j: u32) -> bool
    ensures { IsTrue result ↔ (choice.now ≡ Choices.Before i j) }
{
    *choice == Choice::Before { i, j }
}

// The place that is noted for an order.
fn stamp_of(stamps: &[usize], i: u32, j: u32) -> usize
    requires i { i < 16 }
    requires j { j < 16 }
    requires stamps { length stamps.now ≡ 256 }
    ensures { result ≡ stamp_at stamps.now i j }
{
    stamps[16 * i as usize + j as usize]
}

// Whether the order of two objects below 16 stands on the path.
fn is_stamped(path: &[Choice], stamps: &[usize], i: u32, j: u32) -> bool
    requires i { i < 16 }
    requires j { j < 16 }
    requires many { length stamps.now ≡ 256 }
    requires stamped { IsStamped path.now stamps.now }
    ensures { IsTrue result ↔ Contains path.now (Choices.Before i j) }
{
    let place = stamp_of(stamps, i, j);
    if place >= path.len() {
        return false;
    }
    is_order(&path[place], i, j)
}

fn is_on(path: &[Choice], stamps: &[usize], i: u32, j: u32) -> bool
    requires many { length stamps.now ≡ 256 }
    requires stamped { IsStamped path.now stamps.now }
    ensures { IsTrue result ↔ Contains path.now (Choices.Before i j) }
{
    if i >= 16 {
        return path.contains(&Choice::Before { i, j });
    }
    if j >= 16 {
        return path.contains(&Choice::Before { i, j });
    }
    is_stamped(path, stamps, i, j)
}

// Notes the place of an order that is to stand at the end of the path, if it stands nowhere else.
fn stamp(path: &[Choice], stamps: &mut Vec<usize>, i: u32, j: u32)
    requires many { length stamps.old.items ≡ 256 }
    requires stamped { IsStamped path.now stamps.old.items }
    ensures many { length stamps.new.items ≡ 256 }
    ensures stamped { IsStamped (path.now ++ Choices.Before i j ∷ []) stamps.new.items }
{
    if i >= 16 {
        return;
    }
    if j >= 16 {
        return;
    }
    if !is_stamped(path, stamps.as_slice(), i, j) {
        stamps[16 * i as usize + j as usize] = path.len();
    }
}

impl Trail {
    /// The empty path, with room for so many choices.
    pub fn with_room(alloc: Global, room: usize) -> Result<Trail, AllocError>
        ensures path { IfOk result (λ trail. trail.path.items ≡ []) }
        ensures fit { IfOk result IsFit }
        ensures rows { (job : Job) → IfOk result (HasRows job) }
        ensures room { IfOk result (λ trail. HasRoom trail room) }
    {
        let path = Vec::with_capacity(alloc, room)?;
        let marks = Vec::with_capacity(alloc, room)?;
        let rows = Vec::with_capacity(alloc, room)?;
        let mut stamps = Vec::new(alloc);
        stamps.resize(256, 0)?;
        Ok(Trail {
            path,
            marks,
            rows,
            stamps,
        })
    }

    /// Whether i before j stands on the path.
    pub fn is_before(&self, i: u32, j: u32) -> bool
        requires { IsFit self.now }
        ensures { IsTrue result ↔ Contains self.now.path.items (Choices.Before i j) }
    {
        is_on(self.path.as_slice(), self.stamps.as_slice(), i, j)
    }

    /// Cuts the path back to so many choices.
    pub fn cut(&mut self, depth: usize)
        requires fit { IsFit self.old }
        ensures path { self.new.path.items ≡ take depth self.old.path.items }
        ensures fit { IsFit self.new }
        ensures rows { (job : Job) → HasRows job self.old → HasRows job self.new }
        ensures room { (n : ℕ) → HasRoom self.old n → HasRoom self.new n }
    {
        if depth >= self.marks.len() {
            self.path.truncate(depth);
            return;
        }
        self.rows.truncate(self.marks[depth]);
        self.marks.truncate(depth);
        self.path.truncate(depth);
    }

    fn go_order(&mut self, i: u32, j: u32)
        requires fit { IsFit self.old }
        requires room { HasRoom self.old (length self.old.path.items + 1) }
        ensures path { self.new.path.items ≡ self.old.path.items ++ Choices.Before i j ∷ [] }
        ensures fit { IsFit self.new }
        ensures rows { (job : Job) → HasRows job self.old → HasRows job self.new }
        ensures room { (n : ℕ) → HasRoom self.old n → HasRoom self.new n }
    {
        stamp(self.path.as_slice(), &mut self.stamps, i, j);
        put(&mut self.marks, self.rows.len());
        put(&mut self.path, Choice::Before { i, j });
    }

    fn go_side(&mut self, side: &Choice, row: &SideRow)
        requires fit { IsFit self.old }
        requires room { HasRoom self.old (length self.old.path.items + 1) }
        ensures path { self.new.path.items ≡ self.old.path.items ++ side.now ∷ [] }
        ensures fit { (contact : Contact) (dir : Dir) → side.now ≡ Choices.Side contact dir → IsFit self.new }
        ensures rows { (job : Job) (contact : Contact) (dir : Dir) → side.now ≡ Choices.Side contact dir
            → HasRows job self.old → IsRowFor job side.now row.now → HasRows job self.new }
        ensures room { (n : ℕ) → HasRoom self.old n → HasRoom self.new n }
    {
        put(&mut self.marks, self.rows.len());
        put(&mut self.rows, *row);
        put(&mut self.path, *side);
    }

    /// One choice more at the end, with its row where it is a side.
    pub fn go(&mut self, choice: &Choice, row: &SideRow)
        requires fit { IsFit self.old }
        requires room { HasRoom self.old (length self.old.path.items + 1) }
        ensures path { self.new.path.items ≡ self.old.path.items ++ choice.now ∷ [] }
        ensures fit { IsFit self.new }
        ensures rows { (job : Job) → HasRows job self.old → IsRowFor job choice.now row.now
            → HasRows job self.new }
        ensures room { (n : ℕ) → HasRoom self.old n → HasRoom self.new n }
    {
        match choice {
            Choice::Before { i, j } => self.go_order(*i, *j),
            Choice::Side { .. } => self.go_side(choice, row),
        }
    }
}
