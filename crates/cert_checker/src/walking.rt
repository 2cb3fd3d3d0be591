// The walk over the nodes of a tree.
ghost use Rattle.std.specs.Prelude.{◌≡◌, ◌+◌, ◌<◌, ◌≤◌, ◌∷◌, ◌++◌, [], ℕ, All, length, reverse, true, false};
ghost use Rattle.std.specs.Vec.{vec_capacity};
ghost use Rattle.cert_text.specs.TreeText.{IsSpelt};
ghost use Rattle.seq_model.specs.declared.job.Job.{Job};
ghost use Rattle.cert_checker.specs.Judged.{IsChecked};
ghost use Rattle.cert_checker.specs.Kept.{IsKept, IsTable};
ghost use Rattle.cert_checker.specs.Trails.{HasRoom, HasRows, IsFit};
ghost use Rattle.cert_checker.specs.Waits.{AreOpen, to_come};
ghost use Rattle.cert_checker.specs.Wholes.{AreWhole};

use crate::frames::{Frame, put};
use crate::judging::{Judged, judge};
use crate::kept::{Kept, Table};
use crate::rules::Checked;
use crate::trail::Trail;
use seq_model::{Job, Node};

// Goes to the first path that is to come, if there is one.
fn advance(table: &Table, trail: &mut Trail, frames: &mut Vec<Frame>) -> bool
    requires nested { AreOpen table.now trail.old frames.old.items }
    requires rows { length table.now.rows.items ≡ length table.now.choices.items }
    requires fit { IsFit trail.old }
    requires path_room { HasRoom trail.old (length trail.old.path.items + 1) }
    requires frame_room { length frames.old.items ≤ vec_capacity frames.old }
    ensures waits { result ≡ true → to_come table.now trail.old frames.old.items
        ≡ trail.new.path.items ∷ to_come table.now trail.new frames.new.items }
    ensures nested { result ≡ true → AreOpen table.now trail.new frames.new.items }
    ensures ended { result ≡ false → to_come table.now trail.old frames.old.items ≡ [] }
    ensures fit { IsFit trail.new }
    ensures rows { (job : Job) → IsTable job table.now → HasRows job trail.old → HasRows job trail.new }
    ensures path_len { length trail.new.path.items ≤ length trail.old.path.items + 1 }
    ensures frames_len { length frames.new.items ≤ length frames.old.items }
    ensures room { (n : ℕ) → HasRoom trail.old n → HasRoom trail.new n }
    ensures frames_capacity { vec_capacity frames.old ≤ vec_capacity frames.new }
{
    let Some(frame) = frames.pop() else {
        return false;
    };
    trail.cut(frame.depth);
    trail.go(&table.choices[frame.next], &table.rows[frame.next]);
    let next = frame.next + 1;
    if next < frame.end {
        put(
            frames,
            Frame {
                depth: frame.depth,
                next,
                end: frame.end,
            },
        );
    }
    true
}

// Opens a split at the end of the path, where the node has children.
fn open(frames: &mut Vec<Frame>, depth: usize, next: usize, end: usize)
    requires { length frames.old.items < vec_capacity frames.old }
    ensures some { next < end → frames.new.items
        ≡ frames.old.items ++ record { depth = depth; next = next; end = end } ∷ [] }
    ensures none { end ≤ next → frames.new.items ≡ frames.old.items }
    ensures len { length frames.new.items ≤ length frames.old.items + 1 }
    ensures capacity { vec_capacity frames.old ≤ vec_capacity frames.new }
{
    if next < end {
        put(frames, Frame { depth, next, end });
    }
}

/// The walk over the nodes of a whole tree, from the empty path, with room for what it keeps.
pub fn walk(
    job: &Job,
    kept: &Kept,
    nodes: &[Node],
    trail: &mut Trail,
    frames: &mut Vec<Frame>,
    sums: &mut [i128],
) -> Checked
    requires whole { AreWhole nodes.now }
    requires spelt { All IsSpelt nodes.now }
    requires kept { IsKept job.now nodes.now kept.now }
    requires path { trail.old.path.items ≡ [] }
    requires fit { IsFit trail.old }
    requires rows { HasRows job.now trail.old }
    requires frames { frames.old.items ≡ [] }
    requires sums { length sums.old ≡ length kept.now.rooms.items }
    requires path_room { HasRoom trail.old (length nodes.now) }
    requires frames_room { length nodes.now ≤ vec_capacity frames.old }
    ensures { IsChecked job.now kept.now.extent nodes.now result }
{
    let mut number = 0;
    while number < nodes.len() {
        match judge(job, kept, nodes, number, trail, sums) {
            Judged::Broken(rule) => return Checked::Fails(number as u64, rule),
            Judged::Fine(next, end) => open(frames, trail.path.len(), next, end),
        }
        number += 1;
        if !advance(&kept.table, trail, frames) {
            return Checked::Passes;
        }
    }
    Checked::Passes
}
