// Open splits.
ghost use Rattle.std.specs.Prelude.{◌≡◌, ◌∷◌, ◌++◌, ◌<◌, ◌≤◌, []};
ghost use Rattle.std.specs.Vec.{vec_len, vec_capacity};

/// An open split: how long the path is that it stands at, and the range of its children's choices that are to come.
#[derive(Clone, Copy, Debug)]
pub struct Frame {
    pub depth: usize,
    pub next: usize,
    pub end: usize,
}

/// Appends to a list that has room.
pub fn put<T: Copy + Drop>(to: &mut Vec<T>, item: T)
    requires { vec_len to.old < vec_capacity to.old }
    ensures items { to.new.items ≡ to.old.items ++ item ∷ [] }
    ensures capacity { vec_capacity to.old ≤ vec_capacity to.new }
{
    let _ = to.push(item);
}
