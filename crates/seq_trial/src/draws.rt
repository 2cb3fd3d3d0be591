ghost use Rattle.std.specs.Prelude.{◌≡◌, ◌≤◌, ◌<◌, ◌^◌};
ghost use Rattle.seq_trial.specs.Draws.{next_state, drawn};

/// Numbers drawn one after the other from a seed.
#[derive(Clone, Copy, Debug)]
pub struct Draws {
    pub state: u64,
}

fn next_state(state: u64) -> u64
    requires { state < 2 ^ 32 }
    ensures value { result ≡ next_state state }
    ensures small { result < 2 ^ 31 }
{
    (state * 1_103_515_245 + 12_345) % (1 << 31)
}

impl Draws {
    /// The next number, below `count`.
    pub fn below(&mut self, count: u64) -> u64
        requires some { 1 ≤ count }
        requires state { self.old.state < 2 ^ 32 }
        ensures value { result ≡ drawn count self.old.state }
        ensures below { result < count }
        ensures state { self.new.state ≡ next_state self.old.state }
        ensures small { self.new.state < 2 ^ 31 }
    {
        self.state = next_state(self.state);
        self.state / 65_536 % count
    }
}
