use seq_model::{Dir, Spot};

/// The least and the greatest value that each variable may still have.
#[derive(Clone, Copy, Debug)]
pub struct Room {
    low: [i64; 32],
    high: [i64; 32],
}

fn negative(x: i64) -> i64 {
    0i64.saturating_sub(x)
}

// Rounded down.
fn quotient(x: i64, positive: i64) -> i64 {
    if positive > 0 {
        return x.div_euclid(positive);
    }
    0
}

impl Room {
    /// All variables 0.
    pub fn new() -> Room {
        Room {
            low: [0; 32],
            high: [0; 32],
        }
    }

    /// A variable is at most this.
    pub fn bound(&mut self, variable: usize, most: i64) {
        if variable < 32 {
            self.high[variable] = most;
        }
    }

    // The greatest value of k times the later variable less the earlier one.
    fn most(&self, k: i64, earlier: usize, later: usize) -> i64 {
        if earlier >= 32 || later >= 32 {
            return 0;
        }
        if k > 0 {
            return k.saturating_mul(self.high[later].saturating_sub(self.low[earlier]));
        }
        k.saturating_mul(self.low[later].saturating_sub(self.high[earlier]))
    }

    // The later variable less the earlier one is at least this.
    fn keep_above(&mut self, least: i64, earlier: usize, later: usize) {
        if earlier >= 32 || later >= 32 {
            return;
        }
        self.low[later] = self.low[later].max(self.low[earlier].saturating_add(least));
        self.high[earlier] = self.high[earlier].min(self.high[later].saturating_sub(least));
    }

    // k times the later variable less the earlier one, and the rest, are together at least 0.
    fn narrow_axis(&mut self, k: i64, rest: i64, earlier: usize, later: usize) {
        if k > 0 {
            self.keep_above(negative(quotient(rest, k)), earlier, later);
        }
        if k < 0 {
            self.keep_above(negative(quotient(rest, negative(k))), later, earlier);
        }
    }

    /// The row with this constant of a side of objects i and j was added.
    pub fn narrow(&mut self, i: u32, j: u32, dir: &Dir, constant: i64) {
        if i >= 16 || j >= 16 {
            return;
        }
        let (i, j) = (2 * i as usize, 2 * j as usize);
        let along_y = self.most(dir.y, i + 1, j + 1);
        self.narrow_axis(dir.x, constant.saturating_add(along_y), i, j);
        let along_x = self.most(dir.x, i, j);
        self.narrow_axis(dir.y, constant.saturating_add(along_x), i + 1, j + 1);
    }

    /// Whether the row with this constant of a side of objects i and j can still be met.
    pub fn is_live(&self, i: u32, j: u32, dir: &Dir, constant: i64) -> bool {
        if i >= 16 || j >= 16 {
            return true;
        }
        let (i, j) = (2 * i as usize, 2 * j as usize);
        let x = self.most(dir.x, i, j);
        let y = self.most(dir.y, i + 1, j + 1);
        x.saturating_add(y).saturating_add(constant) >= 0
    }
}

/// The constant of the row of a side with this greatest value, where the low corners of its objects are so far apart.
pub fn row_constant(dir: &Dir, most: i64, shift: &Spot) -> i64 {
    let x = dir.x.saturating_mul(shift.x);
    let y = dir.y.saturating_mul(shift.y);
    x.saturating_add(y).saturating_sub(most)
}

/// How far a point is from beyond a side: the square of what its row lacks there, in sixteenths of a unit, over that of the direction's
/// length. The gap is that of the two objects' variables, over the denominator.
pub fn push(dir: &Dir, constant: i64, gap: &Spot, den: i64) -> i128 {
    let missed = sixteenths(dir, constant, gap, den);
    let x = dir.x.saturating_mul(dir.x);
    let y = dir.y.saturating_mul(dir.y);
    let length = x.saturating_add(y);
    let square = i128::from(missed).saturating_mul(i128::from(missed));
    if length < 1 {
        return square;
    }
    square / i128::from(length)
}

fn sixteenths(dir: &Dir, constant: i64, gap: &Spot, den: i64) -> i64 {
    let x = i128::from(dir.x).saturating_mul(i128::from(gap.x));
    let y = i128::from(dir.y).saturating_mul(i128::from(gap.y));
    let value = i128::from(constant)
        .saturating_mul(i128::from(den))
        .saturating_add(x)
        .saturating_add(y);
    in_64_bits(0i128.saturating_sub(value).saturating_mul(16), den)
}

fn in_64_bits(x: i128, den: i64) -> i64 {
    if den < 1 {
        return 0;
    }
    i64::try_from(x / i128::from(den)).unwrap_or(i64::MAX)
}
