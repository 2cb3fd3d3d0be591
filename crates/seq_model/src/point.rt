/// The point x/d, y/d. Calls that take one ask for a d of at least 1.
#[derive(Clone, Copy, Debug, PartialEq, Eq)]
pub struct RatPoint {
    pub x: i128,
    pub y: i128,
    pub d: i128,
}
