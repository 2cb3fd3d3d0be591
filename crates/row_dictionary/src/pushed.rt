/// What became of a row that was to be added.
#[derive(Clone, Copy, Debug, PartialEq, Eq)]
pub enum Pushed {
    /// Its slack is basic.
    Held,
    /// A number of its line would be 2^62 or more in size.
    TooWide,
}
