/// Two places, the earlier one first, a band of the earlier object, a band of the later one and a part, by which the earlier object
/// collides with the later one. Places and parts are numbers in their lists.
#[derive(Clone, Copy, Debug, PartialEq, Eq)]
pub struct Hit {
    pub earlier: u32,
    pub later: u32,
    pub c: u32,
    pub b: u32,
    pub part: u32,
}

/// What there is to say of a plan: that it is valid, or its first fault.
#[derive(Clone, Copy, Debug, PartialEq, Eq)]
pub enum Verdict {
    Good,
    /// The place whose object isn't one of the job, or stands at an earlier place.
    Stray(u32),
    /// The object that has no place.
    Absent(u32),
    /// The place with a spot outside the region.
    OffPlate(u32),
    Collides(Hit),
}
