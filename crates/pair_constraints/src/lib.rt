//! Which contacts of two objects collide at their places, and which of them a search has to look at.
//!
//! `collides` says of a contact whether it collides, exactly, and `next_contact` which contact of two objects does first; None exactly
//! where the objects don't collide. Both take no memory.
//!
//! `Contacts` has the maximal contacts of each ordered pair: of all its contacts those whose difference lies in no other's. Where a
//! contact collides at a point, a maximal one of its pair does, so a search looks at these alone. Each is kept with its sides, and
//! `Kept::collides_at` says exactly whether it collides at a point of a system, by a product or two for each side.
//!
//! It stands on `difference_polygon`, whose `strictly_in` decides, on the bands of `printer_envelopes`, and on the laws of search.
#![tactic(auto)]

mod colliding;
mod contacts;
mod kept;
mod laws;
mod limits;
mod maximal;
mod nesting;
mod overlaps;
mod points;
mod rows;
mod settling;
mod sides;
mod testing;

pub use colliding::{collides, next_contact};
pub use contacts::Contacts;
pub use kept::{Kept, Reach, keep, sides_of_contact};
pub use laws::{beyond_any_direction_is_out_of_reach, covered_contacts_need_no_opening};
pub use limits::{Limit, cover, is_inside, limits_of};
pub use overlaps::zones_overlap;
pub use points::SolvedPoint;
pub use sides::KeptSides;
