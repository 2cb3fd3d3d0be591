ghost use Rattle.std.specs.Prelude.{◌<◌};
ghost use Rattle.order_graph.specs.Searches.{IsNextBelow, Follows};

use crate::answers::Cycle;
use crate::row::Row;

/// What is passed from an object over each one's next one.
#[derive(Drop)]
pub enum Trail {
    /// All objects up to one that has no next one.
    End(Row),
    /// Those that it goes round.
    Round(Cycle),
}

/// Goes from an object to its next one, from there to the next, and so on.
pub fn follow(next: &[Option<u32>; 16], start: u32) -> Trail
    requires start { start < 16 }
    requires next { IsNextBelow 16 next.now }
    ensures { Follows next.now start result }
{
    let mut passed = Row::new();
    let mut at = start;
    loop {
        if let Some(place) = passed.place_of(at) {
            return Trail::Round(passed.into_cycle(place));
        }
        passed.push(at);
        let Some(after) = next[at as usize] else {
            return Trail::End(passed);
        };
        at = after;
    }
}
