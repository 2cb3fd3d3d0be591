//! Lists and texts that a public struct owns.
//!
//! A `Vec` in a contract is its elements, its capacity and its pointer, so two `Vec`s of the same elements
//! aren't equal there. `Items` is a `Vec` that contracts see as the list of its elements alone, and `Text` is
//! a `String` that contracts see as its bytes. So a struct with such fields is a plain record of lists to
//! whoever speaks about it, and a copy of it equals what it copies.
//!
//! Each call says exactly what list it gives. It stands below all other crates: every type that holds
//! several things or a name, from the mesh to the plan, has them in one of these two.
#![tactic(auto)]

mod items;
mod text;

pub use items::Items;
pub use text::Text;

#[cfg(test)]
mod tests {
    use super::*;
    use std::test::Fail;

    #[test]
    fn lists_and_texts_keep_what_they_are_given(rt: HostRuntime) -> Result<(), Fail> {
        let alloc = rt.alloc();
        let mut primes = Items::new(alloc);
        assert!(rt; primes.is_empty());
        primes.push(2u64)?;
        primes.push(3)?;
        let copy = primes.copy(alloc)?;
        assert_eq!(rt; copy.len(), 2);
        assert_eq!(rt; copy.as_slice(), [2, 3].as_slice());
        let moved = Items::from_vec(primes.into_vec());
        assert_eq!(rt; moved.as_slice(), copy.as_slice());
        let name = Text::from_str(alloc, "cube.stl")?;
        assert_eq!(rt; name.copy(alloc)?.as_str(), "cube.stl");
        let name = Text::from_string(name.into_string());
        assert_eq!(rt; name.as_str(), "cube.stl");
        Ok(())
    }
}
