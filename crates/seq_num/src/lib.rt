//! Whole numbers: exact division that rounds, common divisors, and the one decimal spelling of a number.
//!
//! A quotient rounded down or up is pinned twice: as the word of std that computes it, and by what it means, as
//! `d * q <= a < d * q + d`. `near_div`, `gcd` and `primitive` are pinned by what they mean, with laws that no other
//! number fits. That some bytes spell a number is a definition apart from the code: `read_int` answers None exactly for
//! bytes that spell none, and no bytes spell two numbers.
//!
//! Only the laws of the integers lie below: all other crates count, divide and read with this one. No call takes memory.
#![tactic(auto)]

mod division;
mod divisors;
mod nearest;
mod whole_numbers;

pub use division::{ceil_div, floor_div};
pub use divisors::{gcd, primitive};
pub use nearest::near_div;
use std::alloc::AllocError;
pub use whole_numbers::{one_spelling, read_int, spelling_digits, write_int};

/// Want of memory, as the calls of the crates above answer it.
#[derive(Clone, Copy, Debug, PartialEq, Eq)]
pub struct NoMemory;

impl From<AllocError> for NoMemory {
    fn from(_: AllocError) -> Self {
        NoMemory
    }
}

#[cfg(test)]
mod tests {
    use super::*;

    #[test]
    fn quotients_are_rounded(rt: HostRuntime) {
        let cases = [
            (7, 2, 3, 4, 4),
            (-7, 2, -4, -3, -4),
            (-8, 2, -4, -4, -4),
            (0, 5, 0, 0, 0),
            (4, 3, 1, 2, 1),
            (-5, 3, -2, -1, -2),
        ];
        for (a, d, down, up, near) in cases {
            assert_eq!(rt; floor_div(a, d), down);
            assert_eq!(rt; ceil_div(a, d), up);
            assert_eq!(rt; near_div(a, d), near);
        }
    }

    #[test]
    fn common_divisors_fall_out(rt: HostRuntime) {
        for (a, b, divisor) in [(0, 0, 0), (0, -6, 6), (12, -18, 6), (-17, 5, 1), (-4, 0, 4)] {
            assert_eq!(rt; gcd(a, b), divisor);
        }
        for (x, y, shortest) in [(6, -4, (3, -2)), (0, -7, (0, -1)), (-9, 3, (-3, 1))] {
            assert_eq!(rt; primitive(x, y), shortest);
        }
    }

    #[test]
    fn numbers_are_read_and_written(rt: HostRuntime) {
        let spelled = [
            ("0", 0),
            ("-1", -1),
            ("20", 20),
            ("1267650600228229401496703205375", (1i128 << 100) - 1),
        ];
        for (text, n) in spelled {
            assert_eq!(rt; read_int(text.as_bytes()), Some(n));
            let mut buffer = [0; 40];
            let len = write_int(n, &mut buffer);
            assert_eq!(rt; &buffer[..len], text.as_bytes());
        }
        for text in [
            "",
            "-",
            "-0",
            "01",
            "+1",
            "1.5",
            "1267650600228229401496703205376",
        ] {
            assert_eq!(rt; read_int(text.as_bytes()), None);
        }
    }
}
