//! Reads 1,800,000 spelt lengths, as a mesh of 200,000 facets has, and prints the sum of their micrometres.
//! `bench/run decimals` times it. Nothing is promised here but that `read_um` may be called.
#![tactic(auto)]

use decimal_lengths::read_um;
use std::process::ExitCode;

fn digit(n: u32) -> u8 {
    b'0' + (n % 10) as u8
}

// 1.000000e+01 to 1.999999e+01, with digits that change from one to the next
fn number(n: u32) -> [u8; 12] {
    [
        b'1',
        b'.',
        digit(n),
        digit(n / 10),
        digit(n / 100),
        digit(n / 1_000),
        digit(n / 10_000),
        digit(n / 100_000),
        b'e',
        b'+',
        b'0',
        b'1',
    ]
}

fn main(rt: HostRuntime) -> ExitCode {
    let mut sum = 0_i64;
    for n in 0..1_800_000 {
        match read_um(&number(n)) {
            Ok(um) => sum = sum.wrapping_add(um),
            Err(_) => return ExitCode::from(1),
        }
    }
    match println!(rt; "{sum} micrometres") {
        Ok(()) => ExitCode::from(0),
        Err(_) => ExitCode::from(8),
    }
}
