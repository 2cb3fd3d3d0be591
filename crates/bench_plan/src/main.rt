//! Reads the plan at the front of a file of 256 MiB, nearly all of it a tree block, 1,000 times, and prints where its lines end.
//! `bench/run plan` times it: a reader that copied or scanned the block would take minutes and twice the memory. Nothing
//! is promised here but that `read_plan` may be called.
#![tactic(auto)]

use plan_text::read_plan;
use std::alloc::{AllocError, Global};
use std::process::ExitCode;

fn file(alloc: Global) -> Result<Vec<u8>, AllocError> {
    let mut bytes = Vec::from_slice(
        alloc,
        b"seqplan 1\nstate least\ngrid 100\nextent 46\nscale 1\nplace 0 28 28\nplace 1 52 28\ncertificate 1\nexcludes 45\n",
    )?;
    for _ in 0..16_777_000 {
        bytes.extend_from_slice(b"bound 2:1 4:123\n")?;
    }
    Ok(bytes)
}

// The place where the plan's lines end, if it is the same each time.
fn place(alloc: Global, bytes: &[u8]) -> Option<usize> {
    let mut found = 0;
    for _ in 0..1_000 {
        match read_plan(alloc, bytes) {
            Ok((_, place)) => found = place,
            Err(_) => return None,
        }
    }
    Some(found)
}

fn main(rt: HostRuntime) -> ExitCode {
    let alloc = rt.alloc();
    let Ok(bytes) = file(alloc) else {
        return ExitCode::from(9);
    };
    let Some(place) = place(alloc, bytes.as_slice()) else {
        return ExitCode::from(1);
    };
    match println!(rt; "{} bytes, the plan's lines end at {place}", bytes.len()) {
        Ok(()) => ExitCode::from(0),
        Err(_) => ExitCode::from(8),
    }
}
