//! The fields of instructions, and their registers.

use crate::fixtures::{digit, instruction};
use instructions::{Digit, SixBits, results, sources};

/// Digits are below 8 and counts below 64; `low` ignores higher bits.
#[test]
fn makes_fields(rt: HostRuntime) {
    assert!(rt; [Digit::new(7), Digit::new(8)] == [Some(Digit::low(0o17)), None]);
    assert!(rt; [SixBits::new(63), SixBits::new(64)] == [Some(SixBits::low(0o177)), None]);
    assert!(rt; digit(7).get() == 7 && SixBits::of(digit(7), digit(5)).get() == 61);
}

/// B0 is neither a source nor a result.
#[test]
fn lists_registers(rt: HostRuntime) {
    let sources = sources(&instruction("EQ B0,B0,0"));
    let results = results(&instruction("SB0 B2+10"));
    assert!(rt; sources.as_slice().is_empty() && results.as_slice().is_empty());
}
