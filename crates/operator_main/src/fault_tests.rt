//! Tests of the fault lines for arguments that can't be read. decks/pages/refusals.md and decks/pages/commands.md have
//! the other fault lines.

use super::program::report_bad_argument;
use std::io;
use std::io::ErrorKind;
use std::test::Fail;

/// The arguments are too many for the memory, or aren't text.
#[test]
fn bad_arguments(rt: HostRuntime) -> Result<(), Fail> {
    for (kind, status, told) in [
        (
            ErrorKind::OutOfMemory,
            6,
            b"cdc6600: E21 out of memory\n".as_slice(),
        ),
        (
            ErrorKind::InvalidData,
            2,
            b"error: an argument is no text\n",
        ),
    ] {
        let mut faults = Vec::new(rt.alloc());
        let answer = report_bad_argument(&mut faults, io::Error::from(kind));
        assert_eq!(rt; (answer, faults.as_slice()), (status, told));
    }
    Ok(())
}
