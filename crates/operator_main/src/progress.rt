//! Shows at a terminal how many seconds a long run or replay has taken so far.

use arrayvec::ArrayVec;
use std::io::Write;
use std::sync::Wait;
use std::sync::atomic::{AtomicU64, Ordering};
use std::time::Duration;

/// The number of seconds after which the first progress is shown.
const QUIET: u64 = 3;

/// The number of seconds after which the progress is no longer updated: one day.
const MOST: u64 = 86_400;

/// A buffer size that is more than the bytes of the line shown.
const PROGRESS_LINE: usize = 32;

/// Whether the request in these words of a command line may take long.
pub fn may_take_long(words: &[String]) -> bool {
    match words.first() {
        Some(command) => command.as_str() == "run" || command.as_str() == "replay",
        None => false,
    }
}

/// Shows on a terminal, every second, how long the work has taken so far, and clears that line when the work ends. The
/// work ends when `ended` isn't 0. Any output that the program prints meanwhile begins at the same column as the line
/// and is longer, so it overwrites the line. The line begins with room for the `^C` that a terminal shows if the user
/// interrupts the program.
pub fn show<R: Wait, F: Write>(rt: &R, terminal: &mut F, ended: &AtomicU64) {
    for second in 1..MOST {
        ended.park_timeout(rt, 0, Duration::from_secs(1));
        if ended.load(Ordering::SeqCst) != 0 {
            if second > QUIET {
                let _ = terminal.write_all(b"\x1b[K");
            }
            return;
        }
        if second >= QUIET {
            let mut line = ArrayVec::<u8, PROGRESS_LINE>::new();
            let _ = write!(line, "   cdc6600: {second} s\r");
            let _ = terminal.write_all(line.as_slice());
        }
    }
}
