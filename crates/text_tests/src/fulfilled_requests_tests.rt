//! Tests of logs that fulfil the requests of their run, and of logs that don't.

use log_text::read_log;
use sequential_run::{Ask, are_fulfilled, in_order};
use std::alloc::Global;
use std::test::Fail;

/// A log, whether the run ends in the middle of a word, and whether the log fulfils the requests of the run. The run
/// starts with the package at 0. It requests the package at 20 after 4 instructions and the one at 40 after 6. At any
/// time, it also requests the package at 60 and then the one at 20.
const LOGS: [(&str, bool, bool); 24] = [
    ("E0 I4 E20 I2 E40 E60 E20 I1", false, true),
    // Each due exchange is made at the end of the word, at most three instructions later.
    ("E0 E60 E20 I7 E20 E40", false, true),
    ("E0 E60 E20 I8 E20 E40", false, false),
    ("E0 E60 E20 I3 E20 I3 E40", false, false),
    // A request at any time may be made first. The request that is due then follows at once.
    ("E0 E60 I5 E20 E20 I1 E40 I9", false, true),
    ("E0 I5 E60 E20 I1 E40 E20 I9", false, true),
    ("E0 I5 E60 I1 E20 E40 E20", false, false),
    ("E0 I5 E60 E20 E20 I1 E40", false, true),
    // Later entries show which request the first of two equal exchanges was made for.
    ("E0 E60 I4 E20 E20 I2 E40", false, true),
    ("E0 E60 I6 E20 E20 E40", false, true),
    ("E0 E60 I6 E20 E40 E20", false, true),
    ("E0 E60 I6 E20 E40", false, false),
    // An exchange is missing, doubled, out of order, with another package, or at the beginning.
    ("E0 I4 E20 I2 E60 E20", false, false),
    ("E0 I4 E20 E20 I2 E40 E60", false, false),
    ("E0 I4 E20 I2 E40 E60 E20 E20", false, false),
    ("E0 I4 E40 I2 E20 E60 E20", false, false),
    ("E0 I4 E20 I2 E40 E100 E20", false, false),
    ("E60 E0 I4 E20 I2 E40 E20", false, false),
    ("none", false, false),
    // At the end no request at any time is left, and none is due. In the middle of a word requests may still wait.
    ("E0 E60 E20 I3", false, true),
    ("E0 E60 E20 I5", false, false),
    ("E0 E60 E20 I5", true, true),
    ("E0 E60 E20 I9", true, false),
    ("E0 E60 I3", true, true),
];

/// Whether a log fulfils the requests; `None` if the text isn't that of a short log, or if memory runs out.
fn is_fulfilled(alloc: Global, asks: &[Ask], text: &str, in_mid_word: bool) -> Option<bool> {
    let Ok(Some(log)) = read_log(alloc, text) else {
        return None;
    };
    if log.issues() < 100 {
        are_fulfilled(alloc, asks, [0o60, 0o20].as_slice(), in_mid_word, &log).ok()
    } else {
        None
    }
}

#[test]
fn fulfilled_requests(rt: HostRuntime) -> Result<(), Fail> {
    let asks = in_order(rt.alloc(), 0, [(0o20, 4), (0o40, 6)].as_slice())?;
    for (text, in_mid_word, wanted) in &LOGS {
        let answer = is_fulfilled(rt.alloc(), asks.as_slice(), text, *in_mid_word);
        assert!(rt; answer == Some(*wanted), "{text}");
    }
    Ok(())
}
