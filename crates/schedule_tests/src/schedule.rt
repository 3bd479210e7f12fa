//! The data of a worked schedule. The schedules are in register_schedules.rt and reference_schedules.rt.
//! `schedule_tests` makes each schedule in every way of making events, and `tools/check decks` gives them to the
//! program.

use super::dump::Dump;

/// Events from boot on, their answers, and the final state of the machine.
#[derive(Clone, Copy, Drop)]
pub struct Schedule {
    /// The subject of the schedule.
    pub name: &'static str,
    /// The deck with whose memory the machine is booted.
    pub deck: &'static str,
    /// The number of instructions that the machine may issue.
    pub budget: u64,
    /// The lines of events, each with the line of its answer.
    pub steps: &'static [(&'static str, &'static str)],
    /// The number of events that a drain makes after them.
    pub left: u32,
    /// The dump of the drained machine.
    pub dump: Dump<'static>,
    /// The words of the drained machine's memory that aren't +0, except for the status of the booted machine at 47
    /// (octal).
    pub memory: &'static [(u32, &'static str)],
}
