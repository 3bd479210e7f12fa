//! The limits of a machine, which decks, schedules and logs share. How much it may do is this project's choice. The
//! limits of memory are in `relocation`, those of the hopper in `hopper`, those of a text in `device_text` and `deck`.
//! Definitions and contracts name a limit by its digits, so a wrong constant is refused.
ghost use Rattle.std.specs.Prelude.{◌≡◌};

/// The largest number of instructions that a machine may issue, so the largest budget.
pub const MOST_ISSUES: u64 = 10_000_000;

/// The largest number of requests for an exchange that a machine accepts.
pub const MOST_REQUESTS: u32 = 1_000_000;

/// The largest number of peripheral accesses that a machine makes.
pub const MOST_ACCESSES: u32 = 1_000_000;

/// The number of the first load channel. A channel has the number of the X register that its loads set, 1 to 5.
pub const FIRST_CHANNEL: u8 = 1;

/// The number after that of the last load channel.
pub const PAST_CHANNELS: u8 = 6;

/// The constants have the values that the definitions name. This function does nothing at run time: a caller uses its
/// contract.
pub fn limits_have_their_values()
    ensures issues { MOST_ISSUES ≡ 10000000 }
    ensures requests { MOST_REQUESTS ≡ 1000000 }
    ensures accesses { MOST_ACCESSES ≡ 1000000 }
{}
