//! Programs for which the machine and the machine as a list are given the same generated events.

use crate::list_machine::{Program, accepted};
use std::process::Abort;
use std::test::Fail;

/// EQ B0,B0,0 after a program, so that the program repeats.
const AGAIN: &str = "04000000004600046000";

/// Programs with each kind of conflict, which repeat.
const CONFLICTS: [Program; 6] = [
    // SA1 B0+17, BX3 X1*X2 and SX2 B1+B2: third order.
    Program {
        name: "held_results",
        words: &[
            (0o41, "00000100000000000003"),
            (0o42, "00000020000000000004"),
            (0o52, "12"),
            (0o100, "51100000171131276212"),
            (0o101, AGAIN),
            (0o117, "14"),
        ],
        rounds: 1,
        events: 20_000,
        package: None,
        accepted: [176, 176, 176, 176, 44, 44, 43, 1, 1],
    },
    // BX6 X5, SA6 B0+10 and SA1 B1+B0 with B1 = 10: a store and a load of the same word.
    Program {
        name: "store_and_load",
        words: &[
            (0o41, "00000100000000000010"),
            (0o55, "7"),
            (0o100, "10650516000001056110"),
            (0o101, AGAIN),
        ],
        rounds: 1,
        events: 20_000,
        package: None,
        accepted: [131, 131, 131, 131, 66, 33, 65, 1, 1],
    },
    // SA6 B1+B0 writes the next word of the program, which ends in EQ B0,B0,0, and SA7 B0+B0 the word that is held, as
    // it is.
    Program {
        name: "stores_to_code",
        words: &[
            (0o41, "00000100000000000001"),
            (0o56, "76211040000000046000"),
            (0o57, "56610567007611046000"),
            (0o100, "56610567007611046000"),
        ],
        rounds: 1,
        events: 20_000,
        package: None,
        accepted: [214, 178, 178, 178, 72, 0, 71, 1, 1],
    },
    // SA2 B1+B0, BX3 X1*X2, SA1 B2+B0 and NO, and a package at 60 that continues at word 2 with SA3 B0+10 and a stop.
    // The exchange with it is asked for in the middle of words and while loads are pending; it is made there and back.
    Program {
        name: "exchange_asked_in_mid_word",
        words: &[
            (0o41, "00000100000000000010"),
            (0o42, "00000020000000000011"),
            (0o51, "5"),
            (0o60, "00000002000000000000"),
            (0o61, "00000100000000000000"),
            (0o62, "00000020000000000000"),
            (0o100, "56210113125612046000"),
            (0o101, AGAIN),
            (0o102, "51300000100000000000"),
            (0o110, "6"),
            (0o111, "3"),
        ],
        rounds: 1,
        events: 20_000,
        package: Some(0o60),
        accepted: [145, 104, 104, 104, 62, 62, 62, 42, 41],
    },
    // Loads of one word into X1 to X5: they wait for their bank, and not for the loads before them.
    Program {
        name: "one_bank",
        words: &[
            (0o100, "51100000105120000010"),
            (0o101, "51300000105140000010"),
            (0o102, "51500000104600046000"),
            (0o103, AGAIN),
            (0o110, "11"),
        ],
        rounds: 1,
        events: 20_000,
        package: None,
        accepted: [225, 169, 169, 169, 141, 141, 140, 1, 1],
    },
    // SA1 B0+17, and SA2 B0+20 out of range, which is a fault. Exchanges with the first package alternate between a
    // booted machine, whose fetch is out of range, and the program.
    Program {
        name: "address_fault",
        words: &[
            (0o43, "00010000000000000000"),
            (0o100, "51100000175120000020"),
            (0o101, AGAIN),
            (0o117, "123"),
        ],
        rounds: 1,
        events: 20_000,
        package: Some(0o40),
        accepted: [139, 105, 105, 105, 35, 70, 34, 69, 69],
    },
];

/// The programs of the folder decks/run/.
///
/// The words are those that the deck of that name places in memory; a hyphen of the name is `_` here, and
/// `loop_deck` has the words of loop.deck. decks/README.md says what each deck shows. This prints the lines of a
/// program:
///
///     ./cdc6600 list < decks/run/NAME.deck | sed -E 's/^0*([0-7]+) ([0-7]+) .*/(0o\1, "\2"),/'
///
/// two-adds-code.deck has the words of two-adds.deck.
///
/// The counts are those of all ten rounds, in the order of `Event`. If no exchange is asked for in between, each round
/// reaches the program's end. The first count is then ten times the number after `I` in the log of the deck's dump:
/// decks/run/two-adds.dump has `LOG E40 I6`. The program of endless.deck has no end.
const DECKS: [Program; 18] = [
    // A sum and a difference.
    Program {
        name: "two_adds",
        words: &[
            (0o40, "00000000000000000000"),
            (0o41, "00000100000000000000"),
            (0o42, "00000020000000000000"),
            (0o100, "71100000057120000003"),
            (0o101, "36312374214600000000"),
        ],
        rounds: 10,
        events: 4_000,
        package: None,
        accepted: [60, 40, 40, 40, 0, 0, 0, 10, 10],
    },
    // The eight instructions of the Boolean unit.
    Program {
        name: "boolean",
        words: &[
            (0o41, "00000100000000000000"),
            (0o42, "00000020000000000000"),
            (0o51, "00000000000077777777"),
            (0o52, "00000000777700007777"),
            (0o100, "10310114121251213612"),
            (0o101, "14702150121611217212"),
            (0o102, "00000460004600046000"),
        ],
        rounds: 10,
        events: 4_000,
        package: None,
        accepted: [90, 80, 80, 80, 0, 0, 0, 10, 10],
    },
    // Rotations, right shifts and a mask.
    Program {
        name: "shift",
        words: &[
            (0o41, "00000100000000000077"),
            (0o42, "00000020000000777774"),
            (0o43, "00000000000000000100"),
            (0o51, "00000000000000000001"),
            (0o52, "40000000000000000000"),
            (0o53, "40000000000000000000"),
            (0o100, "20177212042242323523"),
            (0o101, "23613237332233343036"),
            (0o102, "00000460004600046000"),
        ],
        rounds: 10,
        events: 4_000,
        package: None,
        accepted: [90, 80, 80, 80, 0, 0, 0, 10, 10],
    },
    // Sums and differences with +0 and -0.
    Program {
        name: "long_add",
        words: &[
            (0o41, "00000100000000000000"),
            (0o42, "00000020000000000000"),
            (0o51, "00000000000000000005"),
            (0o52, "77777777777777777772"),
            (0o55, "77777777777777777777"),
            (0o100, "36312374113665036555"),
            (0o101, "37721360114600000000"),
        ],
        rounds: 10,
        events: 4_000,
        package: None,
        accepted: [80, 60, 60, 60, 0, 0, 0, 10, 10],
    },
    // Counts of ones.
    Program {
        name: "divide",
        words: &[
            (0o41, "00000100000000000000"),
            (0o42, "00000020000000000000"),
            (0o52, "77777777770000000000"),
            (0o53, "77777777777777777777"),
            (0o54, "52525252525252525252"),
            (0o100, "47102475034760447700"),
            (0o101, "00000460004600046000"),
        ],
        rounds: 10,
        events: 4_000,
        package: None,
        accepted: [50, 40, 40, 40, 0, 0, 0, 10, 10],
    },
    // All forms of addition, for two Increment units.
    Program {
        name: "increment",
        words: &[
            (0o40, "00000000000000000000"),
            (0o41, "00000100000020000003"),
            (0o42, "00000040777775000005"),
            (0o51, "77777777777777400001"),
            (0o100, "70210000107131777776"),
            (0o101, "72410000077351174611"),
            (0o102, "75711760127711263350"),
            (0o103, "64420655126661267712"),
            (0o104, "66012601000001746000"),
            (0o105, "62210000175001000001"),
            (0o106, "54004611100000300000"),
        ],
        rounds: 10,
        events: 4_000,
        package: None,
        accepted: [210, 190, 190, 190, 0, 0, 0, 10, 10],
    },
    // A load, and a store of its sum.
    Program {
        name: "load_store",
        words: &[
            (0o41, "00000100000000000000"),
            (0o42, "00000040000000000000"),
            (0o100, "51100000207120000003"),
            (0o101, "36612506100000100000"),
            (0o120, "00000000000000001234"),
        ],
        rounds: 10,
        events: 4_000,
        package: None,
        accepted: [50, 40, 40, 40, 20, 10, 20, 10, 10],
    },
    // A loop that sums a table in five turns.
    Program {
        name: "loop_deck",
        words: &[
            (0o41, "00000100000000000000"),
            (0o42, "00000040000000000000"),
            (0o100, "61100000056120000001"),
            (0o101, "51110000173666167112"),
            (0o102, "05100000015160000030"),
            (0o103, "00000460004600046000"),
            (0o120, "00000000000000000001"),
            (0o121, "00000000000000000020"),
            (0o122, "00000000000000000300"),
            (0o123, "00000000000000004000"),
            (0o124, "00000000000000050000"),
        ],
        rounds: 10,
        events: 4_000,
        package: None,
        accepted: [240, 230, 230, 230, 60, 50, 59, 10, 10],
    },
    // Two return jumps, which store into the code that runs next.
    Program {
        name: "subroutine",
        words: &[
            (0o41, "00000100000000000000"),
            (0o42, "00000040000000000000"),
            (0o100, "71100000030100000010"),
            (0o101, "71200000070100000010"),
            (0o102, "00000460004600046000"),
            (0o111, "36111040000001046000"),
        ],
        rounds: 10,
        events: 4_000,
        package: None,
        accepted: [110, 100, 100, 100, 20, 0, 20, 10, 10],
    },
    // A store out of range is a fault, and nothing more is issued.
    Program {
        name: "address_fault",
        words: &[
            (0o41, "00000100000000000000"),
            (0o42, "00000040000000000000"),
            (0o43, "00010000000000000000"),
            (0o100, "71600000055160000040"),
            (0o101, "71100000010000046000"),
        ],
        rounds: 10,
        events: 4_000,
        package: None,
        accepted: [20, 20, 20, 20, 0, 0, 0, 10, 10],
    },
    // The same store out of range, with an exit mode in which it is no fault.
    Program {
        name: "fault_mode_off",
        words: &[
            (0o41, "00000100000000000000"),
            (0o42, "00000040000000000000"),
            (0o100, "71600000055160000040"),
            (0o101, "71100000010000046000"),
        ],
        rounds: 10,
        events: 4_000,
        package: None,
        accepted: [40, 30, 30, 30, 0, 0, 0, 10, 10],
    },
    // A fetch out of range halts.
    Program {
        name: "fetch_range",
        words: &[
            (0o41, "00000100000000000000"),
            (0o42, "00000002000000000000"),
            (0o100, "71100000017120000002"),
            (0o101, "71300000037140000004"),
            (0o102, "71500000050000046000"),
        ],
        rounds: 10,
        events: 4_000,
        package: None,
        accepted: [50, 40, 40, 40, 0, 0, 0, 10, 10],
    },
    // A refused opcode halts.
    Program {
        name: "illegal_opcode",
        words: &[
            (0o41, "00000100000000000000"),
            (0o42, "00000040000000000000"),
            (0o51, "00000000000000000005"),
            (0o100, "20101303114600046000"),
        ],
        rounds: 10,
        events: 4_000,
        package: None,
        accepted: [20, 10, 10, 10, 0, 0, 0, 10, 10],
    },
    // Two instructions that repeat for ever.
    Program {
        name: "endless",
        words: &[
            (0o41, "00000100000000000000"),
            (0o42, "00000020000000000000"),
            (0o52, "00000000000000000001"),
            (0o100, "36112040000000046000"),
        ],
        rounds: 10,
        events: 4_000,
        package: None,
        accepted: [308, 308, 308, 308, 0, 0, 0, 10, 10],
    },
    // An instruction across the end of its word halts.
    Program {
        name: "straddle",
        words: &[
            (0o41, "00000100000000000000"),
            (0o42, "00000040000000000000"),
            (0o51, "00000000000000000005"),
            (0o100, "46000361114600071100"),
            (0o101, "00005000000000000000"),
        ],
        rounds: 10,
        events: 4_000,
        package: None,
        accepted: [40, 10, 10, 10, 0, 0, 0, 10, 10],
    },
    // A monitor and two endless jobs: the monitor is exchanged for the first job and back.
    Program {
        name: "two_jobs",
        words: &[
            (0o41, "00000200000000000000"),
            (0o42, "00000020000000000000"),
            (0o61, "00000220000000000000"),
            (0o62, "00000020000000000000"),
            (0o101, "00000240000000000000"),
            (0o102, "00000020000000000000"),
            (0o200, "72110000014600046000"),
            (0o201, "72110000014600046000"),
            (0o202, "72110000014600046000"),
            (0o203, "72110000014600046000"),
            (0o204, "00000460004600046000"),
            (0o220, "72110000010400000000"),
            (0o240, "72110000100400000000"),
        ],
        rounds: 10,
        events: 4_000,
        package: Some(0o60),
        accepted: [367, 222, 222, 222, 0, 0, 0, 183, 178],
    },
    // A monitor and two endless jobs: the monitor is exchanged for the second job and back.
    Program {
        name: "two_jobs",
        words: &[
            (0o41, "00000200000000000000"),
            (0o42, "00000020000000000000"),
            (0o61, "00000220000000000000"),
            (0o62, "00000020000000000000"),
            (0o101, "00000240000000000000"),
            (0o102, "00000020000000000000"),
            (0o200, "72110000014600046000"),
            (0o201, "72110000014600046000"),
            (0o202, "72110000014600046000"),
            (0o203, "72110000014600046000"),
            (0o204, "00000460004600046000"),
            (0o220, "72110000010400000000"),
            (0o240, "72110000100400000000"),
        ],
        rounds: 10,
        events: 4_000,
        package: Some(0o100),
        accepted: [367, 222, 222, 222, 0, 0, 0, 183, 178],
    },
    // A job with a fault and a monitor, exchanged for each other.
    Program {
        name: "faulted_job",
        words: &[
            (0o0, "51100000672114410610"),
            (0o1, "51600003000000046000"),
            (0o41, "00000200000000000000"),
            (0o42, "00000020000000000000"),
            (0o43, "00010000000000000000"),
            (0o61, "00000000000000000000"),
            (0o62, "00000400000000000000"),
            (0o200, "71600000075160000020"),
        ],
        rounds: 10,
        events: 4_000,
        package: Some(0o60),
        accepted: [279, 126, 126, 126, 86, 10, 77, 177, 173],
    },
];

/// Both machines give the same answers, and accept as many events of each kind as the program states.
fn check_program(rt: &(impl Abort + AllocGlobal), program: &Program) -> Result<(), Fail> {
    assert_eq!(rt;
        accepted(rt.alloc(), program),
        Some(program.accepted),
        "{}",
        program.name
    );
    Ok(())
}

#[test]
fn conflicts(rt: HostRuntime) -> Result<(), Fail> {
    for program in &CONFLICTS {
        check_program(&rt, program)?;
    }
    Ok(())
}

#[test]
fn decks(rt: HostRuntime) -> Result<(), Fail> {
    for program in &DECKS {
        check_program(&rt, program)?;
    }
    Ok(())
}
