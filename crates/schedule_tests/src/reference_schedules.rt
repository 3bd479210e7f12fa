//! Worked schedules with references and peripheral accesses.

use super::dump::Dump;
use super::schedule::Schedule;

pub const SCHEDULES: [Schedule; 7] = [
    Schedule {
        name: "a load waits for the turn, the place and the bank of a store to its word",
        deck: "\
            core 256\n\
            at 41\n\
            word 00000100000000000010\n\
            word 00000020000000000000\n\
            at 55\n\
            word 7\n\
            at 100\n\
            word 10650516000001056110\n\
            start 40\n\
            show 110 110\n\
            end\n",
        budget: 1_000_000,
        steps: &[
            ("ask 40", "ok"),
            ("exchange", "ok"),
            ("issue", "ok boolean 1"),
            ("issue", "ok increment1 2"),
            ("issue", "ok increment2 3"),
            ("read increment2", "ok"),
            ("finish increment2", "ok"),
            ("store increment2", "E12 out of turn"),
            ("read increment1", "E9 operand awaited X6"),
            ("read boolean", "ok"),
            ("finish boolean", "ok"),
            ("store boolean", "ok"),
            ("read increment1", "ok"),
            ("finish increment1", "ok"),
            ("store increment1", "ok"),
            ("store increment2", "ok"),
            ("accept 1", "E14 older at address"),
            ("accept 0", "ok"),
            ("accept 1", "E13 bank busy 8"),
            ("bank 8", "ok"),
            ("accept 1", "ok"),
            ("return 1", "ok"),
        ],
        left: 0,
        dump: Dump {
            begins: "\
                P 000001 PARCEL 0 HELD none\n\
                HALT running FAULT none\n\
                RA 000100 FL 000020 EM 000000\n",
            registers: &[
                ("A1", "10"),
                ("A6", "10"),
                ("B1", "10"),
                ("X1", "7"),
                ("X5", "7"),
                ("X6", "7"),
            ],
            shows: "M 000110 00000000000000000007\n",
            log: "E40 I3",
        },
        memory: &[(0o100, "10650516000001056110"), (0o110, "7")],
    },
    Schedule {
        name: "an instruction is issued while a store waits in the hopper",
        deck: "\
            core 256\n\
            at 41\n\
            word 00000100000000000000\n\
            word 00000020000000000000\n\
            at 56\n\
            word 7\n\
            at 100\n\
            word 51600000100000000000\n\
            start 40\n\
            show 110 110\n\
            end\n",
        budget: 1_000_000,
        steps: &[
            ("ask 40", "ok"),
            ("exchange", "ok"),
            ("issue", "ok increment1 1"),
            ("read increment1", "ok"),
            ("finish increment1", "ok"),
            ("store increment1", "ok"),
            ("issue", "ok"),
            ("accept 0", "ok"),
        ],
        left: 0,
        dump: Dump {
            begins: "\
                P 000000 PARCEL 2 HELD 51600000100000000000\n\
                HALT stop FAULT none\n\
                RA 000100 FL 000020 EM 000000\n",
            registers: &[("A6", "10"), ("X6", "7")],
            shows: "M 000110 00000000000000000007\n",
            log: "E40 I2",
        },
        memory: &[(0o100, "51600000100000000000"), (0o110, "7")],
    },
    Schedule {
        name: "a peripheral processor waits for a store, and then reads and writes its word",
        deck: "\
            core 256\n\
            at 41\n\
            word 00000100000000000000\n\
            word 00000020000000000000\n\
            at 56\n\
            word 7\n\
            at 100\n\
            word 51600000100000000000\n\
            start 40\n\
            show 110 110\n\
            end\n",
        budget: 1_000_000,
        steps: &[
            ("ask 40", "ok"),
            ("exchange", "ok"),
            ("issue", "ok increment1 1"),
            ("ppread 110", "E26 peripheral waits"),
            ("read increment1", "ok"),
            ("finish increment1", "ok"),
            ("store increment1", "ok"),
            ("ppread 110", "E26 peripheral waits"),
            ("ppread 111", "ok 00000000000000000000"),
            ("accept 0", "ok"),
            ("ppread 110", "ok 00000000000000000007"),
            ("ppwrite 110 5", "ok"),
            ("ppread 400", "E27 peripheral range"),
        ],
        left: 0,
        dump: Dump {
            begins: "\
                P 000000 PARCEL 2 HELD 51600000100000000000\n\
                HALT running FAULT none\n\
                RA 000100 FL 000020 EM 000000\n",
            registers: &[("A6", "10"), ("X6", "7")],
            shows: "M 000110 00000000000000000005\n",
            log: "E40 I1 R111 R110 W110=5",
        },
        memory: &[(0o100, "51600000100000000000"), (0o110, "5")],
    },
    Schedule {
        name: "a return jump out of range is a fault",
        deck: "\
            core 256\n\
            at 40\n\
            word 00000004000000000000\n\
            word 00000100000000000000\n\
            word 00000020000000000000\n\
            word 00010000000000000000\n\
            at 104\n\
            word 01000000204600046000\n\
            at 120\n\
            word 5\n\
            start 40\n\
            show 120 120\n\
            end\n",
        budget: 1_000_000,
        steps: &[
            ("ask 40", "ok"),
            ("exchange", "ok"),
            ("issue", "ok branch 1"),
            ("issue", "E4 branch pending"),
            ("read branch", "ok"),
            ("finish branch", "ok"),
            ("store branch", "ok"),
            ("accept 0", "E15 nothing"),
            ("issue", "E2 faulted"),
        ],
        left: 0,
        dump: Dump {
            begins: "\
                P 000021 PARCEL 0 HELD none\n\
                HALT running FAULT address\n\
                RA 000100 FL 000020 EM 010000\n",
            registers: &[],
            shows: "M 000120 00000000000000000005\n",
            log: "E40 I1",
        },
        memory: &[(0o104, "01000000204600046000"), (0o120, "5")],
    },
    Schedule {
        name: "an exchange that is asked for while loads are on their way",
        deck: "\
            core 256\n\
            at 41\n\
            word 00000100000000000010\n\
            word 00000020000000000011\n\
            at 51\n\
            word 5\n\
            at 60\n\
            word 00000001000000000000\n\
            word 00000100000000000000\n\
            word 00000020000000000000\n\
            at 100\n\
            word 56210113125612046000\n\
            at 110\n\
            word 6\n\
            word 3\n\
            start 40\n\
            end\n",
        budget: 1_000_000,
        steps: &[
            ("ask 40", "ok"),
            ("exchange", "ok"),
            ("issue", "ok increment1 1"),
            ("ask 60", "ok"),
            ("ask 60", "E17 exchange busy"),
            ("issue", "ok boolean 2"),
            ("issue", "ok increment2 3"),
            ("issue", "ok"),
            ("issue", "E5 exchange waiting"),
            ("exchange", "E18 not drained"),
            ("read increment2", "ok"),
            ("finish increment2", "ok"),
            ("store increment2", "E12 out of turn"),
            ("read increment1", "ok"),
            ("finish increment1", "ok"),
            ("store increment1", "ok"),
            ("store increment2", "ok"),
            ("accept 1", "ok"),
            ("return 1", "E10 result held X1"),
            ("accept 0", "ok"),
            ("return 2", "ok"),
            ("read boolean", "ok"),
            ("return 1", "ok"),
            ("finish boolean", "ok"),
            ("store boolean", "ok"),
            ("exchange", "ok"),
            ("issue", "ok"),
        ],
        left: 0,
        dump: Dump {
            begins: "\
                P 000001 PARCEL 0 HELD 00000000000000000000\n\
                HALT stop FAULT none\n\
                RA 000100 FL 000020 EM 000000\n",
            registers: &[],
            shows: "",
            log: "E40 I4 E60 I1",
        },
        memory: &[
            (0o60, "00000001000000000000"),
            (0o61, "00000100000011000010"),
            (0o62, "00000020000010000011"),
            (0o71, "3"),
            (0o72, "6"),
            (0o73, "4"),
            (0o100, "56210113125612046000"),
            (0o110, "6"),
            (0o111, "3"),
        ],
    },
    Schedule {
        name: "a load waits for its bank, and a drain frees that bank alone",
        deck: "\
            core 256\n\
            at 41\n\
            word 00000100000000000000\n\
            word 00000060000000000000\n\
            at 100\n\
            word 51100000105120000050\n\
            word 51300000370000000000\n\
            at 110\n\
            word 1\n\
            at 137\n\
            word 3\n\
            at 150\n\
            word 2\n\
            start 40\n\
            end\n",
        budget: 1_000_000,
        steps: &[
            ("ask 40", "ok"),
            ("exchange", "ok"),
            ("issue", "ok increment1 1"),
            ("issue", "ok increment2 2"),
            ("read increment1", "ok"),
            ("finish increment1", "ok"),
            ("store increment1", "ok"),
            ("read increment2", "ok"),
            ("finish increment2", "ok"),
            ("store increment2", "ok"),
            ("issue", "ok increment1 3"),
            ("read increment1", "ok"),
            ("finish increment1", "ok"),
            ("store increment1", "ok"),
            ("accept 2", "ok"),
            ("accept 0", "ok"),
            ("accept 1", "E13 bank busy 8"),
        ],
        left: 5,
        dump: Dump {
            begins: "\
                P 000001 PARCEL 2 HELD 51300000370000000000\n\
                HALT running FAULT none\n\
                RA 000100 FL 000060 EM 000000\n",
            registers: &[
                ("A1", "10"),
                ("A2", "50"),
                ("A3", "37"),
                ("X1", "1"),
                ("X2", "2"),
                ("X3", "3"),
            ],
            shows: "",
            log: "E40 I3",
        },
        memory: &[
            (0o100, "51100000105120000050"),
            (0o101, "51300000370000000000"),
            (0o110, "1"),
            (0o137, "3"),
            (0o150, "2"),
        ],
    },
    Schedule {
        name: "an exchange and a peripheral write change pages that nothing has changed before",
        deck: "\
            core 1024\n\
            at 371\n\
            word 00000100000000000000\n\
            word 00000020000000000000\n\
            at 406\n\
            word 7\n\
            start 370\n\
            end\n",
        budget: 1_000_000,
        steps: &[
            ("ask 370", "ok"),
            ("exchange", "ok"),
            ("ppwrite 1000 5", "ok"),
        ],
        left: 0,
        dump: Dump {
            begins: "\
                P 000000 PARCEL 0 HELD none\n\
                HALT running FAULT none\n\
                RA 000100 FL 000020 EM 000000\n",
            registers: &[("X6", "7")],
            shows: "",
            log: "E370 W1000=5",
        },
        memory: &[(0o47, "0"), (0o377, "00000001000000000000"), (0o1000, "5")],
    },
];
