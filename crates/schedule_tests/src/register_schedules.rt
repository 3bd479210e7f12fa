//! Worked schedules of instructions that make no reference.

use super::dump::Dump;
use super::schedule::Schedule;

pub const SCHEDULES: [Schedule; 8] = [
    Schedule {
        name: "a sum waits for its operands, and no second Long Add unit is there",
        deck: "\
            core 256\n\
            at 41\n\
            word 00000100000000000000\n\
            word 00000020000000000000\n\
            at 100\n\
            word 71100000057120000003\n\
            word 36312374214600000000\n\
            start 40\n\
            end\n",
        budget: 1_000_000,
        steps: &[
            ("ask 40", "ok"),
            ("exchange", "ok"),
            ("issue", "ok increment1 1"),
            ("issue", "ok increment2 2"),
            ("issue", "ok longadd 3"),
            ("issue", "E7 unit busy longadd"),
            ("read longadd", "E9 operand awaited X1"),
        ],
        left: 9,
        dump: Dump {
            begins: "\
                P 000001 PARCEL 1 HELD 36312374214600000000\n\
                HALT running FAULT none\n\
                RA 000100 FL 000020 EM 000000\n",
            registers: &[("X1", "5"), ("X2", "3"), ("X3", "10")],
            shows: "",
            log: "E40 I3",
        },
        memory: &[
            (0o100, "71100000057120000003"),
            (0o101, "36312374214600000000"),
        ],
    },
    Schedule {
        name: "two sums from boot to the stop, and what is refused on the way",
        deck: "\
            core 256\n\
            at 41\n\
            word 00000100000000000000\n\
            word 00000020000000000000\n\
            at 100\n\
            word 71100000057120000003\n\
            word 36312374214600000000\n\
            start 40\n\
            end\n",
        budget: 1_000_000,
        steps: &[
            ("issue", "E1 halted stop"),
            ("exchange", "E15 nothing"),
            ("ask 361", "E19 package range"),
            ("ask 40", "ok"),
            ("ask 60", "E17 exchange busy"),
            ("exchange", "ok"),
            ("issue", "ok increment1 1"),
            ("issue", "ok increment2 2"),
            ("issue", "ok longadd 3"),
            ("issue", "E7 unit busy longadd"),
            ("read longadd", "E9 operand awaited X1"),
            ("read increment1", "ok"),
            ("finish increment1", "ok"),
            ("store increment1", "ok"),
            ("read increment2", "ok"),
            ("finish increment2", "ok"),
            ("store increment2", "ok"),
            ("read longadd", "ok"),
            ("finish longadd", "ok"),
            ("store longadd", "ok"),
            ("ask 60", "ok"),
            ("exchange", "E25 mid word"),
            ("issue", "ok longadd 4"),
            ("exchange", "E18 not drained"),
            ("read longadd", "ok"),
            ("finish longadd", "ok"),
            ("store longadd", "ok"),
            ("issue", "ok"),
            ("issue", "ok"),
            ("issue", "E1 halted stop"),
            ("accept 0", "E15 nothing"),
            ("return 1", "E15 nothing"),
            ("bank 31", "E15 nothing"),
        ],
        left: 0,
        dump: Dump {
            begins: "\
                P 000001 PARCEL 3 HELD 36312374214600000000\n\
                HALT stop FAULT none\n\
                RA 000100 FL 000020 EM 000000\n",
            registers: &[
                ("X1", "5"),
                ("X2", "3"),
                ("X3", "10"),
                ("X4", "77777777777777777775"),
            ],
            shows: "",
            log: "E40 I6",
        },
        memory: &[
            (0o100, "71100000057120000003"),
            (0o101, "36312374214600000000"),
        ],
    },
    Schedule {
        name: "an exchange that is asked for in the middle of a word waits until no word is held",
        deck: "\
            core 256\n\
            at 41\n\
            word 00000100000000000000\n\
            word 00000020000000000000\n\
            at 100\n\
            word 71100000057120000003\n\
            start 40\n\
            end\n",
        budget: 1_000_000,
        steps: &[
            ("ask 40", "ok"),
            ("exchange", "ok"),
            ("issue", "ok increment1 1"),
            ("read increment1", "ok"),
            ("finish increment1", "ok"),
            ("store increment1", "ok"),
            ("ask 60", "ok"),
            ("exchange", "E25 mid word"),
            ("issue", "ok increment1 2"),
            ("issue", "E5 exchange waiting"),
        ],
        left: 3,
        dump: Dump {
            begins: "\
                P 000001 PARCEL 0 HELD none\n\
                HALT running FAULT none\n\
                RA 000100 FL 000020 EM 000000\n",
            registers: &[("X1", "5"), ("X2", "3")],
            shows: "",
            log: "E40 I2",
        },
        memory: &[(0o100, "71100000057120000003")],
    },
    Schedule {
        name: "of a spent budget and a halt the halt is answered",
        deck: "\
            core 256\n\
            at 41\n\
            word 00000100000000000000\n\
            word 00000020000000000000\n\
            at 100\n\
            word 46000300000000000000\n\
            word 0\n\
            start 40\n\
            end\n",
        budget: 2,
        steps: &[
            ("ask 40", "ok"),
            ("exchange", "ok"),
            ("issue", "ok"),
            ("issue", "ok"),
            ("issue", "E1 halted illegal 30"),
        ],
        left: 0,
        dump: Dump {
            begins: "\
                P 000000 PARCEL 1 HELD 46000300000000000000\n\
                HALT illegal 30 FAULT none\n\
                RA 000100 FL 000020 EM 000000\n",
            registers: &[],
            shows: "",
            log: "E40 I2",
        },
        memory: &[(0o100, "46000300000000000000")],
    },
    Schedule {
        name: "the budget is the number of instructions that are issued",
        deck: "\
            core 256\n\
            at 41\n\
            word 00000100000000000000\n\
            word 00000020000000000000\n\
            at 100\n\
            word 46000460004600046000\n\
            word 0\n\
            start 40\n\
            end\n",
        budget: 1,
        steps: &[
            ("ask 40", "ok"),
            ("exchange", "ok"),
            ("issue", "ok"),
            ("issue", "E3 budget"),
        ],
        left: 0,
        dump: Dump {
            begins: "\
                P 000000 PARCEL 1 HELD 46000460004600046000\n\
                HALT running FAULT none\n\
                RA 000100 FL 000020 EM 000000\n",
            registers: &[],
            shows: "",
            log: "E40 I1",
        },
        memory: &[(0o100, "46000460004600046000")],
    },
    Schedule {
        name: "a refused opcode halts while a shift is still to come",
        deck: "\
            core 256\n\
            at 41\n\
            word 00000100000000000000\n\
            word 00000020000000000000\n\
            at 100\n\
            word 20301301234600046000\n\
            word 0\n\
            start 40\n\
            end\n",
        budget: 1_000_000,
        steps: &[
            ("ask 40", "ok"),
            ("exchange", "ok"),
            ("issue", "ok shift 1"),
            ("issue", "ok"),
            ("issue", "E1 halted illegal 30"),
        ],
        left: 3,
        dump: Dump {
            begins: "\
                P 000000 PARCEL 1 HELD 20301301234600046000\n\
                HALT illegal 30 FAULT none\n\
                RA 000100 FL 000020 EM 000000\n",
            registers: &[],
            shows: "",
            log: "E40 I2",
        },
        memory: &[(0o100, "20301301234600046000")],
    },
    Schedule {
        name: "ZR of -0 jumps",
        deck: "\
            core 256\n\
            at 41\n\
            word 00000100000000000000\n\
            word 00000020000000000000\n\
            at 51\n\
            word 77777777777777777777\n\
            at 100\n\
            word 03010000024600046000\n\
            start 40\n\
            end\n",
        budget: 1_000_000,
        steps: &[
            ("ask 40", "ok"),
            ("exchange", "ok"),
            ("issue", "ok branch 1"),
        ],
        left: 3,
        dump: Dump {
            begins: "\
                P 000002 PARCEL 0 HELD none\n\
                HALT running FAULT none\n\
                RA 000100 FL 000020 EM 000000\n",
            registers: &[("X1", "77777777777777777777")],
            shows: "",
            log: "E40 I1",
        },
        memory: &[(0o100, "03010000024600046000")],
    },
    Schedule {
        name: "EQ of +0 and -0 goes on, and GE jumps",
        deck: "\
            core 256\n\
            at 41\n\
            word 00000100000000000000\n\
            word 00000020000000777777\n\
            at 100\n\
            word 04020000100602000010\n\
            start 40\n\
            end\n",
        budget: 1_000_000,
        steps: &[
            ("ask 40", "ok"),
            ("exchange", "ok"),
            ("issue", "ok branch 1"),
            ("read branch", "ok"),
            ("finish branch", "ok"),
            ("store branch", "ok"),
            ("issue", "ok branch 2"),
            ("read branch", "ok"),
            ("finish branch", "ok"),
            ("store branch", "ok"),
            ("issue", "ok"),
        ],
        left: 0,
        dump: Dump {
            begins: "\
                P 000010 PARCEL 0 HELD 00000000000000000000\n\
                HALT stop FAULT none\n\
                RA 000100 FL 000020 EM 000000\n",
            registers: &[("B2", "777777")],
            shows: "",
            log: "E40 I3",
        },
        memory: &[(0o100, "04020000100602000010")],
    },
];
