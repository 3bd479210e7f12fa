use crate::{Digit, SixBits};
use word60::Word18;

/// A register.
#[derive(Clone, Copy, Debug, PartialEq, Eq)]
pub enum Reg {
    /// X0 to X7, operands of 60 bits.
    X(Digit),
    /// A0 to A7, addresses of 18 bits.
    A(Digit),
    /// B0 to B7, indexes of 18 bits. B0 is always +0.
    B(Digit),
}

/// A functional unit, in the order of the units' numbers, 0 to 9. The units are the machine's; their numbers and their
/// order are this project's choice. No instruction of the table is issued to Add or to Multiply.
#[derive(Clone, Copy, Debug, PartialEq, Eq)]
pub enum Unit {
    Branch,
    Boolean,
    Shift,
    Add,
    LongAdd,
    Multiply1,
    Multiply2,
    Divide,
    Increment1,
    Increment2,
}

/// The kinds of unit that instructions are issued to. There are two Increment units, and one unit of each other kind.
#[derive(Clone, Copy, Debug, PartialEq, Eq)]
pub enum UnitKind {
    Branch,
    Boolean,
    Shift,
    LongAdd,
    Divide,
    Increment,
}

/// The code of an instruction, by its octal digits: f is bits 14 to 12 of its first parcel, m bits 11 to 9 and i bits 8
/// to 6.
#[derive(Clone, Copy, Debug, PartialEq, Eq)]
pub enum Op {
    /// f and m.
    Plain(Digit, Digit),
    /// f, m and i, for the codes that begin with 01 and 03.
    Extended(Digit, Digit, Digit),
}

/// The test that a branch makes of an X register. The tests for in range, out of range, definite and indefinite look at
/// its upper twelve bits, the sign and exponent of a floating-point number.
#[derive(Clone, Copy, Debug, PartialEq, Eq)]
pub enum XTest {
    /// `ZR`, 030: +0 or -0.
    Zero,
    /// `NZ`, 031: neither +0 nor -0.
    NonZero,
    /// `PL`, 032: bit 59 is 0.
    Positive,
    /// `NG`, 033: bit 59 is 1.
    Negative,
    /// `IR`, 034: neither 3777 nor 4000.
    InRange,
    /// `OR`, 035: 3777 or 4000.
    OutOfRange,
    /// `DF`, 036: neither 1777 nor 6000.
    Definite,
    /// `ID`, 037: 1777 or 6000.
    Indefinite,
}

/// The test that a branch makes of two B registers. Two values are equal if their bits are, so +0 and -0 differ. The
/// order is that of two's complement numbers of 18 bits, so +0 is above -0. Both are this project's choice.
#[derive(Clone, Copy, Debug, PartialEq, Eq)]
pub enum BTest {
    /// `EQ`, 04: the same bits.
    Equal,
    /// `NE`, 05: different bits.
    NotEqual,
    /// `GE`, 06: Bi is at least Bj.
    GreaterOrEqual,
    /// `LT`, 07: Bi is less than Bj.
    Less,
}

/// A logical operation on Xj and Xk; the last three complement Xk first.
#[derive(Clone, Copy, Debug, PartialEq, Eq)]
pub enum Logic {
    /// `Xj*Xk`, 11.
    And,
    /// `Xj+Xk`, 12.
    Or,
    /// `Xj-Xk`, 13.
    Xor,
    /// `-Xk*Xj`, 15.
    AndNot,
    /// `-Xk+Xj`, 16.
    OrNot,
    /// `-Xk-Xj`, 17.
    XorNot,
}

/// The direction of a shift. A left shift is circular; a right shift extends the sign.
#[derive(Clone, Copy, Debug, PartialEq, Eq)]
pub enum Direction {
    /// `LXi`, 20 and 22.
    Left,
    /// `AXi`, 21 and 23.
    Right,
}

/// An operation of the Long Add unit, on whole words in ones' complement.
#[derive(Clone, Copy, Debug, PartialEq, Eq)]
pub enum Addition {
    /// `Xj+Xk`, 36.
    Sum,
    /// `Xj-Xk`, 37.
    Difference,
}

/// The register that an increment instruction sets.
#[derive(Clone, Copy, Debug, PartialEq, Eq)]
pub enum Target {
    /// `SAi`, 50 to 57: Ai. If i is 1 to 5, the word at that address is loaded into Xi; if i is 6 or 7, Xi is stored
    /// there.
    A,
    /// `SBi`, 60 to 67: Bi. `SB0` sets nothing.
    B,
    /// `SXi`, 70 to 77: Xi, to the 18 bits with their sign extended.
    X,
}

/// The kind of register that K is added to. Only the low 18 bits of an X register count.
#[derive(Clone, Copy, Debug, PartialEq, Eq)]
pub enum Base {
    /// `Aj+K`: m is 0.
    A,
    /// `Bj+K`: m is 1.
    B,
    /// `Xj+K`: m is 2.
    X,
}

/// Two registers that an increment instruction adds or subtracts. Only the low 18 bits of an X register count.
#[derive(Clone, Copy, Debug, PartialEq, Eq)]
pub enum Pair {
    /// `Xj+Bk`: m is 3.
    XPlusB,
    /// `Aj+Bk`: m is 4.
    APlusB,
    /// `Aj-Bk`: m is 5.
    AMinusB,
    /// `Bj+Bk`: m is 6.
    BPlusB,
    /// `Bj-Bk`: m is 7.
    BMinusB,
}

/// The sum or difference that an increment instruction computes, in ones' complement of 18 bits.
#[derive(Clone, Copy, Debug, PartialEq, Eq)]
pub enum Addends {
    /// Register j of the kind `base`, plus the instruction's own 18 bits.
    Address {
        base: Base,
        j: Digit,
        address: Word18,
    },
    /// Register j plus or minus Bk.
    Registers {
        pair: Pair,
        j: Digit,
        k: Digit,
    },
}

/// An instruction of the table. `i`, `j` and `k` are its octal digits of those names, mostly register numbers; `to` is
/// the 18-bit address K of a branch.
///
/// Codes, names and effects are the machine's (Control Data 6400/6600 Reference Manual, publication 60100000). The
/// floating-point instructions and the manual's other codes are missing: the machine refuses them.
#[derive(Clone, Copy, Debug, PartialEq, Eq)]
pub enum Instr {
    /// `PS`, 00: the machine halts. The instruction takes one parcel, whatever the manual says of its length; this is
    /// the project's choice.
    Stop,
    /// `NO`, 46: does nothing.
    Pass,
    /// `RJ K`, 010: stores a jump back to the next word at K, and continues at K + 1.
    ReturnJump {
        to: Word18,
    },
    /// `JP Bi+K`, 02.
    Jump {
        i: Digit,
        to: Word18,
    },
    /// `ZR Xj,K` to `ID Xj,K`, 030 to 037: jumps to K if Xj passes the test.
    BranchX {
        test: XTest,
        j: Digit,
        to: Word18,
    },
    /// `EQ Bi,Bj,K` to `LT Bi,Bj,K`, 04 to 07: jumps to K if Bi and Bj pass the test.
    BranchB {
        test: BTest,
        i: Digit,
        j: Digit,
        to: Word18,
    },
    /// `BXi Xj`, 10.
    Copy {
        i: Digit,
        j: Digit,
    },
    /// `BXi -Xk`, 14: the complement of Xk.
    Invert {
        i: Digit,
        k: Digit,
    },
    /// `BXi Xj*Xk` and the like, 11 to 13 and 15 to 17.
    Logical {
        op: Logic,
        i: Digit,
        j: Digit,
        k: Digit,
    },
    /// `LXi jk` and `AXi jk`, 20 and 21: Xi shifted by jk positions, 0 to 63.
    ShiftBy {
        direction: Direction,
        i: Digit,
        count: SixBits,
    },
    /// `LXi Bj,Xk` and `AXi Bj,Xk`, 22 and 23: Xk shifted by the count in Bj, in the other direction if Bj is negative.
    ShiftNominal {
        direction: Direction,
        i: Digit,
        j: Digit,
        k: Digit,
    },
    /// `IXi Xj+Xk` and `IXi Xj-Xk`, 36 and 37.
    LongAdd {
        op: Addition,
        i: Digit,
        j: Digit,
        k: Digit,
    },
    /// `MXi jk`, 43: ones in the highest jk bits.
    Mask {
        i: Digit,
        count: SixBits,
    },
    /// `CXi Xk`, 47: the number of ones in Xk.
    CountOnes {
        i: Digit,
        k: Digit,
    },
    /// `SAi`, `SBi` and `SXi`, 50 to 77.
    Increment {
        target: Target,
        i: Digit,
        addends: Addends,
    },
}
