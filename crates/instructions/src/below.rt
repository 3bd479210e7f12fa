ghost use Rattle.std.specs.Prelude.{◌≡◌, ◌<◌, ◌+◌, ◌*◌, ◌%◌, SomeIff};

use std::marker::Model;

/// A number below `N`: a field of an instruction, or of its position.
#[derive(Clone, Copy, Debug, Drop, PartialEq, Eq)]
pub struct Below<const N: u8> {
    value: u8,
}

impl<const N: u8> Model for Below<N> {
    ghost use Rattle.std.specs.Prelude.{ℕ, ◌<◌};

    ghost Value = { ℕ };

    ghost view = { λ d. d.value };

    ghost invariant = { λ d. d.value < N };

    ghost inverse = { λ n. record { value = n } };
}

/// An octal digit of an instruction, 0 to 7, such as a register's number.
pub type Digit = Below<8>;

/// The digits j and k of an instruction as one number: a count of bit positions or bits, 0 to 63.
pub type SixBits = Below<64>;

/// The number of a parcel in its word, 0 to 3. Parcel 0 is the uppermost.
pub type ParcelNumber = Below<4>;

impl<const N: u8> Below<N> {
    /// Makes the number with this value, or returns `None` if the value is `N` or more.
    #[inline(always)]
    pub fn new(value: u8) -> Option<Self>
        ensures { SomeIff result (value < N) value }
    {
        if value < N {
            Some(Below { value })
        } else {
            None
        }
    }

    /// The value, below `N`.
    #[inline(always)]
    pub fn get(self) -> u8
        ensures value { result ≡ self.entry }
        ensures range { result < N }
    {
        self.value
    }
}

impl Default for Below<8> {
    ghost is_default = { λ d. d ≡ 0 };

    fn default() -> Below<8> {
        Below { value: 0 }
    }
}

impl Default for Below<4> {
    ghost is_default = { λ d. d ≡ 0 };

    fn default() -> Below<4> {
        Below { value: 0 }
    }
}

impl Below<8> {
    /// The digit in bits 2 to 0.
    #[inline(always)]
    pub fn low(bits: u16) -> Digit
        ensures { result ≡ bits % 8 }
    {
        Below {
            value: (bits % 8) as u8,
        }
    }
}

impl Below<64> {
    /// The count in bits 5 to 0.
    #[inline(always)]
    pub fn low(bits: u32) -> SixBits
        ensures { result ≡ bits % 64 }
    {
        Below {
            value: (bits % 64) as u8,
        }
    }

    /// The count that the two digits j and k make, 8 j + k.
    #[inline(always)]
    pub fn of(j: Digit, k: Digit) -> SixBits
        ensures { result ≡ 8 * j + k }
    {
        Below {
            value: 8 * j.get() + k.get(),
        }
    }
}
