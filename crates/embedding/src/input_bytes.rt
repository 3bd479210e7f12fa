ghost use Rattle.std.specs.Prelude.{◌≡◌, Some, false};

use device_text::{Input, ReadFailed};

/// The bytes of a caller as an input. No read of them fails.
#[derive(Drop)]
pub struct InputBytes<'a> {
    left: &'a [u8],
}

impl<'a> InputBytes<'a> {
    pub fn new(bytes: &'a [u8]) -> InputBytes<'a>
        ensures { result.left.now ≡ bytes.now }
    {
        InputBytes { left: bytes }
    }
}

impl<'a> Input for InputBytes<'a> {
    ghost remaining = { λ b. Some b.left.now };

    ghost has_failed = { λ b. false };

    ghost lender = { λ b. 0 };

    fn next_byte(&mut self) -> Result<Option<u8>, ReadFailed> {
        match self.left.split_first() {
            Some((byte, rest)) => {
                self.left = rest;
                Ok(Some(*byte))
            }
            None => Ok(None),
        }
    }
}
