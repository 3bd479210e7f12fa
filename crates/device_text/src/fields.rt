ghost use Rattle.std.specs.Prelude.{◌≡◌, ◌==◌, ◌<◌, ◌+◌, ◌∷◌, length, IfSome};
ghost use Rattle.std.specs.List.{slice_split};
ghost use Rattle.device_text.specs.Text.{other_parts};

/// Splits a text at its first separator. Returns the part before the separator, and the rest after it if there is a
/// separator. The fields of a line are the parts between its blanks.
pub fn first_part(text: &[u8], separator: u8) -> (&[u8], Option<&[u8]>)
    ensures parts { slice_split (λ b. b == separator) text.now ≡ result.0.now ∷ other_parts separator result.1 }
    ensures shorter { IfSome result.1 (λ rest. length result.0.now + length rest.now < length text.now) }
{
    match text.iter().position(|byte| *byte == separator) {
        Some(at) => (&text[..at], Some(&text[at + 1..])),
        None => (text, None),
    }
}
