ghost use Rattle.std.specs.Prelude.{◌≡◌, ◌==◌, ◌<◌, ◌∷◌, [], position};
ghost use Rattle.device_text.specs.Text.{fields_of, from_space};
ghost use Rattle.deck.specs.Deck.{parsed_fields, parsed_line, parsed_code};
ghost use Rattle.deck.specs.inner.ParsedLine.{line_with_bytes};

use device_text::first_part;

/// A parsed line with its fields. In the code a field is a slice of the line; in definitions it is a list of bytes.
#[derive(Clone, Copy)]
pub enum Line<Field> {
    /// `core W`.
    Core(Field),
    /// `at A`.
    At(Field),
    /// `word V`.
    Word(Field),
    /// `code T; T`: the text after the word `code`. It has the texts of instructions, each after a space.
    Code(Field),
    /// `start N`.
    Start(Field),
    /// `show A B`.
    Show(Field, Field),
    /// `ask N after K`: the address of the package, and the number of instructions that are issued before the request.
    Ask(Field, Field),
    /// `ask N free`: the address of the package that is requested at any time.
    AskFree(Field),
    /// `end`.
    End,
    /// Any other line.
    Unknown,
}

/// The position of the first blank.
fn blank_in(text: &[u8]) -> Option<usize>
    ensures { result ≡ position (λ b. b == 32) text.now }
{
    text.iter().position(|byte| *byte == b' ')
}

/// Parses a line that begins with the word `code`.
fn code_line(text: &[u8]) -> Line<&[u8]>
    ensures { line_with_bytes result ≡ parsed_code (from_space text.now) }
{
    match blank_in(text) {
        Some(at) if text.len() - at > 1 => Line::Code(&text[at..]),
        _ => Line::Unknown,
    }
}

/// Parses a line of four or more fields.
#[tactic(auto, using(crate::proofs::Fields::too_many))]
fn line_of_four<'a>(word: &[u8], first: &'a [u8], second: &[u8], rest: &'a [u8]) -> Line<&'a [u8]>
    ensures { line_with_bytes result ≡ parsed_fields (word.now ∷ first.now ∷ second.now ∷ fields_of rest.now) }
{
    let (third, rest) = first_part(rest, b' ');
    let Some(_) = rest else {
        return if word == b"ask".as_slice() && second == b"after".as_slice() {
            Line::Ask(first, third)
        } else {
            Line::Unknown
        };
    };
    Line::Unknown
}

/// Parses a line of a deck.
pub fn parse_line(text: &[u8]) -> Line<&[u8]>
    ensures { line_with_bytes result ≡ parsed_line text.now }
{
    let (word, rest) = first_part(text, b' ');
    if word == b"code".as_slice() {
        return code_line(text);
    }
    let Some(rest) = rest else {
        return if word == b"end".as_slice() {
            Line::End
        } else {
            Line::Unknown
        };
    };
    let (first, rest) = first_part(rest, b' ');
    let Some(rest) = rest else {
        return if word == b"core".as_slice() {
            Line::Core(first)
        } else if word == b"at".as_slice() {
            Line::At(first)
        } else if word == b"word".as_slice() {
            Line::Word(first)
        } else if word == b"start".as_slice() {
            Line::Start(first)
        } else {
            Line::Unknown
        };
    };
    let (second, rest) = first_part(rest, b' ');
    let Some(rest) = rest else {
        return if word == b"show".as_slice() {
            Line::Show(first, second)
        } else if word == b"ask".as_slice() && second == b"free".as_slice() {
            Line::AskFree(first)
        } else {
            Line::Unknown
        };
    };
    line_of_four(word, first, second, rest)
}
