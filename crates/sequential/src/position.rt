ghost use Rattle.std.specs.Prelude.{◌≡◌, None};
ghost use Rattle.sequential.specs.Position.{after_parcel};

use instructions::ParcelNumber;
use word60::{Word18, Word60};

/// The position of the next instruction.
#[derive(Clone, Copy, Debug, Default, Drop, PartialEq, Eq)]
pub struct ProgramPosition {
    /// P: the address of the held word or, if no word is held, of the word to fetch next.
    pub p: Word18,
    /// The next parcel, 0 if no word is held.
    pub parcel: ParcelNumber,
    /// The word that instructions are taken from.
    pub held: Option<Word60>,
}

impl ProgramPosition {
    /// The beginning of the word at an address.
    #[inline(always)]
    pub fn at(p: Word18) -> ProgramPosition
        ensures { result ≡ record { p = p; parcel = 0; held = None } }
    {
        ProgramPosition {
            p,
            parcel: ParcelNumber::default(),
            held: None,
        }
    }

    /// The position after an instruction of the word at `p`: parcel `next` of that word or, if `next` is 4 or more, the
    /// beginning of the next word. The word at 0 follows the word at 777777.
    #[tactic(auto, unfolding(crate::specs::Position::after_parcel))]
    #[inline(always)]
    pub fn after_parcel(p: Word18, word: Word60, next: u8) -> ProgramPosition
        ensures { result ≡ after_parcel p word next }
    {
        match ParcelNumber::new(next) {
            Some(parcel) => ProgramPosition {
                p,
                parcel,
                held: Some(word),
            },
            None => ProgramPosition::at(p.next()),
        }
    }
}
