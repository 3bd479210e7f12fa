ghost use Rattle.std.specs.Prelude.{◌≡◌, ◌<◌, ◌∷◌, ◌++◌, [], false, replicate, is_none, slice_index_or, slice_set};
ghost use Rattle.std.specs.Prelude.{length, MatchResult, IfOk, Ok, Err, Some};
ghost use Rattle.std.specs.List.{list_any};
ghost use Rattle.instructions.specs.Finding.{seek};
ghost use Rattle.hopper.specs.Queue.{reference_at, place_for, enter_answer, accept_answer, accepted, free_answer};
ghost use Rattle.hopper.specs.Queue.{stands_at, is_taken, is_for, stores_here, holds_back};
ghost use Rattle.hopper.specs.inner.Found.{found_at};

use crate::{Entered, PLACES, Reference, bank_of};
use arrayvec::ArrayVec;
use instructions::Refusal;
use relocation::BANKS;
use std::marker::Model;

/// The references that wait in the four places, and the busy banks among the 32 (Thornton, stunt box; Control Data
/// 60100000, central memory). A hopper allocates nothing, and every call is defined for every number.
#[derive(Drop)]
pub struct Hopper {
    /// The waiting references, in the order in which they entered.
    entered: ArrayVec<Entered, PLACES>,
    /// Whether each bank is busy, by the number of the bank.
    busy: [bool; BANKS as usize],
}

impl Model for Hopper {
    ghost use Rattle.hopper.specs.Queue.{Queue};

    ghost Value = { Queue };

    ghost use Rattle.hopper.specs.inner.View.{IsRight};

    ghost view = { λ h. record { entered = h.entered.items; busy = h.busy } };

    ghost invariant = { λ h. IsRight h.entered.items h.busy };
}

impl Hopper {
    /// An empty hopper, with no bank busy.
    pub fn new() -> Hopper
        ensures { result ≡ record { entered = []; busy = replicate 32 false } }
    {
        Hopper {
            entered: ArrayVec::new(),
            busy: [false; BANKS as usize],
        }
    }

    /// Whether all four places are taken.
    pub fn is_full(&self) -> bool
        ensures { result ≡ is_none (place_for self.now.entered) }
    {
        self.entered.is_full()
    }

    /// Enters a reference behind the waiting references. It takes the lowest-numbered free place (this project's
    /// choice), and the call returns the place's number, 0 to 3.
    ///
    /// # Errors
    /// `HopperFull` if all four places are taken; nothing changes then.
    #[tactic(auto, unfolding(crate::proofs::Opened::places_taken))]
    pub fn enter(&mut self, reference: Reference) -> Result<u8, Refusal>
        ensures answer { result ≡ enter_answer (place_for self.old.entered) }
        ensures after { MatchResult result
            (λ place. self.new ≡ record self.old {
              entered = self.old.entered ++ record { place = place; reference = reference } ∷ [];
            })
            (λ refusal. self.new ≡ self.old) }
    {
        let entered = self.entered.as_slice();
        let is_taken = |place: u8|
            ensures { result ≡ is_taken entered.entry.now place }
        {
            entered.iter().any(
                |waiting|
                    ensures { result ≡ stands_at place waiting.now }
                { waiting.place == place },
            )
        };
        let Some(place) = (0..PLACES as u8).find(|place| !is_taken(*place)) else {
            return Err(Refusal::HopperFull);
        };
        self.entered.push(Entered { place, reference });
        Ok(place)
    }

    /// The reference in a place, if memory may take it, with the number of references that entered before it.
    #[tactic(auto, unfolding(crate::proofs::Opened::one_that_waits))]
    fn acceptable(&self, place: u8) -> Result<(usize, Reference), Refusal>
        ensures answer { MatchResult result
            (λ found. accept_answer self.now.busy (seek (reference_at place) self.now.entered) ≡ Ok found.1)
            (λ refusal. accept_answer self.now.busy (seek (reference_at place) self.now.entered) ≡ Err refusal) }
        ensures index { IfOk result (λ found. found.0 < length self.now.entered) }
        ensures found { IfOk result (λ found. seek (reference_at place) self.now.entered
            ≡ Some (found_at self.now.entered place found.0 found.1)) }
    {
        let entered = self.entered.as_slice();
        let Some(index) = entered.iter().position(
            |waiting|
                ensures { result ≡ stands_at place waiting.now }
            { waiting.place == place },
        )
        else {
            return Err(Refusal::Nothing);
        };
        let reference = entered[index].reference;
        let bank = bank_of(reference.address);
        if self.busy[usize::from(bank)] {
            return Err(Refusal::BankBusy(bank));
        }
        if entered[..index].iter().any(
            |older|
                ensures { result ≡ holds_back reference older.now }
            { older.reference.keeps_order(&reference) },
        ) {
            return Err(Refusal::OlderAtAddress);
        }
        Ok((index, reference))
    }

    /// Whether memory may take the reference in a place. Returns the reference.
    ///
    /// # Errors
    /// In this order: `Nothing` if the place is empty or doesn't exist; `BankBusy` if the bank of the address is busy;
    /// `OlderAtAddress` if a reference that entered earlier waits for the same address and at least one of the two
    /// stores.
    pub fn may_accept(&self, place: u8) -> Result<Reference, Refusal>
        ensures { result ≡ accept_answer self.now.busy (seek (reference_at place) self.now.entered) }
    {
        match self.acceptable(place) {
            Ok((_, reference)) => Ok(reference),
            Err(refusal) => Err(refusal),
        }
    }

    /// Lets memory take the reference in a place, and makes its bank busy. Returns the reference. References that
    /// entered after it keep their order.
    ///
    /// # Errors
    /// Those of `may_accept`, and nothing changes then.
    pub fn accept(&mut self, place: u8) -> Result<Reference, Refusal>
        ensures answer { result ≡ accept_answer self.old.busy (seek (reference_at place) self.old.entered) }
        ensures after { MatchResult result
            (λ reference. self.new ≡ accepted self.old (seek (reference_at place) self.old.entered))
            (λ refusal. self.new ≡ self.old) }
    {
        let (index, reference) = match self.acceptable(place) {
            Ok(found) => found,
            Err(refusal) => return Err(refusal),
        };
        self.entered.remove(index);
        self.busy[usize::from(bank_of(reference.address))] = true;
        Ok(reference)
    }

    /// Frees a bank that has done its cycle.
    ///
    /// # Errors
    /// `Nothing` if the bank isn't busy or doesn't exist; nothing changes then.
    pub fn bank_free(&mut self, bank: u8) -> Result<(), Refusal>
        ensures answer { result ≡ free_answer self.old.busy bank }
        ensures after { MatchResult result
            (λ freed. self.new ≡ record self.old { busy = slice_set self.old.busy bank false })
            (λ refusal. self.new ≡ self.old) }
    {
        if self.is_bank_busy(bank) {
            self.busy[usize::from(bank)] = false;
            Ok(())
        } else {
            Err(Refusal::Nothing)
        }
    }

    /// Whether a reference to an absolute address waits, load or store.
    #[tactic(auto, unfolding(crate::specs::Queue::is_for))]
    pub fn waits_for(&self, address: u32) -> bool
        ensures { result ≡ list_any (is_for address) self.now.entered }
    {
        self.entered.as_slice().iter().any(
            |waiting|
                ensures { result ≡ is_for address waiting.now }
            { waiting.reference.address == address },
        )
    }

    /// Whether a store to an absolute address waits.
    #[tactic(auto, unfolding(crate::specs::Queue::stores_here))]
    pub fn store_for(&self, address: u32) -> bool
        ensures { result ≡ list_any (stores_here address) self.now.entered }
    {
        self.entered.as_slice().iter().any(
            |waiting|
                ensures { result ≡ stores_here address waiting.now }
            { waiting.reference.stores_to(address) },
        )
    }

    /// Whether a bank is busy. A number above 31 names no bank and isn't busy.
    pub fn is_bank_busy(&self, bank: u8) -> bool
        ensures { result ≡ slice_index_or self.now.busy bank false }
    {
        match self.busy.get(usize::from(bank)) {
            Some(answer) => *answer,
            None => false,
        }
    }
}
