ghost use Rattle.std.specs.Prelude.{◌≡◌, ◌<◌, ◌≤◌, ◌+◌, nat_lt, ◌∷◌, ◌++◌, [], length, Some, None, is_none, slice_index_or, IfSome};
ghost use Rattle.std.specs.List.{list_all, position};
ghost use Rattle.instructions.specs.Each.{Each};
ghost use Rattle.in_flight.specs.declared.pending.Phase.TheVariants.{Before, After};
ghost use Rattle.in_flight.specs.declared.pending.Stage.TheVariants.{Unread};
ghost use Rattle.instructions.specs.Finding.{seek, replaced};
ghost use Rattle.in_flight.specs.Lookup.{stage_at, entry_at, arrival_at, in_phase, kept, located, first_of};
ghost use Rattle.in_flight.specs.inner.Slots.{HasRoom, IsWithin, has_none, lower_of, lowest_of, number_of, with_slot};
ghost use Rattle.in_flight.specs.inner.Slots.{with_slots, places_with, channels_with};
ghost use Rattle.instructions.specs.Order.{insert_by};

use crate::{Arrival, Outstanding, Pending, Phase, Stage};
use arrayvec::ArrayVec;
use hopper::Reference;
use instructions::Unit;
use std::marker::Model;

/// How many instructions can be pending at most: one in each of the 10 units, the 4 places of the hopper and the 8 load
/// channels.
pub const SLOTS: usize = 22;

/// A pending instruction that was found, with the answer of the search.
#[derive(Clone, Copy, Drop)]
pub struct Located<K> {
    pub pending: Pending,
    pub answer: K,
}

/// The pending instructions in their slots: by the number of the unit that they hold, by the place of the hopper in
/// which their reference waits, or by the channel in which their load waits.
#[derive(Drop)]
pub struct Slots {
    units: [Option<Pending>; 10],
    places: [Option<Pending>; 4],
    channels: [Option<Pending>; 8],
}

impl Model for Slots {
    ghost use Rattle.std.specs.Prelude.{List};
    ghost use Rattle.in_flight.specs.declared.pending.Pending.{Pending};

    ghost Value = { List Pending };

    ghost use Rattle.in_flight.specs.inner.Slots.{slots, in_order, IsRight};

    ghost view = { λ p. in_order (slots p.units p.places p.channels) };

    ghost invariant = { λ p. IsRight p.units p.places p.channels };
}

/// The content of a slot; `None` if there is no such slot.
fn slot_at(slots: &[Option<Pending>], index: usize) -> Option<Pending>
    ensures { result ≡ slice_index_or slots.now index None }
{
    match slots.get(index) {
        Some(slot) => *slot,
        None => None,
    }
}

/// Whether all slots are empty.
fn none_held(slots: &[Option<Pending>]) -> bool
    ensures { result ≡ list_all is_none slots.now }
{
    slots.iter().all(|slot| slot.is_none())
}

/// The instruction with the lower number, or the only one.
#[tactic(auto, unfolding(crate::specs::inner::Slots::lower_of))]
fn lower(first: &Option<Pending>, second: &Option<Pending>) -> Option<Pending>
    ensures { result ≡ lower_of first.now second.now }
{
    let Some(one) = *first else {
        return *second;
    };
    match *second {
        None => Some(one),
        Some(other) => {
            if one.number < other.number {
                Some(one)
            } else {
                Some(other)
            }
        }
    }
}

/// The instruction with the lowest number in the slots.
fn lowest(slots: &[Option<Pending>]) -> Option<Pending>
    ensures { result ≡ lowest_of slots.now }
{
    let mut found = None;
    for slot in slots {
        found = lower(&found, slot);
    }
    found
}

/// The position of the first instruction with a greater number.
fn first_above(list: &[Pending], number: u64) -> Option<usize>
    ensures { result ≡ position (λ other. nat_lt number other.number) list.now }
{
    list.iter().position(|other| number < other.number)
}

/// Inserts an instruction before the first one with a greater number.
fn insert(list: &mut ArrayVec<Pending, SLOTS>, pending: Pending)
    requires { length list.old.items < 22 }
    ensures items { list.new.items ≡ insert_by number_of pending list.old.items }
    ensures room { length list.new.items ≡ length list.old.items + 1 }
{
    match first_above(list.as_slice(), pending.number) {
        Some(place) => list.insert(place, pending),
        None => list.push(pending),
    }
}

/// Inserts the instruction in a slot, if there is one.
#[tactic(auto, unfolding(crate::specs::inner::Slots::with_slot))]
fn insert_slot(list: &mut ArrayVec<Pending, SLOTS>, slot: &Option<Pending>)
    requires { length list.old.items < 22 }
    ensures items { list.new.items ≡ with_slot slot.now list.old.items }
    ensures room { length list.new.items ≤ length list.old.items + 1 }
{
    if let Some(pending) = slot {
        insert(list, *pending);
    }
}

/// Inserts the instructions in slots, beginning with the last slot.
fn insert_slots(list: &mut ArrayVec<Pending, SLOTS>, slots: &[Option<Pending>])
    requires { length list.old.items + length slots.now ≤ 22 }
    ensures items { list.new.items ≡ with_slots slots.now list.old.items }
    ensures room { length list.new.items ≤ length list.old.items + length slots.now }
{
    for index in (0..slots.len()).rev() {
        insert_slot(list, &slots[index]);
    }
}

/// Puts an instruction into the place of the hopper or the channel of its rest. Without a rest nothing changes.
#[tactic(auto, unfolding(crate::proofs::Opened::moved_to_its_rest))]
fn put_rest(
    places: &mut [Option<Pending>],
    channels: &mut [Option<Pending>],
    pending: &Pending,
    rest: &Option<Outstanding>,
)
    requires { IfSome rest.now (IsWithin (length places.old) (length channels.old)) }
    ensures places { places.new ≡ places_with places.old pending.now rest.now }
    ensures channels { channels.new ≡ channels_with channels.old pending.now rest.now }
{
    let Some(left) = rest else {
        return;
    };
    let mut moved = *pending;
    moved.phase = Phase::After(*left);
    match left {
        Outstanding::Entered(place, ..) => places[usize::from(*place)] = Some(moved),
        Outstanding::Accepted(n, _) => channels[usize::from(n.get())] = Some(moved),
    }
}

impl Slots {
    /// Slots in which nothing is pending.
    pub fn new() -> Slots
        ensures { result ≡ [] }
    {
        Slots {
            units: [None; 10],
            places: [None; 4],
            channels: [None; 8],
        }
    }

    /// Whether nothing is pending.
    pub fn is_empty(&self) -> bool
        ensures { result ≡ has_none self.now }
    {
        if !none_held(&self.units) {
            return false;
        }
        if !none_held(&self.places) {
            return false;
        }
        none_held(&self.channels)
    }

    /// The pending instruction with the lowest number.
    #[tactic(auto, using(crate::proofs::in_slots::Oldest::first_pending))]
    pub fn oldest(&self) -> Option<Pending>
        ensures { result ≡ first_of self.now }
    {
        let referring = lower(&lowest(&self.places), &lowest(&self.channels));
        lower(&lowest(&self.units), &referring)
    }

    /// The pending instructions, in issue order.
    #[tactic(auto, using(crate::proofs::in_slots::Listing::all_slots))]
    pub fn pending(&self) -> ArrayVec<Pending, SLOTS>
        ensures { result.items ≡ self.now }
    {
        let mut list = ArrayVec::new();
        insert_slots(&mut list, &self.channels);
        insert_slots(&mut list, &self.places);
        insert_slots(&mut list, &self.units);
        list
    }

    /// The instruction that holds the unit, with its stage.
    pub fn find_stage(&self, unit: Unit) -> Option<Located<Stage>>
        ensures { result ≡ located (seek (stage_at unit) self.now) }
    {
        let index = unit as usize;
        let slot = self.units[index];
        let Some(pending) = slot else {
            return None;
        };
        let phase = pending.phase;
        match phase {
            Phase::Before(answer) => Some(Located { pending, answer }),
            // No instruction that has left its unit is in the unit's slot.
            Phase::After(_) => None,
        }
    }

    /// Sets the stage of the instruction that holds the unit.
    pub fn set_stage(&mut self, unit: Unit, stage: Stage)
        ensures { self.new ≡ replaced (seek (stage_at unit) self.old) self.old (λ m. in_phase m (Before stage) ∷ []) }
    {
        let index = unit as usize;
        if let Some(pending) = &mut self.units[index] {
            pending.phase = Phase::Before(stage);
        }
    }

    /// Takes the instruction out of the unit that it holds. The rest of it goes to its place or its channel.
    pub fn leave(&mut self, unit: Unit, later: &Option<Outstanding>)
        requires { HasRoom later.now self.old }
        ensures { self.new ≡ replaced (seek (stage_at unit) self.old) self.old (λ m. kept m later.now) }
    {
        let index = unit as usize;
        let slot = self.units[index];
        let Some(pending) = slot else {
            return;
        };
        self.units[index] = None;
        put_rest(&mut self.places, &mut self.channels, &pending, later);
    }

    /// Takes the instruction out of a place of the hopper. The rest of it goes to its channel.
    pub fn accept(&mut self, place: u8, later: &Option<Outstanding>)
        requires place { place < 4 }
        requires room { HasRoom later.now self.old }
        ensures { self.new ≡ replaced (seek (entry_at place) self.old) self.old (λ m. kept m later.now) }
    {
        let index = usize::from(place);
        let slot = self.places[index];
        let Some(pending) = slot else {
            return;
        };
        self.places[index] = None;
        put_rest(&mut self.places, &mut self.channels, &pending, later);
    }

    /// The instruction whose reference waits in a place of the hopper, with the reference.
    pub fn find_entry(&self, place: u8) -> Option<Located<Reference>>
        requires { place < 4 }
        ensures { result ≡ located (seek (entry_at place) self.now) }
    {
        let index = usize::from(place);
        let slot = self.places[index];
        let Some(pending) = slot else {
            return None;
        };
        match pending.entry_in(place) {
            Some(answer) => Some(Located { pending, answer }),
            None => None,
        }
    }

    /// The instruction that waits in a channel, with its word.
    pub fn find_arrival(&self, channel: u8) -> Option<Located<Arrival>>
        ensures found { result ≡ located (seek (arrival_at channel) self.now) }
        ensures range { IfSome result (λ s. channel < 8) }
    {
        let slot = slot_at(&self.channels, usize::from(channel));
        let Some(pending) = slot else {
            return None;
        };
        match pending.arrival_in(channel) {
            Some(answer) => Some(Located { pending, answer }),
            None => None,
        }
    }

    /// Removes the instruction in a channel, whose load has returned.
    pub fn returned(&mut self, channel: u8)
        requires { channel < 8 }
        ensures { self.new ≡ replaced (seek (arrival_at channel) self.old) self.old (λ m. []) }
    {
        let index = usize::from(channel);
        let slot = self.channels[index];
        let Some(_) = slot else {
            return;
        };
        self.channels[index] = None;
    }

    /// Adds a new instruction, whose number is above all others, in its unit, which is free.
    pub fn push(&mut self, pending: Pending)
        requires waits { pending.phase ≡ Before Unread }
        requires free { seek (stage_at pending.unit) self.old ≡ None }
        requires last { Each (λ m. m.number < pending.number) self.old }
        ensures { self.new ≡ self.old ++ pending ∷ [] }
    {
        let index = pending.unit as usize;
        self.units[index] = Some(pending);
    }
}
