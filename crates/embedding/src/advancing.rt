ghost use Rattle.std.specs.Prelude.{◌≡◌};
ghost use Rattle.embedding.specs.Advance.{Advances, rests_at};

use crate::booted::Booted;
use crate::stepping::make_next_event;
use machine::Machine;

/// Whether nothing is pending and the next instruction is the first one in the word at this address.
fn rests_at(machine: &Machine, address: u32) -> bool
    ensures { result ≡ rests_at address machine.now }
{
    let position = &machine.state().position;
    machine.drained() && position.p.get() == address && position.parcel.get() == 0
}

/// Makes the next event up to `most` times. Makes no more after a refusal, or if the machine then rests at the address.
/// Returns how many it made.
fn advance_machine(machine: &mut Machine, most: u64, address: u32) -> u64
    ensures { Advances most address machine.old machine.new result }
{
    for made in 0..most {
        let (_, answer) = make_next_event(machine);
        match answer {
            Err(_) => return made,
            Ok(_) => {
                if rests_at(machine, address) {
                    return made + 1;
                }
            }
        }
    }
    most
}

/// Advances a booted machine. Returns how many events this took.
pub fn advance(booted: &mut Booted, most: u64, address: u32) -> u64
    ensures machine { Advances most address booted.old.machine booted.new.machine result }
    ensures deck { booted.new.deck ≡ booted.old.deck }
{
    advance_machine(&mut booted.machine, most, address)
}
