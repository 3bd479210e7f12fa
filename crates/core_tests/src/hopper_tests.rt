//! The rules for two references, and a hopper that refuses one of them. The sessions in `decks/`, such as
//! `enters-and-accepts`, show which references enter and are accepted.

use hopper::{Hopper, PLACES, Reference, bank_of};
use instructions::{Digit, Refusal};
use relocation::Access;
use word60::Word60;

fn load(address: u32) -> Reference {
    Reference {
        address,
        access: Access::Load(Digit::low(1)),
    }
}

fn store(address: u32) -> Reference {
    Reference {
        address,
        access: Access::Store(Word60::from_bits(5)),
    }
}

/// Addresses and their banks.
const BANKS: [(u32, u8); 5] = [(0, 0), (31, 31), (32, 0), (0o47, 7), (131_071, 31)];

/// An address has the bank of its low five bits.
#[test]
fn has_a_bank(rt: HostRuntime) {
    for (address, bank) in BANKS.as_slice() {
        assert_eq!(rt; bank_of(*address), *bank, "at {address}");
    }
}

/// Two references to one address keep their order if one of them stores. References to different addresses of a bank
/// don't. A store is to its own address, and a load is no store.
#[test]
fn keeps_the_order_at_an_address(rt: HostRuntime) {
    let answers = [
        load(0o47).keeps_order(&store(0o47)),
        store(0o47).keeps_order(&load(0o47)),
        store(0o47).keeps_order(&store(0o47)),
        load(0o47).keeps_order(&load(0o47)),
        store(0o47).keeps_order(&store(0o7)),
        store(0o47).stores_to(0o47),
        store(0o47).stores_to(0o7),
        load(0o47).stores_to(0o47),
    ];
    assert_eq!(rt;
        answers,
        [true, true, true, false, false, true, false, false]
    );
}

/// A load waits for an older store to its address. Places and banks that there aren't are refused, and so is a bank by
/// its address.
#[test]
fn refuses_what_is_not_there(rt: HostRuntime) {
    let mut hopper = Hopper::new();
    let entered = [hopper.enter(store(5)), hopper.enter(load(5))];
    let accepted = [
        hopper.accept(1),
        hopper.accept(PLACES as u8),
        hopper.accept(255),
    ];
    let freed = [
        hopper.bank_free(32),
        hopper.bank_free(37),
        hopper.bank_free(255),
    ];
    let nothing = Refusal::Nothing;
    assert!(rt;
        entered == [Ok(0), Ok(1)]
            && accepted == [Err(Refusal::OlderAtAddress), Err(nothing), Err(nothing)]
            && freed == [Err(nothing), Err(nothing), Err(nothing)]
    );
}
