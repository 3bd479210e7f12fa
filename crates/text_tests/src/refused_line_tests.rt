//! Tests of the positions of faults, and of their printed form. The page of refusals in `decks/` has more.

use device_text::find_fault;
use instructions::DeckFault;
use std::test::Fail;

/// A fault, a line that has the fault, and the printed position, if there is one. An unprintable byte is escaped.
const ROWS: [(DeckFault, &[u8], &str); 12] = [
    (DeckFault::First, b"cores 256", "column 1: 'cores'"),
    (DeckFault::Unknown, b"read 3", "column 6: '3'"),
    (DeckFault::Number, b"ppwrite 7 9", "column 11: '9'"),
    (DeckFault::Number, b"bank 100", "column 6: '100'"),
    (DeckFault::Size, b"core 31", "column 6: '31'"),
    (DeckFault::Range, b"word 5", "column 1: 'word'"),
    (DeckFault::Package, b"ask 361 free", "column 5: '361'"),
    (DeckFault::Repeated, b"start 0", "column 1: 'start'"),
    (DeckFault::Instruction, b"code N\tO", "column 6: 'N\\tO'"),
    (
        DeckFault::Full,
        b"code NO; NO; NO; SX1 B0+5; NO",
        "column 18: 'SX1 B0+5'",
    ),
    (DeckFault::NoEnd, b"core 256", ""),
    (DeckFault::Lines, b"core 256", ""),
];

#[test]
fn faults_and_positions(rt: HostRuntime) -> Result<(), Fail> {
    for (fault, line, printed) in &ROWS {
        let text = match find_fault(*fault, line) {
            Some(position) => format!(in rt.alloc(); "{position}")?,
            None => String::new(rt.alloc()),
        };
        assert_eq!(rt; text.as_str(), *printed);
    }
    Ok(())
}
