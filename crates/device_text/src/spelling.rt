ghost use Rattle.std.specs.Prelude.{◌≡◌};
ghost use Rattle.device_text.specs.Names.{unit_text, unit_named};

use instructions::Unit;

/// The name of a unit.
pub fn unit_name(unit: Unit) -> &'static [u8]
    ensures { result.now ≡ unit_text unit }
{
    match unit {
        Unit::Branch => b"branch",
        Unit::Boolean => b"boolean",
        Unit::Shift => b"shift",
        Unit::Add => b"add",
        Unit::LongAdd => b"longadd",
        Unit::Multiply1 => b"multiply1",
        Unit::Multiply2 => b"multiply2",
        Unit::Divide => b"divide",
        Unit::Increment1 => b"increment1",
        Unit::Increment2 => b"increment2",
    }
}

/// The unit with this name, if there is one.
pub fn unit_named(name: &[u8]) -> Option<Unit>
    ensures { result ≡ unit_named name.now }
{
    if name == b"branch".as_slice() {
        Some(Unit::Branch)
    } else if name == b"boolean".as_slice() {
        Some(Unit::Boolean)
    } else if name == b"shift".as_slice() {
        Some(Unit::Shift)
    } else if name == b"add".as_slice() {
        Some(Unit::Add)
    } else if name == b"longadd".as_slice() {
        Some(Unit::LongAdd)
    } else if name == b"multiply1".as_slice() {
        Some(Unit::Multiply1)
    } else if name == b"multiply2".as_slice() {
        Some(Unit::Multiply2)
    } else if name == b"divide".as_slice() {
        Some(Unit::Divide)
    } else if name == b"increment1".as_slice() {
        Some(Unit::Increment1)
    } else if name == b"increment2".as_slice() {
        Some(Unit::Increment2)
    } else {
        None
    }
}
