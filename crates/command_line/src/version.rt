/// The text that `--version` prints after the program's name. `tools/build-program` proves a copy of this file in which
/// the commit and the kit's name follow the number.
pub const VERSION: &str = "0.1.0";
