//! The command line of the program: parses its words as a request.
//!
//! Callers rely on `read_arguments`. It returns the `Request` of the words, or an error of `clap`, which parses them.
//! It is proved to be safe and to return. Its contract says nothing about which words make which request; its tests in
//! `crates/operator_main/src/command_tests.rt` and `tools/check pages` show that. `accepted` has the commands and their
//! options, and `version` is the text that `--version` prints. Begin with `Request` in `arguments`.
#![tactic(auto)]

mod arguments;
mod version;

pub use arguments::{Request, read_arguments};
