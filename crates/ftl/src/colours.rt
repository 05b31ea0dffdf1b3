//! Whether standard output shows colours.

use std::env;
use std::io::IsTerminal;

/// Whether standard output is a terminal that shows colours to a user who wants them.
pub fn are_shown(rt: &HostRuntime) -> bool {
    rt.stdout().is_terminal() && !is_set_to(rt, "TERM", "dumb") && !is_set(rt, "NO_COLOR")
}

/// Whether a variable of the environment is set, and not empty.
fn is_set(rt: &HostRuntime, name: &str) -> bool {
    match env::var(rt, name) {
        Ok(value) => !value.is_empty(),
        Err(_) => false,
    }
}

/// Whether a variable of the environment has this value.
fn is_set_to(rt: &HostRuntime, name: &str, wanted: &str) -> bool {
    match env::var(rt, name) {
        Ok(value) => value.as_str() == wanted,
        Err(_) => false,
    }
}
