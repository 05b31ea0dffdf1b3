//! That a bundle may go to another thread.

use crate::bundle::Bundle;
use crate::handle::FluentBundle;

/// Takes what may go to another thread.
fn is_send<T: Send>(_value: &T) {}

/// A bundle may go to another thread, and its handle may.
pub fn bundles_are_send(bundle: &Bundle, handle: &FluentBundle) {
    is_send(bundle);
    is_send(handle);
}
