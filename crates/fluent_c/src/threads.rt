//! That a text may go to another thread, as a bundle may.

use crate::text::FluentText;

/// Takes what may go to another thread.
fn is_send<T: Send>(_value: &T) {}

/// A text may go to another thread.
pub fn texts_are_send(text: &FluentText) {
    is_send(text);
}
