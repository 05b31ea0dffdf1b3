//! The memory of a text that a caller gets.

/// The bytes of a text, and memory that the next one is written into.
#[derive(Drop)]
pub(crate) struct Buffers {
    pub(crate) bytes: Vec<u8>,
    pub(crate) spare: Vec<u8>,
}
