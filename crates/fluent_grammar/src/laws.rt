//! Laws of the grammar: each function only carries a law, as its contract.

pub mod spelling;
pub mod tiling;
