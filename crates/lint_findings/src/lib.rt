//! Findings: what is wrong with the sources of a catalog, where, and how it is reported, as
//! definitions and laws over plain data, with the types that the code has for them.
//!
//! `specs/` has the position of an offset, the entries and junk of a source, syntax errors in
//! words, the flaws of patterns, the differences from a reference, and the text, the JSON and the
//! workflow commands of findings. The code of `ftl lint` states its contracts by these definitions.
//! A [`Finding`] is a [`Remark`] at a place of a [`File`], and [`FileFindings`] are those of one
//! file. A remark has a code, a severity, a sentence and perhaps a hint. A [`SourcePosition`] is
//! the line and the column of an offset. A [`Difference`] is how a message differs from that of the
//! reference with the same id. [`CatalogIds`] are what the ids of a catalog stand for.
//! `specs/View.antt` says which of the records each type stands for. `docs/reference/lint.md` has
//! the rules in plain words, and lists the codes.
#![tactic(auto)]

pub mod category_laws;
mod difference;
mod ids;
pub mod laws;
pub mod loss_laws;
mod places;
mod records;
mod remark;

pub use difference::Difference;
pub use ids::CatalogIds;
pub use places::SourcePosition;
pub use records::{File, FileFindings, Finding, Severity};
pub use remark::Remark;
