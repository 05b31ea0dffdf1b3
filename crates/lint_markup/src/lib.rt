//! What is said of tags, entities, keys and styles in a text of a message, beside that of the
//! message of the reference.
//!
//! Each pattern is read once, as its own text and those of the variants in it (`runs.rt`), in which
//! a sign stands for a placeable. A remark has the piece of the text that it is at. `Markup.antt`,
//! `Entities.antt`, `Keys.antt` and `Styles.antt` of `lint_findings` say what is found, and
//! `docs/reference/codes.md` has the rules in plain words. No HTML and no language is known: a tag
//! is `<`, a name and what follows it up to `>`.
#![tactic(auto)]

mod always;
mod broken;
mod elements;
mod entities;
mod keys;
mod markup;
mod missing;
mod names;
mod pair;
mod runs;
mod spotted;
mod styles;
mod tags;
mod unbalanced;
mod unknown;
mod wanted;

pub use entities::push_broken_entities;
pub use keys::{Key, characters, push_long_key, push_outside_label};
pub use markup::push_markup;
pub use pair::Pair;
pub use runs::{OBJECT_SIGN, own_text, pattern_runs, placeable_text};
pub use spotted::{Spotted, push_spotted};
pub use styles::push_changed_style;
pub use tags::{after_tag, is_blank_byte, tag_at};
