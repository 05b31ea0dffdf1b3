//! Laws of bundles and of what their patterns give: each function only carries a law, as its
//! contract.

pub use fluent_ids::laws::attributes_agree;
pub use fluent_meaning::laws::{
    entered_patterns_weigh_less, equal_environments, ids_in_turn, limit_stays, one_entry_stays,
    reach_same, same_decides, work_is_bounded,
};
