//! The plural categories that common numbers have.
#![tactic(auto)]

ghost use Rattle.std.specs.Prelude.{◌≡◌};
ghost use Rattle.fluent_number.specs.declared.plural.PluralCategory.{PluralCategory};
ghost use Rattle.lint_findings.specs.MissingCategories as m;
ghost use Rattle.lint_flaws.specs.Common.{AreCommonBy, asks, has, is_listed, is_lone_two};

use crate::rules::is_common;
use fluent_number::{PluralCategory, PluralRuleType};
use fluent_plurals::LanguagePlurals;

/// Some plural categories.
#[derive(Clone, Copy)]
struct Categories {
    zero: bool,
    one: bool,
    two: bool,
    few: bool,
    many: bool,
    other: bool,
}

impl Categories {
    const NONE: Categories = Categories {
        zero: false,
        one: false,
        two: false,
        few: false,
        many: false,
        other: false,
    };

    /// The categories that whole numbers below 1,000 have, by rules of this kind.
    fn common(plurals: &LanguagePlurals, rule: PluralRuleType) -> Self
        ensures { (c : PluralCategory) → has result c ≡ m.is_common plurals.now rule c }
    {
        Categories {
            zero: is_common(plurals, rule, PluralCategory::ZERO),
            one: is_common(plurals, rule, PluralCategory::ONE),
            two: is_common(plurals, rule, PluralCategory::TWO),
            few: is_common(plurals, rule, PluralCategory::FEW),
            many: is_common(plurals, rule, PluralCategory::MANY),
            other: is_common(plurals, rule, PluralCategory::OTHER),
        }
    }

    fn has(&self, category: PluralCategory) -> bool
        ensures { result ≡ has self.now category }
    {
        match category {
            PluralCategory::ZERO => self.zero,
            PluralCategory::ONE => self.one,
            PluralCategory::TWO => self.two,
            PluralCategory::FEW => self.few,
            PluralCategory::MANY => self.many,
            PluralCategory::OTHER => self.other,
        }
    }
}

/// The plural categories that whole numbers below 1,000 have in a language, for counts and for
/// ordinals. Numbers are tried once for a language, and not for each select.
#[derive(Clone, Copy)]
pub struct CommonCategories {
    cardinal: Categories,
    ordinal: Categories,
}

impl CommonCategories {
    /// The common categories by these rules. Without rules there are none.
    pub fn of(plurals: Option<LanguagePlurals>) -> Self
        ensures { AreCommonBy plurals result }
    {
        match plurals {
            Some(plurals) => CommonCategories {
                cardinal: Categories::common(&plurals, PluralRuleType::CARDINAL),
                ordinal: Categories::common(&plurals, PluralRuleType::ORDINAL),
            },
            None => CommonCategories {
                cardinal: Categories::NONE,
                ordinal: Categories::NONE,
            },
        }
    }

    /// Whether a select should have a variant for a category, by rules of this kind: it is one of
    /// them, and not `two` where nothing but `one` and `two` is one.
    pub(crate) fn asks(&self, rule: PluralRuleType, category: PluralCategory) -> bool
        ensures { result ≡ asks self.now rule category }
    {
        self.has(rule, category) && !self.is_lone_two(rule, category)
    }

    fn is_lone_two(&self, rule: PluralRuleType, category: PluralCategory) -> bool
        ensures { result ≡ is_lone_two self.now rule category }
    {
        match category {
            PluralCategory::TWO => {
                !(self.has(rule, PluralCategory::ZERO)
                    || (self.has(rule, PluralCategory::FEW)
                        || self.has(rule, PluralCategory::MANY)))
            }
            _ => false,
        }
    }

    /// Whether a category is one of them, by rules of this kind.
    fn has(&self, rule: PluralRuleType, category: PluralCategory) -> bool
        ensures { result ≡ is_listed self.now rule category }
    {
        match rule {
            PluralRuleType::CARDINAL => self.cardinal.has(category),
            PluralRuleType::ORDINAL => self.ordinal.has(category),
        }
    }
}
