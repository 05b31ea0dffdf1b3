//! The functions that come with the library: one table, which says what is known of each without a
//! call.
#![tactic(auto)]

ghost use Rattle.std.specs.Prelude.{◌≡◌};
ghost use Rattle.lint_findings.specs.Builtins as b;
ghost use Rattle.lint_flaws.specs.BuiltinView.{builtin_view, builtin_views, found_builtin, found_takes, option_views};

use crate::near::KnownNames;

/// The values that an option of a function takes.
#[derive(Clone, Copy)]
pub enum Takes {
    /// A number.
    Number,
    /// Any text.
    AnyText,
    /// One of these texts.
    OneOf(&'static [&'static str]),
}

/// The kind of value that the first argument of a function has to be.
#[derive(Clone, Copy)]
pub enum Operand {
    /// A number.
    Number,
    /// A date.
    Date,
}

/// An option: a named argument that a function makes something of.
#[derive(Clone, Copy)]
pub struct FunctionOption {
    /// The name of the argument.
    pub name: &'static str,
    /// The values that it may have.
    pub takes: Takes,
}

/// A function that comes with the library.
#[derive(Clone, Copy)]
pub struct Builtin {
    /// The name by which a message calls it.
    pub name: &'static str,
    /// The kind of value that its first argument has to be.
    pub operand: Operand,
    /// Its options.
    pub options: &'static [FunctionOption],
    /// The options that stand for several others.
    pub styles: &'static [&'static str],
    /// The options that don't count next to one of its styles.
    pub components: &'static [&'static str],
}

/// The table. `bindings/python/kozhvadi/_builtins.py` has the same rows, which
/// `tools/house/check.py` compares.
static BUILTINS: [Builtin; 2] = [
    Builtin {
        name: "NUMBER",
        operand: Operand::Number,
        options: &[
            FunctionOption {
                name: "type",
                takes: Takes::OneOf(&["ordinal", "cardinal"]),
            },
            FunctionOption {
                name: "minimumFractionDigits",
                takes: Takes::Number,
            },
            FunctionOption {
                name: "maximumFractionDigits",
                takes: Takes::Number,
            },
            FunctionOption {
                name: "minimumIntegerDigits",
                takes: Takes::Number,
            },
            FunctionOption {
                name: "minimumSignificantDigits",
                takes: Takes::Number,
            },
            FunctionOption {
                name: "maximumSignificantDigits",
                takes: Takes::Number,
            },
            FunctionOption {
                name: "useGrouping",
                takes: Takes::OneOf(&["true", "false"]),
            },
            FunctionOption {
                name: "style",
                takes: Takes::OneOf(&["decimal", "percent", "currency"]),
            },
            FunctionOption {
                name: "currency",
                takes: Takes::AnyText,
            },
            FunctionOption {
                name: "currencyDisplay",
                takes: Takes::OneOf(&["symbol", "code", "name"]),
            },
        ],
        styles: &[],
        components: &[],
    },
    Builtin {
        name: "DATETIME",
        operand: Operand::Date,
        options: &[
            FunctionOption {
                name: "dateStyle",
                takes: Takes::OneOf(&["full", "long", "medium", "short"]),
            },
            FunctionOption {
                name: "timeStyle",
                takes: Takes::OneOf(&["full", "long", "medium", "short"]),
            },
            FunctionOption {
                name: "hour12",
                takes: Takes::OneOf(&["true", "false"]),
            },
            FunctionOption {
                name: "hourCycle",
                takes: Takes::OneOf(&["h11", "h12", "h23", "h24"]),
            },
            FunctionOption {
                name: "weekday",
                takes: Takes::OneOf(&["narrow", "short", "long"]),
            },
            FunctionOption {
                name: "era",
                takes: Takes::OneOf(&["narrow", "short", "long"]),
            },
            FunctionOption {
                name: "year",
                takes: Takes::OneOf(&["numeric", "2-digit"]),
            },
            FunctionOption {
                name: "month",
                takes: Takes::OneOf(&["numeric", "2-digit", "narrow", "short", "long"]),
            },
            FunctionOption {
                name: "day",
                takes: Takes::OneOf(&["numeric", "2-digit"]),
            },
            FunctionOption {
                name: "dayPeriod",
                takes: Takes::OneOf(&["narrow", "short", "long"]),
            },
            FunctionOption {
                name: "hour",
                takes: Takes::OneOf(&["numeric", "2-digit"]),
            },
            FunctionOption {
                name: "minute",
                takes: Takes::OneOf(&["numeric", "2-digit"]),
            },
            FunctionOption {
                name: "second",
                takes: Takes::OneOf(&["numeric", "2-digit"]),
            },
            FunctionOption {
                name: "fractionalSecondDigits",
                takes: Takes::Number,
            },
            FunctionOption {
                name: "timeZoneName",
                takes: Takes::OneOf(&[
                    "short",
                    "long",
                    "shortOffset",
                    "longOffset",
                    "shortGeneric",
                    "longGeneric",
                ]),
            },
        ],
        styles: &["dateStyle", "timeStyle"],
        components: &[
            "weekday",
            "era",
            "year",
            "month",
            "day",
            "dayPeriod",
            "hour",
            "minute",
            "second",
            "fractionalSecondDigits",
            "timeZoneName",
        ],
    },
];

/// The function of this name, if it comes with the library.
pub fn builtin_named(name: &str) -> Option<&'static Builtin>
    ensures { found_builtin result ≡ b.builtin_named name.now }
{
    row_named(&BUILTINS, name)
}

fn row_named<'a>(rows: &'a [Builtin], name: &str) -> Option<&'a Builtin>
    ensures { found_builtin result ≡ b.row_named (builtin_views rows.now) name.now }
{
    for row in rows {
        if row.name == name {
            return Some(row);
        }
    }
    None
}

/// Whether the function of this name comes with the library and returns a number that it is given,
/// so that a select on it chooses by plural categories.
pub fn returns_number(name: &str) -> bool
    ensures { result ≡ b.returns_number name.now }
{
    match builtin_named(name) {
        Some(builtin) => matches!(builtin.operand, Operand::Number),
        None => false,
    }
}

impl Builtin {
    /// The values that its option of this name takes, if it has one.
    pub fn takes(&self, name: &str) -> Option<Takes>
        ensures { found_takes result ≡ b.taken_by (builtin_view self.now).options name.now }
    {
        taken_by(self.options, name)
    }
}

fn taken_by(options: &[FunctionOption], name: &str) -> Option<Takes>
    ensures { found_takes result ≡ b.taken_by (option_views options.now) name.now }
{
    for option in options {
        if option.name == name {
            return Some(option.takes);
        }
    }
    None
}

impl KnownNames for Builtin {
    ghost knows = { λ builtin. b.has_option (builtin_view builtin) };

    fn has_name(&self, name: &str) -> bool {
        self.takes(name).is_some()
    }
}
