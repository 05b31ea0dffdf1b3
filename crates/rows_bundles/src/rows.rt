//! What is done to a bundle, and what its ids stand for after each step.

use crate::bundle::Function;
use crate::found::Found::{self, Message, Nothing, Number, Own, Term};
use fluent_bundle::EntryKind;

/// A call that adds something.
#[derive(Clone, Copy)]
pub enum Call {
    /// The entries of a source, the first of an id staying.
    Add(&'static str),
    /// The entries of a source, the last of an id staying.
    Override(&'static str),
    /// A function under an id.
    Function(&'static str, Function),
    /// The function `NUMBER`.
    Builtins,
}

/// A call, the notices that it answers, and what ids stand for after it.
#[derive(Clone, Copy)]
pub struct Step {
    pub call: Call,
    pub notices: &'static [(EntryKind, &'static str)],
    pub ids: &'static [(&'static str, Found<'static>)],
}

const KEYS: &str = "\nkey1 = Value 1\n\ng@Rb@ge = #2y ds\n\nkey2 = Value 2\n\n";

/// The steps of each bundle, from a new one on.
pub const ROWS: [&[Step]; 9] = [
    // a term and a message of one id
    &[Step {
        call: Call::Add("a = one\n-a = two\n"),
        notices: &[(EntryKind::Term, "a")],
        ids: &[("a", Message("one")), ("-a", Nothing)],
    }],
    // the same with the later entry staying, and the function then
    &[
        Step {
            call: Call::Override("a = one\n-a = two\n"),
            notices: &[],
            ids: &[("a", Term("two"))],
        },
        Step {
            call: Call::Function("a", Function::Older),
            notices: &[(EntryKind::Function, "a")],
            ids: &[("a", Term("two"))],
        },
    ],
    // entries of one resource, and all others are added
    &[Step {
        call: Call::Add("a = one\nb = two\na = three\n-b = four\nc = five\n"),
        notices: &[(EntryKind::Message, "a"), (EntryKind::Term, "b")],
        ids: &[
            ("a", Message("one")),
            ("b", Message("two")),
            ("c", Message("five")),
        ],
    }],
    // two resources
    &[
        Step {
            call: Call::Add("hello = Hi!\n"),
            notices: &[],
            ids: &[("hello", Message("Hi!")), ("other", Nothing)],
        },
        Step {
            call: Call::Add("hello = Another Hi!\nother = Else\n"),
            notices: &[(EntryKind::Message, "hello")],
            ids: &[("hello", Message("Hi!")), ("other", Message("Else"))],
        },
        Step {
            call: Call::Override("hello = Another Hi!\n"),
            notices: &[],
            ids: &[
                ("hello", Message("Another Hi!")),
                ("other", Message("Else")),
            ],
        },
    ],
    // `NUMBER` twice
    &[
        Step {
            call: Call::Builtins,
            notices: &[],
            ids: &[("NUMBER", Number)],
        },
        Step {
            call: Call::Builtins,
            notices: &[(EntryKind::Function, "NUMBER")],
            ids: &[("NUMBER", Number)],
        },
    ],
    // a message in the place of `NUMBER`
    &[
        Step {
            call: Call::Builtins,
            notices: &[],
            ids: &[("NUMBER", Number)],
        },
        Step {
            call: Call::Add("NUMBER = x\n"),
            notices: &[(EntryKind::Message, "NUMBER")],
            ids: &[("NUMBER", Number)],
        },
        Step {
            call: Call::Override("NUMBER = x\n"),
            notices: &[],
            ids: &[("NUMBER", Message("x"))],
        },
    ],
    // a function under a message's id
    &[
        Step {
            call: Call::Add("a = one\n"),
            notices: &[],
            ids: &[("a", Message("one"))],
        },
        Step {
            call: Call::Function("a", Function::Older),
            notices: &[(EntryKind::Function, "a")],
            ids: &[("a", Message("one"))],
        },
    ],
    // a function under a function's id, and a term after it
    &[
        Step {
            call: Call::Function("F", Function::Older),
            notices: &[],
            ids: &[("F", Own(Function::Older))],
        },
        Step {
            call: Call::Function("F", Function::Newer),
            notices: &[(EntryKind::Function, "F")],
            ids: &[("F", Own(Function::Older))],
        },
        Step {
            call: Call::Add("-F = term\n"),
            notices: &[(EntryKind::Term, "F")],
            ids: &[("F", Own(Function::Older))],
        },
    ],
    // junk is passed over
    &[Step {
        call: Call::Add(KEYS),
        notices: &[],
        ids: &[
            ("key1", Message("Value 1")),
            ("key2", Message("Value 2")),
            ("g", Nothing),
        ],
    }],
];
