//! Calls that may be refused memory: each gives what it gives with all the memory that it asks for,
//! or says that memory ran out.
//!
//! Each call is made twice. With any one allocation refused at most one of the two says so, and the
//! other tells what is right.

ghost use Rattle.std.specs.Prelude.{string_bytes};

use fluent_syntax::ast::CallArguments;
use fluent_syntax::parser::{self, Error, parse, parse_runtime};
use fluent_syntax::serializer::{Options, serialize, serialize_with_options};
use fluent_syntax::unicode::{TextWrite, unescape_unicode, unescape_unicode_to_string};
use rows_common::Tally;
use std::alloc::{AllocError, Global};
use std::fmt;

const SOURCES: [&str; 6] = [
    "\nkey1 = Value 1\n\ng@Rb@ge = #2y ds\n\nkey2 = Value 2\n\n",
    "### r\n## g\n# c\n# d\na =\n    one\n      two\n    three { $x }\n    .t = u\n-b = c\n    .v = w\n",
    "rank = { NUMBER($n, type: \"ordinal\", x: -1.5) ->\n    [1] first\n   *[other] {$n}th\n}\n",
    "a = {{ F(G(1), \"\\u00e9\", { -b.c(x: 1) }, m.n) }}\n",
    "a = { F(a: 1, b: 2, c: 3, d: 4, e: 5, f: 6, g: 7, h: 8, i: 9, j: 10, k: 11) }\n",
    "a = { F(x: 1, x: 2) }\nb = { \"\\q\" }\nc = { \"\\u12\" }\nd =\n-e =\nf = { 1 -> }\n9\n",
];

/// Raw texts of string literals.
const RAW: [&str; 4] = [
    "Foo \\u5bd2 Bar",
    "\\\\ and \\\" and \\U01F602",
    "\\q\\u12",
    "naïve",
];

/// Reads, copies and writes the sources, and resolves the escapes of the raw texts.
pub fn try_refused(alloc: Global) -> Tally {
    let mut tally = Tally::new();
    for source in SOURCES {
        tally.add(reads_twice(alloc, source));
        tally.add(reads_copies_twice(alloc, source));
        tally.add(copies_and_writes_twice(alloc, source));
    }
    for raw in RAW {
        tally.add(gives_twice(alloc, raw));
        tally.add(writes_twice(alloc, raw));
    }
    tally.add(keeps_what_was_taken(alloc));
    tally.add(has_no_arguments(alloc));
    tally
}

/// Of two answers at most one says that memory ran out; where neither does, they are equal.
fn agree<T: PartialEq + Drop>(one: Option<T>, other: Option<T>) -> bool {
    match (one, other) {
        (None, None) => false,
        (Some(one), Some(other)) => one == other,
        _ => true,
    }
}

/// An answer, or None where memory ran out.
fn told<S: Drop>(answer: parser::Result<S>) -> Option<parser::Result<S>> {
    match answer {
        Err(Error::Memory) => None,
        answer => Some(answer),
    }
}

/// Both readers over a borrowed source.
fn reads_twice(alloc: Global, source: &str) -> bool {
    agree(told(parse(alloc, source)), told(parse(alloc, source)))
        && agree(
            told(parse_runtime(alloc, source)),
            told(parse_runtime(alloc, source)),
        )
}

/// The tree of a copy of a source, or None where memory ran out.
fn read_copy(alloc: Global, source: &str) -> Option<parser::Result<String>> {
    let copy = String::from_str(alloc, source).ok()?;
    told(parse(alloc, copy))
}

/// The same at run time.
fn read_copy_at_run_time(alloc: Global, source: &str) -> Option<parser::Result<String>> {
    let copy = String::from_str(alloc, source).ok()?;
    told(parse_runtime(alloc, copy))
}

/// Both readers over copies of a source.
fn reads_copies_twice(alloc: Global, source: &str) -> bool {
    agree(read_copy(alloc, source), read_copy(alloc, source))
        && agree(
            read_copy_at_run_time(alloc, source),
            read_copy_at_run_time(alloc, source),
        )
}

/// The tree and the errors of a source copied, and its tree written with and without junk.
fn copies_and_writes_twice(alloc: Global, source: &str) -> bool {
    let (tree, errors) = match parse(alloc, source) {
        Ok(tree) => (tree, Vec::new(alloc)),
        Err(Error::Broken(tree, errors)) => (tree, errors),
        Err(Error::Memory) => return true,
    };
    for error in &errors {
        if !agree(error.try_clone(alloc).ok(), error.try_clone(alloc).ok()) {
            return false;
        }
    }
    let with_junk = Options { with_junk: true };
    agree(tree.try_clone(alloc).ok(), tree.try_clone(alloc).ok())
        && agree(serialize(alloc, &tree).ok(), serialize(alloc, &tree).ok())
        && agree(
            serialize_with_options(alloc, &tree, with_junk).ok(),
            serialize_with_options(alloc, &tree, with_junk).ok(),
        )
}

/// What a raw text stands for.
fn gives_twice(alloc: Global, raw: &str) -> bool {
    match (
        unescape_unicode_to_string(alloc, raw),
        unescape_unicode_to_string(alloc, raw),
    ) {
        (Ok(one), Ok(other)) => one.as_str() == other.as_str(),
        (Err(AllocError), Err(AllocError)) => false,
        _ => true,
    }
}

/// The same, written. What a refused call wrote begins the whole.
fn writes_twice(alloc: Global, raw: &str) -> bool {
    let mut one = String::new(alloc);
    let mut other = String::new(alloc);
    match (
        unescape_unicode(&mut one, raw),
        unescape_unicode(&mut other, raw),
    ) {
        (Ok(()), Ok(())) => one.as_str() == other.as_str(),
        (Err(_), Ok(())) => other.as_str().starts_with(one.as_str()),
        (Ok(()), Err(_)) => one.as_str().starts_with(other.as_str()),
        (Err(_), Err(_)) => false,
    }
}

/// A writer with room for so many texts.
#[derive(Drop)]
struct Limited {
    taken: String,
    room: usize,
}

impl TextWrite for Limited {
    ghost text = { λ s. string_bytes s.taken };

    fn write_str(&mut self, text: &str) -> fmt::Result {
        if self.room == 0 {
            return Err(fmt::Error);
        }
        self.taken.push_str(text)?;
        self.room -= 1;
        Ok(())
    }
}

/// Whether texts before a refused one stand. Where memory is refused, it is tried once more.
fn keeps_what_was_taken(alloc: Global) -> bool {
    is_taken(alloc) || is_taken(alloc)
}

fn is_taken(alloc: Global) -> bool {
    let taken = String::new(alloc);
    let mut writer = Limited { taken, room: 3 };
    unescape_unicode(&mut writer, "a\\\\b\\u0063").is_err() && writer.taken.as_str() == "a\\b"
}

/// Whether `CallArguments::new` gives no arguments. It takes no memory.
fn has_no_arguments(alloc: Global) -> bool {
    let arguments: CallArguments<String> = CallArguments::new(alloc);
    arguments.positional.is_empty() && arguments.named.is_empty()
}
