//! Checks a damaged source, tidies it, and asks it for a text: before and after it is the same one.

use anyhow::Result;
use fluent_desk::{Settings, StackBudget, answers, check, clean, export, import, normalize};
use fluent_plurals::LanguagePlurals;
use std::alloc::Global;

const SOURCE: &str = "\
key1 = Value 1

g@Rb@ge

key2={ $x }
";

pub fn main(rt: HostRuntime) -> Result<()> {
    show_errors(&rt)?;
    let normal = tidied(rt.alloc())?;
    print!(rt; "{normal}")?;
    println!(rt; "{}", is_imported(rt.alloc(), &normal)?)?;
    println!(rt; "{}", is_answered_alike(rt.alloc(), &normal)?)?;
    Ok(())
}

/// Shows what is wrong with the source.
fn show_errors(rt: &HostRuntime) -> Result<()> {
    let alloc = rt.alloc();
    let report = check(alloc, &[SOURCE])?;
    for errors in &report.errors {
        for error in errors {
            println!(rt; "{error}")?;
        }
    }
    Ok(())
}

/// The source without the damage, and then in the form that the serializer writes.
fn tidied(alloc: Global) -> Result<String> {
    let cleaned = clean(alloc, SOURCE)?; // key1 = Value 1, an empty line, key2={ $x }
    let normal = normalize(alloc, &cleaned)?; // key1 = Value 1, key2 = { $x }
    Ok(normal)
}

/// Whether the tree of the source as JSON gives the same text.
fn is_imported(alloc: Global, normal: &str) -> Result<bool> {
    let tree = export(alloc, SOURCE)?;
    let imported = import(alloc, &tree)?;
    Ok(imported.as_str() == normal)
}

/// Whether a request line of an id and an argument gets the same answer from both.
fn is_answered_alike(alloc: Global, normal: &str) -> Result<bool> {
    let settings = Settings {
        isolating: false,
        overriding: false,
        numerals: None,
    };
    let plurals = LanguagePlurals::root();
    let requests = "key2\tx=3\n".as_bytes();
    let stack = StackBudget::PROGRAM;
    let before = answers(alloc, &[SOURCE], settings, &plurals, requests, stack)?;
    let after = answers(alloc, &[normal], settings, &plurals, requests, stack)?;
    Ok(before == after)
}
