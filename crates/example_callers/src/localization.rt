//! Reads the texts of the user's languages from `l10n/LANGUAGE`, and shows each message in the
//! first language that has it.

use anyhow::{Context, Result};
use fluent_bundle::localization::{LocalizedText, format_value};
use fluent_bundle::{FluentArgs, FluentResource, LanguageBundle};
use fluent_languages::{NegotiationStrategy, negotiate_languages, tag_of_posix};
use std::alloc::{AllocError, Global};
use std::{env, fs};

/// The program's languages. The first is asked last.
const LANGUAGES: [&str; 3] = ["en-US", "de", "fr"];

pub fn main(rt: HostRuntime) -> Result<()> {
    let languages = used_languages(&rt)?;
    let sources = read_all(&rt, &languages)?;
    show(&rt, &languages, &sources)
}

/// The program's languages that suit the user, the best first.
fn used_languages(rt: &HostRuntime) -> Result<Vec<&'static str>> {
    let asked = asked_languages(rt)?;
    Ok(negotiate(rt.alloc(), &asked)?)
}

fn negotiate(alloc: Global, asked: &[String]) -> Result<Vec<&'static str>, AllocError> {
    let mut tags = Vec::new(alloc);
    for tag in asked {
        tags.push(tag.as_str())?;
    }
    let last = Some(LANGUAGES[0]);
    negotiate_languages(
        alloc,
        &tags,
        &LANGUAGES,
        last,
        NegotiationStrategy::Filtering,
    )
}

/// The languages that the program's arguments name, or else that of the environment.
fn asked_languages(rt: &HostRuntime) -> Result<Vec<String>> {
    let mut asked = Vec::new(rt.alloc());
    for word in env::args(rt)?.skip(1) {
        asked.push(word)?;
    }
    if asked.is_empty() {
        push_system_language(rt, &mut asked)?;
    }
    Ok(asked)
}

/// Puts in the language of the first of these variables that is set, if it names one.
fn push_system_language(rt: &HostRuntime, asked: &mut Vec<String>) -> Result<()> {
    for name in ["LC_ALL", "LC_MESSAGES", "LANG"] {
        if let Ok(locale) = env::var(rt, name) {
            if !locale.is_empty() {
                return push_language(rt.alloc(), asked, &locale);
            }
        }
    }
    Ok(())
}

fn push_language(alloc: Global, asked: &mut Vec<String>, locale: &str) -> Result<()> {
    if let Some(tag) = tag_of_posix(locale) {
        asked.push(tag.to_string(alloc)?)?;
    }
    Ok(())
}

/// The sources of each language.
fn read_all(rt: &HostRuntime, languages: &[&str]) -> Result<Vec<Vec<String>>> {
    let mut sources = Vec::new(rt.alloc());
    for language in languages {
        sources.push(read_folder(rt, language)?)?;
    }
    Ok(sources)
}

/// The sources of a language: the files `l10n/LANGUAGE/*.ftl`.
fn read_folder(rt: &HostRuntime, language: &str) -> Result<Vec<String>> {
    let mut sources = Vec::new(rt.alloc());
    let folder = format!(in rt.alloc(); "l10n/{language}")?;
    for entry in fs::read_dir(rt, &folder)? {
        let entry = entry?;
        if entry.file_name().ends_with(".ftl") {
            sources.push(fs::read_to_string(rt, entry.path())?)?;
        }
    }
    Ok(sources)
}

fn show(rt: &HostRuntime, languages: &[&str], sources: &[Vec<String>]) -> Result<()> {
    let mut resources = Vec::new(rt.alloc());
    for texts in sources {
        resources.push(parse_all(rt.alloc(), texts)?)?;
    }
    show_messages(rt, languages, &resources)
}

fn parse_all(alloc: Global, sources: &[String]) -> Result<Vec<FluentResource<'_>>> {
    let mut resources = Vec::new(alloc);
    for source in sources {
        resources.push(FluentResource::try_new(alloc, source.as_str())?)?;
    }
    Ok(resources)
}

/// Makes the bundle of each language, and shows messages.
fn show_messages<'s>(
    rt: &HostRuntime,
    languages: &[&str],
    resources: &[Vec<FluentResource<'s>>],
) -> Result<()> {
    let mut bundles = Vec::new(rt.alloc());
    for (language, resources) in languages.iter().zip(resources) {
        bundles.push(bundle_of(rt.alloc(), language, resources)?)?;
    }
    for id in ["welcome", "thanks", "bye", "nothing"] {
        say(rt, &bundles, id)?;
    }
    Ok(())
}

fn bundle_of<'r, 's>(
    alloc: Global,
    language: &str,
    resources: &'r [FluentResource<'s>],
) -> Result<LanguageBundle<'r, 's>> {
    let mut bundle = LanguageBundle::for_tag(alloc, language).context("no plural rules")?;
    bundle.set_use_isolating(false);
    for resource in resources {
        bundle.add_resource(resource)?;
    }
    Ok(bundle)
}

/// Shows a message in the first language that has it.
fn say<'r, 's: 'r>(rt: &HostRuntime, bundles: &[LanguageBundle<'r, 's>], id: &str) -> Result<()> {
    match text_of(rt.alloc(), bundles, id)? {
        Some(found) => println!(rt; "{}", found.text)?,
        None => println!(rt; "{id} is missing")?,
    }
    Ok(())
}

fn text_of<'r, 's: 'r>(
    alloc: Global,
    bundles: &[LanguageBundle<'r, 's>],
    id: &str,
) -> Result<Option<LocalizedText<'s>>, AllocError> {
    let mut args = FluentArgs::new(alloc);
    args.set("name", "Jane")?;
    let mut errors = Vec::new(alloc);
    format_value(bundles, id, Some(&args), &mut errors)
}
