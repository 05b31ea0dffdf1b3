//! Which files of a language are translated from which of the reference.
ghost use Rattle.std.specs.Prelude.{◌≡◌, IfOk, OnOk};
ghost use Rattle.fluent_project.specs.Pairs.{alone_as, has_reference, has_translation, is_about, is_among, is_reference, is_kept, is_translation, references_of};
ghost use Rattle.fluent_project.specs.Folders.{folder};
ghost use Rattle.fluent_project.specs.PairViews.{AddsAlone, AddsByRule, AddsFile, AddsFiles, AddsFrom, AddsOne, AddsTranslation, AddsTranslations, AppendsReferences, AreSources, IsTranslation, Removes, rule_view, rules_view, source_view, tree_view};
ghost use Rattle.fluent_project.specs.Views.{plain};

use crate::folders::folder_of;
use crate::matching::{takes, texts_in};
use crate::part::Part;
use crate::putting::path_of;
use std::alloc::{AllocError, Global};
use std::collections::BTreeMap;

/// Which files are translated from which, for all languages or for some.
#[derive(Drop)]
pub struct Rule<'f> {
    /// The number of the project's file that has the rule.
    pub file: usize,
    /// The pattern of the reference.
    pub reference: Option<Vec<Part>>,
    /// The pattern of translations.
    pub l10n: Vec<Part>,
    /// The languages that it is about; without them, all.
    pub locales: Option<Vec<&'f str>>,
}

/// What a file of a language is translated from.
#[derive(Clone, Copy)]
pub enum Source {
    /// The file at this index of those of the reference.
    File(usize),
    /// The reference has no such file.
    Lacking,
    /// No rule names a reference for it.
    Unasked,
}

/// The rules of a project, and the files that there are, each list in the order of paths' bytes.
#[derive(Clone, Copy)]
pub struct Tree<'t, 'f> {
    /// The rules. A later one counts before an earlier one.
    pub rules: &'t [Rule<'f>],
    /// Rules whose translations are no files of the project.
    pub excluded: &'t [Rule<'f>],
    /// The files of the reference.
    pub references: &'t [&'t str],
    /// All files, those of the reference among them.
    pub files: &'t [&'t str],
}

impl<'f> Rule<'f> {
    /// Whether it is about a language.
    pub fn is_about(&self, locale: &str) -> bool
        ensures { result ≡ is_about locale.now (rule_view self.now) }
    {
        match &self.locales {
            None => true,
            Some(locales) => is_among(locales, locale),
        }
    }

    /// Whether a path is one of its translations into a language.
    pub fn has_translation(&self, locale: &str, path: &str) -> bool
        ensures { result ≡ has_translation locale.now path.now (rule_view self.now) }
    {
        self.is_about(locale) && takes(&self.l10n, locale.as_bytes(), path.as_bytes())
    }

    /// Whether a path is one of its reference.
    pub fn has_reference(&self, path: &str) -> bool
        ensures { result ≡ has_reference path.now (rule_view self.now) }
    {
        match &self.reference {
            Some(reference) => takes(reference, b"", path.as_bytes()),
            None => false,
        }
    }

    /// What a file is that the reference hasn't.
    fn source_alone(&self) -> Source
        ensures { source_view result ≡ alone_as (rule_view self.now) }
    {
        match self.reference {
            Some(_) => Source::Lacking,
            None => Source::Unasked,
        }
    }
}

/// Whether a text is among others.
fn is_among(texts: &[&str], text: &str) -> bool
    ensures { result ≡ is_among (plain texts.now) text.now }
{
    match texts {
        [] => false,
        [other, others @ ..] => *other == text || is_among(others, text),
    }
}

/// The files of the reference: those of these that a rule names as such.
///
/// # Errors
/// [`AllocError`] if memory runs out; nothing is kept.
pub fn references_of<'p>(
    alloc: Global,
    rules: &[Rule<'_>],
    files: &[&'p str],
) -> Result<Vec<&'p str>, AllocError>
    ensures { IfOk result (λ references.
        plain references.items ≡ references_of (rules_view rules.now) (plain files.now)) }
{
    let mut references = Vec::new(alloc);
    push_references(rules, files, &mut references)?;
    Ok(references)
}

/// Appends those of these files that a rule names as such.
fn push_references<'p>(
    rules: &[Rule<'_>],
    files: &[&'p str],
    references: &mut Vec<&'p str>,
) -> Result<(), AllocError>
    ensures { OnOk result (AppendsReferences rules.now files.now references.old.items references.new.items) }
{
    match files {
        [] => Ok(()),
        [file, rest @ ..] => {
            if is_reference(rules, file) {
                references.push(*file)?;
            }
            push_references(rules, rest, references)
        }
    }
}

/// Whether a path is one of the reference, by any of these rules.
fn is_reference(rules: &[Rule<'_>], path: &str) -> bool
    ensures { result ≡ is_reference (rules_view rules.now) path.now }
{
    match rules {
        [] => false,
        [rule, rest @ ..] => rule.has_reference(path) || is_reference(rest, path),
    }
}

/// Whether a path is a translation into a language, by any of these rules.
fn is_translation(rules: &[Rule<'_>], locale: &str, path: &str) -> bool
    ensures { result ≡ is_translation (rules_view rules.now) locale.now path.now }
{
    match rules {
        [] => false,
        [rule, rest @ ..] => {
            rule.has_translation(locale, path) || is_translation(rest, locale, path)
        }
    }
}

impl Tree<'_, '_> {
    /// The files of a language by their paths, whether they exist or not, with what each is
    /// translated from. Files of the reference are none of them.
    ///
    /// # Errors
    /// [`AllocError`] if memory runs out; nothing is kept.
    pub fn pairs(&self, alloc: Global, locale: &str) -> Result<BTreeMap<String, Source>, AllocError>
        ensures { IfOk result (AreSources (tree_view self.now) locale.now) }
    {
        let mut pairs = BTreeMap::new(alloc);
        self.add_translations(alloc, locale, self.rules, &mut pairs)?;
        self.add_alone(alloc, locale, self.rules, &mut pairs)?;
        remove_all(self.references, &mut pairs);
        Ok(pairs)
    }

    /// Adds the translations of the files of the reference by these rules, the last of them first.
    #[tactic(auto, using(crate::proofs::SaidOf::adds_none, crate::proofs::SaidOf::adds_both))]
    fn add_translations(
        &self,
        alloc: Global,
        locale: &str,
        rules: &[Rule<'_>],
        pairs: &mut BTreeMap<String, Source>,
    ) -> Result<(), AllocError>
        ensures { OnOk result (AddsTranslations self.now locale.now rules.now pairs.old pairs.new) }
    {
        match rules {
            [] => Ok(()),
            [rule, rest @ ..] => {
                self.add_translations(alloc, locale, rest, pairs)?;
                self.add_by(alloc, locale, rule, pairs)
            }
        }
    }

    /// Adds the translations of the files of the reference by a rule.
    fn add_by(
        &self,
        alloc: Global,
        locale: &str,
        rule: &Rule<'_>,
        pairs: &mut BTreeMap<String, Source>,
    ) -> Result<(), AllocError>
        ensures { OnOk result (AddsByRule self.now locale.now rule.now pairs.old pairs.new) }
    {
        let Some(reference) = &rule.reference else {
            return Ok(());
        };
        if !rule.is_about(locale) {
            return Ok(());
        }
        let patterns = Patterns {
            alloc,
            locale,
            reference,
            l10n: &rule.l10n,
        };
        self.add_from(patterns, pairs)
    }

    /// Adds the translations of the files of the reference.
    fn add_from(
        &self,
        patterns: Patterns<'_>,
        pairs: &mut BTreeMap<String, Source>,
    ) -> Result<(), AllocError>
        ensures { OnOk result (AddsFrom self.now patterns.entry 0 self.now.references.now pairs.old pairs.new) }
    {
        for (number, file) in self.references.iter().enumerate() {
            self.add_translation(patterns, number, file, pairs)?;
        }
        Ok(())
    }

    /// Adds the translation of the file of this number.
    fn add_translation(
        &self,
        patterns: Patterns<'_>,
        number: usize,
        file: &str,
        pairs: &mut BTreeMap<String, Source>,
    ) -> Result<(), AllocError>
        ensures { OnOk result (AddsTranslation self.now patterns.entry number file.now pairs.old pairs.new) }
    {
        match patterns.translation(file)? {
            Some(path) => self.add(patterns.locale, path, Source::File(number), pairs),
            None => Ok(()),
        }
    }

    /// Adds the files of the language that the reference doesn't have by these rules, the last of
    /// them first.
    #[tactic(auto, using(crate::proofs::SaidOf::adds_none, crate::proofs::SaidOf::adds_both))]
    fn add_alone(
        &self,
        alloc: Global,
        locale: &str,
        rules: &[Rule<'_>],
        pairs: &mut BTreeMap<String, Source>,
    ) -> Result<(), AllocError>
        ensures { OnOk result (AddsAlone self.now locale.now rules.now pairs.old pairs.new) }
    {
        match rules {
            [] => Ok(()),
            [rule, rest @ ..] => {
                self.add_alone(alloc, locale, rest, pairs)?;
                let folder = folder_of(alloc, &rule.l10n, locale.as_bytes())?;
                self.add_files(alloc, locale, rule, &folder, self.files, pairs)
            }
        }
    }

    /// Adds those of these files that are translations by a rule. Their paths begin with this one.
    fn add_files(
        &self,
        alloc: Global,
        locale: &str,
        rule: &Rule<'_>,
        start: &[u8],
        files: &[&str],
        pairs: &mut BTreeMap<String, Source>,
    ) -> Result<(), AllocError>
        requires { start.now ≡ folder locale.now rule.now.l10n.items }
        ensures { OnOk result (AddsFiles self.now locale.now rule.now files.now pairs.old pairs.new) }
    {
        for file in files {
            self.add_file(alloc, locale, rule, start, file, pairs)?;
        }
        Ok(())
    }

    /// Adds a file, if it is a translation by a rule. The paths of those begin with this one.
    fn add_file(
        &self,
        alloc: Global,
        locale: &str,
        rule: &Rule<'_>,
        start: &[u8],
        file: &str,
        pairs: &mut BTreeMap<String, Source>,
    ) -> Result<(), AllocError>
        requires { start.now ≡ folder locale.now rule.now.l10n.items }
        ensures { OnOk result (AddsFile self.now locale.now rule.now file.now pairs.old pairs.new) }
    {
        if !file.as_bytes().starts_with(start) || !rule.has_translation(locale, file) {
            return Ok(());
        }
        let path = String::from_str(alloc, file)?;
        self.add(locale, path, rule.source_alone(), pairs)
    }

    /// Adds a file, if it isn't there and isn't left out.
    fn add(
        &self,
        locale: &str,
        path: String,
        source: Source,
        pairs: &mut BTreeMap<String, Source>,
    ) -> Result<(), AllocError>
        ensures { OnOk result (AddsOne self.now locale.now path source pairs.old pairs.new) }
    {
        if !self.is_kept(locale, path.as_str()) || pairs.get(path.as_str()).is_some() {
            return Ok(());
        }
        let _ = pairs.insert(path, source)?;
        Ok(())
    }

    /// Whether a translation into a language isn't left out.
    fn is_kept(&self, locale: &str, path: &str) -> bool
        ensures { result ≡ is_kept (tree_view self.now) locale.now path.now }
    {
        !is_translation(self.excluded, locale, path)
    }
}

/// Takes files out.
fn remove_all(paths: &[&str], pairs: &mut BTreeMap<String, Source>)
    ensures { Removes paths.now pairs.old pairs.new }
{
    for path in paths {
        let _ = pairs.remove(*path);
    }
}

/// The patterns of a rule, and a language.
#[derive(Clone, Copy)]
struct Patterns<'r> {
    alloc: Global,
    locale: &'r str,
    reference: &'r [Part],
    l10n: &'r [Part],
}

impl Patterns<'_> {
    /// The path of the translation of a file, if the file is of the reference.
    fn translation(&self, file: &str) -> Result<Option<String>, AllocError>
        ensures { IfOk result (IsTranslation self.now file.now) }
    {
        match texts_in(self.alloc, self.reference, b"", file.as_bytes())? {
            Some(texts) => {
                let path = path_of(self.alloc, self.l10n, self.locale.as_bytes(), &texts)?;
                Ok(String::from_utf8(path).ok())
            }
            None => Ok(None),
        }
    }
}
