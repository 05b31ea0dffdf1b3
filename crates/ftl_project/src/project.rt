//! A project: its languages, and which files are translated from which.
ghost use Rattle.std.specs.Prelude.{◌≡◌, IfOk, map};
ghost use Rattle.fluent_project.specs.Views.{plain};
ghost use Rattle.ftl_project.specs.Paths.{path_in, paths};

use crate::config::{Config, add_all, config_of, path_in};
use crate::loading::{Loaded, folder_of_file};
use crate::reference::index_of;
use crate::wrong::ProjectError;
use fluent_project::{
    Action, FilterRule, Part, Place, Rule, Setting, folder_of, has_locale, have_same_wildcards,
    joined, locale_in, parts_of, with_star,
};
use std::alloc::{AllocError, Global};

/// A project: its languages, and which files are translated from which.
#[derive(Drop)]
pub struct Project<'l> {
    /// Its file, if it has one.
    pub file: Option<&'l Loaded>,
    /// Its languages, in the order of their bytes.
    pub languages: Vec<&'l str>,
    /// The rules of its files. A later one counts before an earlier one.
    pub rules: Vec<Rule<'l>>,
    /// For each of its files, by their numbers, the filters.
    filters: Vec<Vec<FilterRule<'l>>>,
    /// The rules of the files that it leaves out.
    pub excluded: Vec<Rule<'l>>,
    /// The functions that the program provides.
    pub functions: Vec<&'l str>,
    /// The codes of findings that are left out.
    pub ignored: Vec<&'l str>,
}

impl<'l> Project<'l> {
    /// No languages, and no files.
    fn new(alloc: Global) -> Self {
        Project {
            file: None,
            languages: Vec::new(alloc),
            rules: Vec::new(alloc),
            filters: Vec::new(alloc),
            excluded: Vec::new(alloc),
            functions: Vec::new(alloc),
            ignored: Vec::new(alloc),
        }
    }

    /// The project of these files.
    ///
    /// # Errors
    /// [`ProjectError`]: what is wrong with one, or that there is no language.
    pub fn of_files(
        alloc: Global,
        given: &[Setting<'l>],
        loaded: &'l [Loaded],
    ) -> Result<Self, ProjectError> {
        let mut project = Project::new(alloc);
        for (number, file) in loaded.iter().enumerate() {
            let folder = folder_of_file(file.path.as_str());
            match config_of(alloc, given, number, folder, &file.table) {
                Ok(config) => project.add(file, config)?,
                Err(error) => {
                    let (name, text) = (file.name.as_str(), file.text.as_str());
                    return Err(ProjectError::of_file(alloc, name, text, error));
                }
            }
        }
        project.languages.sort()?;
        project.languages.dedup();
        project.with_languages(alloc)
    }

    /// Adds a file.
    fn add(&mut self, file: &'l Loaded, config: Config<'l>) -> Result<(), AllocError> {
        let Config {
            mut languages,
            mut rules,
            mut filters,
            settings,
            ..
        } = config;
        if self.file.is_none() {
            self.file = Some(file);
        }
        if file.is_excluded {
            filters.clear();
            self.filters.push(filters)?;
            return self.excluded.append(&mut rules);
        }
        self.languages.append(&mut languages)?;
        add_all(&mut self.functions, &settings.functions)?;
        add_all(&mut self.ignored, &settings.ignored)?;
        self.filters.push(filters)?;
        self.rules.append(&mut rules)
    }

    /// The same project, if it has a language.
    fn with_languages(self, alloc: Global) -> Result<Self, ProjectError> {
        match self.file {
            Some(file) if self.languages.is_empty() => {
                let place = Place::Top("locales");
                Err(ProjectError::in_file(alloc, file, place, "there is no language in `locales`"))
            }
            _ => Ok(self),
        }
    }

    /// The project of patterns: those of the reference, and at the same index that of its
    /// translations. They begin at this folder. Its languages aren't known yet.
    ///
    /// # Errors
    /// [`ProjectError`]: what is wrong with a pattern.
    pub fn of_patterns(
        alloc: Global,
        here: &str,
        references: &[&str],
        patterns: &[&str],
    ) -> Result<Self, ProjectError> {
        if !references.is_empty() && references.len() != patterns.len() {
            return Err(ProjectError::of(format!(in alloc;
                "each pattern of translations needs its own --reference"
            )));
        }
        let mut project = Project::new(alloc);
        for (n, pattern) in patterns.iter().enumerate() {
            let reference = references.get(n).copied();
            project
                .rules
                .push(rule_of(alloc, here, reference, pattern)?)?;
        }
        Ok(project)
    }

    /// The languages that files are of, if they aren't of the reference: in the order of their
    /// bytes, each once.
    ///
    /// # Errors
    /// [`AllocError`] if memory runs out; nothing is kept.
    pub fn languages_of<'p>(
        &self,
        alloc: Global,
        references: &[&str],
        files: &[&'p str],
    ) -> Result<Vec<&'p str>, AllocError> {
        let mut languages = Vec::new(alloc);
        for file in files {
            if index_of(references, file).is_none() {
                push_languages(alloc, &self.rules, file, &mut languages)?;
            }
        }
        languages.sort()?;
        languages.dedup();
        Ok(languages)
    }

    /// The folders below which the files of these languages lie, and those of the reference; those
    /// of all languages if there are none.
    ///
    /// # Errors
    /// [`AllocError`] if memory runs out; nothing is kept.
    pub fn folders(&self, alloc: Global, languages: &[&str]) -> Result<Vec<String>, AllocError> {
        let mut folders = Vec::new(alloc);
        for rule in &self.rules {
            if let Some(reference) = &rule.reference {
                push_folder(alloc, reference, "", &mut folders)?;
            }
            if languages.is_empty() {
                push_folder(alloc, &with_star(alloc, &rule.l10n)?, "", &mut folders)?;
            }
            for locale in languages {
                if rule.is_about(locale) {
                    push_folder(alloc, &rule.l10n, locale, &mut folders)?;
                }
            }
        }
        folders.sort()?;
        folders.dedup();
        Ok(folders)
    }

    /// That no file of the reference was found, if the project asks for some.
    pub fn no_reference(&self, alloc: Global) -> Option<ProjectError> {
        if !asks_for_reference(&self.rules) {
            return None;
        }
        let Some(file) = self.file else {
            let what = String::from_str(alloc, "no file matches --reference");
            return Some(ProjectError::of(what));
        };
        let place = Place::Inside {
            name: "paths",
            index: 0,
            key: "reference",
        };
        Some(ProjectError::in_file(alloc, file, place, "no file matches `reference`"))
    }

    /// What becomes of a file that a language lacks or has alone, by its path; or of a message of
    /// it, by its id. If several files of the project are about it, the worst counts.
    ///
    /// # Errors
    /// [`AllocError`] if memory runs out.
    pub fn action(
        &self,
        alloc: Global,
        locale: &str,
        path: &str,
        id: Option<&str>,
    ) -> Result<Action, AllocError> {
        let mut worst = Action::Ignore;
        for (n, filters) in self.filters.iter().enumerate() {
            if self.is_about(n, locale, path) {
                worst = worse(worst, action_by(alloc, filters, locale, path, id)?);
            }
        }
        Ok(worst)
    }

    /// Whether a rule of the file of this number is about a path of a language.
    fn is_about(&self, number: usize, locale: &str, path: &str) -> bool {
        self.rules.iter().any(|rule| rule.file == number && rule.has_translation(locale, path))
    }

    /// Whether it has filters.
    pub fn has_filters(&self) -> bool {
        self.filters.iter().any(|filters| !filters.is_empty())
    }
}

/// Appends the languages that a file is of by these rules.
fn push_languages<'p>(
    alloc: Global,
    rules: &[Rule<'_>],
    file: &'p str,
    languages: &mut Vec<&'p str>,
) -> Result<(), AllocError> {
    for rule in rules {
        if let Some(locale) = locale_in(alloc, &rule.l10n, file)? {
            languages.push(locale)?;
        }
    }
    Ok(())
}

/// Whether one of these rules names a reference.
fn asks_for_reference(rules: &[Rule<'_>]) -> bool {
    rules.iter().any(|rule| rule.reference.is_some())
}

/// Appends the folder of a pattern.
fn push_folder(
    alloc: Global,
    pattern: &[Part],
    locale: &str,
    folders: &mut Vec<String>,
) -> Result<(), AllocError> {
    let folder = folder_of(alloc, pattern, locale.as_bytes())?;
    if let Ok(folder) = String::from_utf8(folder) {
        folders.push(folder)?;
    }
    Ok(())
}

/// What the last of these filters that is about a file or a message says, or that it is an error.
fn action_by(
    alloc: Global,
    filters: &[FilterRule<'_>],
    locale: &str,
    path: &str,
    id: Option<&str>,
) -> Result<Action, AllocError> {
    for filter in filters.iter().rev() {
        let is_about = match id {
            Some(id) => filter.has_key(alloc, id)?,
            None => filter.is_of_files(),
        };
        if is_about && filter.is_about(locale, path) {
            return Ok(filter.action);
        }
    }
    Ok(Action::Error)
}

/// The worse of two.
fn worse(one: Action, other: Action) -> Action {
    match (one, other) {
        (Action::Error, _) | (_, Action::Error) => Action::Error,
        (Action::Warning, _) | (_, Action::Warning) => Action::Warning,
        (Action::Ignore, Action::Ignore) => Action::Ignore,
    }
}

/// The rule of two patterns.
fn rule_of<'l>(
    alloc: Global,
    here: &str,
    reference: Option<&str>,
    translations: &str,
) -> Result<Rule<'l>, ProjectError> {
    let l10n = pattern_of(alloc, here, translations)?;
    if !has_locale(&l10n) {
        return Err(ProjectError::of(format!(in alloc;
            "{translations}: the pattern lacks {{locale}}"
        )));
    }
    let reference = match reference {
        Some(text) => Some(reference_of(alloc, here, text, &l10n)?),
        None => None,
    };
    Ok(Rule {
        file: 0,
        reference,
        l10n,
        locales: None,
    })
}

/// The pattern of a reference with translations of this pattern.
fn reference_of(
    alloc: Global,
    here: &str,
    text: &str,
    l10n: &[Part],
) -> Result<Vec<Part>, ProjectError> {
    let reference = pattern_of(alloc, here, text)?;
    if has_locale(&reference) {
        return Err(ProjectError::of(format!(in alloc; "{text}: --reference takes no {{locale}}")));
    }
    if !have_same_wildcards(&reference, l10n) {
        return Err(ProjectError::of(format!(in alloc;
            "{text}: the wildcards of --reference and of its translations differ"
        )));
    }
    Ok(reference)
}

/// A pattern that begins at this folder.
fn pattern_of(alloc: Global, here: &str, text: &str) -> Result<Vec<Part>, ProjectError> {
    match parts_of(alloc, &[], text.as_bytes()) {
        Ok(parts) => Ok(joined(alloc, here.as_bytes(), &parts)?),
        Err(_) => Err(ProjectError::of(format!(in alloc;
            "{text}: the pattern holds a variable that isn't {{locale}}"
        ))),
    }
}

/// The paths of these names, as they are seen from this folder.
///
/// # Errors
/// [`AllocError`] if memory runs out; nothing is kept.
pub fn paths_in(alloc: Global, here: &str, names: &[&str]) -> Result<Vec<String>, AllocError>
    ensures { IfOk result (λ made. paths made.items ≡ map (path_in here.now) (plain names.now)) }
{
    let mut paths = Vec::with_capacity(alloc, names.len())?;
    for name in names {
        paths.push(path_in(alloc, here, name)?)?;
    }
    Ok(paths)
}
