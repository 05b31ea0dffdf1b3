//! The files of a project, which may include others.
ghost use Rattle.std.specs.Prelude.{◌≡◌};

use crate::config::{Link, config_of, path_in};
use crate::wrong::ProjectError;
use fluent_project::{Place, Setting, TextError, line_of, relative_path, table_of};
use ftl_files::{FileError as ReadError, Folder, bad_row};
use std::alloc::{AllocError, Global};
use toml::Table;

/// How deep files may include each other.
const DEPTH: usize = 64;

/// How many there may be in all: a file counts each time that it is included.
const MOST: usize = 1000;

/// A file of a project.
#[derive(Drop)]
pub struct Loaded {
    /// Its name, as it is reported.
    pub name: String,
    /// Its path from the root, or from the current folder if that isn't known.
    pub path: String,
    /// Its text, and the tables of that.
    pub text: String,
    pub table: Table,
    /// Whether its translations are no files of the project.
    pub is_excluded: bool,
    /// The file that names it, by its number.
    parent: Option<usize>,
}

/// What the files of a project are read with.
#[derive(Clone, Copy)]
struct Loader<'c> {
    alloc: Global,
    here: &'c str,
    given: &'c [Setting<'c>],
}

/// The files of a project, the first of which has this path: each before those that it includes,
/// and these in their order. The files stay as they are.
///
/// # Errors
/// [`ProjectError`]: the first thing that is wrong, or that memory ran out.
pub fn load_project<F: Folder>(
    folder: &mut F,
    alloc: Global,
    here: &str,
    given: &[Setting<'_>],
    path: &str,
) -> Result<Vec<Loaded>, ProjectError>
    ensures kept { F.contents folder.new ≡ F.contents folder.old }
{
    let loader = Loader { alloc, here, given };
    let name = relative_path(alloc, here, path)?;
    let Some(bytes) = bytes_of(folder, alloc, name.as_str())? else {
        return Err(ProjectError::of(unreadable(alloc, name.as_str(), folder.why())));
    };
    let path = String::from_str(alloc, path)?;
    let mut loaded = Vec::new(alloc);
    let link = OwnLink {
        path,
        is_excluded: false,
        line: 1,
    };
    loader.load(folder, DEPTH, link, bytes, None, &mut loaded)?;
    Ok(loaded)
}

/// The bytes of the file of this name, if it can be read.
pub(crate) fn bytes_of<F: Folder>(
    folder: &mut F,
    alloc: Global,
    name: &str,
) -> Result<Option<Vec<u8>>, ProjectError>
    ensures kept { F.contents folder.new ≡ F.contents folder.old }
{
    match folder.read(alloc, name) {
        Ok(bytes) => Ok(Some(bytes)),
        Err(ReadError::Memory) => Err(ProjectError::Memory),
        Err(ReadError::Unreadable) => Ok(None),
    }
}

/// That the file of this name can't be read, and why, if that is known.
pub(crate) fn unreadable(
    alloc: Global,
    name: &str,
    why: Option<&'static str>,
) -> Result<String, AllocError> {
    match why {
        Some(why) => format!(in alloc; "{name}: cannot read: {why}"),
        None => format!(in alloc; "{name}: cannot read"),
    }
}

/// The folder of a file.
pub(crate) fn folder_of_file(path: &str) -> &str {
    match path.rsplit_once('/') {
        Some(("", _)) => "/",
        Some((folder, _)) => folder,
        None => "",
    }
}

impl Loader<'_> {
    /// Adds a file with these bytes, and those that it names, which may name others up to this
    /// depth.
    fn load<F: Folder>(
        self,
        folder: &mut F,
        depth: usize,
        link: OwnLink,
        bytes: Vec<u8>,
        parent: Option<usize>,
        loaded: &mut Vec<Loaded>,
    ) -> Result<(), ProjectError>
        ensures kept { F.contents folder.new ≡ F.contents folder.old }
    {
        let number = loaded.len();
        let is_excluded = link.is_excluded;
        let links = self.add(link, bytes, parent, loaded)?;
        for link in &links {
            if depth == 0 {
                return Err(self.wrong(link, number, loaded, "the file includes itself"));
            }
            let link = self.copied(link, is_excluded)?;
            let bytes = self.linked(folder, &link, number, loaded)?;
            self.load(folder, depth - 1, link, bytes, Some(number), loaded)?;
        }
        Ok(())
    }

    /// Adds a file with these bytes, and gives the links to those that it names.
    fn add(
        self,
        link: OwnLink,
        bytes: Vec<u8>,
        parent: Option<usize>,
        loaded: &mut Vec<Loaded>,
    ) -> Result<Vec<OwnLink>, ProjectError> {
        let OwnLink {
            path,
            is_excluded,
            ..
        } = link;
        let name = relative_path(self.alloc, self.here, path.as_str())?;
        let text = text_of(self.alloc, name.as_str(), bytes)?;
        let table = tables_of(self.alloc, name.as_str(), text.as_str())?;
        let links = self.links(
            name.as_str(),
            path.as_str(),
            text.as_str(),
            &table,
            loaded.len(),
        )?;
        loaded.push(Loaded {
            name,
            path,
            text,
            table,
            is_excluded,
            parent,
        })?;
        Ok(links)
    }

    /// The files that a file names, with the lines where it does.
    fn links(
        self,
        name: &str,
        path: &str,
        text: &str,
        table: &Table,
        number: usize,
    ) -> Result<Vec<OwnLink>, ProjectError> {
        match config_of(self.alloc, self.given, number, folder_of_file(path), table) {
            Ok(config) => Ok(own_links(self.alloc, text, config.links)?),
            Err(error) => Err(ProjectError::of_file(self.alloc, name, text, error)),
        }
    }

    /// The same link, of a file that is left out if the one that names it is.
    fn copied(self, link: &OwnLink, is_excluded: bool) -> Result<OwnLink, AllocError> {
        Ok(OwnLink {
            path: String::from_str(self.alloc, link.path.as_str())?,
            is_excluded: is_excluded || link.is_excluded,
            line: link.line,
        })
    }

    /// The bytes of a file that another names, unless that is below it.
    fn linked<F: Folder>(
        self,
        folder: &mut F,
        link: &OwnLink,
        parent: usize,
        loaded: &[Loaded],
    ) -> Result<Vec<u8>, ProjectError>
        ensures kept { F.contents folder.new ≡ F.contents folder.old }
    {
        if is_above(link, parent, loaded) {
            return Err(self.wrong(link, parent, loaded, "the file includes itself"));
        }
        if loaded.len() >= MOST {
            return Err(self.wrong(
                link,
                parent,
                loaded,
                "the project has too many files like this",
            ));
        }
        let name = relative_path(self.alloc, self.here, link.path.as_str())?;
        match bytes_of(folder, self.alloc, name.as_str())? {
            Some(bytes) => Ok(bytes),
            None => {
                let what = unreadable(self.alloc, name.as_str(), folder.why())?;
                Err(self.wrong(link, parent, loaded, what.as_str()))
            }
        }
    }

    /// What is wrong with a file that another names.
    fn wrong(self, link: &OwnLink, parent: usize, loaded: &[Loaded], what: &str) -> ProjectError {
        match loaded.get(parent) {
            Some(file) => ProjectError::at(self.alloc, file.name.as_str(), link.line, what),
            None => ProjectError::Memory,
        }
    }
}

/// Whether a file is one of those that lead to it.
fn is_above(link: &OwnLink, parent: usize, loaded: &[Loaded]) -> bool {
    let mut above = Some(parent);
    for _ in 0..loaded.len() {
        let Some(number) = above else {
            return false;
        };
        let Some(file) = loaded.get(number) else {
            return false;
        };
        if file.path.as_str() == link.path.as_str() {
            return true;
        }
        above = file.parent;
    }
    false
}

/// A file that another names.
#[derive(Drop)]
struct OwnLink {
    path: String,
    is_excluded: bool,
    /// The line on which it is named.
    line: usize,
}

/// The same with the lines where they are named.
fn own_links(alloc: Global, text: &str, links: Vec<Link>) -> Result<Vec<OwnLink>, AllocError> {
    let mut own = Vec::with_capacity(alloc, links.len())?;
    for link in links {
        let Link { path, table, index } = link;
        let place = Place::Inside {
            name: table,
            index,
            key: "path",
        };
        let line = line_of(alloc, text, place)?;
        own.push(OwnLink {
            path,
            is_excluded: table == "excludes",
            line,
        })?;
    }
    Ok(own)
}

/// The text of a file.
pub(crate) fn text_of(alloc: Global, name: &str, bytes: Vec<u8>) -> Result<String, ProjectError> {
    let row = bad_row(&bytes);
    match String::from_utf8(bytes) {
        Ok(text) => Ok(text),
        Err(_) => Err(ProjectError::at(alloc, name, row.unwrap_or(1), "not UTF-8")),
    }
}

/// The tables of a text.
fn tables_of(alloc: Global, name: &str, text: &str) -> Result<Table, ProjectError> {
    match table_of(alloc, text) {
        Ok(table) => Ok(table),
        Err(TextError::Memory) => Err(ProjectError::Memory),
        Err(TextError::NotToml { line }) => Err(ProjectError::at(alloc, name, line, "not TOML")),
    }
}
