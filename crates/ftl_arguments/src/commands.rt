//! The commands that the program can be asked for, with their options.

use lint_report::Format as ReportFormat;

/// The command that the command-line arguments name, or the text that they ask for.
#[derive(Drop)]
pub enum Invocation<'words> {
    /// A command of the program.
    Command(Command<'words>),
    /// Help, which is this text.
    Help(String),
    /// The version, which is this line.
    Version(String),
    /// The explanation of a code of findings, which is this text.
    Explanation(&'static str),
}

/// A command of the program.
#[derive(Drop)]
pub enum Command<'words> {
    /// Answer the request lines of standard input.
    Run {
        /// Whether the values of placeables are set between U+2068 and U+2069.
        isolating: bool,
        /// Whether the last entry of an id counts, and not the first.
        overriding: bool,
        /// The tag of the locale whose plural rules choose variants and whose numbers are written,
        /// if one is given.
        locale: Option<&'words str>,
        /// Whether numbers are written plainly, whatever the locale.
        plain_numbers: bool,
        /// The names of the sources' files.
        files: Vec<&'words str>,
    },
    /// Write the text of one message.
    Format(Format<'words>),
    /// Report the syntax errors of sources, and each entry whose id was taken.
    Check {
        /// The names of the sources' files.
        files: Vec<&'words str>,
    },
    /// Report what is found in a catalog.
    Lint(Lint<'words>),
    /// Report what is found in standard input.
    LintInput(Lint<'words>),
    /// Report what is found in a project.
    LintProject(ProjectLint<'words>),
    /// Write what is counted in a project.
    Status(Status<'words>),
    /// Tidy files in place.
    TidyFiles(TidyFiles<'words>),
    /// Tidy standard input to standard output.
    TidyInput {
        /// Whether it is only checked.
        check: bool,
    },
    /// Write what sources are tidied into.
    Tidy(Tidy<'words>),
}

/// Which message is written, from which sources, and how.
#[derive(Drop)]
pub struct Format<'words> {
    /// Whether the values of placeables are set between U+2068 and U+2069.
    pub isolating: bool,
    /// Whether the last entry of an id counts, and not the first.
    pub overriding: bool,
    /// The tag of the locale whose plural rules choose variants and whose numbers are written, if
    /// one is given.
    pub locale: Option<&'words str>,
    /// Whether numbers are written plainly, whatever the locale.
    pub plain_numbers: bool,
    /// The id of the message.
    pub id: &'words str,
    /// The attribute of the message, if its text is asked for.
    pub attribute: Option<&'words str>,
    /// The names and values of the arguments, in their order.
    pub arguments: Vec<(&'words str, &'words str)>,
    /// The names of the sources' files.
    pub files: Vec<&'words str>,
}

/// Which sources are a catalog, what it is compared with, and how findings are reported.
#[derive(Drop)]
pub struct Lint<'words> {
    /// The names of the files that are translated from, and of folders with such files.
    pub references: Vec<&'words str>,
    /// The names of the functions that are known beside `NUMBER`.
    pub functions: Vec<&'words str>,
    /// The codes of findings that are left out.
    pub ignored: Vec<&'words str>,
    /// The tag of the locale whose plural categories are looked for, if one is given.
    pub locale: Option<&'words str>,
    /// Whether notes are reported, too.
    pub notes: bool,
    /// Whether each file has its counts, also if nothing is missing.
    pub counts: bool,
    /// Whether warnings count for the status.
    pub strict: bool,
    /// How findings are written.
    pub format: ReportFormat,
    /// The names of the sources' files, and of folders with such files.
    pub files: Vec<&'words str>,
}

/// Which project is meant, and which of its languages.
#[derive(Drop)]
pub struct ProjectWords<'words> {
    /// Patterns of the files that are translated from, each at the index of that of its
    /// translations.
    pub references: Vec<&'words str>,
    /// The name of the project's file, or patterns of translations. Without any, the file is looked
    /// for.
    pub files: Vec<&'words str>,
    /// The tags of the languages. Without any, all are meant.
    pub locales: Vec<&'words str>,
    /// The names and values of variables, which count before those of the file.
    pub variables: Vec<(&'words str, &'words str)>,
}

/// Which project is linted, and how findings are reported.
#[derive(Drop)]
pub struct ProjectLint<'words> {
    /// The project.
    pub project: ProjectWords<'words>,
    /// The names of the files that are reported, and of folders with such files. Without any, all
    /// are.
    pub only: Vec<&'words str>,
    /// The names of the functions that are known beside `NUMBER`.
    pub functions: Vec<&'words str>,
    /// The codes of findings that are left out.
    pub ignored: Vec<&'words str>,
    /// The file of findings that aren't reported, if there is one.
    pub baseline: Option<&'words str>,
    /// The file that is to have the findings, if they are written to one.
    pub written: Option<&'words str>,
    /// Whether notes are reported, too.
    pub notes: bool,
    /// Whether warnings count for the status.
    pub strict: bool,
    /// How findings are written.
    pub format: ReportFormat,
}

/// Which project is counted, and how the table is written.
#[derive(Drop)]
pub struct Status<'words> {
    /// The project.
    pub project: ProjectWords<'words>,
    /// Whether each file has a line, too.
    pub files: bool,
    /// How the table is written.
    pub format: TableFormat,
}

/// How a table is written.
#[derive(Clone, Copy)]
pub enum TableFormat {
    /// In columns, for people.
    Text,
    /// An object of JSON on a line of its own for each line.
    Json,
    /// As a table of Markdown.
    Markdown,
}

/// Which files are tidied in place.
#[derive(Drop)]
pub struct TidyFiles<'words> {
    /// Whether they are only checked.
    pub check: bool,
    /// The names of files, and of folders whose sources are tidied.
    pub paths: Vec<&'words str>,
}

/// How sources are tidied, and the names of their files.
#[derive(Drop)]
pub enum Tidy<'words> {
    /// The stretches that can't be read are taken out.
    Clean(&'words str),
    /// The source is written as the serializer writes it.
    Normalize(&'words str),
    /// Sources are cleaned and put together.
    Join(Vec<&'words str>),
    /// The JSON tree of the cleaned source is written.
    Export(&'words str),
    /// The text of a JSON tree is written.
    Import(&'words str),
}
