//! Options and commands that have other names in other programs than in `ftl`.

/// A name that other programs use, and a hint at the name in `ftl`.
type Meant = (&'static str, &'static str);

/// Commands.
static COMMANDS: [Meant; 17] = [
    ("fmt", "did you mean 'tidy'?"),
    ("fix", "did you mean 'tidy'?"),
    ("pretty", "did you mean 'tidy'?"),
    ("compare", "did you mean 'lint --reference'?"),
    ("diff", "did you mean 'lint --reference'?"),
    ("validate", "did you mean 'lint'?"),
    ("verify", "did you mean 'lint'?"),
    ("get", "did you mean 'format'?"),
    ("show", "did you mean 'format'?"),
    ("print", "did you mean 'format'?"),
    ("merge", "did you mean 'join'?"),
    ("concat", "did you mean 'join'?"),
    ("cat", "did you mean 'join'?"),
    ("parse", "did you mean 'export'?"),
    ("ast", "did you mean 'export'?"),
    ("json", "did you mean 'export'?"),
    ("version", "did you mean '--version'?"),
];

/// Options of `lint`.
static OF_LINT: [Meant; 19] = [
    ("--json", "did you mean '--format json'?"),
    ("--github", "did you mean '--format github'?"),
    ("--sarif", "did you mean '--format sarif'?"),
    ("--gitlab", "did you mean '--format gitlab'?"),
    ("--output-format", "did you mean '--format'?"),
    ("--output", "did you mean '--format'?"),
    ("-o", "did you mean '--format'?"),
    ("-q", "did you mean '--format line'?"),
    ("--quiet", "did you mean '--format line'?"),
    ("--compact", "did you mean '--format line'?"),
    ("--no-color", "did you mean '--color never'?"),
    ("--no-colors", "did you mean '--color never'?"),
    ("--disable", "did you mean '--ignore'?"),
    ("--exclude", "did you mean '--ignore'?"),
    ("--skip", "did you mean '--ignore'?"),
    ("--fix", "did you mean 'ftl tidy'?"),
    ("--source", "did you mean '--reference'?"),
    ("--base", "did you mean '--reference'?"),
    ("--stdin", "'-' in the place of files is standard input;"),
];

/// Options that name a locale.
static OF_LOCALES: [Meant; 3] = [
    ("--lang", "did you mean '--locale'?"),
    ("--language", "did you mean '--locale'?"),
    ("-l", "did you mean '--locale'?"),
];

/// Options of `tidy`.
static OF_TIDY: [Meant; 12] = [
    ("-w", "files are tidied in place;"),
    ("--write", "files are tidied in place;"),
    ("-i", "files are tidied in place;"),
    ("--in-place", "files are tidied in place;"),
    ("--inplace", "files are tidied in place;"),
    ("--fix", "files are tidied in place;"),
    ("-n", "did you mean '--check'?"),
    ("--dry-run", "did you mean '--check'?"),
    ("-c", "did you mean '--check'?"),
    ("--list-different", "did you mean '--check'?"),
    ("-l", "did you mean '--check'?"),
    ("--stdin", "'-' in the place of files is standard input;"),
];

/// The hint for a word that a command doesn't know, if a table has the word. A pointer to the help
/// may follow it. If `command` is empty, the word is in the place of a command.
pub(crate) fn meant_by(command: &str, word: &str) -> Option<&'static str> {
    match command {
        "" => meant_in(&COMMANDS, word),
        "lint" => meant_in(&OF_LINT, word).or_else(|| meant_in(&OF_LOCALES, word)),
        "run" | "format" => meant_in(&OF_LOCALES, word),
        "tidy" => meant_in(&OF_TIDY, word),
        _ => None,
    }
}

/// The hint of one of the tables for a word.
fn meant_in(table: &'static [Meant], word: &str) -> Option<&'static str> {
    for (other, meant) in table {
        if *other == word {
            return Some(*meant);
        }
    }
    None
}
