//! Who reads what the program writes.
ghost use Rattle.std.specs.Prelude.{◌≡◌};
ghost use Rattle.fluent_serve.specs.Texts.{texts};
ghost use Rattle.ftl_command.specs.Terminals.{are_for_people, explains};

/// Which of the streams that the program writes to are terminals.
#[derive(Clone, Copy, Debug, PartialEq, Eq)]
pub struct Terminals {
    /// Whether standard output is a terminal that shows colours, for a user who wants them.
    pub colours: bool,
    /// Whether standard error is a terminal.
    pub faults: bool,
}

impl Terminals {
    /// Whether a command with these arguments says more of a fault than its line.
    pub(crate) fn explain(self, words: &[&str]) -> bool
        ensures { result ≡ explains self (texts words.now) }
    {
        self.faults || are_for_people(words)
    }
}

/// Whether the command is one that people type, and that isn't meant for programs.
pub fn are_for_people(words: &[&str]) -> bool
    ensures { result ≡ are_for_people (texts words.now) }
{
    match words {
        [word, ..] => {
            *word == "lint" || *word == "status" || *word == "format" || *word == "tidy"
        }
        [] => false,
    }
}
