//! The output on files that are tidied.
ghost use Rattle.std.specs.Prelude.{◌≡◌, OnOk};
ghost use Rattle.ftl_files.specs.TidyView.{after_failure, end_view, listed_view, said_view};
ghost use Rattle.ftl_files.specs.Tidying.{nothing_said, said_after, said_of_listed};

use crate::ends::{Failure, FileEnd, push_failure};
use crate::listed::Listed;
use crate::reported::Reported;
use std::alloc::{AllocError, Global};

/// The output on files that are tidied.
#[derive(Debug, Drop)]
pub struct TidiedFiles {
    /// The names of those that changed or, if they are only checked, that aren't tidy, a line each.
    pub names: String,
    /// The reports on those that could not be tidied.
    pub reports: String,
    /// Which errors are reported, whatever the sources are.
    pub reported: Reported,
    /// Whether a source was refused, or a file that was only checked isn't tidy.
    pub has_found: bool,
}

impl TidiedFiles {
    /// The output on no file.
    pub fn new(alloc: Global) -> TidiedFiles
        ensures { said_view result ≡ nothing_said }
    {
        TidiedFiles {
            names: String::new(alloc),
            reports: String::new(alloc),
            reported: Reported::none(),
            has_found: false,
        }
    }

    /// Adds the line of a failure.
    fn add_failure(
        &mut self,
        name: &str,
        failure: Failure,
        why: Option<&'static str>,
    ) -> Result<(), AllocError>
        ensures { OnOk result (said_view self.new
            ≡ after_failure (said_view self.old) name.now failure why.entry) }
    {
        push_failure(&mut self.reports, name, failure, why)
    }

    /// Adds what became of a file.
    ///
    /// # Errors
    /// [`AllocError`] if memory runs out; a part may have been added.
    pub fn add(&mut self, check: bool, name: &str, end: &FileEnd) -> Result<(), AllocError>
        ensures { OnOk result (said_view self.new ≡ said_after check (said_view self.old) name.now (end_view end.now)) }
    {
        match end {
            FileEnd::Kept => Ok(()),
            FileEnd::Changed(_) => {
                self.has_found = self.has_found || check;
                writeln!(self.names, "{name}")
            }
            FileEnd::Failed(failure, why) => {
                self.reported.failure = true;
                self.add_failure(name, *failure, *why)
            }
            FileEnd::Refused(report) => {
                self.has_found = true;
                self.reports.push_str(report)
            }
            FileEnd::OutOfMemory(report) => {
                self.reported.out_of_memory = true;
                self.reports.push_str(report)
            }
        }
    }
    /// Adds the lines of the paths that stand for no file.
    pub(crate) fn add_listed(&mut self, listed: &Listed) -> Result<(), AllocError>
        ensures { OnOk result (said_view self.new
            ≡ said_of_listed (said_view self.old) (listed_view listed.now)) }
    {
        self.reported.no_file = listed.no_file;
        self.reports.push_str(listed.errors.as_str())
    }
}
