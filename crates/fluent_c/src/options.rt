//! Bundles that are made by options.

ghost use Rattle.std.specs.Prelude.{◌≡◌, ◌≢◌};
ghost use Rattle.fluent_c.specs.Options.{KeepsNamed, KeepsOptions, MakesBundle, stack_in};
ghost use Rattle.fluent_c.specs.Statuses.{ReadsSources};
ghost use Rattle.fluent_c.specs.declared.TheConstants.{FLUENT_READ};

use crate::answering::FluentSource;
use crate::bundles::{Asking, keep};
use crate::{FLUENT_BAD_ARGUMENT, FLUENT_BUNDLE_OPTIONS_SIZE};
use fluent_kept::FluentBundle;
use fluent_text::stack::StackBudget;
use std::alloc::Global;

/// How a bundle is made.
///
/// Fields that come later begin after these 40 bytes, so that `size` says which there are.
///
/// ```c
/// struct FluentBundleOptions options = FLUENT_BUNDLE_OPTIONS;
/// options.overriding = true;
/// ```
#[repr(C)]
#[derive(Clone, Copy)]
pub struct FluentBundleOptions<'o> {
    /// The size of the struct, as the caller has it.
    pub size: usize,
    /// The tag of the locale.
    pub locale: &'o [u8],
    /// What reading and an answer may take of the machine's stack, in bytes; 0 for
    /// [`StackBudget::THREAD`].
    pub stack: usize,
    /// Whether placeables are between isolation marks.
    pub isolating: bool,
    /// Whether the last entry of an id counts, and not the first.
    pub overriding: bool,
    /// Whether numbers are written plainly, whatever the locale.
    pub plain_numbers: bool,
}

impl FluentBundleOptions<'_> {
    /// How the bundle is asked.
    fn asking(&self) -> Asking
        ensures isolating { result.isolating ≡ self.now.isolating }
        ensures overriding { result.overriding ≡ self.now.overriding }
        ensures stack { result.stack.bytes ≡ stack_in self.now }
    {
        let stack = match self.stack {
            0 => StackBudget::THREAD,
            bytes => StackBudget::of_bytes(bytes),
        };
        Asking {
            isolating: self.isolating,
            overriding: self.overriding,
            stack,
        }
    }
}

/// As [`fluent_bundle_new_within`](crate::fluent_bundle_new_within), by options.
///
/// The call returns [`FLUENT_BAD_ARGUMENT`], too, if the size of the options isn't
/// [`FLUENT_BUNDLE_OPTIONS_SIZE`]: they are of a later version, or nobody set it.
#[unsafe(no_mangle)]
pub extern "C" fn fluent_bundle_new_with(
    alloc: Global,
    sources: &[FluentSource<'_>],
    options: &FluentBundleOptions<'_>,
    made: &mut FluentBundle,
) -> u32
    ensures status { MakesBundle options.now sources.now result }
    ensures made { result ≡ FLUENT_READ → KeepsOptions options.now sources.now made.new }
    ensures unchanged { result ≢ FLUENT_READ → made.new ≡ made.old }
{
    if options.size != FLUENT_BUNDLE_OPTIONS_SIZE {
        return FLUENT_BAD_ARGUMENT;
    }
    keep_by(alloc, sources, options, None, made)
}

/// Puts a bundle by options into `made`. Its messages may call functions of these names, if there
/// are any.
pub(crate) fn keep_by(
    alloc: Global,
    sources: &[FluentSource<'_>],
    options: &FluentBundleOptions<'_>,
    functions: Option<Vec<String>>,
    made: &mut FluentBundle,
) -> u32
    ensures status { ReadsSources sources.now options.now.locale.now result }
    ensures made { result ≡ FLUENT_READ → KeepsNamed functions options.now sources.now made.new }
    ensures unchanged { result ≢ FLUENT_READ → made.new ≡ made.old }
{
    let numerals = if options.plain_numbers {
        None
    } else {
        Some(options.locale)
    };
    keep(
        alloc,
        sources,
        options.locale,
        numerals,
        functions,
        options.asking(),
        made,
    )
}
