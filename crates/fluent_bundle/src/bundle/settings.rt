//! The settings of a bundle. Changing one doesn't allocate, and changes nothing else.

ghost use Rattle.std.specs.Prelude.{◌≡◌};
ghost use Rattle.fluent_bundle.specs.BundleView.{bundle_of};

use super::FluentBundle;
use fluent_value::{FluentFunction, FluentType, MemoizerKind, ValueFormatter};

impl<'r, 's, M, C, F, G, T> FluentBundle<'r, 's, M, C, F, G, T>
where
    M: MemoizerKind,
    C: FluentType,
    F: FluentFunction<C>,
    G: ValueFormatter<C, M>,
    T: Drop,
{
    /// Sets whether placeables stand between the marks U+2068 and U+2069, which keep their
    /// direction from that of the text around them.
    ///
    /// ```
    /// bundle.set_use_isolating(false);
    /// ```
    pub fn set_use_isolating(&mut self, isolating: bool)
        ensures { bundle_of self.new ≡ record (bundle_of self.old) { isolating = isolating } }
    {
        self.isolating = isolating;
    }

    /// Sets what the texts of patterns go through, or that they are shown as they are.
    pub fn set_transform(&mut self, transform: Option<T>)
        ensures { bundle_of self.new ≡ record (bundle_of self.old) { transform = transform } }
    {
        self.transform = transform;
    }
}

impl<'r, 's, M, C, F, G, T> FluentBundle<'r, 's, M, C, F, G, T>
where
    M: MemoizerKind,
    C: FluentType,
    F: FluentFunction<C>,
    G: ValueFormatter<C, M> + Drop,
    T: Drop,
{
    /// Sets what values are shown by before the rules of Fluent, or that they are shown by these
    /// alone.
    pub fn set_formatter(&mut self, formatter: Option<G>)
        ensures { bundle_of self.new ≡ record (bundle_of self.old) { formatter = formatter } }
    {
        self.formatter = formatter;
    }
}
