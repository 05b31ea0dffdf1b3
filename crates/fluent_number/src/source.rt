ghost use Rattle.std.specs.Prelude.{◌≡◌, Option, option_copied, option_map};
ghost use Rattle.fluent_number.specs.Digits.{Text};
ghost use Rattle.fluent_number.specs.Number.{Number, number_of};

use crate::number::FluentNumber;

/// Where [`merge`](crate::FluentNumberOptions::merge) finds options: values under keys, of which it
/// looks at texts and at numbers.
///
/// ```no_run
/// wanted.set("minimumFractionDigits", 2_u8)?;
/// options.merge(alloc, &wanted)?; // as { NUMBER($amount, minimumFractionDigits: 2) } does
/// ```
pub trait OptionSource {
    /// The text under a key, if a text stands there.
    ghost text_under: { Self → Text → Option Text };

    /// The number under a key, if a number stands there.
    ghost number_under: { Self → Text → Option Number };

    /// The text under a key; `None` if there is no value or another kind of value.
    fn text(&self, key: &str) -> Option<&str>
        ensures { option_copied result ≡ text_under self.now key.now };

    /// The number under a key; `None` if there is no value or another kind of value.
    fn number(&self, key: &str) -> Option<&FluentNumber>
        ensures { option_map number_of (option_copied result) ≡ number_under self.now key.now };
}
