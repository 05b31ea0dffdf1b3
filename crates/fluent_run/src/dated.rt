//! Formatting of messages with dates among their arguments.

ghost use Rattle.std.specs.Prelude.{◌≡◌, [], IfOk, false, true, option_map};
ghost use Rattle.std.proofs.Common.{refl};
ghost use Rattle.fluent_date.specs.Iso.{iso_text};
ghost use Rattle.fluent_dates.specs.Called.{date_called};
ghost use Rattle.fluent_dates.specs.Lookup.{row_of};
ghost use Rattle.fluent_numerals.specs.Views.{locale_view};
ghost use Rattle.fluent_run.specs.Dated.{AreDatedIds, IsDatedReply, date_shown, dating_view, shown_in};
ghost use Rattle.fluent_serve.specs.Texts.{texts};
ghost use Rattle.fluent_value.specs.OptionalText.{Appends, SaysWhether};

use crate::caller::Caller;
use crate::catalog::ids_of;
use crate::desk::Desk;
use crate::reply::{Reply, resolve};
use crate::settings::Settings;
use fluent_date::FluentDateTime;
use fluent_dates::{DATETIME, DateTimeFunction, DateTimeValue, LocaleDates, LocaleFormatter};
use fluent_ids::{FluentIds, FunctionRef};
use fluent_number::{PluralCategory, PluralOperands, PluralRuleType};
use fluent_numerals::LocaleNumerals;
use fluent_progress::{Context, Surroundings};
use fluent_resource::{FluentResource, parse_sources};
use fluent_text::stack::StackBudget;
use fluent_value::{FluentArgs, FluentValue, MemoizerKind, ValueFormatter, ValueScope, builtins};
use std::alloc::{AllocError, Global};
use std::borrow::CowStr;

/// A caller for messages without functions but `NUMBER` and `DATETIME`.
pub struct DateTimeCaller;

impl Caller<DateTimeValue, DateTimeFunction> for DateTimeCaller {
    ghost gives = { λ _ _. date_called };

    fn call<'a, 'n>(
        &self,
        alloc: Global,
        _function: &DateTimeFunction,
        positional: &[FluentValue<'a, DateTimeValue>],
        named: &FluentArgs<'n, DateTimeValue>,
    ) -> Result<FluentValue<'a, DateTimeValue>, AllocError> {
        DATETIME(alloc, positional, named)
    }
}

/// The context in which messages with dates are resolved, but for their messages and terms.
///
/// ```no_run
/// let dating = Dating {
///     settings,
///     dates: LocaleDates::for_tag("de"),
///     plurals: &plurals,
///     caller: &DateTimeCaller,
///     stack: StackBudget::PROGRAM,
///     alloc,
/// };
/// let reply = dating.format_sources(&sources, "due", None, &arguments)?;
/// ```
#[derive(Drop)]
pub struct Dating<'p, 'x, M, L> {
    /// How answers are made.
    pub settings: Settings,
    /// How dates are written; `None` if they are written as ISO 8601 has them.
    pub dates: Option<LocaleDates>,
    /// The plural source.
    pub plurals: &'p M,
    /// The caller of functions.
    pub caller: &'x L,
    /// How much of the machine's stack an answer may take.
    pub stack: StackBudget,
    /// The allocator of texts.
    pub alloc: Global,
}

impl<'p, 'x, M: MemoizerKind, L> ValueScope<DateTimeValue> for Dating<'p, 'x, M, L> {
    ghost has_formatter = { λ _. true };

    ghost formatted = { λ dating. shown_in (row_of dating.dates)
        (option_map locale_view dating.settings.numerals) };

    ghost plurals = { λ dating. M.category_of dating.plurals.now };

    ghost shown = { λ _. iso_text };

    #[tactic(auto, using(crate::proofs::DatesShown::shown_same))]
    fn format(&self, value: &FluentValue<'_, DateTimeValue>) -> Result<Option<String>, AllocError> {
        let formatter = LocaleFormatter {
            numerals: self.settings.numerals,
            dates: self.dates,
        };
        formatter.format(self.alloc, value, self.plurals)
    }

    fn format_into(
        &self,
        out: &mut String,
        value: &FluentValue<'_, DateTimeValue>,
    ) -> Result<bool, AllocError> {
        if let FluentValue::Custom(date) = value {
            return self.push_date(out, &date.0);
        }
        match &self.settings.numerals {
            Some(numerals) => numerals.format_into(out, self.alloc, value, self.plurals),
            None => Ok(false),
        }
    }

    fn is_plain(&self, value: &FluentValue<'_, DateTimeValue>) -> bool {
        if let FluentValue::Custom(_) = value {
            return false;
        }
        match &self.settings.numerals {
            Some(numerals) => numerals.shows_plainly(value),
            None => true,
        }
    }

    fn keeps_texts(&self) -> bool {
        true
    }

    fn plain_below(&self) -> u64 {
        match &self.settings.numerals {
            Some(numerals) => LocaleNumerals::plain_below(numerals),
            None => u64::MAX,
        }
    }

    fn category(&self, rule: PluralRuleType, operands: &PluralOperands) -> PluralCategory {
        self.plurals.category(rule, operands)
    }

    fn stringify(&self, custom: &DateTimeValue) -> Result<CowStr<'static>, AllocError> {
        Ok(CowStr::Owned(custom.0.as_iso_string(self.alloc)?))
    }

    fn alloc(&self) -> Global {
        self.alloc
    }
}

impl<'p, 'x, M: MemoizerKind, F, L: Caller<DateTimeValue, F>> Context<DateTimeValue, F>
    for Dating<'p, 'x, M, L> {
    ghost environment = { dating_view M.category_of L.gives [] };

    ghost has_transform = { λ _. false };

    ghost given = { λ _. [] };

    fn call<'a, 'n>(
        &self,
        function: &FunctionRef<'_, F>,
        positional: &[FluentValue<'a, DateTimeValue>],
        named: &FluentArgs<'n, DateTimeValue>,
    ) -> Result<FluentValue<'a, DateTimeValue>, AllocError> {
        match function {
            FunctionRef::Own(function) => self
                .caller
                .call(self.alloc, *function, positional, named),
            FunctionRef::Number => builtins::NUMBER(self.alloc, positional, named),
        }
    }

    fn transform<'t>(&self, text: &'t str) -> Result<CowStr<'t>, AllocError> {
        Ok(CowStr::Borrowed(text))
    }

    fn is_isolating(&self) -> bool {
        self.settings.isolating
    }

    fn stack_budget(&self) -> StackBudget {
        self.stack
    }

    fn write_given(&self, _out: &mut String, _name: &str) -> Result<bool, AllocError> {
        Ok(false)
    }

    fn given_copy<'v>(
        &self,
        _name: &str,
    ) -> Result<Option<FluentValue<'v, DateTimeValue>>, AllocError> {
        Ok(None)
    }

    ghost shows = { λ _ _. refl };

    ghost chooses = { λ _. refl };
}

impl<'p, 'x, M, L> Dating<'p, 'x, M, L> {
    /// Appends the text of a date, if a locale writes it, and says whether one does.
    ///
    /// # Errors
    /// [`AllocError`] if memory runs out; `out` may hold a part of the text.
    fn push_date(&self, out: &mut String, date: &FluentDateTime) -> Result<bool, AllocError>
        ensures found { SaysWhether result (date_shown (row_of self.now.dates) date.now) }
        ensures text { Appends result out.old out.new
            (date_shown (row_of self.now.dates) date.now) }
    {
        match &self.dates {
            Some(dates) => {
                dates.push_text(self.alloc, out, date)?;
                Ok(true)
            }
            None => Ok(false),
        }
    }
}

impl<'p, 'x, M: MemoizerKind> Dating<'p, 'x, M, DateTimeCaller> {
    /// Formats a message of sources with these arguments: its value, or its first attribute of a
    /// name. `None` if there is no such message, value or attribute.
    ///
    /// Each message and term that is read, and the answer, may take the budget of the machine's
    /// stack.
    ///
    /// # Errors
    /// [`AllocError`] if memory runs out, or the budget does; nothing is kept.
    pub fn format_sources(
        &self,
        sources: &[&str],
        id: &str,
        attribute: Option<&str>,
        arguments: &FluentArgs<'_, DateTimeValue>,
    ) -> Result<Option<Reply>, AllocError>
        ensures { IfOk result (IsDatedReply M.category_of self.now (texts sources.now)
            id.now attribute.entry arguments.now) }
    {
        let resources = parse_sources(self.alloc, sources, self.stack)?;
        let ids = ids_with_datetime(self.alloc, &resources, self.settings.overriding)?;
        let desk = Desk::of(ids, &resources, self.settings, self.plurals, self.stack);
        let Some(pattern) = desk.pattern_named(id, attribute) else {
            return Ok(None);
        };
        let locals: Option<&FluentArgs<'_, DateTimeValue>> = None;
        let place = Surroundings {
            ids: &desk.ids,
            context: self,
            arguments: Some(arguments),
            locals,
        };
        let text = String::new(self.alloc);
        Ok(Some(resolve(&place, pattern, text, self.stack)?))
    }
}

/// The ids of resources, with what they stand for, and `DATETIME` after them.
///
/// # Errors
/// [`AllocError`] if memory runs out; nothing is kept.
fn ids_with_datetime<'r, 's>(
    alloc: Global,
    resources: &'r [FluentResource<'s>],
    overriding: bool,
) -> Result<FluentIds<'r, 's, DateTimeFunction>, AllocError>
    ensures { IfOk result (AreDatedIds overriding resources.now) }
{
    let mut ids = ids_of(alloc, resources, overriding)?;
    ids.add_function_silently("DATETIME", DateTimeFunction)?;
    Ok(ids)
}
