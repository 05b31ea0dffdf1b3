//! The values of an object at its keys. They are read one after the other, in the order of the
//! keys' bytes.

ghost use Rattle.std.specs.Prelude.{◌≡◌, ◌≢◌, IfSome, IfNone};
ghost use Rattle.serde_json.specs.Data.{Data, object, string, member, no_members};
ghost use Rattle.serde_json.specs.View.{view};
ghost use Rattle.fluent_json_write.specs.Taken.{two, three, four, five, two_members, three_members, four_members};
ghost use Rattle.fluent_json_write.specs.Taken.{IsOfTwo, IsOfThree, IsOfFour, IsOfFive};
ghost use Rattle.fluent_json_write.specs.Taken.{IsOfNoTwo, IsOfNoThree, IsOfNoFour, IsOfNoFive};

use serde_json::Value;
use std::collections::btree_map;

/// The members of an object that haven't been read yet.
#[derive(Drop)]
struct Members<'v> {
    entries: btree_map::Iter<'v, String, Value>,
}

impl<'v> Members<'v> {
    ghost use Rattle.serde_json.specs.Data.{Members as MembersData};
    ghost use Rattle.fluent_json_write.specs.Left.{left};

    /// All members of `value`, or None if it is no object.
    fn of(value: &'v Value) -> Option<Self>
        ensures some { IfSome result (λ members. view value.now ≡ object (left members)) }
        ensures none { IfNone result ((ms : MembersData) → view value.now ≢ object ms) }
    {
        let entries = value.as_object()?.iter();
        Some(Members { entries })
    }

    /// The next member's value, or None if the next key is another one.
    fn take(&mut self, key: &str) -> Option<&'v Value>
        ensures some { IfSome result (λ value. left self.old
            ≡ member key.now (view value.now) (left self.new)) }
        ensures none { IfNone result ((d : Data) (ms : MembersData)
            → left self.old ≢ member key.now d ms) }
    {
        let (name, value) = self.entries.next()?;
        if name.as_str() == key {
            Some(value)
        } else {
            None
        }
    }

    /// None if a member is left.
    fn end(mut self) -> Option<()>
        ensures some { IfSome result (λ _. left self.entry ≡ no_members) }
        ensures none { IfNone result (left self.entry ≢ no_members) }
    {
        match self.entries.next() {
            Some(_) => None,
            None => Some(()),
        }
    }

    /// The value at this key, or None if another key or more than one is left.
    fn one(mut self, key: &str) -> Option<&'v Value>
        ensures some { IfSome result (λ v. left self.entry
            ≡ member key.now (view v.now) no_members) }
        ensures none { IfNone result ((d : Data) → left self.entry ≢ member key.now d no_members) }
    {
        let value = self.take(key)?;
        self.end()?;
        Some(value)
    }

    /// The values at these two keys, or None if others are left.
    fn two(mut self, first: &str, second: &str) -> Option<(&'v Value, &'v Value)>
        ensures some { IfSome result (IsOfTwo (two_members first.now second.now)
            (left self.entry)) }
        ensures none { IfNone result (IsOfNoTwo (two_members first.now second.now)
            (left self.entry)) }
    {
        let value = self.take(first)?;
        Some((value, self.one(second)?))
    }

    /// The values at these three keys, or None if others are left.
    fn three(
        mut self,
        first: &str,
        second: &str,
        third: &str,
    ) -> Option<(&'v Value, &'v Value, &'v Value)>
        ensures some { IfSome result (IsOfThree (three_members first.now second.now third.now)
            (left self.entry)) }
        ensures none { IfNone result (IsOfNoThree (three_members first.now second.now third.now)
            (left self.entry)) }
    {
        let value = self.take(first)?;
        let (other, last) = self.two(second, third)?;
        Some((value, other, last))
    }

    /// The values at these four keys, or None if others are left.
    fn four(
        mut self,
        first: &str,
        second: &str,
        third: &str,
        fourth: &str,
    ) -> Option<(&'v Value, &'v Value, &'v Value, &'v Value)>
        ensures some { IfSome result (IsOfFour (four_members first.now second.now third.now fourth.now)
            (left self.entry)) }
        ensures none { IfNone result (IsOfNoFour (four_members first.now second.now third.now fourth.now)
            (left self.entry)) }
    {
        let value = self.take(first)?;
        let (other, more, last) = self.three(second, third, fourth)?;
        Some((value, other, more, last))
    }
}

/// The values of an object that has exactly these keys, in the order of their bytes.
pub(crate) fn two<'v>(value: &'v Value, first: &str, second: &str) -> Option<(&'v Value, &'v Value)>
    ensures some { IfSome result (IsOfTwo (two first.now second.now) (view value.now)) }
    ensures none { IfNone result (IsOfNoTwo (two first.now second.now) (view value.now)) }
{
    Members::of(value)?.two(first, second)
}

/// The values of an object that has exactly these keys, in the order of their bytes.
pub(crate) fn three<'v>(
    value: &'v Value,
    first: &str,
    second: &str,
    third: &str,
) -> Option<(&'v Value, &'v Value, &'v Value)>
    ensures some { IfSome result (IsOfThree (three first.now second.now third.now)
        (view value.now)) }
    ensures none { IfNone result (IsOfNoThree (three first.now second.now third.now)
        (view value.now)) }
{
    Members::of(value)?.three(first, second, third)
}

/// The values of an object that has exactly these keys, in the order of their bytes.
pub(crate) fn four<'v>(
    value: &'v Value,
    first: &str,
    second: &str,
    third: &str,
    fourth: &str,
) -> Option<(&'v Value, &'v Value, &'v Value, &'v Value)>
    ensures some { IfSome result (IsOfFour (four first.now second.now third.now fourth.now)
        (view value.now)) }
    ensures none { IfNone result (IsOfNoFour (four first.now second.now third.now fourth.now)
        (view value.now)) }
{
    Members::of(value)?.four(first, second, third, fourth)
}

/// The values of an object that has exactly these keys, in the order of their bytes.
pub(crate) fn five<'v>(
    value: &'v Value,
    first: &str,
    second: &str,
    third: &str,
    fourth: &str,
    fifth: &str,
) -> Option<(&'v Value, &'v Value, &'v Value, &'v Value, &'v Value)>
    ensures some { IfSome result (IsOfFive (five first.now second.now third.now fourth.now fifth.now)
        (view value.now)) }
    ensures none { IfNone result (IsOfNoFive (five first.now second.now third.now fourth.now fifth.now)
        (view value.now)) }
{
    let mut members = Members::of(value)?;
    let at_first = members.take(first)?;
    let (at_second, at_third, at_fourth, at_fifth) = members.four(second, third, fourth, fifth)?;
    Some((at_first, at_second, at_third, at_fourth, at_fifth))
}

/// Some if a value is this text.
pub(crate) fn is_text(value: &Value, text: &str) -> Option<()>
    ensures some { IfSome result (λ _. view value.now ≡ string text.now) }
    ensures none { IfNone result (view value.now ≢ string text.now) }
{
    if value.as_str()? == text {
        Some(())
    } else {
        None
    }
}
