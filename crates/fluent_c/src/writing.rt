//! The tree of a source as text: written back, and as JSON.

ghost use Rattle.std.specs.Prelude.{◌≡◌, ◌≢◌, IfOk};
ghost use Rattle.serde_json.specs.Written.{compact_text};
ghost use Rattle.fluent_syntax.specs.Tiling.{tree};
ghost use Rattle.fluent_syntax.specs.Written.{written_with};
ghost use Rattle.fluent_json.specs.Json.{json};
ghost use Rattle.fluent_json.specs.Parts as owned;
ghost use Rattle.fluent_c.specs.Counts.{plain};
ghost use Rattle.fluent_c.specs.Made.{Holds};
ghost use Rattle.fluent_c.specs.Statuses.{ReadsSource};
ghost use Rattle.fluent_c.specs.declared.TheConstants.{FLUENT_READ};

use crate::text::FluentText;
use crate::{FLUENT_NO_MEMORY, FLUENT_NOT_UTF8, FLUENT_READ};
use fluent_json::to_value;
use fluent_syntax::ast::Resource;
use fluent_syntax::parser::{Error, parse_within};
use fluent_syntax::serializer::{Options, serialize_with_options};
use fluent_text::stack::StackBudget;
use simdutf8::basic::from_utf8;
use std::alloc::{AllocError, Global};

/// The tree of a source, with or without errors.
fn read(alloc: Global, text: &str) -> Result<Resource<&str>, AllocError>
    ensures { IfOk result (λ resource. plain resource ≡ tree text.now) }
{
    match parse_within(alloc, text, StackBudget::THREAD) {
        Ok(resource) => Ok(resource),
        Err(Error::Broken(resource, _errors)) => Ok(resource),
        Err(Error::Memory) => Err(AllocError),
    }
}

/// The tree of a source, with texts of its own.
fn read_owned(alloc: Global, text: &str) -> Result<Resource<String>, AllocError>
    ensures { IfOk result (λ resource. owned.plain resource ≡ tree text.now) }
{
    match parse_within(alloc, String::from_str(alloc, text)?, StackBudget::THREAD) {
        Ok(resource) => Ok(resource),
        Err(Error::Broken(resource, _errors)) => Ok(resource),
        Err(Error::Memory) => Err(AllocError),
    }
}

/// The text that a source's tree is written as.
fn written(alloc: Global, text: &str, with_junk: bool) -> Result<FluentText, AllocError>
    ensures { IfOk result (λ made. Holds made (written_with with_junk (tree text.now))) }
{
    let resource = read(alloc, text)?;
    let written = serialize_with_options(alloc, &resource, Options { with_junk })?;
    FluentText::of(alloc, written.into_bytes())
}

/// The JSON text of a source's tree.
fn json_text(alloc: Global, text: &str) -> Result<FluentText, AllocError>
    ensures { IfOk result (λ made. Holds made (compact_text (json (tree text.now)))) }
{
    let resource = read_owned(alloc, text)?;
    let value = to_value(alloc, &resource)?;
    let written = value.to_string(alloc)?;
    FluentText::of(alloc, written.into_bytes())
}

/// Reads a source and writes its tree back.
///
/// `text` is the source's bytes. Its junk is written as it is if `with_junk` is true, and otherwise
/// left out. The call returns [`FLUENT_READ`], also if the source has errors: then `made` holds the
/// written text, and what it held before is freed. It returns [`FLUENT_NOT_UTF8`] or
/// [`FLUENT_NO_MEMORY`] otherwise, and `made` is unchanged then. All other memory is freed when it
/// returns.
#[unsafe(no_mangle)]
pub extern "C" fn fluent_write(
    alloc: Global,
    text: &[u8],
    with_junk: bool,
    made: &mut FluentText,
) -> u32
    ensures status { ReadsSource text.now result }
    ensures written { result ≡ FLUENT_READ
        → Holds made.new (written_with with_junk (tree text.now)) }
    ensures unchanged { result ≢ FLUENT_READ → made.new ≡ made.old }
{
    let Ok(text) = from_utf8(text) else {
        return FLUENT_NOT_UTF8;
    };
    match written(alloc, text, with_junk) {
        Ok(text) => {
            made.put(alloc, text);
            FLUENT_READ
        }
        Err(_) => FLUENT_NO_MEMORY,
    }
}

/// Reads a source and writes its tree as JSON, compact, with the keys of each object in the order
/// of their bytes.
///
/// The tree has the source's junk. The call returns what [`fluent_write`] does.
#[unsafe(no_mangle)]
pub extern "C" fn fluent_write_json(alloc: Global, text: &[u8], made: &mut FluentText) -> u32
    ensures status { ReadsSource text.now result }
    ensures written { result ≡ FLUENT_READ → Holds made.new (compact_text (json (tree text.now))) }
    ensures unchanged { result ≢ FLUENT_READ → made.new ≡ made.old }
{
    let Ok(text) = from_utf8(text) else {
        return FLUENT_NOT_UTF8;
    };
    match json_text(alloc, text) {
        Ok(text) => {
            made.put(alloc, text);
            FLUENT_READ
        }
        Err(_) => FLUENT_NO_MEMORY,
    }
}
