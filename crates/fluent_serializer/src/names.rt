//! The names and the keys in expressions, and the signs around them.

ghost use Rattle.std.specs.Prelude.{◌+◌, [], ◌∷◌, option_map};
ghost use Rattle.fluent_grammar.specs.Written as written;
ghost use Rattle.fluent_grammar.specs.Written.{sign, accessor_signs, argument_name_signs, between, key_text, variant_head_signs};
ghost use Rattle.fluent_ast.specs.View.{key_of, name_of};
ghost use Rattle.fluent_serializer.specs.Writing.{Writes};

use crate::pieces::{deeper, write_default_mark, write_new_line, write_piece};
use fluent_ast::{Identifier, VariantKey};
use fluent_text::Texts;
use std::alloc::AllocError;

/// Writes a name.
pub(crate) fn write_name<S: Drop, T: Texts<S>>(
    out: &mut String,
    level: usize,
    texts: &T,
    id: &Identifier<S>,
) -> Result<(), AllocError>
    ensures { Writes result out.old out.new (sign level (name_of S T.text id.now) ∷ []) }
{
    write_piece(out, level, texts.as_str(&id.name))
}

/// Writes the name of an attribute after a reference, if there is one.
pub(crate) fn write_accessor<S: Drop, T: Texts<S>>(
    out: &mut String,
    level: usize,
    texts: &T,
    attribute: &Option<Identifier<S>>,
) -> Result<(), AllocError>
    ensures { Writes result out.old out.new
        (accessor_signs level (option_map (name_of S T.text) attribute.now)) }
{
    match attribute {
        Some(id) => {
            write_piece(out, level, ".")?;
            write_name(out, level, texts, id)
        }
        None => Ok(()),
    }
}

fn write_key<S: Drop, T: Texts<S>>(
    out: &mut String,
    level: usize,
    texts: &T,
    key: &VariantKey<S>,
) -> Result<(), AllocError>
    ensures { Writes result out.old out.new (sign level (key_text (key_of S T.text key.now)) ∷ []) }
{
    match key {
        VariantKey::Identifier { name } => write_piece(out, level, texts.as_str(name)),
        VariantKey::NumberLiteral { value } => write_piece(out, level, texts.as_str(value)),
    }
}

/// Writes a variant of a select at this level up to its pattern.
pub(crate) fn write_variant_head<S: Drop, T: Texts<S>>(
    out: &mut String,
    level: usize,
    texts: &T,
    key: &VariantKey<S>,
    default: bool,
) -> Result<(), AllocError>
    ensures { Writes result out.old out.new
        (variant_head_signs level (key_of S T.text key.now) default) }
{
    let below = deeper(level, 1)?;
    write_new_line(out)?;
    write_mark(out, level, default)?;
    write_piece(out, below, "[")?;
    write_key(out, below, texts, key)?;
    write_piece(out, below, "]")
}

/// Writes the mark of a variant of a select at this level, if the variant is the default.
fn write_mark(out: &mut String, level: usize, default: bool) -> Result<(), AllocError>
    ensures { Writes result out.old out.new (written.mark (level + 1) default) }
{
    if default {
        return write_default_mark(out, level);
    }
    Ok(())
}

/// Writes the name of an argument; `after` says whether an argument stands before it.
pub(crate) fn write_argument_name<S: Drop, T: Texts<S>>(
    out: &mut String,
    level: usize,
    texts: &T,
    after: bool,
    name: &Identifier<S>,
) -> Result<(), AllocError>
    ensures { Writes result out.old out.new
        (argument_name_signs level after (name_of S T.text name.now)) }
{
    write_separator(out, level, after)?;
    write_name(out, level, texts, name)?;
    write_piece(out, level, ": ")
}

/// Writes what stands between two arguments, if one was written before.
pub(crate) fn write_separator(out: &mut String, level: usize, after: bool) -> Result<(), AllocError>
    ensures { Writes result out.old out.new (between level after) }
{
    if after {
        return write_piece(out, level, ", ");
    }
    Ok(())
}
