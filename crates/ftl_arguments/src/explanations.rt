//! The explanation of each code of findings: its section of `docs/reference/codes.md`, as text for
//! a screen. `tools/explanations.py` writes this file.
ghost use Rattle.std.specs.Prelude.{◌≡◌, length};

/// A code with its explanation.
type Explanation = (&'static str, &'static str);

/// The text on a code, which is empty if it is none.
pub(crate) fn text_of(code: &str) -> &'static str {
    text_in(part_1(), code)
        .or_else(|| text_in(part_2(), code))
        .or_else(|| text_in(part_3(), code))
        .or_else(|| text_in(part_4(), code))
        .or_else(|| text_in(part_5(), code))
        .or_else(|| text_in(part_6(), code))
        .or_else(|| text_in(part_7(), code))
        .or_else(|| text_in(part_8(), code))
        .or_else(|| text_in(part_9(), code))
        .or_else(|| text_in(part_10(), code))
        .or_else(|| text_in(part_11(), code))
        .or_else(|| text_in(part_12(), code))
        .unwrap_or("")
}

/// The text on a code in one of the tables.
fn text_in(explanations: &'static [Explanation], code: &str) -> Option<&'static str> {
    for (known, text) in explanations {
        if *known == code {
            return Some(*text);
        }
    }
    None
}

fn part_1() -> &'static [Explanation]
    ensures { length result.now ≡ 6 }
{
    &PART_1
}

static PART_1: [Explanation; 6] = [
    (
        "syntax",
        "syntax

An error. The entry or the attribute from there on can't be read, so users see
the message's id in its place. Read the sentence: it says what was expected.
Mostly `=` or `}` is missing, or a line that goes on isn't indented. More of
these are on a page of their own.

    $ cat syntax.ftl
    quit Quit
    $ ftl lint --format line syntax.ftl
    syntax.ftl:1:6: error: quit: expected `=` after `quit`, found `Q` [syntax]

`--ignore syntax` leaves such findings out.
",
    ),
    (
        "byte-order-mark",
        "byte-order-mark

An error. A hidden character stands at the start of the file, so its first line
can't be read. `ftl tidy FILE` takes it out. If your editor puts it back, save
the file as UTF-8 without a mark.

    $ printf '\\357\\273\\277quit = Quit\\n' > byte-order-mark.ftl
    $ ftl lint --format line byte-order-mark.ftl
    byte-order-mark.ftl:1:1: error: the file begins with a byte order mark, so its first line can't be read [byte-order-mark]

`--ignore byte-order-mark` leaves such findings out.
",
    ),
    (
        "duplicate-id",
        "duplicate-id

An error. Only the first of two entries with one id is shown, unless your
program loads files to override others. A message may not have the name of a
function either. Remove one of the two, or name it anew. If the files are those
of two languages, check them by two calls.

    $ cat duplicate-id.ftl
    quit = Quit
    quit = Leave
    $ ftl lint --format line duplicate-id.ftl
    duplicate-id.ftl:2:1: error: quit: the entry at duplicate-id.ftl:1:1 has the same id, so this one is never shown [duplicate-id]

`--ignore duplicate-id` leaves such findings out, and so does a comment
`# lint-ignore: duplicate-id` before the entry.
",
    ),
    (
        "unknown-message",
        "unknown-message

An error. Users see `{save}` instead of a text. Mend the name, or name the file
that has the message in the same call.

    $ cat unknown-message.ftl
    title = { save }
    $ ftl lint --format line unknown-message.ftl
    unknown-message.ftl:1:11: error: title: there is no message `save` [unknown-message]

`--ignore unknown-message` leaves such findings out, and so does a comment
`# lint-ignore: unknown-message` before the entry.
",
    ),
    (
        "unknown-term",
        "unknown-term

An error. Users see `{-brand}` instead of a name. Mend the name, or name the
file that has the term in the same call.

    $ cat unknown-term.ftl
    welcome = Welcome to { -brand }
    $ ftl lint --format line unknown-term.ftl
    unknown-term.ftl:1:24: error: welcome: there is no term `-brand` [unknown-term]

`--ignore unknown-term` leaves such findings out, and so does a comment
`# lint-ignore: unknown-term` before the entry.
",
    ),
    (
        "unknown-attribute",
        "unknown-attribute

An error. Users see `{menu.title}` instead of a text. Write the attribute as the
entry has it, or add it there.

    $ cat unknown-attribute.ftl
    menu = Menu
    help = { menu.title }
    $ ftl lint --format line unknown-attribute.ftl
    unknown-attribute.ftl:2:10: error: help: there is no attribute `menu.title` [unknown-attribute]

`--ignore unknown-attribute` leaves such findings out, and so does a comment
`# lint-ignore: unknown-attribute` before the entry.
",
    ),
];

fn part_2() -> &'static [Explanation]
    ensures { length result.now ≡ 6 }
{
    &PART_2
}

static PART_2: [Explanation; 6] = [
    (
        "no-value",
        "no-value

An error. The message that is named has attributes alone, so users see its id in
braces. Name one of its attributes, or give it a value.

    $ cat no-value.ftl
    menu =
        .title = Menu
    help = { menu }
    $ ftl lint --format line no-value.ftl
    no-value.ftl:3:10: error: help: the message `menu` has no value [no-value]

`--ignore no-value` leaves such findings out, and so does a comment
`# lint-ignore: no-value` before the entry.
",
    ),
    (
        "no-default",
        "no-default

An error. A select has to have a variant that is taken if no other is. Here the
`*` has no variant after it. Write `*` before the brackets of a variant.

    $ cat no-default.ftl
    size = { $n ->
        [one] One
       *
    }
    $ ftl lint --format line no-default.ftl
    no-default.ftl:1:10: error: size: no variant is the default, since a `*` has no variant after it [no-default]

`--ignore no-default` leaves such findings out, and so does a comment
`# lint-ignore: no-default` before the entry.
",
    ),
    (
        "cyclic-reference",
        "cyclic-reference

An error. The references come back to where they began, so no text is ever made
of them. Take one of them out.

    $ cat cyclic-reference.ftl
    one = { two }
    two = { one }
    $ ftl lint --format line cyclic-reference.ftl
    cyclic-reference.ftl:1:1: error: one: the references never end [cyclic-reference]
    cyclic-reference.ftl:2:1: error: two: the references never end [cyclic-reference]

`--ignore cyclic-reference` leaves such findings out, and so does a comment
`# lint-ignore: cyclic-reference` before the entry.
",
    ),
    (
        "unknown-function",
        "unknown-function

A warning. `NUMBER` and `DATETIME` are known, and only your program knows its
own functions. If it has this one, say so by `--function PLATFORM`. If not,
users see `{PLATFORM()}`: take the call out, or mend its name.

    $ cat unknown-function.ftl
    keys = { PLATFORM() }
    $ ftl lint --format line unknown-function.ftl
    unknown-function.ftl:1:10: warning: keys: there is no function `PLATFORM` [unknown-function]

`--ignore unknown-function` leaves such findings out, and so does a comment
`# lint-ignore: unknown-function` before the entry.
",
    ),
    (
        "duplicate-attribute",
        "duplicate-attribute

A warning. Only the first attribute of a name is shown. Remove the other, or
name it anew.

    $ cat duplicate-attribute.ftl
    menu = Menu
        .title = One
        .title = Two
    $ ftl lint --format line duplicate-attribute.ftl
    duplicate-attribute.ftl:3:5: warning: menu.title: an earlier attribute has this name, so this one is never shown [duplicate-attribute]

`--ignore duplicate-attribute` leaves such findings out, and so does a comment
`# lint-ignore: duplicate-attribute` before the entry.
",
    ),
    (
        "duplicate-variant",
        "duplicate-variant

A warning. The first variant with a key is taken, so this one never is. Remove
it, or mend its key.

    $ cat duplicate-variant.ftl
    size = { $n ->
        [one] One
        [one] Another
       *[other] Many
    }
    $ ftl lint --format line duplicate-variant.ftl
    duplicate-variant.ftl:3:6: warning: size: an earlier variant has the key `one` [duplicate-variant]

`--ignore duplicate-variant` leaves such findings out, and so does a comment
`# lint-ignore: duplicate-variant` before the entry.
",
    ),
];

fn part_3() -> &'static [Explanation]
    ensures { length result.now ≡ 6 }
{
    &PART_3
}

static PART_3: [Explanation; 6] = [
    (
        "invalid-escape",
        "invalid-escape

A warning. The number of the escape isn't that of a character, so users see
U+FFFD. Write the character itself, or the escape of one: up to `\\U10FFFF`, and
not of a surrogate, `\\uD800` to `\\uDFFF`.

    $ cat invalid-escape.ftl
    face = { \"\\uD83D\" }
    $ ftl lint --format line invalid-escape.ftl
    invalid-escape.ftl:1:10: warning: face: `\\uD83D` isn't a character, and is shown as U+FFFD [invalid-escape]

`--ignore invalid-escape` leaves such findings out, and so does a comment
`# lint-ignore: invalid-escape` before the entry.
",
    ),
    (
        "unknown-option",
        "unknown-option

A warning. The function makes nothing of the option or its value, so the number
or date is written as usual. Write an option that `NUMBER` or `DATETIME` has,
and a value that it takes.

    $ cat unknown-option.ftl
    size = { NUMBER($n, minimumDigits: 2) }
    $ ftl lint --format line unknown-option.ftl
    unknown-option.ftl:1:10: warning: size: `NUMBER` has no option `minimumDigits` [unknown-option]

`--ignore unknown-option` leaves such findings out, and so does a comment
`# lint-ignore: unknown-option` before the entry.
",
    ),
    (
        "missing-category",
        "missing-category

A warning. The default variant is taken for numbers that have a form of their
own in the language. Add the variant; Plurals says which numbers it is for. For
`few` and `many` it is a note if no variant shows the number: one text may then
fit all of them.

    $ cat missing-category.ftl
    files = { $n ->
        [one] { $n } plik
        [few] { $n } pliki
       *[other] { $n } pliku
    }
    $ ftl lint --format line --locale pl missing-category.ftl
    missing-category.ftl:1:11: warning: files: there is no variant for the plural category `many` [missing-category]

`--ignore missing-category` leaves such findings out, and so does a comment
`# lint-ignore: missing-category` before the entry.
",
    ),
    (
        "placeable-in-literal",
        "placeable-in-literal

A warning. Inside of quotes nothing is filled in: readers see `{ $n }`. Write it
outside of the quotes.

    $ cat placeable-in-literal.ftl
    items = { \"{ $n } items\" }
    $ ftl lint --format line placeable-in-literal.ftl
    placeable-in-literal.ftl:1:12: warning: items: `{ $n }` is shown as it is [placeable-in-literal]

`--ignore placeable-in-literal` leaves such findings out, and so does a comment
`# lint-ignore: placeable-in-literal` before the entry.
",
    ),
    (
        "unknown-term-argument",
        "unknown-term-argument

A warning. No text of the term has such a variable, so the argument changes
nothing, and readers may see the wrong case. Name it as the term does, or leave
it out.

    $ cat unknown-term-argument.ftl
    -tree = { $case ->
       *[nominative] Lindenbaum
        [genitive] Lindenbaums
    }
    shade = { -tree(cas: \"genitive\") }
    $ ftl lint --format line unknown-term-argument.ftl
    unknown-term-argument.ftl:5:11: warning: shade: no variant of `-tree` is chosen by `cas` [unknown-term-argument]

`--ignore unknown-term-argument` leaves such findings out, and so does a comment
`# lint-ignore: unknown-term-argument` before the entry.
",
    ),
    (
        "unknown-term-variant",
        "unknown-term-variant

A warning. The term has no variant for the value, so readers see the default
one. Write a key that the term has, or add the variant to the term. A key of a
select on an attribute of a term has this code, too, if the attribute is never
that text.

    $ cat unknown-term-variant.ftl
    -tree = { $case ->
       *[nominative] Lindenbaum
        [genitive] Lindenbaums
    }
    leaf = { -tree(case: \"genitve\") }
    $ ftl lint --format line unknown-term-variant.ftl
    unknown-term-variant.ftl:5:10: warning: leaf: `-tree` has no variant `genitve` [unknown-term-variant]

`--ignore unknown-term-variant` leaves such findings out, and so does a comment
`# lint-ignore: unknown-term-variant` before the entry.
",
    ),
];

fn part_4() -> &'static [Explanation]
    ensures { length result.now ≡ 6 }
{
    &PART_4
}

static PART_4: [Explanation; 6] = [
    (
        "unknown-category",
        "unknown-category

A warning. The language has no such category, so the variant is never taken.
Mend its key, or remove it. For a single number write the number, as `[2]`.

    $ cat unknown-category.ftl
    pages = { $n ->
        [oen] Eine Seite
       *[other] { $n } Seiten
    }
    $ ftl lint --format line --locale de unknown-category.ftl
    unknown-category.ftl:1:11: warning: pages: `oen` is no plural category [unknown-category]

`--ignore unknown-category` leaves such findings out, and so does a comment
`# lint-ignore: unknown-category` before the entry.
",
    ),
    (
        "unused-category",
        "unused-category

A note. The language has one form for all numbers, so the variant is never
taken. Remove it, or write `[1]` if one has a text of its own.

    $ cat unused-category.ftl
    pages = { $n ->
        [one] 1 個
       *[other] { $n } 個
    }
    $ ftl lint --format line --notes --locale ja unused-category.ftl
    unused-category.ftl:1:11: note: pages: the language has no category `one` [unused-category]

`--ignore unused-category` leaves such findings out, and so does a comment
`# lint-ignore: unused-category` before the entry.
",
    ),
    (
        "replacement-character",
        "replacement-character

A warning. An earlier conversion lost a character, and readers see � for it.
Type the text anew.

    $ printf 'find = Seite s\\357\\277\\275chen\\n' > replacement-character.ftl
    $ ftl lint --format line replacement-character.ftl
    replacement-character.ftl:1:15: warning: find: U+FFFD stands for a character that was lost [replacement-character]

`--ignore replacement-character` leaves such findings out, and so does a comment
`# lint-ignore: replacement-character` before the entry.
",
    ),
    (
        "control-character",
        "control-character

A warning. The character has no shape, and does what nobody expects. Take it
out, or write it as an escape if it is meant.

    $ printf 'find = Seite\\007 suchen\\n' > control-character.ftl
    $ ftl lint --format line control-character.ftl
    control-character.ftl:1:13: warning: find: U+0007 is a control character [control-character]

`--ignore control-character` leaves such findings out, and so does a comment
`# lint-ignore: control-character` before the entry.
",
    ),
    (
        "zero-width",
        "zero-width

A warning. Nobody sees the character, and a search for the word fails. Take it
out, or write it as an escape if it is meant.

    $ printf 'find = Seite\\342\\200\\213 suchen\\n' > zero-width.ftl
    $ ftl lint --format line zero-width.ftl
    zero-width.ftl:1:13: warning: find: U+200B ZERO WIDTH SPACE isn't seen [zero-width]

`--ignore zero-width` leaves such findings out, and so does a comment
`# lint-ignore: zero-width` before the entry.
",
    ),
    (
        "unbalanced-direction",
        "unbalanced-direction

A warning. What follows on the line may be shown from the wrong side. Write the
mark that is missing, or take this one out.

    $ printf 'find = Seite \\342\\200\\256suchen\\n' > unbalanced-direction.ftl
    $ ftl lint --format line unbalanced-direction.ftl
    unbalanced-direction.ftl:1:14: warning: find: this mark turns round what follows [unbalanced-direction]

`--ignore unbalanced-direction` leaves such findings out, and so does a comment
`# lint-ignore: unbalanced-direction` before the entry.
",
    ),
];

fn part_5() -> &'static [Explanation]
    ensures { length result.now ≡ 6 }
{
    &PART_5
}

static PART_5: [Explanation; 6] = [
    (
        "mixed-scripts",
        "mixed-scripts

A warning. A word has letters of two scripts, such as a Latin c among Cyrillic
letters. Nobody sees it, and a search for the word fails. Type the letter anew.

    $ cat mixed-scripts.ftl
    server = Cервер
    $ ftl lint --format line mixed-scripts.ftl
    mixed-scripts.ftl:1:10: warning: server: U+0043 is a Latin letter in a Cyrillic word [mixed-scripts]

`--ignore mixed-scripts` leaves such findings out, and so does a comment
`# lint-ignore: mixed-scripts` before the entry.
",
    ),
    (
        "wrong-encoding",
        "wrong-encoding

A warning. UTF-8 was read as Windows-1252 by an earlier conversion, so readers
see two signs for one. Type the text anew.

    $ cat wrong-encoding.ftl
    close = SchlieÃŸen
    $ ftl lint --format line wrong-encoding.ftl
    wrong-encoding.ftl:1:15: warning: close: `ß` is in a wrong encoding [wrong-encoding]

`--ignore wrong-encoding` leaves such findings out, and so does a comment
`# lint-ignore: wrong-encoding` before the entry.
",
    ),
    (
        "unused-term",
        "unused-term

A note. Nothing refers to the term, so nobody sees it. Remove it, unless another
program shares the file.

    $ cat unused-term.ftl
    -brand = Kozhvadi
    $ ftl lint --format line --notes unused-term.ftl
    unused-term.ftl:1:1: note: -brand: no entry refers to this term [unused-term]

`--ignore unused-term` leaves such findings out, and so does a comment
`# lint-ignore: unused-term` before the entry.
",
    ),
    (
        "missing-message",
        "missing-message

A warning. Users see the message in another language, or its id. Translate it.

    $ cat missing-message.ftl
    open = Öffnen
    $ cat missing-message-en.ftl
    open = Open
    quit = Quit
    $ ftl lint --format line --reference missing-message-en.ftl missing-message.ftl
    missing-message-en.ftl:2:1: warning: quit: the message has no translation [missing-message]

`--ignore missing-message` leaves such findings out, and so does a comment
`# lint-ignore: missing-message` before the entry.
",
    ),
    (
        "missing-value",
        "missing-value

An error. The reference's message has a value, and yours has attributes alone.
Translate the value.

    $ cat missing-value.ftl
    menu =
        .title = Menü
    $ cat missing-value-en.ftl
    menu = Menu
        .title = Menu
    $ ftl lint --format line --reference missing-value-en.ftl missing-value.ftl
    missing-value.ftl:1:1: error: menu: the value is missing, and the reference has one [missing-value]

`--ignore missing-value` leaves such findings out, and so does a comment
`# lint-ignore: missing-value` before the entry.
",
    ),
    (
        "missing-attribute",
        "missing-attribute

An error. Programs ask for the attribute, and find none. Translate it.

    $ cat missing-attribute.ftl
    menu = Menü
    $ cat missing-attribute-en.ftl
    menu = Menu
        .title = Menu
    $ ftl lint --format line --reference missing-attribute-en.ftl missing-attribute.ftl
    missing-attribute.ftl:1:1: error: menu: the attribute `.title` of the reference is missing [missing-attribute]

`--ignore missing-attribute` leaves such findings out, and so does a comment
`# lint-ignore: missing-attribute` before the entry.
",
    ),
];

fn part_6() -> &'static [Explanation]
    ensures { length result.now ≡ 6 }
{
    &PART_6
}

static PART_6: [Explanation; 6] = [
    (
        "obsolete-value",
        "obsolete-value

A warning. The program no longer asks for the value. Remove it, or look whether
it should be an attribute.

    $ cat obsolete-value.ftl
    menu = Menü
        .title = Menü
    $ cat obsolete-value-en.ftl
    menu =
        .title = Menu
    $ ftl lint --format line --reference obsolete-value-en.ftl obsolete-value.ftl
    obsolete-value.ftl:1:1: warning: menu: the reference has no value [obsolete-value]

`--ignore obsolete-value` leaves such findings out, and so does a comment
`# lint-ignore: obsolete-value` before the entry.
",
    ),
    (
        "obsolete-attribute",
        "obsolete-attribute

A warning. The program no longer asks for the attribute. Remove it, or mend its
name.

    $ cat obsolete-attribute.ftl
    menu = Menü
        .titel = Menü
    $ cat obsolete-attribute-en.ftl
    menu = Menu
    $ ftl lint --format line --reference obsolete-attribute-en.ftl obsolete-attribute.ftl
    obsolete-attribute.ftl:2:5: warning: menu: the reference has no attribute `.titel` [obsolete-attribute]

`--ignore obsolete-attribute` leaves such findings out, and so does a comment
`# lint-ignore: obsolete-attribute` before the entry.
",
    ),
    (
        "unknown-variable",
        "unknown-variable

An error. Your program passes no such variable, so users see `{$nmae}`. Write
the name that the reference has.

    $ cat unknown-variable.ftl
    hi = Hallo, { $nmae }!
    $ cat unknown-variable-en.ftl
    hi = Hello, { $name }!
    $ ftl lint --format line --reference unknown-variable-en.ftl unknown-variable.ftl
    unknown-variable.ftl:1:15: error: hi: the reference has no variable `$nmae` [unknown-variable]

`--ignore unknown-variable` leaves such findings out, and so does a comment
`# lint-ignore: unknown-variable` before the entry.
",
    ),
    (
        "missing-variable",
        "missing-variable

A warning. The reference shows something to readers that the translation keeps
back. Show the variable, at least in one variant. If the text is right without
it, leave it.

    $ cat missing-variable.ftl
    hi = Hallo!
    $ cat missing-variable-en.ftl
    hi = Hello, { $name }!
    $ ftl lint --format line --reference missing-variable-en.ftl missing-variable.ftl
    missing-variable.ftl:1:1: warning: hi: the reference shows `$name` [missing-variable]

`--ignore missing-variable` leaves such findings out, and so does a comment
`# lint-ignore: missing-variable` before the entry.
",
    ),
    (
        "unused-variable",
        "unused-variable

A note. The reference chooses by the variable, and the translation doesn't. That
may be right: not each language has other texts for it.

    $ cat unused-variable.ftl
    save = Sichern
    $ cat unused-variable-en.ftl
    save = { $os ->
        [mac] Save
       *[other] Store
    }
    $ ftl lint --format line --notes --reference unused-variable-en.ftl unused-variable.ftl
    unused-variable.ftl:1:1: note: save: the variable `$os` of the reference isn't used [unused-variable]

`--ignore unused-variable` leaves such findings out, and so does a comment
`# lint-ignore: unused-variable` before the entry.
",
    ),
    (
        "obsolete-message",
        "obsolete-message

A note. The program no longer asks for the message. Remove it, once no version
in use does.

    $ cat obsolete-message.ftl
    quit = Beenden
    $ cat obsolete-message-en.ftl
    open = Open
    $ ftl lint --format line --notes --ignore missing-message --reference obsolete-message-en.ftl obsolete-message.ftl
    obsolete-message.ftl:1:1: note: quit: the reference has no such message [obsolete-message]

`--ignore obsolete-message` leaves such findings out, and so does a comment
`# lint-ignore: obsolete-message` before the entry.
",
    ),
];

fn part_7() -> &'static [Explanation]
    ensures { length result.now ≡ 6 }
{
    &PART_7
}

static PART_7: [Explanation; 6] = [
    (
        "untranslated",
        "untranslated

A note. Value and attributes are still those of the reference. Translate them,
if they aren't the same in your language.

    $ cat untranslated.ftl
    quit = Quit
    $ cat untranslated-en.ftl
    quit = Quit
    $ ftl lint --format line --notes --reference untranslated-en.ftl untranslated.ftl
    untranslated.ftl:1:1: note: quit: the text is the same as in the reference [untranslated]

`--ignore untranslated` leaves such findings out, and so does a comment
`# lint-ignore: untranslated` before the entry.
",
    ),
    (
        "variant-lacks-variable",
        "variant-lacks-variable

A note. The default variant shows a variable, and this one doesn't. That is
right if it says the same in words, as \"the only file\". Otherwise show the
variable there, too.

    $ cat variant-lacks-variable.ftl
    copied = { $n ->
        [one] { $n } Datei
       *[other] { $n } Dateien von { $name }
    }
    $ cat variant-lacks-variable-en.ftl
    copied = { $n ->
        [one] { $n } file of { $name }
       *[other] { $n } files of { $name }
    }
    $ ftl lint --format line --notes --reference variant-lacks-variable-en.ftl variant-lacks-variable.ftl
    variant-lacks-variable.ftl:1:1: note: copied: the default variant shows `$name`, and `[one]` doesn't [variant-lacks-variable]

`--ignore variant-lacks-variable` leaves such findings out, and so does a
comment `# lint-ignore: variant-lacks-variable` before the entry.
",
    ),
    (
        "plural-dropped",
        "plural-dropped

A note, with `--locale`. The reference has variants for plural categories, and
the translation has one text for all, although the language has several. Add the
variants, unless the text fits each number.

    $ cat plural-dropped.ftl
    files = { $n } Dateien
    $ cat plural-dropped-en.ftl
    files = { $n ->
        [one] One file
       *[other] { $n } files
    }
    $ ftl lint --format line --notes --locale de --reference plural-dropped-en.ftl plural-dropped.ftl
    plural-dropped.ftl:1:1: note: files: the reference has variants by `$n` [plural-dropped]

`--ignore plural-dropped` leaves such findings out, and so does a comment
`# lint-ignore: plural-dropped` before the entry.
",
    ),
    (
        "term-as-text",
        "term-as-text

A warning. The reference refers to a term, and the translation has the text of
the term instead. If the name changes, this text keeps the old one. Refer to the
term.

    $ cat term-as-text.ftl
    -brand = Kozhvadi
    hi = Willkommen bei Kozhvadi
    $ cat term-as-text-en.ftl
    -brand = Kozhvadi
    hi = Welcome to { -brand }
    $ ftl lint --format line --reference term-as-text-en.ftl term-as-text.ftl
    term-as-text.ftl:2:1: warning: hi: `Kozhvadi` is written out [term-as-text]

`--ignore term-as-text` leaves such findings out, and so does a comment
`# lint-ignore: term-as-text` before the entry.
",
    ),
    (
        "broken-tag",
        "broken-tag

A warning. A tag begins, and nothing ends it, so readers may see half of it.
Write the `>` that is missing.

    $ cat broken-tag.ftl
    try = Probiere <b das</b> jetzt
    $ cat broken-tag-en.ftl
    try = Try <b>this</b> now
    $ ftl lint --format line --reference broken-tag-en.ftl broken-tag.ftl
    broken-tag.ftl:1:16: warning: try: this tag has no end [broken-tag]

`--ignore broken-tag` leaves such findings out, and so does a comment
`# lint-ignore: broken-tag` before the entry.
",
    ),
    (
        "unbalanced-element",
        "unbalanced-element

A warning. An element is opened and not closed, or the other way round. In the
reference it is closed. Write the tag that is missing, or take this one out.

    $ cat unbalanced-element.ftl
    try = Probiere <b>das jetzt
    $ cat unbalanced-element-en.ftl
    try = Try <b>this</b> now
    $ ftl lint --format line --reference unbalanced-element-en.ftl unbalanced-element.ftl
    unbalanced-element.ftl:1:16: warning: try: `<b>` isn't closed [unbalanced-element]

`--ignore unbalanced-element` leaves such findings out, and so does a comment
`# lint-ignore: unbalanced-element` before the entry.
",
    ),
];

fn part_8() -> &'static [Explanation]
    ensures { length result.now ≡ 6 }
{
    &PART_8
}

static PART_8: [Explanation; 6] = [
    (
        "unknown-element",
        "unknown-element

A warning. The reference has no such element, and programs mostly let through
only those that they know. Mend its name, or take the tags out.

    $ cat unknown-element.ftl
    bye = <span>Tschüss</spam>
    $ cat unknown-element-en.ftl
    bye = <span>Goodbye</span>
    $ ftl lint --format line --reference unknown-element-en.ftl unknown-element.ftl
    unknown-element.ftl:1:20: warning: bye: the reference has no element `spam` [unknown-element]

`--ignore unknown-element` leaves such findings out, and so does a comment
`# lint-ignore: unknown-element` before the entry.
",
    ),
    (
        "missing-element",
        "missing-element

A note. The reference has an element that the translation lacks, such as one for
emphasis. Add it, if the text needs it.

    $ cat missing-element.ftl
    tests = Mehr Tests
    $ cat missing-element-en.ftl
    tests = More <i>ad hoc</i> tests
    $ ftl lint --format line --notes --reference missing-element-en.ftl missing-element.ftl
    missing-element.ftl:1:9: note: tests: the reference has an element `i` [missing-element]

`--ignore missing-element` leaves such findings out, and so does a comment
`# lint-ignore: missing-element` before the entry.
",
    ),
    (
        "missing-l10n-name",
        "missing-l10n-name

A warning. The program looks for an element of this name, for a link or a
button. Without it readers can't use it. Write the tag with its name, in
straight quotes.

    $ cat missing-l10n-name.ftl
    more = Mehr lesen
    $ cat missing-l10n-name-en.ftl
    more = Read <a data-l10n-name=\"more\">more</a>
    $ ftl lint --format line --reference missing-l10n-name-en.ftl missing-l10n-name.ftl
    missing-l10n-name.ftl:1:8: warning: more: the reference has `data-l10n-name=\"more\"` [missing-l10n-name]

`--ignore missing-l10n-name` leaves such findings out, and so does a comment
`# lint-ignore: missing-l10n-name` before the entry.
",
    ),
    (
        "unknown-l10n-name",
        "unknown-l10n-name

A warning. The program knows no element of this name. Names aren't translated:
write that of the reference.

    $ cat unknown-l10n-name.ftl
    more = <a data-l10n-name=\"mehr\">Mehr</a> lesen
    $ cat unknown-l10n-name-en.ftl
    more = Read <a data-l10n-name=\"more\">more</a>
    $ ftl lint --format line --reference unknown-l10n-name-en.ftl unknown-l10n-name.ftl
    unknown-l10n-name.ftl:1:8: warning: more: the reference has no `data-l10n-name=\"mehr\"` [unknown-l10n-name]

`--ignore unknown-l10n-name` leaves such findings out, and so does a comment
`# lint-ignore: unknown-l10n-name` before the entry.
",
    ),
    (
        "broken-entity",
        "broken-entity

A warning. An entity such as `&amp;` ends with a semicolon. Without it readers
may see the letters.

    $ cat broken-entity.ftl
    edit = Ausschneiden &amp einfügen
    $ cat broken-entity-en.ftl
    edit = Cut &amp; paste
    $ ftl lint --format line --reference broken-entity-en.ftl broken-entity.ftl
    broken-entity.ftl:1:21: warning: edit: `&amp` has no `;` [broken-entity]

`--ignore broken-entity` leaves such findings out, and so does a comment
`# lint-ignore: broken-entity` before the entry.
",
    ),
    (
        "long-access-key",
        "long-access-key

A warning. An access key is one character, and programs mostly take the first.
Write one that is in the label.

    $ cat long-access-key.ftl
    find =
        .label = Suchen
        .accesskey = Su
    $ cat long-access-key-en.ftl
    find =
        .label = Search
        .accesskey = S
    $ ftl lint --format line --reference long-access-key-en.ftl long-access-key.ftl
    long-access-key.ftl:3:18: warning: find.accesskey: `Su` has more than one character [long-access-key]

`--ignore long-access-key` leaves such findings out, and so does a comment
`# lint-ignore: long-access-key` before the entry.
",
    ),
];

fn part_9() -> &'static [Explanation]
    ensures { length result.now ≡ 6 }
{
    &PART_9
}

static PART_9: [Explanation; 6] = [
    (
        "long-key",
        "long-key

A warning. The key of a command is one character, and a longer one is never
pressed. Write the key of your language, or that of the reference.

    $ cat long-key.ftl
    find =
        .key = Strg F
    $ cat long-key-en.ftl
    find =
        .key = F
    $ ftl lint --format line --reference long-key-en.ftl long-key.ftl
    long-key.ftl:2:12: warning: find.key: `Strg F` has more than one character [long-key]

`--ignore long-key` leaves such findings out, and so does a comment
`# lint-ignore: long-key` before the entry.
",
    ),
    (
        "changed-style",
        "changed-style

A warning. The style has other properties than that of the reference, or other
units, or can't be read. Only the numbers in it may differ.

    $ cat changed-style.ftl
    window =
        .style = width: 45
    $ cat changed-style-en.ftl
    window =
        .style = width: 40em
    $ ftl lint --format line --reference changed-style-en.ftl changed-style.ftl
    changed-style.ftl:2:14: warning: window.style: the reference has `width: 40em` [changed-style]

`--ignore changed-style` leaves such findings out, and so does a comment
`# lint-ignore: changed-style` before the entry.
",
    ),
    (
        "access-key-not-in-label",
        "access-key-not-in-label

A note. The access key isn't a letter of the label, so no letter is underlined;
programs add it in brackets. Choose one of the label. The note isn't reported if
that of the reference isn't in its label either.

    $ cat access-key-not-in-label.ftl
    find =
        .label = Finden
        .accesskey = S
    $ cat access-key-not-in-label-en.ftl
    find =
        .label = Search
        .accesskey = S
    $ ftl lint --format line --notes --reference access-key-not-in-label-en.ftl access-key-not-in-label.ftl
    access-key-not-in-label.ftl:3:18: note: find.accesskey: `S` isn't in the label [access-key-not-in-label]

`--ignore access-key-not-in-label` leaves such findings out, and so does a
comment `# lint-ignore: access-key-not-in-label` before the entry.
",
    ),
    (
        "changed-url",
        "changed-url

A note of the group `texts`. The reference has an address of a host that the
translation lacks. Of a host, the last two names count.

    $ cat changed-url.ftl
    faq = Siehe https://exampel.org/faq
    $ cat changed-url-en.ftl
    faq = See https://example.org/faq
    $ ftl lint --format line --select texts --reference changed-url-en.ftl changed-url.ftl
    changed-url.ftl:1:13: note: faq: the reference has an address of `example.org` [changed-url]

`--ignore changed-url` leaves such findings out, and so does a comment
`# lint-ignore: changed-url` before the entry.
",
    ),
    (
        "changed-placeholder",
        "changed-placeholder

A note of the group `texts`. A placeholder of another format, as `%s`, `%1$S` or
`{0}`, is left out, or new. Fluent doesn't fill it in; another program may.

    $ cat changed-placeholder.ftl
    copied = Kopiert
    $ cat changed-placeholder-en.ftl
    copied = Copied %s
    $ ftl lint --format line --select texts --reference changed-placeholder-en.ftl changed-placeholder.ftl
    changed-placeholder.ftl:1:10: note: copied: the reference has `%s` [changed-placeholder]

`--ignore changed-placeholder` leaves such findings out, and so does a comment
`# lint-ignore: changed-placeholder` before the entry.
",
    ),
    (
        "changed-number",
        "changed-number

A note of the group `texts`. A number of the reference is another one here.
Small ones, up to 2, are often words.

    $ cat changed-number.ftl
    wait = 54 Minuten warten
    $ cat changed-number-en.ftl
    wait = Wait for 45 minutes
    $ ftl lint --format line --select texts --reference changed-number-en.ftl changed-number.ftl
    changed-number.ftl:1:8: note: wait: the reference has `45` [changed-number]

`--ignore changed-number` leaves such findings out, and so does a comment
`# lint-ignore: changed-number` before the entry.
",
    ),
];

fn part_10() -> &'static [Explanation]
    ensures { length result.now ≡ 6 }
{
    &PART_10
}

static PART_10: [Explanation; 6] = [
    (
        "edge-space",
        "edge-space

A note of the group `texts`. The text begins or ends with a space, and that of
the reference doesn't, or the other way round.

    $ cat edge-space.ftl
    city = Stadt:{ \" \" }
    $ cat edge-space-en.ftl
    city = City:
    $ ftl lint --format line --select texts --reference edge-space-en.ftl edge-space.ftl
    edge-space.ftl:1:8: note: city: the text ends with a space [edge-space]

`--ignore edge-space` leaves such findings out, and so does a comment
`# lint-ignore: edge-space` before the entry.
",
    ),
    (
        "double-space",
        "double-space

A note of the group `texts`. Two spaces stand within a sentence.

    $ cat double-space.ftl
    end = Zum  Ende
    $ cat double-space-en.ftl
    end = Go to the end
    $ ftl lint --format line --select texts --reference double-space-en.ftl double-space.ftl
    double-space.ftl:1:10: note: end: two spaces [double-space]

`--ignore double-space` leaves such findings out, and so does a comment
`# lint-ignore: double-space` before the entry.
",
    ),
    (
        "doubled-word",
        "doubled-word

A note of the group `texts`. A word stands twice in a row. Take one of them out,
unless the language says it twice.

    $ cat doubled-word.ftl
    end = Bis zum zum Ende
    $ cat doubled-word-en.ftl
    end = Up to the end
    $ ftl lint --format line --select texts --reference doubled-word-en.ftl doubled-word.ftl
    doubled-word.ftl:1:11: note: end: a word stands here twice [doubled-word]

`--ignore doubled-word` leaves such findings out, and so does a comment
`# lint-ignore: doubled-word` before the entry.
",
    ),
    (
        "final-punctuation",
        "final-punctuation

A note of the group `texts`. The reference ends with a colon, a full stop or an
ellipsis, and the text with no sign at all.

    $ cat final-punctuation.ftl
    city = Wohnort
    $ cat final-punctuation-en.ftl
    city = City:
    $ ftl lint --format line --select texts --reference final-punctuation-en.ftl final-punctuation.ftl
    final-punctuation.ftl:1:8: note: city: the reference ends with a colon [final-punctuation]

`--ignore final-punctuation` leaves such findings out, and so does a comment
`# lint-ignore: final-punctuation` before the entry.
",
    ),
    (
        "three-dots",
        "three-dots

A note of the group `texts`. Three dots stand where the reference has an
ellipsis, `…`.

    $ cat three-dots.ftl
    print = Drucken...
    $ cat three-dots-en.ftl
    print = Print…
    $ ftl lint --format line --select texts --reference three-dots-en.ftl three-dots.ftl
    three-dots.ftl:1:16: note: print: the reference has `…` [three-dots]

`--ignore three-dots` leaves such findings out, and so does a comment
`# lint-ignore: three-dots` before the entry.
",
    ),
    (
        "unpaired-quote",
        "unpaired-quote

A note of the group `texts`. A curly quote has no partner.

    $ cat unpaired-quote.ftl
    copy = „{ $file } jetzt kopieren
    $ cat unpaired-quote-en.ftl
    copy = Copy “{ $file }” now
    $ ftl lint --format line --select texts --reference unpaired-quote-en.ftl unpaired-quote.ftl
    unpaired-quote.ftl:1:8: note: copy: `„` has no partner [unpaired-quote]

`--ignore unpaired-quote` leaves such findings out, and so does a comment
`# lint-ignore: unpaired-quote` before the entry.
",
    ),
];

fn part_11() -> &'static [Explanation]
    ensures { length result.now ≡ 6 }
{
    &PART_11
}

static PART_11: [Explanation; 6] = [
    (
        "straight-quote",
        "straight-quote

A note of the group `texts`. A straight quote stands where the reference has
curly ones.

    $ cat straight-quote.ftl
    copy = \"{ $file }\" kopieren
    $ cat straight-quote-en.ftl
    copy = Copy “{ $file }”
    $ ftl lint --format line --select texts --reference straight-quote-en.ftl straight-quote.ftl
    straight-quote.ftl:1:8: note: copy: the reference has `“` [straight-quote]

`--ignore straight-quote` leaves such findings out, and so does a comment
`# lint-ignore: straight-quote` before the entry.
",
    ),
    (
        "empty-text",
        "empty-text

A note of the group `texts`. The text has nothing to read, or one of its
variants.

    $ cat empty-text.ftl
    hint = { \"\" }
    $ cat empty-text-en.ftl
    hint = Read this
    $ ftl lint --format line --select texts --reference empty-text-en.ftl empty-text.ftl
    empty-text.ftl:1:8: note: hint: the text is empty [empty-text]

`--ignore empty-text` leaves such findings out, and so does a comment
`# lint-ignore: empty-text` before the entry.
",
    ),
    (
        "long-text",
        "long-text

A note of the group `texts`. The text is five times as long as that of the
reference, and long.

    $ cat long-text.ftl
    find = Diese Seite jetzt durchsuchen, diese Seite jetzt durchsuchen, diese Seite jetzt durchsuchen, diese Seite jetzt durchsuchen
    $ cat long-text-en.ftl
    find = Search
    $ ftl lint --format line --select texts --reference long-text-en.ftl long-text.ftl
    long-text.ftl:1:8: note: find: five times as long as the reference [long-text]

`--ignore long-text` leaves such findings out, and so does a comment
`# lint-ignore: long-text` before the entry.
",
    ),
    (
        "missing-file",
        "missing-file

A warning. In a project, a language lacks a file of the reference that has
messages. Translate it.

    $ cat missing-file.toml
    locales = [\"de\"]
    [[paths]]
    reference = \"missing-file/en/**\"
    l10n = \"missing-file/{locale}/**\"
    $ mkdir -p missing-file/en missing-file/de
    $ printf 'open = Open\\n' > missing-file/en/menu.ftl
    $ printf 'quit = Quit\\n' > missing-file/en/end.ftl
    $ printf 'open = Öffnen\\n' > missing-file/de/menu.ftl
    $ ftl lint --format line missing-file.toml
    missing-file/de/end.ftl:1:1: warning: the file is missing, with 1 message [missing-file]

`--ignore missing-file` leaves such findings out, and so does a comment
`# lint-ignore: missing-file` before the entry.
",
    ),
    (
        "missing-locale",
        "missing-locale

A warning. A language that the project names has no file at all, so its name may
be misspelt. Correct it, or add files.

    $ cat missing-locale.toml
    locales = [\"de\", \"pll\"]
    [[paths]]
    reference = \"missing-locale/en/**\"
    l10n = \"missing-locale/{locale}/**\"
    $ mkdir -p missing-locale/en missing-locale/de
    $ printf 'open = Open\\n' > missing-locale/en/menu.ftl
    $ printf 'open = Öffnen\\n' > missing-locale/de/menu.ftl
    $ ftl lint --format line missing-locale.toml
    missing-locale.toml:1:1: warning: `pll` has no file, and lacks 1 message [missing-locale]

`--ignore missing-locale` leaves such findings out, and so does a comment
`# lint-ignore: missing-locale` before the entry.
",
    ),
    (
        "obsolete-file",
        "obsolete-file

A note. The reference has no such file. Remove it, if the program doesn't load
it.

    $ cat obsolete-file.toml
    locales = [\"de\"]
    [[paths]]
    reference = \"obsolete-file/en/**\"
    l10n = \"obsolete-file/{locale}/**\"
    $ mkdir -p obsolete-file/en obsolete-file/de
    $ printf 'open = Open\\n' > obsolete-file/en/menu.ftl
    $ printf 'open = Öffnen\\n' > obsolete-file/de/menu.ftl
    $ printf 'quit = Beenden\\n' > obsolete-file/de/end.ftl
    $ ftl lint --format line --notes obsolete-file.toml
    obsolete-file/de/end.ftl:1:1: note: the reference has no such file, with 1 message [obsolete-file]

`--ignore obsolete-file` leaves such findings out, and so does a comment
`# lint-ignore: obsolete-file` before the entry.
",
    ),
];

fn part_12() -> &'static [Explanation]
    ensures { length result.now ≡ 1 }
{
    &PART_12
}

static PART_12: [Explanation; 1] = [(
    "unused-ignore",
    "unused-ignore

A warning. A comment leaves out findings of a code, and there are none. Remove
the code from it, or correct its name.

    $ cat unused-ignore.ftl
    # lint-ignore: unknown-mesage
    title = { brand }
    $ ftl lint --format line unused-ignore.ftl
    unused-ignore.ftl:1:1: warning: `unknown-mesage` has nothing to ignore here [unused-ignore]
    unused-ignore.ftl:2:11: error: title: there is no message `brand` [unknown-message]

`--ignore unused-ignore` leaves such findings out, and so does a comment
`# lint-ignore: unused-ignore` before the entry.
",
)];
