//! Laws of written texts: each function only carries a law, as its contract.

ghost use Rattle.std.specs.Prelude.{◌≡◌, IsTrue, List, true};
ghost use Rattle.std.specs.List.{list_all};
ghost use Rattle.fluent_grammar.specs.Tree as tree;
ghost use Rattle.fluent_grammar.specs.Written.{is_no_junk, written, written_with};

/// The written text of a tree without junk is the same by all options.
pub fn options_are_about_junk()
    ensures { (es : List tree.Entry) → IsTrue (list_all is_no_junk es)
        → written_with true es ≡ written es }
{}
