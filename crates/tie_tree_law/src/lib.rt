//! What the tree of a text has beside its form: names are words, and lists that may not be empty are not.
#![tactic(auto)]

ghost use Rattle.tie_grammar.specs.declared.tree.Tree.{Tree};
ghost use Rattle.tie_grammar.specs.Spelling.{IsText};
ghost use Rattle.tie_tree_law.specs.Shape.{IsRead, NamesAreWords};

/// A tree that was read from a text is one of the grammar, and the names in it are words.
pub fn read_trees()
    ensures text { (t : Tree) → IsRead t → IsText t }
    ensures words { (t : Tree) → IsRead t → NamesAreWords t }
{}
