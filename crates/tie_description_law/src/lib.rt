//! The description of a text that keeps all rules keeps what every description keeps.
#![tactic(auto)]

ghost use Rattle.std.specs.Prelude.{List};
ghost use Rattle.tie_expr.specs.declared.node.Node.{Node};
ghost use Rattle.tie_grammar.specs.declared.tree.Tree.{Tree};
ghost use Rattle.tie_grammar.specs.Spelling.{IsText};
ghost use Rattle.tie_describe.specs.tie_rules.Least.{NoneBroken};
ghost use Rattle.tie_describe.specs.tie_rules.RuleBook as book;
ghost use Rattle.tie_desc.specs.Invariant.{IsDescription};
ghost use Rattle.tie_describe.specs.Described.{described};
ghost use Rattle.tie_description_law.specs.Fits.{ResultsFit};

pub use tie_describe;
pub use tie_describe::tie_tree_law;

/// A text that breaks no rule, with results of its operations that fit them, declares a description.
pub fn facts()
    ensures { (t : Tree) (results : List (List Node)) → NoneBroken (book.rules t) → IsText t → ResultsFit t results → IsDescription (described t results) }
{}
