//! What a text has that breaks no rule: all that its functions and operations need to be translated.
//!
//! The functions of this file have no code: each is a law, and its clause states it for all texts. That a concatenation has a
//! part is known from the grammar, and not from a rule.
#![tactic(auto)]

ghost use Rattle.tie_grammar.specs.Spelling.{IsText};
ghost use Rattle.tie_grammar.specs.declared.tree.Operation.{Operation};
ghost use Rattle.tie_grammar.specs.declared.tree.Tree.{Tree};
ghost use Rattle.tie_results.specs.Sound.{SoundOperation, SoundText};
ghost use Rattle.tie_rules.specs.Least.{NoneBroken};
ghost use Rattle.tie_rules.specs.RuleBook as book;
ghost use Rattle.tie_sizes_law.specs.Declared.{IsOperationOf};

/// The tables and functions of a text that breaks no rule. Every expression that a function sets, and each part of one, has
/// a size of 1 to 128 bits, and so has every name that it sees; no two functions have one name.
pub fn sound_text()
    ensures { (t : Tree) → IsText t → NoneBroken (book.rules t) → SoundText t }
{}

/// The same of each of its operations, which sets all operands that it writes, by at most 4096 nodes.
pub fn sound_operation()
    ensures { (t : Tree) (o : Operation) → IsText t → NoneBroken (book.rules t) → IsOperationOf t o → SoundOperation t o }
{}
