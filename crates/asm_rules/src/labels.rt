//! Where labels stand.

ghost use Rattle.std.specs.Prelude.{◌≡◌, ℕ, Some, None, List, OnOk, IfOk, if◌then◌else◌};
ghost use Rattle.std.specs.HashMap.{get_by_text};
ghost use Rattle.std.specs.Str.{bytes_eq};
ghost use Rattle.asm_rules.specs.Labels as spec;
ghost use Rattle.asm_rules.specs.Rules.{or_else};

use asm_lines::{Line, Word};
use std::alloc::{AllocError, Global};
use std::collections::HashMap;

/// The number of the first line with a label, from 0.
pub type Labels = HashMap<String, usize>;

#[tactic(auto, using(std::proofs::lemmas::Map::Text::text_keys))]
fn add_label(labels: &mut Labels, alloc: Global, name: &str, line: usize) -> Result<(), AllocError>
    ensures { OnOk result ((q : List ℕ) →
        get_by_text labels.new q ≡ or_else (get_by_text labels.old q) (if bytes_eq q name.now then Some line else None)) }
{
    if !labels.contains_key(name) {
        labels.insert(String::from_str(alloc, name)?, line)?;
    }
    Ok(())
}

/// The first line of each label.
pub fn labels_of(alloc: Global, lines: &[Line]) -> Result<Labels, AllocError>
    ensures { IfOk result (λ labels. (q : List ℕ) → get_by_text labels q ≡ spec.labels_of lines.now q) }
{
    let mut labels = HashMap::new(alloc);
    for (i, line) in lines.iter().enumerate() {
        if let Some(label) = &line.label {
            add_label(&mut labels, alloc, label.name.as_str(), i)?;
        }
    }
    Ok(labels)
}

/// The first line of a label.
pub fn line_of(labels: &Labels, word: &Word) -> Option<usize>
    ensures { result ≡ get_by_text labels.now word.now }
{
    labels.get(word.as_str()).copied()
}
