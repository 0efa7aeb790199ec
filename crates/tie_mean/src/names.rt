//! Names, and whether they are among others.

ghost use Rattle.std.specs.Prelude.{◌≡◌, ◌<◌, length, drop, map};
ghost use Rattle.tie_mean.specs.Names as spec;
ghost use Rattle.tie_mean.specs.Setters.{leaf_names};

use tie_grammar::symbol::Leaf;

/// The leaf spells a name.
pub fn is_named(name: &Leaf, leaf: &Leaf) -> bool
    ensures { result ≡ spec.is_named name.now.bytes leaf.now }
{
    leaf.bytes.as_slice() == name.bytes.as_slice()
}

/// The name is among these.
pub fn has(names: &[&Leaf], name: &Leaf) -> bool
    ensures { result ≡ spec.has (leaf_names names.now) name.now.bytes }
{
    for leaf in names {
        if is_named(name, leaf) {
            return true;
        }
    }
    false
}
