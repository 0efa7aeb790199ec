//! The law of spellings.

ghost use Rattle.std.specs.Prelude.{◌≡◌, ◌++◌};
ghost use Rattle.tie_desc.specs.Invariant.{IsDescription};
ghost use Rattle.tie_desc.specs.Spelling.{HasSpelling, spell};

/// No spelling begins with another one, and no two bundles have one spelling.
pub fn one_bundle()
    ensures { (d a b x y : _) → IsDescription d → HasSpelling d a → HasSpelling d b → spell d a ++ x ≡ spell d b ++ y → a ≡ b }
{}
