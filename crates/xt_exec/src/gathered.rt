//! What the parts of a bundle write together.

ghost use Rattle.std.specs.Prelude.{◌≡◌, ◌+◌, ◌<◌, ◌≤◌, [], ◌∷◌, ◌++◌, length};

use std::marker::Model;
use tie_desc::Spot;

/// At most 48 places, each with a value, which contracts see as a list.
#[derive(Drop)]
pub struct Gathered {
    found: [(Spot, u128); 48],
    count: usize,
}

impl Model for Gathered {
    ghost use Rattle.std.specs.Prelude.{ℕ, List, take, ◌≤◌};
    ghost use Rattle.tie_desc.specs.declared.bundle.Spot.{Spot};

    ghost Value = { List (Spot × ℕ) };

    ghost view = { λ g. take g.count g.found };

    ghost invariant = { λ g. g.count ≤ 48 };
}

impl Gathered {
    /// No places.
    pub fn new() -> Gathered
        ensures { result ≡ [] }
    {
        Gathered {
            found: [(Spot::Sar, 0); 48],
            count: 0,
        }
    }

    fn push(&mut self, place: Spot, value: u128)
        requires { length self.old < 48 }
        ensures { self.new ≡ self.old ++ (place, value) ∷ [] }
    {
        self.found[self.count] = (place, value);
        self.count += 1;
    }

    /// Adds places with their values at the end.
    pub fn extend(&mut self, values: &[(Spot, u128)])
        requires { length self.old + length values.now ≤ 48 }
        ensures items { self.new ≡ self.old ++ values.now }
        ensures len { length self.new ≡ length self.old + length values.now }
    {
        for (place, value) in values {
            self.push(*place, *value);
        }
    }

    /// All of them, in the order in which they were added.
    pub fn as_slice(&self) -> &[(Spot, u128)]
        ensures { result.now ≡ self.now }
    {
        &self.found[..self.count]
    }
}
