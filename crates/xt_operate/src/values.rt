//! Places with values.

ghost use Rattle.std.specs.Prelude.{◌≡◌, ◌+◌, ◌<◌, ◌≤◌, [], ◌∷◌, ◌++◌, length};
ghost use Rattle.xt_operate.specs.Values.{value_in};

use std::marker::Model;
use tie_desc::{Spot, same_spot};

/// At most twelve places, each with a value, which contracts see as a list.
#[derive(Drop)]
pub struct Values {
    found: [(Spot, u128); 12],
    count: usize,
}

impl Model for Values {
    ghost use Rattle.std.specs.Prelude.{ℕ, List, take, ◌≤◌};
    ghost use Rattle.tie_desc.specs.declared.bundle.Spot.{Spot};

    ghost Value = { List (Spot × ℕ) };

    ghost view = { λ v. take v.count v.found };

    ghost invariant = { λ v. v.count ≤ 12 };
}

// The value of a place.
fn value_in(found: &[(Spot, u128)], place: Spot) -> u128
    ensures { result ≡ value_in found.now place }
{
    match found {
        [] => 0,
        [(spot, value), others @ ..] => {
            if same_spot(*spot, place) {
                *value
            } else {
                value_in(others, place)
            }
        }
    }
}

impl Values {
    /// No places.
    pub fn new() -> Values
        ensures { result ≡ [] }
    {
        Values {
            found: [(Spot::Sar, 0); 12],
            count: 0,
        }
    }

    /// Adds a place with a value at the end.
    pub fn push(&mut self, place: Spot, value: u128)
        requires { length self.old < 12 }
        ensures { self.new ≡ self.old ++ (place, value) ∷ [] }
    {
        self.found[self.count] = (place, value);
        self.count += 1;
    }

    /// All of them, in the order in which they were added.
    pub fn as_slice(&self) -> &[(Spot, u128)]
        ensures { result.now ≡ self.now }
    {
        &self.found[..self.count]
    }

    /// The value of a place: that of its first entry, 0 where there is none.
    pub fn value(&self, place: Spot) -> u128
        ensures { result ≡ value_in self.now place }
    {
        value_in(self.as_slice(), place)
    }
}
