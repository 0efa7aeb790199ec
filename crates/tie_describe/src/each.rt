//! Lists made of lists, a thing at a time.

ghost use Rattle.std.specs.Prelude.{◌≡◌, List, map, IfOk, All, option_to_list};
ghost use Rattle.std.specs.List.{flat_map};

use std::alloc::Global;
use tie_mean::NoMemory;

/// What is made of some things, one of each or none.
pub trait Pick<T, U> {
    ghost use Rattle.std.specs.Prelude.{List, option_to_list};

    ghost fits: { Self → T → Type 0 };

    ghost picked: { Self → T → List U };

    fn pick(&self, x: &T) -> Option<U>
        requires { fits self.now x.now }
        ensures { option_to_list result ≡ picked self.now x.now };
}

/// What is made of each of some things.
pub trait Make<T, U> {
    ghost fits: { Self → T → Type 0 };

    ghost made: { Self → T → U };

    fn make(&self, x: &T) -> Result<U, NoMemory>
        requires { fits self.now x.now }
        ensures { IfOk result (λ y. y ≡ made self.now x.now) };
}

/// All that is picked of some things.
pub fn pick_all<T, U: Drop, P: Pick<T, U>>(
    alloc: Global,
    pick: &P,
    xs: &[T],
) -> Result<Vec<U>, NoMemory>
    requires { All (P.fits pick.now) xs.now }
    ensures { IfOk result (λ v. v.items ≡ flat_map (P.picked pick.now) xs.now) }
{
    let mut found = Vec::new(alloc);
    for x in xs {
        if let Some(y) = pick.pick(x) {
            found.push(y)?;
        }
    }
    Ok(found)
}

/// What is made of each of some things.
pub fn make_all<T, U: Drop, M: Make<T, U>>(
    alloc: Global,
    make: &M,
    xs: &[T],
) -> Result<Vec<U>, NoMemory>
    requires { All (M.fits make.now) xs.now }
    ensures { IfOk result (λ v. v.items ≡ map (M.made make.now) xs.now) }
{
    let mut made = Vec::new(alloc);
    for x in xs {
        made.push(make.make(x)?)?;
    }
    Ok(made)
}
