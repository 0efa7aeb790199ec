//! What is asked at each of some things, and the answers for all of them.

ghost use Rattle.std.specs.Prelude.{◌≡◌, ◌≤◌, ◌<◌, List, map, take, length, option_copied, IfOk};
ghost use Rattle.std.specs.List.{flat_map, list_any, find};
ghost use Rattle.tie_rules.specs.Least as spec;
ghost use Rattle.tie_rules.specs.Schedules.{few};
ghost use Rattle.tie_rules.specs.Schedules as slot;

use crate::least::earlier;
use std::alloc::Global;
use tie_mean::NoMemory;

/// A rule, by the places at which a thing breaks it.
pub trait Judge<T> {
    ghost use Rattle.std.specs.Prelude.{List, ℕ};

    ghost places: { Self → T → List ℕ };

    fn judge(&self, x: &T) -> Option<u32>
        ensures { result ≡ spec.least (places self.now x.now) };
}

/// A rule, by the places at which a thing breaks it, that needs memory.
pub trait JudgeIn<T> {
    ghost use Rattle.std.specs.Prelude.{List, ℕ};

    ghost places: { Self → T → List ℕ };

    fn judge(&self, alloc: Global, x: &T) -> Result<Option<u32>, NoMemory>
        ensures { IfOk result (λ place. place ≡ spec.least (places self.now x.now)) };
}

/// A rule, by the places at which a thing breaks it where others stand before it.
pub trait JudgeBehind<T> {
    ghost use Rattle.std.specs.Prelude.{List, ℕ};

    ghost places: { Self → List T → T → List ℕ };

    fn judge(&self, before: &[T], x: &T) -> Option<u32>
        ensures { result ≡ spec.least (places self.now before.now x.now) };
}

/// A test of a thing.
pub trait Test<T> {
    ghost use Rattle.std.specs.Prelude.{Bool};

    ghost holds: { Self → T → Bool };

    fn holds_of(&self, x: &T) -> bool
        ensures { result ≡ holds self.now x.now };
}

/// A number of a thing. Numbers beyond 1000 aren't told apart.
pub trait Measure<T> {
    ghost use Rattle.std.specs.Prelude.{ℕ};

    ghost amount: { Self → T → ℕ };

    fn measure(&self, x: &T) -> u64
        ensures { result ≡ few (amount self.now x.now) };
}

/// The least place at which some things break a rule.
#[tactic(auto, using(crate::proofs::Places::places))]
pub fn least_in<T, R: Judge<T>>(rule: &R, xs: &[T]) -> Option<u32>
    ensures { result ≡ spec.least (flat_map (R.places rule.now) xs.now) }
{
    let mut found = None;
    for x in xs {
        found = earlier(found, rule.judge(x));
    }
    found
}

/// The least place at which some things break a rule that needs memory.
#[tactic(auto, using(crate::proofs::Places::places))]
pub fn least_made<T, R: JudgeIn<T>>(
    alloc: Global,
    rule: &R,
    xs: &[T],
) -> Result<Option<u32>, NoMemory>
    ensures { IfOk result (λ place. place ≡ spec.least (flat_map (R.places rule.now) xs.now)) }
{
    let mut found = None;
    for x in xs {
        let place = rule.judge(alloc, x)?;
        found = earlier(found, place);
    }
    Ok(found)
}

/// Those before a place.
fn before<T>(xs: &[T], i: usize) -> &[T]
    requires { i ≤ length xs.now }
    ensures { result.now ≡ take i xs.now }
{
    &xs[..i]
}

/// The least place at which some things break a rule that looks at those before each.
#[tactic(auto, using(crate::proofs::Places::places))]
pub fn least_behind<T, R: JudgeBehind<T>>(rule: &R, xs: &[T]) -> Option<u32>
    ensures { result ≡ spec.least (spec.behind (R.places rule.now) xs.now) }
{
    let mut found = None;
    for i in 0..xs.len() {
        found = earlier(found, rule.judge(before(xs, i), &xs[i]));
    }
    found
}

/// A test holds of some of these.
pub fn some<T, R: Test<T>>(test: &R, xs: &[T]) -> bool
    ensures { result ≡ list_any (R.holds test.now) xs.now }
{
    for x in xs {
        if test.holds_of(x) {
            return true;
        }
    }
    false
}

/// The first that passes a test.
pub fn first<'a, T, R: Test<T>>(test: &R, xs: &'a [T]) -> Option<&'a T>
    ensures { option_copied result ≡ find (R.holds test.now) xs.now }
{
    for x in xs {
        if test.holds_of(x) {
            return Some(x);
        }
    }
    None
}

/// The greatest of their numbers.
pub fn greatest<T, R: Measure<T>>(measure: &R, xs: &[T]) -> u64
    ensures { result ≡ few (slot.greatest (map (R.amount measure.now) xs.now)) }
{
    let mut most = 0;
    for x in xs {
        most = measure.measure(x).max(most);
    }
    most
}

/// Their numbers together.
pub fn total<T, R: Measure<T>>(measure: &R, xs: &[T]) -> u64
    ensures { result ≡ few (slot.total (map (R.amount measure.now) xs.now)) }
{
    let mut sum = 0;
    for x in xs {
        sum = 1000.min(sum + measure.measure(x));
    }
    sum
}
