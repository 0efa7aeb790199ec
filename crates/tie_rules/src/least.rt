//! The lesser of two places.

ghost use Rattle.std.specs.Prelude.{◌≡◌};
ghost use Rattle.tie_rules.specs.Least as spec;

/// The lesser of two places, where there are any.
pub fn earlier(a: Option<u32>, b: Option<u32>) -> Option<u32>
    ensures { result ≡ spec.earlier a b }
{
    match (a, b) {
        (None, b) => b,
        (Some(a), None) => Some(a),
        (Some(a), Some(b)) => Some(a.min(b)),
    }
}

/// The place, where a test says so.
pub fn when(broken: bool, place: u32) -> Option<u32>
    ensures { result ≡ spec.least (spec.when broken place) }
{
    if broken { Some(place) } else { None }
}
