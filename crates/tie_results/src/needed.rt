//! Which items of a body its results need.

ghost use Rattle.std.specs.Prelude.{◌≡◌, ℕ, Bool, true, ◌<◌, ◌||◌, map, length, IfOk};
ghost use Rattle.tie_results.specs.Reads as spec;

use crate::memory::NoMemory;
use std::alloc::Global;

/// Marks some numbers.
fn mark(marks: &mut Vec<bool>, numbers: &[usize])
    requires { (k : ℕ) → spec.is_among numbers.now k ≡ true → k < length marks.old.items }
    ensures marked { (k : ℕ) → spec.is_marked marks.new.items k ≡ (spec.is_marked marks.old.items k || spec.is_among numbers.now k) }
    ensures many { length marks.new.items ≡ length marks.old.items }
{
    for number in numbers {
        marks[*number] = true;
    }
}

/// Marks the last numbers, and with each number those that it uses.
pub fn needed(alloc: Global, uses: &[Vec<usize>], last: &[usize]) -> Result<Vec<bool>, NoMemory>
    requires earlier { spec.UseEarlier (map (λ numbers. numbers.items) uses.now) }
    requires last { (k : ℕ) → spec.is_among last.now k ≡ true → k < length uses.now }
    ensures { IfOk result (λ marks. spec.AreNeeded (map (λ numbers. numbers.items) uses.now) last.now marks.items) }
{
    let mut marks = vec![in alloc; false; uses.len()]?;
    mark(&mut marks, last);
    let mut k = uses.len();
    while k > 0 {
        k -= 1;
        if marks[k] {
            mark(&mut marks, &uses[k]);
        }
    }
    Ok(marks)
}
