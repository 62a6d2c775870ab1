//! Counts of the desks at which something is pending.
ghost use Rattle.std.specs.Prelude.{◌≡◌, ◌+◌, ◌^◌, ◌<◌, true, if◌then◌else◌};

/// The count of desks that pass a test, after one desk changed. `passed_before` says whether this desk passed
/// before, and `passes_now` whether it passes now.
#[inline(always)]
pub(crate) fn recounted(count: usize, passed_before: bool, passes_now: bool) -> usize
    requires counted { passed_before ≡ true → 0 < count }
    requires few { count < 2 ^ 32 }
    ensures { result + (if passed_before then 1 else 0) ≡ count + (if passes_now then 1 else 0) }
{
    match (passed_before, passes_now) {
        (false, true) => count + 1,
        (true, false) => count - 1,
        (true, true) | (false, false) => count,
    }
}
