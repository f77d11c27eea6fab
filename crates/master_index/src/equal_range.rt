//! Numbers that ascend.
ghost use Rattle.std.specs.Prelude.{◌≡◌, ◌<◌, ◌↔◌, length, slice_index, IsTrue};
ghost use Rattle.std.specs.List.Sorted.{IsNonDecreasing};
ghost use Rattle.master_index.specs.EqualRange.{AreBelow, IsEqualRange};

/// The places at which a number stands among numbers none of which is smaller than one before it: from the first such
/// place to the one after the last. Mostly it stands at one place or none, and then the end is not searched for.
pub(crate) fn equal_range(numbers: &[u64], number: u64) -> (usize, usize)
    requires { IsNonDecreasing numbers.now }
    ensures { IsEqualRange numbers.now number result.0 result.1 }
{
    let low = count_below(numbers, number);
    let end = low + usize::from(stands_at(numbers, low, number));
    if !stands_at(numbers, end, number) {
        return (low, end);
    }
    match number.checked_add(1) {
        Some(next) => (low, count_below(numbers, next)),
        None => (low, numbers.len()),
    }
}

/// Whether there is a place, counted from 0, and the number stands there.
fn stands_at(numbers: &[u64], place: usize, number: u64) -> bool
    ensures { IsTrue result ↔ ((place < length numbers.now) × (slice_index numbers.now place ≡ number)) }
{
    numbers.get(place) == Some(&number)
}

/// How many of such numbers are below a limit. `partition_point` of a slice tells the same by steps that branch, and a
/// processor can't foretell which way; here a step adds what its test came to.
fn count_below(numbers: &[u64], limit: u64) -> usize
    requires { IsNonDecreasing numbers.now }
    ensures { AreBelow numbers.now limit result }
{
    if numbers.is_empty() {
        return 0;
    }
    let mut level = numbers.len().ilog2();
    let width = 1 << level;
    let mut base = if numbers[width - 1] < limit {
        numbers.len() - width
    } else {
        0
    };
    'levels: while level > 0 {
        level -= 1;
        let half = 1 << level;
        base += usize::from(numbers[base + half - 1] < limit) << level;
    }
    base + usize::from(numbers[base] < limit)
}
