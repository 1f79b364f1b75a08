//! Numbers in rising order.
ghost use Rattle.std.specs.Prelude.{◌≡◌, ℕ, true};
ghost use Rattle.std.specs.List.{Contains};
ghost use Rattle.std.specs.List.Sorted.{IsStrictlyIncreasing};

/// Sorts numbers, and leaves each once.
fn sort(numbers: &mut Vec<u64>)
    ensures rising { IsStrictlyIncreasing numbers.new.items }
    ensures all { (n : ℕ) → Contains numbers.old.items n → Contains numbers.new.items n }
    ensures only { (n : ℕ) → Contains numbers.new.items n → Contains numbers.old.items n }
{
    numbers.sort_unstable();
    numbers.dedup();
}

/// Whether each number is below the next.
fn are_rising(numbers: &[u64]) -> bool
    ensures { result ≡ true → IsStrictlyIncreasing numbers.now }
{
    for at in 1..numbers.len() {
        if numbers[at] <= numbers[at - 1] {
            return false;
        }
    }
    true
}

/// Puts numbers in rising order, each once. Where they are so already, it only looks at them.
pub fn put_in_order(numbers: &mut Vec<u64>)
    ensures rising { IsStrictlyIncreasing numbers.new.items }
    ensures all { (n : ℕ) → Contains numbers.old.items n → Contains numbers.new.items n }
    ensures only { (n : ℕ) → Contains numbers.new.items n → Contains numbers.old.items n }
{
    if !are_rising(numbers.as_slice()) {
        sort(numbers);
    }
}
