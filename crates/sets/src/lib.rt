// Terminal sets as 64-bit numbers: bit t for terminal t. What is in both sets is `a & b`, what is in either `a | b`.
#![tactic(auto)]

ghost use Rattle.std.specs.Prelude.{◌≡◌, ◌-◌};
ghost use Rattle.sets.specs.Sets.{member, less, subset, count, several, lowest};

// Whether terminal t is in the set; a number of 64 or more is in none.
pub fn member(set: u64, t: usize) -> bool
    ensures { result ≡ member set t }
{
    if t < 64 {
        return (set >> t) % 2 == 1;
    }
    false
}

// What is in the first set and not in the second.
pub fn less(a: u64, b: u64) -> u64
    ensures { result ≡ less a b }
{
    a - (a & b)
}

// Whether everything in the first set is in the second.
pub fn subset(a: u64, b: u64) -> bool
    ensures { result ≡ subset a b }
{
    a & b == a
}

// How many terminals are in the set.
pub fn count(set: u64) -> u32
    ensures { result ≡ count set }
{
    u64::count_ones(set)
}

// Whether there is more than one.
pub fn several(set: u64) -> bool
    ensures { result ≡ several set }
{
    2 <= u64::count_ones(set)
}

// The least terminal of the set, and 64 of an empty one.
pub fn lowest(set: u64) -> u32
    ensures { result ≡ lowest set }
{
    u64::trailing_zeros(set)
}
