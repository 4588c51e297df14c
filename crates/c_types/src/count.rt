//! Counts that end at 2^64 - 1.
ghost use Rattle.std.specs.Prelude.{◌≡◌, ◌<◌, ◌^◌, suc, ◌+◌};

/// One more. At 2^62 and above it is no promise.
pub fn with_one(below: u64) -> u64
    ensures { below < 2 ^ 62 → result ≡ suc below }
{
    below.saturating_add(1)
}

/// Both together. At 2^62 and above it is no promise.
pub fn with(a: u64, b: u64) -> u64
    ensures { a + b < 2 ^ 62 → result ≡ a + b }
{
    a.saturating_add(b)
}
