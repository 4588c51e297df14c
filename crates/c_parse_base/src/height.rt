//! How deep trees are, counted up to a limit that lies above every limit of nesting.
ghost use Rattle.std.specs.Prelude.{◌≡◌, ◌<◌, ◌≤◌, ◌+◌, suc, max, nat_le};
ghost use Rattle.c_parse_base.specs.Heights.{capped};

/// What is counted no further.
pub const CAP: u32 = 1_000_000;

/// What counts as no node.
#[tactic(auto, unfolding(crate::specs::Heights::capped))]
pub fn flat() -> u32
    ensures exact { result ≡ capped 0 }
{
    0
}

/// A node with nothing below it.
#[tactic(auto, unfolding(crate::specs::Heights::capped))]
pub fn leaf() -> u32
    ensures exact { result ≡ capped 1 }
{
    1
}

/// A node above what is so deep.
#[tactic(auto, unfolding(crate::specs::Heights::capped))]
pub fn above(height: u32) -> u32
    ensures exact { (n : _) → height ≡ capped n → result ≡ capped (suc n) }
{
    if height < CAP { height + 1 } else { CAP }
}

/// The deeper of two.
#[tactic(auto, unfolding(crate::specs::Heights::capped))]
pub fn deeper(left: u32, right: u32) -> u32
    ensures exact { (m n : _) → left ≡ capped m → right ≡ capped n → result ≡ capped (max m n) }
{
    if left < right { right } else { left }
}

/// It is at most so deep.
#[tactic(auto, unfolding(crate::specs::Heights::capped))]
pub fn within(height: u32, depth: u32) -> bool
    requires { depth < 1000000 }
    ensures exact { (n : _) → height ≡ capped n → result ≡ nat_le n depth }
{
    height <= depth
}
