// What every layer shares: a test of limits, and two bytes as a number.
#![tactic(auto)]

ghost use Rattle.std.specs.Prelude.{◌≡◌, ◌+◌, ◌*◌};
ghost use Rattle.base.specs.Choice.{within};

// Whether x is from low to high.
#[tactic(auto, unfolding(crate::specs::Choice::within))]
pub fn within(low: u16, high: u16, x: u16) -> bool
    ensures { result ≡ within low high x }
{
    low <= x && x <= high
}

// Two bytes as a number, the low one first: the library's call, under a clause that callers' laws can read as it stands.
pub fn pair(low: u8, high: u8) -> u16
    ensures { result ≡ low + 256 * high }
{
    u16::from_le_bytes([low, high])
}
