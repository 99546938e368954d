// Numbers that stand in several bytes, the first byte lowest.
#![tactic(auto)]

ghost use Rattle.std.specs.Prelude.{◌≡◌, ◌+◌, ◌*◌, ◌<◌};

// The number in two bytes.
pub fn two(a: u8, b: u8) -> u64
    ensures { (result ≡ a + 256 * b) × (result < 65536) }
{
    u64::from(u16::from_le_bytes([a, b]))
}

// The number in four bytes.
pub fn four(a: u8, b: u8, c: u8, d: u8) -> u64
    ensures { (result ≡ a + 256 * b + 65536 * c + 16777216 * d) × (result < 4294967296) }
{
    u64::from(u32::from_le_bytes([a, b, c, d]))
}
