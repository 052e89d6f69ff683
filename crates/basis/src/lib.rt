// What every crate says alike: numbers of two bytes, tests of all numbers below another, the names of document 01's refusals, and what a call answers.
#![tactic(auto)]

pub mod answer;
pub mod numbers;

ghost use Rattle.std.specs.Prelude.{◌≡◌, ◌+◌, ◌≤◌, ◌<◌, length};
ghost use Rattle.basis.specs.Bytes.{word_at};

/// Two bytes at an offset, lowest first.
pub fn word(bytes: &[u8], at: usize) -> u32
    requires { at + 2 ≤ length bytes.now }
    ensures { (result ≡ word_at bytes.now at) × (result < 65536) }
{
    u32::from(u16::from_le_bytes([bytes[at], bytes[at + 1]]))
}
