// Zeros among bytes: whether all are zero, and where the first stands.
ghost use Rattle.std.specs.Prelude.{◌≡◌, ◌≤◌, length};
ghost use Rattle.wire.specs.Zeros.{all_zero, before_zero};

// Whether the bytes are all zero, by the bits of all of them: `all` looks at them one by one, which takes a quarter more where a record is bad.
pub fn zeros(part: &[u8]) -> bool
    ensures { result ≡ all_zero part.now }
{
    part.iter().fold(0, |bits, b| bits | *b) == 0
}

// The place of the first zero, or the end.
pub fn first_zero(part: &[u8]) -> usize
    ensures { (result ≡ length (before_zero part.now)) × (result ≤ length part.now) }
{
    part.iter().position(|b| *b == 0).unwrap_or(part.len())
}
