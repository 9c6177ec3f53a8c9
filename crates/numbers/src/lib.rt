// Numbers from bytes, high byte first, and their bytes copied.
#![tactic(auto)]

ghost use Rattle.std.specs.Prelude.{◌≡◌, ◌+◌, ◌≤◌, length};
ghost use Rattle.wire.specs.Numbers.{word32, half_at, word_at, Narrow, bytes_at, put};

pub mod zeros;

// Tried: `from_be_bytes`, from which the compiler makes a fifth more in a reading that is refused (370 instructions for 309).
fn word_of(a: u8, b: u8, c: u8, d: u8) -> u32
    ensures { result ≡ word32 a b c d }
{
    (a as u32) * 16777216 + (b as u32) * 65536 + (c as u32) * 256 + (d as u32)
}

// Two widths, two functions: the library's conversions are methods of each type, and a trait over two would be longer.
pub fn half_at(s: &[u8], at: usize) -> u16
    requires { at + 2 ≤ length s.now }
    ensures { result ≡ half_at s.now at }
{
    u16::from_be_bytes([s[at], s[at + 1]])
}

pub fn word_at(s: &[u8], at: usize) -> u32
    requires { at + 4 ≤ length s.now }
    ensures { result ≡ word_at s.now at }
{
    word_of(s[at], s[at + 1], s[at + 2], s[at + 3])
}

// The bytes of a number, one, two or four, from a place to another, without a loop.
pub fn put_number(buffer: &mut [u8], at: usize, s: &[u8], from: usize, n: usize)
    requires narrow { Narrow n }
    requires n_in_bounds { (at + n ≤ length buffer.old) × (from + n ≤ length s.now) }
    ensures { buffer.new ≡ put buffer.old at (bytes_at n s.now from) }
{
    buffer[at] = s[from];
    if n < 2 {
        return;
    }
    buffer[at + 1] = s[from + 1];
    if n < 4 {
        return;
    }
    buffer[at + 2] = s[from + 2];
    buffer[at + 3] = s[from + 3];
}
