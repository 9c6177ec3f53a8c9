// Up to 24 bytes written without a loop, by words that may overlap: a loop becomes a call of memcpy or memset.
#![tactic(auto)]

ghost use Rattle.std.specs.Prelude.{◌≡◌, ◌+◌, ◌-◌, ◌≤◌, ◌<◌, length, replicate};
ghost use Rattle.wire.specs.Numbers.{put};

use buffer::write::put_in;
use low::{bytes_from, put_eight};

// N to 3N bytes by their first, their last and, if these leave a gap, their second N.
fn put_words<const N: usize>(buffer: &mut [u8], at: usize, part: &[u8]) -> usize
    requires part_in_bounds { at + length part.now ≤ length buffer.old }
    requires in_bounds { (N ≤ length part.now) × (length part.now ≤ N + N + N) }
    ensures { (result ≡ at + length part.now) × (buffer.new ≡ put buffer.old at part.now) }
{
    let n = part.len();
    let first: [u8; N] = bytes_from(part, 0);
    let last: [u8; N] = bytes_from(part, n - N);
    if N < n - N {
        let second: [u8; N] = bytes_from(part, N);
        put_in(buffer, at + N, &second);
    }
    put_in(buffer, at, &first);
    put_in(buffer, at + n - N, &last)
}

// One to three bytes: the first, the middle and the last of them.
fn put_bytes(buffer: &mut [u8], at: usize, part: &[u8]) -> usize
    requires part_in_bounds { at + length part.now ≤ length buffer.old }
    requires part_nonzero { (0 < length part.now) × (length part.now < 4) }
    ensures { (result ≡ at + length part.now) × (buffer.new ≡ put buffer.old at part.now) }
{
    let n = part.len();
    let a = part[0];
    let b = part[n / 2];
    let c = part[n - 1];
    buffer[at] = a;
    buffer[at + n / 2] = b;
    buffer[at + n - 1] = c;
    at + n
}

// Writes up to 24 bytes of a part from a place on, and returns the place behind them.
pub fn put_few(buffer: &mut [u8], at: usize, part: &[u8]) -> usize
    requires part_in_bounds { at + length part.now ≤ length buffer.old }
    requires part_len_bound { length part.now ≤ 24 }
    ensures { (result ≡ at + length part.now) × (buffer.new ≡ put buffer.old at part.now) }
{
    let n = part.len();
    if 8 <= n {
        return put_words::<8>(buffer, at, part);
    }
    if 4 <= n {
        return put_words::<4>(buffer, at, part);
    }
    if n == 0 {
        return at;
    }
    put_bytes(buffer, at, part)
}

// Writes eight to 24 zeros from a place up to another.
pub fn clear_few(buffer: &mut [u8], at: usize, end: usize)
    requires at_bound { (at + 8 ≤ end) × (end ≤ at + 24) }
    requires end_in_bounds { end ≤ length buffer.old }
    ensures { buffer.new ≡ put buffer.old at (replicate (end - at) 0) }
{
    put_eight(buffer, at, 0);
    if 16 < end - at {
        put_eight(buffer, at + 8, 0);
    }
    put_eight(buffer, end - 8, 0);
}
