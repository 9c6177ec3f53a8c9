// The heads of what boards say: 5n and 6n, and by the third byte 5F, 6F and 15.
ghost use Rattle.std.specs.Prelude.{◌≡◌, true, ◌||◌, ◌<◌, length, get_or, drop, eqb};
ghost use Rattle.wire.specs.Serial.{told};
ghost use Rattle.wire.specs.Reader.{is_long, reader_head, reader};

use wire::Size;
use wire::sizes::{DATA_MOST, SAMPLE_SIZE};

// The head of a long reply.
pub fn is_long(b: u8) -> bool
    ensures { result ≡ is_long b }
{
    (b == 0x5F) | (b == 0x6F)
}

// What the third byte says, behind 15 or the head of a long reply.
fn third_size(b: u8, t: u8) -> Size
    requires { (is_long b || eqb b 0x15) ≡ true }
    ensures { result ≡ told (reader_head b) true t }
{
    if b != 0x15 {
        let n = t as usize + DATA_MOST;
        return Size::Of(n);
    }
    if t == 0xB0 {
        return Size::Of(SAMPLE_SIZE);
    }
    Size::NoHead
}

// What the front says of a frame's size, at an AA.
pub fn size_at(s: &[u8], at: usize) -> Size
    requires { (at < length s.now) × (get_or s.now at 0 ≡ 0xAA) }
    ensures { result ≡ reader.size (drop at s.now) }
{
    if s.len() <= at + 1 {
        return Size::NeedMore;
    }
    let b = s[at + 1];
    if is_long(b) | (b == 0x15) {
        if s.len() <= at + 2 {
            return Size::NeedMore;
        }
        return third_size(b, s[at + 2]);
    }
    if (0x50 <= b) & (b <= 0x6F) {
        return Size::Of((b % 16) as usize);
    }
    Size::NoHead
}
