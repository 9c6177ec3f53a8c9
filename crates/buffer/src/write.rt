// Writing into a lent buffer.
ghost use Rattle.std.specs.Prelude.{◌≡◌, ◌+◌, ◌-◌, ◌≤◌, length, replicate};
ghost use Rattle.wire.specs.Numbers.{put};

// Writes all of a part from a place on, and returns the place behind it.
pub fn put_in(buffer: &mut [u8], at: usize, part: &[u8]) -> usize
    requires { at + length part.now ≤ length buffer.old }
    ensures { (result ≡ at + length part.now) × (buffer.new ≡ put buffer.old at part.now) }
{
    let end = at + part.len();
    buffer[at..end].copy_from_slice(part);
    end
}

// Writes zeros from a place up to another.
pub fn clear(buffer: &mut [u8], at: usize, end: usize)
    requires { (at ≤ end) × (end ≤ length buffer.old) }
    ensures { buffer.new ≡ put buffer.old at (replicate (end - at) 0) }
{
    buffer[at..end].fill(0);
}
