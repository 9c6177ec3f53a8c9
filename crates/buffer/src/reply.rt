// Replies in a lent buffer.
ghost use Rattle.std.specs.Prelude.{◌≡◌, true, ◌+◌, ◌≤◌, length};
ghost use Rattle.wire.specs.Sizes.{data_most};
ghost use Rattle.wire.specs.Serial.{is_head};
ghost use Rattle.wire.specs.Replies.{around};

// Writes the reply to a command of this head around n data bytes that stand at at + 3 already, and returns the place behind it.
pub fn close_reply(out: &mut [u8], at: usize, head: u8, status: u8, n: usize) -> usize
    requires head_value { is_head head ≡ true }
    requires n_le_data_most { (n ≤ data_most) × (at + 4 + n ≤ length out.old) }
    ensures { (result ≡ at + 4 + n) × (out.new ≡ around out.old at head status n) }
{
    out[at] = 0xAA;
    out[at + 1] = (head / 16 - 4) * 16 + (n as u8);
    out[at + 2] = status;
    out[at + 3 + n] = 0x85;
    at + 4 + n
}
