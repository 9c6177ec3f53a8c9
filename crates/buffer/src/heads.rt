// The heads of each line, told once: the hunt and the check of a record both go by them.
ghost use Rattle.std.specs.Prelude.{◌≡◌};
ghost use Rattle.wire.specs.Serial.{serial_head};
ghost use Rattle.wire.specs.Heads.{announced_by, announced_of};

use wire::Line;

// The board's heads: 9n and An.
fn serial_head(b: u8) -> Option<usize>
    ensures { result ≡ announced_by (serial_head b) }
{
    if b < 0x90 {
        return None;
    }
    if 0xAF < b {
        return None;
    }
    Some((b % 16) as usize)
}

pub fn announced_by(line: Line, b: u8) -> Option<usize>
    ensures { result ≡ announced_of line b }
{
    match line {
        Line::Board => serial_head(b),
    }
}
