// Peaks: the greatest and the smallest value of a channel. Values are compared by their patterns as whole numbers, and nothing is computed in floats.
#![tactic(auto)]

ghost use Rattle.std.specs.Prelude.{◌≡◌, ◌+◌, ◌%◌, max, true, not, T, is_nan, nat_le};
ghost use Rattle.peak.specs.Pairs.{finite, less};
ghost use Rattle.peak.specs.Ways.{lesser};
ghost use Rattle.peak.specs.Floats.{float_of, bits_of, renewed, is_raised, is_lowered};

// The greatest and the smallest value of a channel.
#[derive(Clone, Copy)]
pub struct Peak {
    pub greatest: f32,
    pub smallest: f32,
}

// The pattern of the infinity: without their sign those of finite numbers are below it.
pub const INFINITY: u32 = 0x7F800000;

// The greater of a number and a pattern without its sign. Over many patterns it stays below INFINITY as long as all are finite.
pub fn reach(most: u32, x: u32) -> u32
    ensures { result ≡ max most (x % 0x80000000) }
{
    most.max(x % 0x80000000)
}

// The float of a finite pattern.
pub fn finite_float(x: u32) -> f32
    requires { finite x ≡ true }
    ensures { result ≡ float_of x }
{
    f32::from_bits(x)
}

// The pattern of a float that is a number.
fn bits_of(f: f32) -> u32
    requires { T (not (is_nan f)) }
    ensures { result ≡ bits_of f }
{
    f.to_bits()
}

// Whether a pattern has its sign bit, so that it lies no nearer to 0 than to 2 ^ 32: a test of the bit itself would make the compiler read the pattern byte by byte.
fn negative(x: u32) -> bool
    ensures { result ≡ nat_le 0x80000000 x }
{
    let w = x as u64;
    0x100000000 - w <= w
}

// The pattern with its sign bit turned round: those of numbers below zero come first.
fn turned(x: u32) -> u32
    ensures { result ≡ (x + 0x80000000) % 0x100000000 }
{
    x.wrapping_add(0x80000000)
}

// Whether x is strictly greater than y: of patterns below zero the smaller one is, and neither of the two zeros. No PartialOrd: no float is compared.
#[tactic(auto, using(crate::proofs::Patterns::ways))]
pub fn above(x: u32, y: u32) -> bool
    ensures order { result ≡ less y x }
    ensures ways { result ≡ lesser y x }
{
    if negative(x) {
        return x < y;
    }
    if turned(y) < turned(x) {
        if x == 0 {
            return 0x80000000 < y;
        }
        return true;
    }
    false
}

// A pair with a reading in the place of those of its values that it replaces. Two flags and no Option: both replace by the same value, and stores go by them too.
pub fn updated(p: Peak, x: u32, raised: bool, lowered: bool) -> Peak
    requires { finite x ≡ true }
    ensures { result ≡ renewed p x raised lowered }
{
    let value = finite_float(x);
    let greatest = if raised { value } else { p.greatest };
    let smallest = if lowered { value } else { p.smallest };
    Peak { greatest, smallest }
}

// Whether a reading becomes the greatest value: the first one does, later a strictly greater one. `seen` is one bit of the record for all its pairs, so none of them is an Option.
pub fn raises(seen: bool, p: Peak, x: u32) -> bool
    requires { T (not (is_nan p.greatest)) }
    ensures { result ≡ is_raised seen p x }
{
    !seen || above(x, bits_of(p.greatest))
}

// Whether a reading becomes the smallest value.
pub fn lowers(seen: bool, p: Peak, x: u32) -> bool
    requires { T (not (is_nan p.smallest)) }
    ensures { result ≡ is_lowered seen p x }
{
    !seen || above(bits_of(p.smallest), x)
}
