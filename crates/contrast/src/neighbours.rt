// A pair of neighbouring patches.
ghost use Rattle.std.specs.Prelude.{◌≡◌, ◌<◌};
ghost use Rattle.contrast.specs.Deviation.{floor_of, expected_contrast, excess, deviation_of, keeps_limit};
ghost use Rattle.contrast.specs.Check.{limit_parts, Pair};

use crate::Limit;
use units::Luminance;

// n / d rounded toward minus infinity. It is one division for both signs, so that nothing waits for a sign, which no processor can guess from pair
// to pair: with `div_euclid`, which divides by each sign apart, a check takes 24 % longer.
fn floor_div(n: i64, d: u64) -> i64
    requires { (0 < d) × (d < 9223372036854775808) }
    ensures { result ≡ floor_of n d }
{
    let turned = if n < 0 { -1 - n } else { n };
    let quotient = turned / d as i64;
    if n < 0 { -1 - quotient } else { quotient }
}

// The luminances shown at a patch and at the next one, and those expected there.
#[derive(Clone, Copy)]
pub(crate) struct Neighbours {
    pub here: Luminance,
    pub next: Luminance,
    pub low: Luminance,
    pub high: Luminance,
    pub ghost bounded: { Pair here.0 next.0 low.0 high.0 },
}

impl Neighbours {
    // The contrast expected, Y.
    fn expected_contrast(self) -> u64
        ensures { result ≡ expected_contrast self.here.0 self.next.0 self.low.0 self.high.0 }
    {
        let rise = u64::from(self.high.0 - self.low.0);
        rise * (u64::from(self.next.0) + u64::from(self.here.0))
    }

    // What the contrast shown is above it, X − Y.
    fn excess(self) -> i64
        ensures { result ≡ excess self.here.0 self.next.0 self.low.0 self.high.0 }
    {
        let rise = i64::from(self.next.0) - i64::from(self.here.0);
        let sum = i64::from(self.high.0) + i64::from(self.low.0);
        rise * sum - self.expected_contrast() as i64
    }

    // How far it is off, in parts per thousand.
    pub(crate) fn deviation(self) -> i32
        ensures { result ≡ deviation_of self.here.0 self.next.0 self.low.0 self.high.0 }
    {
        floor_div(1000 * self.excess(), self.expected_contrast()) as i32
    }

    // Whether the exact excess is at most one part in so many of Y.
    pub(crate) fn keeps_limit(self, limit: Limit) -> bool
        ensures { result ≡ keeps_limit (limit_parts limit) self.here.0 self.next.0 self.low.0 self.high.0 }
    {
        self.excess().unsigned_abs() * limit.parts() <= self.expected_contrast()
    }
}
