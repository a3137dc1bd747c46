// The contrast check: how far the contrast of neighbouring patches deviates from the display function, and the verdict on it.
#![tactic(auto)]

ghost use Rattle.std.specs.Prelude.{◌≡◌, ◌<◌, ◌≤◌, length};
ghost use Rattle.gsdf.specs.DisplayFunction.{InTable};
ghost use Rattle.contrast.specs.Deviation.{expected_contrast, excess, deviation_of, keeps_limit};
ghost use Rattle.contrast.specs.Check.{verdict_number, shown, some_outside, limit_of, limit_parts, Checkable, Checked, Covers, InPlace};

use neighbours::Neighbours;
use record::{Class, Refusal};
use target::IndexRange;
use units::{Luminance, PValue};

mod neighbours;

#[derive(Clone, Copy)]
pub enum Verdict {
    Pass = 1,
    Fail = 2,
}

impl From<Verdict> for u32 {
    ghost from_gives = { λ verdict n. n ≡ verdict_number verdict };

    fn from(verdict: Verdict) -> u32 {
        verdict as u32
    }
}

// How far the contrast of each pair may be off.
#[derive(Clone, Copy)]
pub enum Limit {
    TenPercent,
    TwentyPercent,
}

impl From<Class> for Limit {
    ghost from_gives = { λ class limit. limit ≡ limit_of class };

    fn from(class: Class) -> Limit {
        match class {
            Class::Primary => Limit::TenPercent,
            Class::Secondary => Limit::TwentyPercent,
        }
    }
}

impl Limit {
    // The n of one part in n. A discriminant with a cast would say no more, and not what the number is.
    fn parts(self) -> u64
        ensures { result ≡ limit_parts self }
    {
        match self {
            Limit::TenPercent => 10,
            Limit::TwentyPercent => 5,
        }
    }
}

// The readings of the patches, and the light that is added to each.
#[derive(Clone, Copy)]
struct Patches<'a> {
    readings: &'a [u32],
    added: Luminance,
    ghost patches: { 18 ≤ length readings.now },
}

impl Patches<'_> {
    // Test 12; a sum may need more than 32 bits.
    fn some_outside(&self) -> bool
        ensures { result ≡ some_outside (shown self.now.added.0 self.now.readings.now) }
    {
        self.readings[..18].iter().any(|reading| {
            let reading = Luminance(*reading);
            gsdf::is_below_table(self.added, reading) | gsdf::is_above_table(self.added, reading)
        })
    }

    // The luminance shown at patch i.
    fn shown(&self, i: usize) -> Luminance
        requires { (i < 18) × InTable (shown self.now.added.0 self.now.readings.now i) }
        ensures { result.0 ≡ shown self.now.added.0 self.now.readings.now i }
    {
        Luminance(self.added.0 + self.readings[i])
    }

    // The 17 deviations, into the front of a slice; the answer is whether each pair keeps the limit.
    fn fill_deviations(&self, indices: IndexRange, limit: Limit, deviations: &mut [i32]) -> bool
        requires { (17 ≤ length deviations.old) × Covers (shown self.now.added.0 self.now.readings.now) indices }
        ensures { InPlace limit (shown self.now.added.0 self.now.readings.now) result deviations.old deviations.new }
    {
        // The answer, and no early end: each pair has a deviation, also after one that fails.
        let mut kept = true;
        let mut here = self.shown(0);
        let pairs = PValue(17);
        let mut low = indices.target_at(pairs, PValue(0));
        for (i, deviation) in deviations[..17].iter_mut().enumerate() {
            let next = self.shown(i + 1);
            let high = indices.target_at(pairs, PValue(i as u16 + 1));
            let pair = Neighbours {
                here,
                next,
                low,
                high,
            };
            *deviation = pair.deviation();
            kept &= pair.keeps_limit(limit);
            here = next;
            low = high;
        }
        kept
    }
}

// The check of 18 readings and the light that is added to each.
pub fn check(
    readings: &[u32],
    added: Luminance,
    limit: Limit,
    deviations: &mut [i32],
) -> Result<Verdict, Refusal>
    requires { Checkable readings.now deviations.old }
    ensures { Checked limit (shown added.0 readings.now) result deviations.old deviations.new }
{
    let patches = Patches { readings, added };
    if patches.some_outside() {
        return Err(Refusal::CheckOutsideTable);
    }
    let black = patches.shown(0);
    let white = patches.shown(17);
    let indices = target::index_range(black, white);
    if indices.is_too_narrow() {
        return Err(Refusal::CheckRangeTooNarrow);
    }
    if patches.fill_deviations(indices, limit, deviations) {
        Ok(Verdict::Pass)
    } else {
        Ok(Verdict::Fail)
    }
}
