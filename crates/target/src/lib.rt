// The index range of a display, and the target luminance of each P-value.
#![tactic(auto)]

ghost use Rattle.std.specs.Prelude.{◌≡◌, ◌++◌, ◌+◌, ◌<◌, ◌≤◌, length, drop};
ghost use Rattle.gsdf.specs.DisplayFunction.{InTable};
ghost use Rattle.target.specs.Target.{range_of, too_narrow, clearly_wide, target_at, targets_of, Aims};

use units::{JndIndex, JndRange, Luminance, PValue};

// Jlo and Jhi, the indices of black and of white, and N, how far they are apart. That they are indices is asked by `Aims`, and is no part of the type:
// the definitions build such ranges, and each would need a proof.
#[derive(Clone, Copy)]
pub struct IndexRange {
    pub low: JndIndex,
    pub high: JndIndex,
    pub range: JndRange,
}

// The range of a display; N is 0 where white is the darker.
pub fn index_range(black: Luminance, white: Luminance) -> IndexRange
    requires { InTable black.0 × InTable white.0 }
    ensures { result ≡ range_of black.0 white.0 }
{
    let low = gsdf::index_of(black);
    let high = gsdf::index_of(white);
    let range = JndRange(high.0.saturating_sub(low.0));
    IndexRange { low, high, range }
}

// True only where tests 8, 9 and 10 pass, told by T(1), T(200), T(300) and T(1023) alone, as it can be of most displays; false says nothing.
// Takes the first and the last reading, and the light added to them; a sum may need more than 32 bits. Three arguments: a struct of them would be made to
// be taken apart in the call.
pub fn is_clearly_wide(added: Luminance, first: Luminance, last: Luminance) -> bool
    ensures { result ≡ clearly_wide (added.0 + first.0) (added.0 + last.0) }
{
    let light = u64::from(added.0);
    let black = light + u64::from(first.0);
    let white = light + u64::from(last.0);
    (500..82179).contains(&black) & (233990..=39934040).contains(&white)
}

impl IndexRange {
    // Test 10. The other fields may be any.
    pub fn is_too_narrow(self) -> bool
        ensures { result ≡ too_narrow self.range.0 }
    {
        self.range.0 < 10000
    }

    // The target of P-value p, of those from 0 to top.
    pub fn target_at(self, top: PValue, p: PValue) -> Luminance
        requires { Aims self.low.0 self.range.0 top.0 × (p.0 ≤ top.0) }
        ensures { result.0 ≡ target_at self.low.0 self.range.0 top.0 p.0 }
    {
        let product = self.range.0 * u32::from(p.0);
        let index = self.low.0 + product / u32::from(top.0);
        gsdf::luminance_of(JndIndex(index))
    }

    // The targets of all P-values from 0 to top, into the front of a slice. `high` may be any.
    pub fn fill_targets(self, top: PValue, targets: &mut [u32])
        requires { Aims self.low.0 self.range.0 top.0 × (top.0 < length targets.old) }
        ensures { targets.new ≡ targets_of self.low.0 self.range.0 top.0 ++ drop (top.0 + 1) targets.old }
    {
        for (p, target) in targets[..=usize::from(top.0)].iter_mut().enumerate() {
            *target = self.target_at(top, PValue(p as u16)).0;
        }
    }
}
