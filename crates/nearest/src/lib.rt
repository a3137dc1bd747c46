// The nearest table of any curve and targets: for each target the drive level whose luminance is nearest to it.
// Curve and targets never fall, so one walk along both finds every entry.
#![tactic(auto)]

ghost use Rattle.std.specs.Prelude.{◌≡◌, ℕ};
ghost use Rattle.nearest.specs.Nearest.{Walkable, Fillable, Filled};

use units::{Ddl, Luminance};

// Where a target lies on the curve.
#[derive(Clone, Copy)]
struct Place<'a> {
    curve: &'a [u32],
    // The lowest level as bright as the last one that is darker than the target; 0 where none is darker.
    below: usize,
    // The luminance of that level.
    dark: Luminance,
    // How many levels are darker than the target: so the first that is not, where there is one.
    above: usize,
    ghost walkable: { Walkable curve.now },
}

// The entry of one P-value, and its error.
#[derive(Clone, Copy)]
struct Entry {
    level: Ddl,
    error: Luminance,
}

impl<'a> Place<'a> {
    ghost use Rattle.nearest.specs.Places.{NotPast, PlaceOf, EntryOf};

    // Before the first level.
    fn start(curve: &'a [u32]) -> Place<'a>
        requires { Walkable curve.now }
        ensures { (result.curve.now ≡ curve.now) × ((t : ℕ) → NotPast curve.now t result) }
    {
        Place {
            curve,
            below: 0,
            dark: Luminance(curve[0]),
            above: 0,
        }
    }

    // The place of a target, from one that is not past it. By place: the walk begins there, and the place is the answer.
    fn advance(self, target: Luminance) -> Place<'a>
        requires { NotPast self.curve.now target.0 self }
        ensures { (result.curve.now ≡ self.entry.curve.now) × PlaceOf self.entry.curve.now target.0 result }
    {
        let curve = self.curve;
        let mut below = self.below;
        let mut dark = self.dark;
        for above in self.above..curve.len() {
            let here = Luminance(curve[above]);
            if target <= here {
                return Place {
                    curve,
                    below,
                    dark,
                    above,
                };
            }
            if dark < here {
                below = above;
            }
            dark = here;
        }
        Place {
            curve,
            below,
            dark,
            above: curve.len(),
        }
    }

    // The entry of the target whose place this is: the upper level only where it is nearer, so the lower on a tie.
    fn entry(self, target: Luminance) -> Entry
        requires { PlaceOf self.curve.now target.0 self }
        ensures { EntryOf self.entry.curve.now target.0 result }
    {
        let mut nearest = self.below;
        let mut error = self.dark.0.abs_diff(target.0);
        if let Some(bright) = self.curve.get(self.above) {
            let upper = bright - target.0;
            if upper < error {
                nearest = self.above;
                error = upper;
            }
        }
        Entry {
            level: Ddl(nearest as u16),
            error: Luminance(error),
        }
    }
}

// Fills the front of `table` with the nearest level of each target, and returns the largest |F(d) − t(P)|.
pub fn fill_table(curve: &[u32], targets: &[u32], table: &mut [u16]) -> Luminance
    requires { Fillable curve.now targets.now table.old }
    ensures { Filled curve.now targets.now table.old table.new result.0 }
{
    let mut place = Place::start(curve);
    let mut largest = Luminance(0);
    // By place: over `zip` the invariant can name the pairs so far, and not the table.
    for (p, &target) in targets.iter().enumerate() {
        let target = Luminance(target);
        place = place.advance(target);
        let entry = place.entry(target);
        table[p] = entry.level.0;
        largest = largest.max(entry.error);
    }
    largest
}
