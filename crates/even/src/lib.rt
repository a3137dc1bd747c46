// The even table of any curve and any targets.
#![tactic(auto)]

ghost use Rattle.std.specs.Prelude.{◌≡◌, true, false, ◌++◌, length, drop, ◌+◌, ◌*◌, ◌^◌, ◌<◌, ◌≤◌};
ghost use Rattle.even.specs.Even.{step_deviation};
ghost use Rattle.even.specs.Table.{has_no_table};
ghost use Rattle.even.specs.Runs.{darkest, brightest, reaching, NotAbove, RunFound, AreRuns};
ghost use Rattle.even.specs.Filled.{given, Workable};
ghost use Rattle.even.specs.Steps.{span_of};
ghost use Rattle.even.specs.Filling.{LastLit};

use reach::{Run, Span};
use units::Luminance;

// What a table is made for.
#[derive(Clone, Copy)]
pub struct Problem<'a> {
    // The luminance of each drive level.
    pub curve: &'a [u32],
    // The luminance that is wanted of each P-value.
    pub targets: &'a [u32],
    // The allowed error, in thousandths of a target.
    pub tolerance: u16,
    pub ghost workable: { Workable (given curve.now targets.now tolerance) },
}

// A problem with an allowed table, and the run of each P-value.
#[derive(Clone, Copy)]
struct Found<'a> {
    problem: Problem<'a>,
    // Two slices, as C lends them.
    starts: &'a [u16],
    ends: &'a [u16],
    ghost are_runs: { AreRuns (given problem.curve.now problem.targets.now problem.tolerance) starts.now ends.now },
    ghost some_table: { has_no_table (given problem.curve.now problem.targets.now problem.tolerance) ≡ false },
}

// The rows of lit levels of such a problem, in lent words. The last row is lit, and those before it are filled from it.
#[derive(Drop)]
struct LitRows<'a> {
    found: Found<'a>,
    words: &'a mut [u32],
    ghost last_lit: { LastLit (given found.problem.curve.now found.problem.targets.now found.problem.tolerance) words.now },
}

// The luminances that are allowed around a target. A std Range too ends past the last, but would not call its ends dark and bright.
#[derive(Clone, Copy)]
struct Band {
    // The lowest of them.
    dark: Luminance,
    // The first above them.
    bright: Luminance,
}

// The first level that is not darker than l, from one that is not above it.
fn rise_to(curve: &[u32], l: Luminance, from: usize) -> usize
    requires { from ≤ reaching curve.now l.0 }
    ensures { result ≡ reaching curve.now l.0 }
{
    // By place: a `find` tests for the end at the head of its loop, and takes 7 instructions a level for these 5.
    for d in from..curve.len() {
        if l.0 <= curve[d] {
            return d;
        }
    }
    curve.len()
}

// The step deviation of a step f where g is wanted.
fn step_deviation(f: Luminance, g: Luminance) -> u64
    requires { 0 < g.0 }
    ensures { result ≡ step_deviation f.0 g.0 }
{
    let wanted = u64::from(g.0);
    (1000 * u64::from(f.0).abs_diff(wanted)).div_ceil(wanted)
}

impl Problem<'_> {
    ghost use Rattle.even.specs.Problems.{given_of};
    ghost use Rattle.even.specs.Even.{target_step};
    ghost use Rattle.even.specs.Filled.{Room, EvenFilled};
    ghost use Rattle.even.specs.Filling.{RunsAsk, RunsFound};

    // The step that is wanted from p to the next P-value.
    fn wanted_step(&self, p: usize) -> Luminance
        requires { p + 1 < length self.now.targets.now }
        ensures { result.0 ≡ target_step (given_of self.now) p }
    {
        Luminance(self.targets[p + 1] - self.targets[p])
    }

    fn band(&self, p: usize) -> Band
        requires { p < length self.now.targets.now }
        ensures dark { result.dark.0 ≡ darkest (given_of self.now) p }
        ensures bright { result.bright.0 ≡ brightest (given_of self.now) p + 1 }
    {
        let t = self.targets[p];
        let product = u64::from(self.tolerance) * u64::from(t);
        let error = (product / 1000) as u32;
        Band {
            dark: Luminance(t - error),
            bright: Luminance(t + error + 1),
        }
    }

    // The steps of luminance from p to the next P-value whose step deviation is at most k.
    fn span(&self, k: u64, p: usize) -> Span
        requires { (k ≤ 1000 * 2 ^ 26) × (p + 1 < length self.now.targets.now) }
        ensures { result ≡ span_of (given_of self.now) k p }
    {
        let step = u64::from(self.wanted_step(p).0);
        let apart = k * step / 1000;
        Span {
            least: step.saturating_sub(apart),
            most: step + apart,
        }
    }

    // The run of p, from that of a P-value that is not above it; none where no level is allowed.
    fn run_up(&self, p: usize, run: Run) -> Option<Run>
        requires value { p < length self.now.targets.now }
        requires not_above { NotAbove (given_of self.now) p run }
        ensures { RunFound (given_of self.now) p result }
    {
        let band = self.band(p);
        let from = rise_to(self.curve, band.dark, run.from);
        let to = rise_to(self.curve, band.bright, run.to);
        if to <= from {
            return None;
        }
        Some(Run { p, from, to })
    }

    // Finds the run of each P-value, and the worst step of the table of the lowest allowed levels, which bounds that of the even table;
    // or none, where some P-value has no allowed level.
    fn find_runs(&self, starts: &mut [u16], ends: &mut [u16]) -> Option<u64>
        requires { RunsAsk (given_of self.now) starts.old ends.old }
        ensures { RunsFound (given_of self.now) starts.new ends.new result }
    {
        let mut run = self.run_up(
            0,
            Run {
                p: 0,
                from: 0,
                to: 0,
            },
        )?;
        starts[0] = run.from as u16;
        ends[0] = run.to as u16;
        let mut worst: u64 = 0;
        // By place: each step is from one target to the next.
        for p in 0..self.targets.len() - 1 {
            let next = self.run_up(p + 1, run)?;
            let f = self.curve[next.from] - self.curve[run.from];
            worst = worst.max(step_deviation(Luminance(f), self.wanted_step(p)));
            starts[p + 1] = next.from as u16;
            ends[p + 1] = next.to as u16;
            run = next;
        }
        Some(worst)
    }

    // Fills the front of `table` with the even table and returns its worst step, in thousandths; or none, where no list of levels
    // keeps within the allowed error, and changes neither table nor work.
    // Works in the first 32 words for each target, whatever they hold. `starts` and `ends` are working space too, for the ends of the runs of allowed levels.
    // No heap: the caller lends these and the words.
    pub fn fill_table(
        &self,
        starts: &mut [u16],
        ends: &mut [u16],
        table: &mut [u16],
        work: &mut [u32],
    ) -> Option<u64>
        requires { Room (given_of self.now) starts.old ends.old table.old work.old }
        ensures { EvenFilled (given_of self.now) table.old table.new work.old work.new result }
    {
        let bound = self.find_runs(starts, ends)?;
        let found = Found {
            problem: *self,
            starts,
            ends,
        };
        reach::light_run(work, found.run_at(self.targets.len() - 1));
        let mut rows = LitRows { found, words: work };
        let worst = rows.least_worst(bound);
        rows.write_table(worst, table);
        Some(worst)
    }
}

impl Found<'_> {
    ghost use Rattle.even.specs.Problems.{given_of};
    ghost use Rattle.even.specs.Runs.{run_of};

    // The run of P-value p.
    fn run_at(&self, p: usize) -> Run
        requires { p < length self.now.problem.targets.now }
        ensures { result ≡ run_of (given_of self.now.problem) p }
    {
        Run {
            p,
            from: usize::from(self.starts[p]),
            to: usize::from(self.ends[p]),
        }
    }
}

impl LitRows<'_> {
    ghost use Rattle.even.specs.Problems.{given_of};
    ghost use Rattle.even.specs.Table.{lowest_levels};
    ghost use Rattle.even.specs.Even.{worst_step};
    ghost use Rattle.even.specs.Filling.{RowsFilled, Searched, WriteAsks, lowest_within};

    // Fills the rows before the last one, from the highest down, for a worst step of at most k; whether some allowed table has one.
    fn fill(&mut self, k: u64) -> bool
        requires { k ≤ 1000 * 2 ^ 26 }
        ensures same_words { self.new.words.ghost_name ≡ self.old.words.ghost_name }
        ensures same_problem { self.new.found ≡ self.old.found }
        ensures filled { RowsFilled (given_of self.old.found.problem) k self.old.words.now self.new.words.now result }
    {
        let found = self.found;
        let problem = found.problem;
        // By place: a row is filled from the next one.
        for p in (0..problem.targets.len() - 1).rev() {
            let span = problem.span(k, p);
            if !reach::fill_row(
                problem.curve,
                self.words,
                found.run_at(p),
                found.run_at(p + 1),
                span,
            ) {
                return false;
            }
        }
        true
    }

    // The least worst step of all allowed tables, by halving what is left between 0 and a bound; the rows are filled for it.
    fn least_worst(&mut self, bound: u64) -> u64
        requires { bound ≡ worst_step (given_of self.old.found.problem) (lowest_levels (given_of self.old.found.problem)) }
        ensures same_words { self.new.words.ghost_name ≡ self.old.words.ghost_name }
        ensures same_problem { self.new.found ≡ self.old.found }
        ensures searched { Searched (given_of self.old.found.problem) self.old.words.now self.new.words.now result }
    {
        // By hand: std's partition_point searches a slice, and this halves a range of numbers.
        let mut low: u64 = 0;
        let mut high = bound;
        // Whether the rows are filled for `high`. No value stands beside it.
        let mut ready = false;
        while low < high {
            let middle = low + (high - low) / 2;
            ready = self.fill(middle);
            if ready {
                high = middle;
            } else {
                low = middle + 1;
            }
        }
        if !ready {
            self.fill(low);
        }
        low
    }

    // Writes the table: at each P-value the lowest level that is lit and whose step from the level before fits.
    fn write_table(&self, k: u64, table: &mut [u16])
        requires { WriteAsks (given_of self.now.found.problem) k self.now.words.now table.old }
        ensures { table.new ≡ lowest_within (given_of self.now.found.problem) k ++ drop (length self.now.found.problem.targets.now) table.old }
    {
        let found = self.found;
        let problem = found.problem;
        let curve = problem.curve;
        let mut d = reach::first_lit(curve, self.words, found.run_at(0), 0).unwrap();
        table[0] = d as u16;
        // By place: each level is found from the one before it.
        for p in 0..problem.targets.len() - 1 {
            let least = u64::from(curve[d]) + problem.span(k, p).least;
            let run = found.run_at(p + 1);
            let left = Run {
                from: d.max(run.from),
                ..run
            };
            d = reach::first_lit(curve, self.words, left, least).unwrap();
            table[p + 1] = d as u16;
        }
    }
}
