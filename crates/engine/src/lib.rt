// The operations on a job record: the tests in their order, then the layers below.
#![tactic(auto)]

ghost use Rattle.std.specs.Prelude.{◌≡◌, ◌+◌, ◌≤◌, ℕ, List, MatchResult};
ghost use Rattle.engine.specs.Sound.{range_tests, InRange, soundness};
ghost use Rattle.engine.specs.Drawing.{light_of, PassedTests, SomeRecord, Drawn};
ghost use Rattle.engine.specs.Nearest.{NearestPromise};
ghost use Rattle.engine.specs.Even.{too_little, EvenPromise};
ghost use Rattle.engine.specs.Check.{CheckPromise};

use contrast::Verdict;
use curve::RoomMark;
use even::Problem;
use record::{Job, JobRecord, Refusal};
use target::IndexRange;
use units::{Luminance, PValue};

// The light of a job's room, A0, and what of it is added to its readings, A. (Public because definitions are stated with it.)
#[derive(Clone, Copy)]
pub struct Light {
    pub room: Luminance,
    pub added: Luminance,
}

// The figures of a nearest table: Jlo, Jhi and N, the room mark, and the largest error over its entries.
#[derive(Clone, Copy)]
pub struct NearestFigures {
    pub indices: IndexRange,
    pub mark: RoomMark,
    pub error: Luminance,
}

// The figures of an even table: its worst step, in thousandths of the step that is wanted, rounded up.
#[derive(Clone, Copy)]
pub struct EvenFigures {
    pub worst: u64,
}

// A record that passed tests 2 to 10: its job, and the light of the job's room.
#[derive(Drop)]
struct TestedJob<'a> {
    found: JobRecord<'a>,
    job: Job,
    light: Light,
}

fn light_of(job: Job) -> Light
    ensures { result ≡ light_of job }
{
    let room = curve::room_luminance(job.lamps, job.settings.reflectance);
    let added = curve::added_luminance(job.settings.meter, room);
    Light { room, added }
}

// Tests 8, 9 and 10, by the first and the last reading and the light added to them. Most displays pass by comparisons, without a search in Table B-1; so
// no indices are handed on, and a check needs none.
fn test_range(added: Luminance, first: Luminance, last: Luminance) -> Result<(), Refusal>
    requires { first.0 ≤ last.0 }
    ensures { MatchResult result (λ _. InRange (added.0 + first.0) (added.0 + last.0)) (λ r. range_tests (added.0 + first.0) (added.0 + last.0) ≡ Err r) }
{
    if target::is_clearly_wide(added, first, last) {
        return Ok(());
    }
    if gsdf::is_below_table(added, first) {
        return Err(Refusal::BlackBelowTable);
    }
    if gsdf::is_above_table(added, last) {
        return Err(Refusal::WhiteAboveTable);
    }
    let black = Luminance(added.0 + first.0);
    let white = Luminance(added.0 + last.0);
    if target::index_range(black, white).is_too_narrow() {
        return Err(Refusal::RangeTooNarrow);
    }
    Ok(())
}

// Tests 2 to 10.
fn test_record(bytes: &[u8]) -> Result<TestedJob<'_>, Refusal>
    ensures { MatchResult result (PassedTests bytes.now) (λ r. soundness bytes.now ≡ Err r) }
{
    let found = record::read_record(bytes)?;
    let job = found.job?;
    let light = light_of(job);
    let first = found.sweep.get(0);
    let last = found.sweep.get(found.sweep.len() - 1);
    test_range(light.added, first.luminance, last.luminance)?;
    Ok(TestedJob { found, job, light })
}

impl TestedJob<'_> {
    // The curve, at the front of an array, its indices, and the targets, in another array. The arrays are the caller's, since a struct of both would be
    // copied, and there is no heap.
    fn draw<'c>(
        &self,
        levels: &'c mut [u32; 1024],
        targets: &mut [u32; 256],
    ) -> (&'c [u32], IndexRange)
        requires { SomeRecord self.now }
        ensures { (bytes : List ℕ) → PassedTests bytes self.now → Drawn bytes self.now result.0.now result.1 targets.new }
    {
        let top = record::max_ddl(self.job.settings.depth);
        curve::fill_curve(&self.found.sweep, top, self.light.added, levels);
        let last = usize::from(top.0);
        let indices = target::index_range(Luminance(levels[0]), Luminance(levels[last]));
        indices.fill_targets(PValue(255), targets);
        (&levels[..=last], indices)
    }
}

// The nearest table of a record, into the front of a lent slice.
pub fn nearest_table(bytes: &[u8], table: &mut [u16]) -> Result<NearestFigures, Refusal>
    ensures { NearestPromise bytes.now table.old table.new result }
{
    if table.len() < 256 {
        return Err(Refusal::LentTooShort);
    }
    let tested = test_record(bytes)?;
    let mut levels = [0u32; 1024];
    let mut targets = [0u32; 256];
    let (curve, indices) = tested.draw(&mut levels, &mut targets);
    let error = nearest::fill_table(curve, &targets, table);
    let first = tested.found.sweep.get(0);
    let mark = curve::room_mark(tested.light.room, first.luminance);
    Ok(NearestFigures {
        indices,
        mark,
        error,
    })
}

// Test 1 of the even table: fewer than 256 entries or fewer than 8,192 words are lent.
fn is_too_little(entries: usize, words: usize) -> bool
    ensures { result ≡ too_little entries words }
{
    (entries < 256) | (words < 8192)
}

// The even table of a record, into the front of a lent slice; the first 8,192 of the words lent are worked in.
pub fn even_table(bytes: &[u8], table: &mut [u16], work: &mut [u32]) -> Result<EvenFigures, Refusal>
    ensures { EvenPromise bytes.now table.old table.new work.old work.new result }
{
    if is_too_little(table.len(), work.len()) {
        return Err(Refusal::LentTooShort);
    }
    let tested = test_record(bytes)?;
    let mut levels = [0u32; 1024];
    let mut targets = [0u32; 256];
    let (curve, _) = tested.draw(&mut levels, &mut targets);
    let problem = Problem {
        curve,
        targets: &targets,
        tolerance: tested.job.settings.tolerance,
    };
    let mut starts = [0u16; 256];
    let mut ends = [0u16; 256];
    let worst = problem
        .fill_table(&mut starts, &mut ends, table, work)
        .ok_or(Refusal::NoTable)?;
    Ok(EvenFigures { worst })
}

// The contrast check of a record, if it has one; its deviations go into the front of a lent slice.
pub fn contrast_check(bytes: &[u8], deviations: &mut [i32]) -> Result<Option<Verdict>, Refusal>
    ensures { CheckPromise bytes.now deviations.old deviations.new result }
{
    if deviations.len() < 17 {
        return Err(Refusal::LentTooShort);
    }
    let tested = test_record(bytes)?;
    let patches = tested.found.check.len();
    if patches == 0 {
        return Ok(None);
    }
    // In an array, since `contrast::check` takes readings from anywhere.
    let mut readings = [0u32; 18];
    tested.found.check.fill(&mut readings);
    let limit = tested.job.settings.class.into();
    let verdict = contrast::check(&readings, tested.light.added, limit, deviations)?;
    Ok(Some(verdict))
}
