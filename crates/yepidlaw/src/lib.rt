// The engine's operations through the C ABI; include/yepidlaw.h declares them.
// C has no Result, Option or enum: each answer is a struct with the refusal's number, or 0, in front.
#![tactic(auto)]

ghost use Rattle.std.specs.Prelude.{◌≡◌};
ghost use Rattle.yepidlaw.specs.Nearest.{nearest_result_of, NearestCall};
ghost use Rattle.yepidlaw.specs.Even.{even_result_of, EvenCall};
ghost use Rattle.yepidlaw.specs.Check.{check_result_of, CheckCall};

use contrast::Verdict;
use engine::{EvenFigures, NearestFigures};
use record::Refusal;

#[repr(C)]
#[derive(Default, Drop)]
pub struct NearestResult {
    // 0 where the table was made; else the refusal's number, and 0 in every other field.
    pub refusal: u32,
    // Indices in hundredths of a JND.
    pub jlo: u32,
    pub jhi: u32,
    // jhi − jlo, N.
    pub range: u32,
    // The room mark: 0 low, 1 high; room_high in the header.
    pub mark: u32,
    // The largest error over the table, in units of 0.0001 cd/m².
    pub error: u32,
}

// C has no Result: an answer goes into a struct of its own, whose fields the header names, and so each has a From of its own.
impl From<Result<NearestFigures, Refusal>> for NearestResult {
    ghost from_gives = { λ answer result. result ≡ nearest_result_of answer };

    fn from(answer: Result<NearestFigures, Refusal>) -> NearestResult {
        match answer {
            Ok(figures) => NearestResult {
                refusal: 0,
                jlo: figures.indices.low.0,
                jhi: figures.indices.high.0,
                range: figures.indices.range.0,
                mark: figures.mark.into(),
                error: figures.error.0,
            },
            Err(refusal) => NearestResult {
                refusal: refusal.into(),
                ..Default::default()
            },
        }
    }
}

#[unsafe(no_mangle)]
pub extern "C" fn yepidlaw_nearest(bytes: &[u8], table: &mut [u16]) -> NearestResult
    ensures { NearestCall bytes.now table.old table.new result }
{
    let answer = engine::nearest_table(bytes, table);
    NearestResult::from(answer)
}

#[repr(C)]
#[derive(Drop)]
pub struct EvenResult {
    // 0 where the table was made; else the refusal's number, and the worst step is 0.
    pub refusal: u32,
    // The worst step of the table, in thousandths of the step that is wanted, rounded up; it may be 0. worst_step in the header.
    pub worst: u64,
}

impl From<Result<EvenFigures, Refusal>> for EvenResult {
    ghost from_gives = { λ answer result. result ≡ even_result_of answer };

    fn from(answer: Result<EvenFigures, Refusal>) -> EvenResult {
        match answer {
            Ok(figures) => EvenResult {
                refusal: 0,
                worst: figures.worst,
            },
            Err(refusal) => EvenResult {
                refusal: refusal.into(),
                worst: 0,
            },
        }
    }
}

#[unsafe(no_mangle)]
pub extern "C" fn yepidlaw_even(bytes: &[u8], table: &mut [u16], work: &mut [u32]) -> EvenResult
    ensures { EvenCall bytes.now table.old table.new work.old work.new result }
{
    let answer = engine::even_table(bytes, table, work);
    EvenResult::from(answer)
}

#[repr(C)]
#[derive(Drop)]
pub struct CheckResult {
    // 0 where the check was judged or there is none; else the refusal's number, and the verdict is 0.
    pub refusal: u32,
    // 0 not measured, 1 pass, 2 fail.
    pub verdict: u32,
}

impl From<Result<Option<Verdict>, Refusal>> for CheckResult {
    ghost from_gives = { λ answer result. result ≡ check_result_of answer };

    fn from(answer: Result<Option<Verdict>, Refusal>) -> CheckResult {
        match answer {
            Ok(verdict) => CheckResult {
                refusal: 0,
                verdict: verdict.map_or(0, u32::from),
            },
            Err(refusal) => CheckResult {
                refusal: refusal.into(),
                verdict: 0,
            },
        }
    }
}

#[unsafe(no_mangle)]
pub extern "C" fn yepidlaw_check(bytes: &[u8], deviations: &mut [i32]) -> CheckResult
    ensures { CheckCall bytes.now deviations.old deviations.new result }
{
    let answer = engine::contrast_check(bytes, deviations);
    CheckResult::from(answer)
}
