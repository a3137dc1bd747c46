// The even table of any curve and any targets through the C ABI, on bare numbers: for the comparison by running and for the benchmark.
// `starts`, `ends` and `work` are worked in.
#![tactic(auto)]

ghost use Rattle.std.specs.Prelude.{◌≡◌};
ghost use Rattle.even.specs.Filled.{given, FillAsks};
ghost use Rattle.even_values.specs.Values.{numbers_of, ValuesFilled};

use even::Problem;

#[repr(C)]
#[derive(Clone, Copy)]
pub struct EvenNumbers {
    // 1 where the table was made, 0 where there is none. C has no Option: a mark stands beside the value.
    pub made: u32,
    // Its worst step, or 0.
    pub worst: u64,
}

impl From<Option<u64>> for EvenNumbers {
    ghost from_gives = { λ worst r. r ≡ numbers_of worst };

    fn from(worst: Option<u64>) -> EvenNumbers {
        match worst {
            Some(worst) => EvenNumbers { made: 1, worst },
            None => EvenNumbers { made: 0, worst: 0 },
        }
    }
}

#[unsafe(no_mangle)]
pub extern "C" fn even_fill(
    curve: &[u32],
    targets: &[u32],
    tolerance: u16,
    starts: &mut [u16],
    ends: &mut [u16],
    table: &mut [u16],
    work: &mut [u32],
) -> EvenNumbers
    requires { FillAsks (given curve.now targets.now tolerance) starts.old ends.old table.old work.old }
    ensures { ValuesFilled (given curve.now targets.now tolerance) table.old table.new work.old work.new result }
{
    let problem = Problem {
        curve,
        targets,
        tolerance,
    };
    EvenNumbers::from(problem.fill_table(starts, ends, table, work))
}
