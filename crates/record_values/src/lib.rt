// The reader of a job record through the C ABI, on bare numbers: for the comparison by running.
#![tactic(auto)]

ghost use Rattle.std.specs.Prelude.{◌≡◌};
ghost use Rattle.record_values.specs.Values.{numbers_of, Shows, ValuesOf};

use record::{Job, JobRecord, Refusal};

// An answer in the numbers of document 01; 0 stands for no refusal, and for each value that a refused record does not have. C has no Result and no enum.
#[repr(C)]
#[derive(Default, Drop)]
pub struct Numbers {
    pub refusal: u32,
    pub depth: u16,
    pub meter: u16,
    pub class: u16,
    pub reflectance: u16,
    pub tolerance: u16,
    pub lux: u16,
}

// What C sees of a record. C has no slice by value: an array for the most items, and their number before it; levels and luminances apart.
#[repr(C)]
#[derive(Drop)]
pub struct RecordValues {
    pub answer: Numbers,
    pub given: usize,
    pub settings: [u16; 5],
    pub sources: usize,
    pub lamps: [u16; 8],
    pub readings: usize,
    pub ddls: [u16; 1024],
    pub luminances: [u32; 1024],
    pub patches: usize,
    pub check: [u32; 18],
}

impl From<Result<Job, Refusal>> for Numbers {
    ghost from_gives = { λ answer numbers. numbers ≡ numbers_of answer };

    fn from(answer: Result<Job, Refusal>) -> Numbers {
        match answer {
            Ok(job) => {
                let settings = job.settings;
                Numbers {
                    refusal: 0,
                    depth: settings.depth,
                    meter: settings.meter.into(),
                    class: settings.class.into(),
                    reflectance: settings.reflectance.0,
                    tolerance: settings.tolerance,
                    lux: job.lamps.0,
                }
            }
            Err(r) => Numbers {
                refusal: r.into(),
                ..Default::default()
            },
        }
    }
}

impl From<Result<JobRecord<'_>, Refusal>> for RecordValues {
    ghost from_gives = { λ found values. Shows found values };

    fn from(found: Result<JobRecord<'_>, Refusal>) -> RecordValues {
        match found {
            Ok(record) => {
                let mut settings = [0u16; 5];
                let mut lamps = [0u16; 8];
                let mut ddls = [0u16; 1024];
                let mut luminances = [0u32; 1024];
                let mut check = [0u32; 18];
                record.settings.fill(&mut settings);
                record.lamps.fill(&mut lamps);
                record.sweep.fill_sweep(&mut ddls, &mut luminances);
                record.check.fill(&mut check);
                RecordValues {
                    answer: record.job.into(),
                    given: record.settings.len(),
                    settings,
                    sources: record.lamps.len(),
                    lamps,
                    readings: record.sweep.len(),
                    ddls,
                    luminances,
                    patches: record.check.len(),
                    check,
                }
            }
            Err(r) => RecordValues {
                answer: Err(r).into(),
                given: 0,
                settings: [0; 5],
                sources: 0,
                lamps: [0; 8],
                readings: 0,
                ddls: [0; 1024],
                luminances: [0; 1024],
                patches: 0,
                check: [0; 18],
            },
        }
    }
}

#[unsafe(no_mangle)]
pub extern "C" fn record_read(bytes: &[u8]) -> RecordValues
    ensures { ValuesOf bytes.now result }
{
    record::read_record(bytes).into()
}
