// The job record: any bytes give its sections and, after tests 5 to 7, its job, or the first refusal from 2 to 7.
#![tactic(auto)]

ghost use Rattle.std.specs.Prelude.{◌≡◌, ◌&&◌, ◌-◌, ◌<◌, ◌≤◌, ◌++◌, length, drop, map, get_or, sum, T, eqb, is_none, IfSome, Ok, Err, MatchResult};
ghost use Rattle.laws.specs.Rises.{rises_by};
ghost use Rattle.record.specs.declared.Refusal.TheVariants.{OutOfRange};
ghost use Rattle.record.specs.Refusals.{refusal_number};
ghost use Rattle.record.specs.Sections.{permitted, width, count_of};
ghost use Rattle.record.specs.Tests.{within, meter_of, class_of, meter_number, class_number, settings_in_range, settings_of, lamps_in_range, is_never_falling, max_ddl, unless, judged};
ghost use Rattle.record.specs.Reader.{words, ddls_of, luminances_of, TakenAs, steps_up, LevelsRise, ReadFrom};

mod items;

pub use items::{Field, Items, JobRecord, Reading};
use units::{Ddl, Lux, Reflectance};

// What sends a job back, with its number.
#[derive(Clone, Copy, Debug, PartialEq, Eq)]
pub enum Refusal {
    LentTooShort = 1,
    RecordTooShort = 2,
    CountNotPermitted = 3,
    TrailingBytes = 4,
    OutOfRange = 5,
    DdlsDoNotSpan = 6,
    LuminanceFalls = 7,
    BlackBelowTable = 8,
    WhiteAboveTable = 9,
    RangeTooNarrow = 10,
    NoTable = 11,
    CheckOutsideTable = 12,
    CheckRangeTooNarrow = 13,
}

impl From<Refusal> for u32 {
    ghost from_gives = { λ r n. n ≡ refusal_number r };

    fn from(r: Refusal) -> u32 {
        r as u32
    }
}

#[derive(Clone, Copy, Debug, PartialEq, Eq)]
pub enum Meter {
    Contact = 0,
    Telescopic = 1,
}

// Written out for each, as TryFrom is: an impl by a macro of the repository's own is refused.
impl From<Meter> for u16 {
    ghost from_gives = { λ m n. n ≡ meter_number m };

    fn from(m: Meter) -> u16 {
        m as u16
    }
}

// Test 5 of a meter's number.
impl TryFrom<u16> for Meter {
    type Error = Refusal;

    ghost try_from_gives = { λ n r. r ≡ unless (within 0 1 n) OutOfRange (Ok (meter_of n)) };

    fn try_from(n: u16) -> Result<Meter, Refusal> {
        match n {
            0 => Ok(Meter::Contact),
            1 => Ok(Meter::Telescopic),
            _ => Err(Refusal::OutOfRange),
        }
    }
}

#[derive(Clone, Copy, Debug, PartialEq, Eq)]
pub enum Class {
    Primary = 1,
    Secondary = 2,
}

impl From<Class> for u16 {
    ghost from_gives = { λ c n. n ≡ class_number c };

    fn from(c: Class) -> u16 {
        c as u16
    }
}

// Test 5 of a class's number.
impl TryFrom<u16> for Class {
    type Error = Refusal;

    ghost try_from_gives = { λ n r. r ≡ unless (within 1 2 n) OutOfRange (Ok (class_of n)) };

    fn try_from(n: u16) -> Result<Class, Refusal> {
        match n {
            1 => Ok(Class::Primary),
            2 => Ok(Class::Secondary),
            _ => Err(Refusal::OutOfRange),
        }
    }
}

// The sections of a record, in their order.
#[derive(Clone, Copy)]
pub enum Section {
    Settings,
    Lamps,
    Sweep,
    Check,
}

#[derive(Clone, Copy)]
pub struct JobSettings {
    // Bits of a drive level, 8 to 10. A number, as the record has it, and as max_ddl takes it.
    pub depth: u16,
    pub meter: Meter,
    pub class: Class,
    pub reflectance: Reflectance,
    // The allowed error in parts per thousand, 0 to 1,000.
    pub tolerance: u16,
}

// The settings, and the sum of the lamps.
#[derive(Clone, Copy)]
pub struct Job {
    pub settings: JobSettings,
    pub lamps: Lux,
}

// ---- sections

fn permits(section: Section, n: usize) -> bool
    ensures { result ≡ permitted section n }
{
    match section {
        Section::Settings => n == 5,
        Section::Lamps => n <= 8,
        Section::Sweep => (2..=1024).contains(&n),
        Section::Check => (n == 0) | (n == 18),
    }
}

// The section at the front of some bytes, and what follows it. The type of its items does not tell the section: settings and lamps have one.
fn take_section<F: Field>(bytes: &[u8], section: Section) -> Result<(Items<'_, F>, &[u8]), Refusal>
    requires { F.WIDTH ≡ width section }
    ensures { MatchResult result (λ p. TakenAs F.value section bytes.now (map F.held p.0.raw.now) p.1.now) (λ r. count_of section bytes.now ≡ Err r) }
{
    if bytes.len() < 2 {
        return Err(Refusal::RecordTooShort);
    }
    let n = usize::from(u16::read(&[bytes[0], bytes[1]]));
    let size = n * F::WIDTH;
    let rest = &bytes[2..];
    if !permits(section, n) {
        return Err(Refusal::CountNotPermitted);
    }
    if rest.len() < size {
        return Err(Refusal::RecordTooShort);
    }
    let (items, rest) = rest.split_at(size);
    Ok((Items::new(F::split(items)), rest))
}

// ---- test 5, and the job of settings and lamps that pass it

fn job_settings(settings: &Items<'_, u16>) -> Result<JobSettings, Refusal>
    requires { length settings.now.raw.now ≡ 5 }
    ensures { result ≡ unless (settings_in_range (words settings.now)) OutOfRange (Ok (settings_of (words settings.now))) }
{
    let depth = settings.get(0);
    let meter = Meter::try_from(settings.get(1))?;
    let class = Class::try_from(settings.get(2))?;
    let reflectance = settings.get(3);
    let tolerance = settings.get(4);
    let in_range = (8..=10).contains(&depth) & (reflectance <= 1000) & (tolerance <= 1000);
    if !in_range {
        return Err(Refusal::OutOfRange);
    }
    Ok(JobSettings {
        depth,
        meter,
        class,
        reflectance: Reflectance(reflectance),
        tolerance,
    })
}

fn lamps_in_range(lamps: &Items<'_, u16>) -> bool
    ensures { result ≡ lamps_in_range (words lamps.now) }
{
    let mut lamps = *lamps;
    lamps.all(|lux| lux <= 2000)
}

fn lamp_sum(lamps: &Items<'_, u16>) -> Lux
    requires { (length lamps.now.raw.now ≤ 8) × T (lamps_in_range (words lamps.now)) }
    ensures { result.0 ≡ sum (words lamps.now) }
{
    Lux(lamps.sum())
}

// ---- tests 6 and 7

// The largest drive level of a depth.
pub fn max_ddl(depth: u16) -> Ddl
    requires { (8 ≤ depth) × (depth ≤ 10) }
    ensures { result.0 ≡ max_ddl depth }
{
    Ddl((1 << depth) - 1)
}

impl Items<'_, Reading> {
    // Whether a sweep begins at level 0 and ends at the highest.
    fn ends_span(&self, top: Ddl) -> bool
        requires { 1 ≤ length self.now.raw.now }
        ensures { result ≡ (eqb (get_or (ddls_of self.now) 0 0) 0 && eqb (get_or (ddls_of self.now) (length self.now.raw.now - 1) 0) top.0) }
    {
        let first = self.get(0).ddl;
        let last = self.get(self.len() - 1).ddl;
        (first == Ddl(0)) & (last == top)
    }

    // Whether reading i has a higher level than the one before it, and no lower luminance.
    fn steps_up(&self, i: usize) -> bool
        requires { (1 ≤ i) × (i < length self.now.raw.now) }
        ensures { result ≡ steps_up (ddls_of self.now) (luminances_of self.now) i }
    {
        let below = self.get(i - 1);
        let reading = self.get(i);
        (below.ddl < reading.ddl) & (below.luminance <= reading.luminance)
    }

    // The first reading that does not step up.
    fn first_fault(&self) -> Option<usize>
        ensures none { is_none result ≡ (rises_by 1 (ddls_of self.now) && is_never_falling (luminances_of self.now)) }
        ensures before { IfSome result (LevelsRise (ddls_of self.now)) }
    {
        (1..self.len()).find(|&i| !self.steps_up(i))
    }

    // All levels and all luminances, to the front of two slices. By place: nothing is known of what a zip of two iter_mut wrote.
    pub fn fill_sweep(&self, ddls: &mut [u16], luminances: &mut [u32])
        requires { (length self.now.raw.now ≤ length ddls.old) × (length self.now.raw.now ≤ length luminances.old) }
        ensures ddls { ddls.new ≡ ddls_of self.now ++ drop (length self.now.raw.now) ddls.old }
        ensures luminances { luminances.new ≡ luminances_of self.now ++ drop (length self.now.raw.now) luminances.old }
    {
        for i in 0..self.len() {
            let reading = self.get(i);
            ddls[i] = reading.ddl.0;
            luminances[i] = reading.luminance.0;
        }
    }

    // Whether all levels rise, where those before place `from` do.
    fn rise_from(&self, from: usize) -> bool
        requires { LevelsRise (ddls_of self.now) from }
        ensures { result ≡ rises_by 1 (ddls_of self.now) }
    {
        (from..self.len()).all(|i| self.get(i - 1).ddl < self.get(i).ddl)
    }
}

// ---- the record

// Tests 5, 6 and 7 in their order.
fn judge(
    settings: &Items<'_, u16>,
    lamps: &Items<'_, u16>,
    sweep: &Items<'_, Reading>,
) -> Result<Job, Refusal>
    requires five { length settings.now.raw.now ≡ 5 }
    requires up_to_8 { length lamps.now.raw.now ≤ 8 }
    requires some { 1 ≤ length sweep.now.raw.now }
    ensures { result ≡ judged (words settings.now) (words lamps.now) (ddls_of sweep.now) (luminances_of sweep.now) }
{
    let settings = job_settings(settings)?;
    if !lamps_in_range(lamps) {
        return Err(Refusal::OutOfRange);
    }
    let top = max_ddl(settings.depth);
    if !sweep.ends_span(top) {
        return Err(Refusal::DdlsDoNotSpan);
    }
    if let Some(fault) = sweep.first_fault() {
        // Levels that do not rise come first, even after a luminance that falls.
        if sweep.rise_from(fault) {
            return Err(Refusal::LuminanceFalls);
        }
        return Err(Refusal::DdlsDoNotSpan);
    }
    let lamps = lamp_sum(lamps);
    Ok(Job { settings, lamps })
}

// What a record of any bytes holds, or why it cannot be read.
pub fn read_record(bytes: &[u8]) -> Result<JobRecord<'_>, Refusal>
    ensures { ReadFrom bytes.now result }
{
    let (settings, rest) = take_section(bytes, Section::Settings)?;
    let (lamps, rest) = take_section(rest, Section::Lamps)?;
    let (sweep, rest) = take_section(rest, Section::Sweep)?;
    let (check, rest) = take_section(rest, Section::Check)?;
    if !rest.is_empty() {
        return Err(Refusal::TrailingBytes);
    }
    let job = judge(&settings, &lamps, &sweep);
    Ok(JobRecord {
        job,
        settings,
        lamps,
        sweep,
        check,
    })
}
