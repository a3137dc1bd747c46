// The report on a job record, as the program prints it.
#![tactic(auto)]

ghost use Rattle.std.specs.Prelude.{◌≡◌, ℕ, ◌≤◌, List, [], ◌∷◌, ◌++◌, length, IfOk, IfErr};
ghost use Rattle.record.specs.Refusals.{refusal_number};
ghost use Rattle.report.specs.Text.{decimal};
ghost use Rattle.report.specs.Report.{ReportPromise, WordsKept, report_of, refused_line, range_line, room_line, check_line, even_line, row, rows, lines_of};
ghost use Rattle.report.specs.Putting.{HasRoom};

use arrayvec::ArrayString;
use contrast::Verdict;
use curve::RoomMark;
use engine::NearestFigures;
use itoa::Buffer;
use record::Refusal;
use std::marker::Model;
use target::IndexRange;
use units::{Ddl, PValue};

// The lines of kinds, by hand: a Display would be written by write! (see `put_text`).
fn room_text(mark: RoomMark) -> &'static str
    ensures { result.now ≡ room_line mark }
{
    match mark {
        RoomMark::Low => "room low\n",
        RoomMark::High => "room high\n",
    }
}

fn check_text(check: Option<Verdict>) -> &'static str
    ensures { result.now ≡ check_line check }
{
    match check {
        None => "check none\n",
        Some(Verdict::Pass) => "check pass\n",
        Some(Verdict::Fail) => "check fail\n",
    }
}

// The text of a report; clauses see the list of its bytes.
#[derive(Drop)]
pub struct Report {
    text: ArrayString<4694>,
}

impl Model for Report {
    ghost Value = { List ℕ };

    ghost view = { λ r. r.text.bytes };
}

#[tactic(auto, using(crate::proofs::Putting::pieces))]
impl Report {
    fn new() -> Self
        ensures { result ≡ [] }
    {
        Report {
            text: ArrayString::new(),
        }
    }

    pub fn text(&self) -> &[u8]
        ensures { result.now ≡ self.now }
    {
        self.text.as_str().as_bytes()
    }

    // Each method `put_..` adds a piece of text and asks for its room: how much is left is known only where the lines are put together. Not by Display and
    // write!: no contract of std says that write! succeeds where there is room, and a report cannot fail.
    fn put_text(&mut self, text: &str)
        requires { HasRoom self.old text.now }
        ensures { self.new ≡ self.old ++ text.now }
    {
        self.text.push_str(text);
    }

    // A number in decimal, and the blank or line feed after it.
    fn put_number(&mut self, n: u64, after: &str)
        requires { HasRoom self.old (decimal n ++ after.now) }
        ensures { self.new ≡ self.old ++ (decimal n ++ after.now) }
    {
        self.put_text(Buffer::new().format(n));
        self.put_text(after);
    }

    // Jlo, Jhi and N.
    fn put_range(&mut self, indices: IndexRange)
        requires { HasRoom self.old (range_line indices.low.0 indices.high.0 indices.range.0) }
        ensures { self.new ≡ self.old ++ range_line indices.low.0 indices.high.0 indices.range.0 }
    {
        self.put_text("range ");
        self.put_number(u64::from(indices.low.0), " ");
        self.put_number(u64::from(indices.high.0), " ");
        self.put_number(u64::from(indices.range.0), "\n");
    }

    // The worst step of the even table.
    fn put_even(&mut self, worst_step: u64)
        requires { HasRoom self.old (even_line worst_step) }
        ensures { self.new ≡ self.old ++ even_line worst_step }
    {
        self.put_text("even ");
        self.put_number(worst_step, "\n");
    }

    fn put_row(&mut self, p: PValue, nearest: Ddl, even: Ddl)
        requires { HasRoom self.old (row p.0 nearest.0 even.0) }
        ensures { self.new ≡ self.old ++ row p.0 nearest.0 even.0 }
    {
        self.put_number(u64::from(p.0), " ");
        self.put_number(u64::from(nearest.0), " ");
        self.put_number(u64::from(even.0), "\n");
    }

    // The rows of all P-values.
    fn put_rows(&mut self, nearest: &[u16; 256], even: &[u16; 256])
        requires { HasRoom self.old (rows nearest.now even.now 256) }
        ensures { self.new ≡ self.old ++ rows nearest.now even.now 256 }
    {
        for (p, (nearest, even)) in nearest.iter().zip(even).enumerate() {
            self.put_row(PValue(p as u16), Ddl(*nearest), Ddl(*even));
        }
    }

    // A refusal is all that the report says.
    fn of_refusal(refusal: Refusal) -> Self
        ensures line { result ≡ refused_line (refusal_number refusal) }
        ensures fits { length result ≤ 4694 }
    {
        let mut report = Self::new();
        report.put_text("refused ");
        report.put_number(u64::from(u32::from(refusal)), "\n");
        report
    }

    // The lines of a job that is not refused. By value: of a borrowed struct the proof does not find the bounds of the fields.
    fn of_lines(made: Calibration) -> Self
        ensures lines { result ≡ lines_of made.figures made.worst_step made.check made.nearest made.even }
        ensures fits { length result ≤ 4694 }
    {
        let mut report = Self::new();
        report.put_range(made.figures.indices);
        report.put_text(room_text(made.figures.mark));
        report.put_even(made.worst_step);
        report.put_text(check_text(made.check));
        report.put_rows(&made.nearest, &made.even);
        report
    }
}

// What the three operations make of a record. Its tables are arrays: no heap.
#[derive(Drop)]
struct Calibration {
    figures: NearestFigures,
    worst_step: u64,
    check: Option<Verdict>,
    nearest: [u16; 256],
    even: [u16; 256],
}

impl Calibration {
    // Or the first refusal.
    fn new(bytes: &[u8], work: &mut [u32]) -> Result<Self, Refusal>
        ensures lines { IfOk result (λ m. lines_of m.figures m.worst_step m.check m.nearest m.even ≡ report_of bytes.now (length work.old)) }
        ensures refusal { IfErr result (λ r. refused_line (refusal_number r) ≡ report_of bytes.now (length work.old)) }
        ensures words_kept { WordsKept bytes.now work.old work.new }
    {
        let mut nearest = [0; 256];
        let figures = engine::nearest_table(bytes, &mut nearest)?;
        let mut even = [0; 256];
        let made = engine::even_table(bytes, &mut even, work)?;
        let mut deviations = [0; 17];
        let check = engine::contrast_check(bytes, &mut deviations)?;
        Ok(Calibration {
            figures,
            worst_step: made.worst,
            check,
            nearest,
            even,
        })
    }
}

// The report on a job record; the words lent are what the even table works in.
pub fn report_on(bytes: &[u8], work: &mut [u32]) -> Report
    ensures report_promise { ReportPromise bytes.now work.old result }
    ensures words_kept { WordsKept bytes.now work.old work.new }
{
    match Calibration::new(bytes, work) {
        Ok(made) => Report::of_lines(made),
        Err(refusal) => Report::of_refusal(refusal),
    }
}
