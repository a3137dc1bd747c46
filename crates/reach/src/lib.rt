// Which levels of a row reach the next one, for rows of 1024 bits in lent words: bit d of row p stands for drive level d.
#![tactic(auto)]

ghost use Rattle.std.specs.Prelude.{◌≡◌, ◌+◌, ◌*◌, ◌/◌, ◌≤◌, ◌<◌, length};
ghost use Rattle.reach.specs.Bits.{bit_at, marked};
ghost use Rattle.reach.specs.Rows.{RowThere, RunLit, FindsFirst, RowAsks, RowFilled};
ghost use Rattle.reach.specs.Words.{InWord, WordFilled};

// The levels `from` to `to` - 1 of row p. A std Range is not Copy.
#[derive(Clone, Copy)]
pub struct Run {
    pub p: usize,
    pub from: usize,
    pub to: usize,
}

// The rises of luminance that fit: `least` to `most`. A std Range is not Copy.
#[derive(Clone, Copy)]
pub struct Span {
    pub least: u64,
    pub most: u64,
}

// The bits of one word of a row, and the level of the next row where the search for the levels after it goes on.
#[derive(Clone, Copy)]
struct Word {
    bits: u32,
    q: usize,
}

// The bit of level d is set in the row that starts at word `row`.
fn test(words: &[u32], row: usize, d: usize) -> bool
    requires { row + d / 32 < length words.now }
    ensures { result ≡ bit_at words.now (row * 32 + d) }
{
    (words[row + d / 32] >> (d % 32)) & 1 == 1
}

// Sets the bit of a place.
fn mark(words: &mut [u32], place: usize)
    requires { place < 32 * length words.old }
    ensures { words.new ≡ marked words.old place }
{
    words[place / 32] |= 1 << (place % 32);
}

// Sets the bit of each level of the run.
pub fn light_run(words: &mut [u32], run: Run)
    requires { RowThere words.old run }
    ensures { RunLit words.old words.new run }
{
    let row = run.p * 1024;
    for d in run.from..run.to {
        mark(words, row + d);
    }
}

// The first level of the run whose bit is set and whose luminance is at least `least`.
pub fn first_lit(curve: &[u32], words: &[u32], run: Run, least: u64) -> Option<usize>
    requires { RowThere words.now run × (run.to ≤ length curve.now) }
    ensures { FindsFirst curve.now words.now run least result }
{
    let row = run.p * 32;
    (run.from..run.to).find(|&q| least <= u64::from(curve[q]) && test(words, row, q))
}

// Finds the bits of one word of a row, from the next row: those of the levels of `run`, which lie in one word.
// The curve never falls, so the first level of `next` that is bright enough for each level never falls either.
// Not a method of a struct that holds the words: what writes them would say too that it keeps their reference, and take no less.
fn fill_word(curve: &[u32], words: &[u32], run: Run, next: Run, span: Span) -> Word
    requires { RowAsks curve.now words.now run next span × InWord run }
    ensures { WordFilled curve.now words.now run next span result }
{
    let mut bits: u32 = 0;
    let mut q = next.from;
    for d in run.from..run.to {
        let left = Run {
            from: q.max(d),
            ..next
        };
        if left.to <= left.from {
            // No level of the next row is left, for d or a later one.
            break;
        }
        let luminance = u64::from(curve[d]);
        match first_lit(curve, words, left, luminance + span.least) {
            Some(lit) => {
                q = lit;
                if u64::from(curve[lit]) <= luminance + span.most {
                    bits |= 1 << (d % 32);
                }
            }
            None => q = next.to,
        }
    }
    Word { bits, q }
}

// Fills a row from the next one: a level is lit where the step to some lit level there fits. True when some level is lit.
// Each word of the run is written once, whole; none where it has no level.
pub fn fill_row(curve: &[u32], words: &mut [u32], run: Run, next: Run, span: Span) -> bool
    requires { RowAsks curve.now words.old run next span }
    ensures { RowFilled curve.now words.old words.new run next span result }
{
    let mut gathered: u32 = 0;
    let mut q = next.from;
    // By place: the words of the next row are read while this row's are written.
    for i in run.from / 32..run.to.div_ceil(32) {
        let part = Run {
            from: run.from.max(i * 32),
            to: run.to.min(i * 32 + 32),
            ..run
        };
        if part.to <= part.from {
            // The run has no level.
            break;
        }
        let left = Run { from: q, ..next };
        let word = fill_word(curve, words, part, left, span);
        let place = run.p * 32 + i;
        words[place] = word.bits;
        gathered |= word.bits;
        q = word.q;
    }
    0 < gathered
}
