// The Grayscale Standard Display Function of PS3.14: the luminance of a JND index and the JND index of a luminance.
#![tactic(auto)]

ghost use Rattle.std.specs.Prelude.{◌≡◌, ◌+◌, ◌≤◌, ◌<◌};
ghost use Rattle.gsdf.specs.Table.{table_b1};
ghost use Rattle.gsdf.specs.DisplayFunction.{jnd_luminance, luminance_of, index_of, IsIndex, InTable};
ghost use Rattle.gsdf.specs.Ends.{below_table, above_table};

use units::{JndIndex, Luminance};

mod table;

// `IsIndex` and `InTable` are asked by contracts, and are no part of the types: a `Luminance` is also a reading or a sum outside the table, and C
// hands in bare numbers.

// Table B-1, entry j − 1 for JND j, by value.
pub fn table_b1() -> [u32; 1023]
    ensures { result ≡ table_b1 }
{
    table::TABLE_B1
}

// Table B-1 in place; what reads it knows its contract alone.
fn entries() -> &'static [u32; 1023]
    ensures { result.now ≡ table_b1 }
{
    &table::TABLE_B1
}

// The luminance of JND j.
fn jnd_luminance(j: usize) -> Luminance
    requires { (1 ≤ j) × (j ≤ 1023) }
    ensures { result.0 ≡ jnd_luminance j }
{
    let at = j - 1;
    Luminance(entries()[at])
}

// The luminance of an index.
pub fn luminance_of(k: JndIndex) -> Luminance
    requires { IsIndex k.0 }
    ensures { result.0 ≡ luminance_of k.0 }
{
    let j = (k.0 / 100) as usize;
    let hundredths = k.0 % 100;
    let low = jnd_luminance(j).0;
    if hundredths == 0 {
        return Luminance(low);
    }
    let high = jnd_luminance(j + 1).0;
    let difference = high - low;
    let product = difference * hundredths;
    let luminance = low + product / 100;
    Luminance(luminance)
}

// The last JND whose luminance is at most l.
fn jnd_at_most(l: Luminance) -> usize
    requires { InTable l.0 }
    ensures first { 1 ≤ result }
    ensures last { result ≤ 1023 }
    ensures at_most { jnd_luminance result ≤ l.0 }
    ensures above { result < 1023 → l.0 < jnd_luminance (result + 1) }
{
    // JND j is entry j − 1, so the last at or below l is their number.
    entries().partition_point(|&luminance| luminance <= l.0)
}

// The largest index whose luminance is at most l.
pub fn index_of(l: Luminance) -> JndIndex
    requires { InTable l.0 }
    ensures { result.0 ≡ index_of l.0 }
{
    let luminance = l.0;
    let j = jnd_at_most(l);
    if j == 1023 {
        return JndIndex(102300);
    }
    let low = jnd_luminance(j).0;
    let high = jnd_luminance(j + 1).0;
    let difference = high - low;
    let above = luminance - low;
    // The largest r with floor(difference × r / 100) at most above, so with difference × r at most 100 × above + 99.
    let scaled = 100 * above + 99;
    let hundredths = scaled / difference;
    let index = 100 * j as u32 + hundredths;
    JndIndex(index)
}

// A reading with the light added to it, against the ends of Table B-1. Their sum may need more than 32 bits.
// Two functions: tests 8 and 9 ask one each, of two readings.
pub fn is_below_table(added: Luminance, reading: Luminance) -> bool
    ensures { result ≡ below_table (added.0 + reading.0) }
{
    let luminance = u64::from(added.0) + u64::from(reading.0);
    luminance < 500
}

pub fn is_above_table(added: Luminance, reading: Luminance) -> bool
    ensures { result ≡ above_table (added.0 + reading.0) }
{
    let luminance = u64::from(added.0) + u64::from(reading.0);
    39934040 < luminance
}
