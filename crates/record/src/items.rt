// A record's sections, read where they lie in its bytes.

ghost use Rattle.std.specs.Prelude.{◌≡◌, ◌/◌, ◌<◌, ◌≤◌, ◌++◌, ℕ, List, length, get_or, drop, map, IfSome, Some};
ghost use Rattle.std.specs.Iterator.{YieldsFirst, at_most, UpTo};
ghost use Rattle.std.specs.Iterator.SizeHint.{IsWithinCount};
ghost use Rattle.record.specs.Bytes.{word, long, fields};

use crate::{Job, Refusal};
use units::{Ddl, Luminance};

// What an item holds.
pub trait Field: Copy {
    // An item, as it lies in a record.
    type Raw;

    // In bytes.
    const WIDTH: usize;

    ghost WIDTH: { ℕ };

    // The item at the front of some bytes.
    ghost value: { List ℕ → Self };

    // The item that its bytes hold.
    ghost held: { Self.Raw → Self };

    fn read(raw: &Self::Raw) -> Self
        ensures { result ≡ held raw.now };

    // The items that some bytes hold.
    fn split(bytes: &[u8]) -> &[Self::Raw]
        ensures { map held result.now ≡ fields WIDTH value (length bytes.now / WIDTH) bytes.now };
}

impl Field for u16 {
    type Raw = [u8; 2];

    const WIDTH: usize = 2;

    ghost WIDTH = { 2 };

    ghost value = { word 0 };

    ghost held = { word 0 };

    fn read(raw: &[u8; 2]) -> u16 {
        u16::from_le_bytes(*raw)
    }

    fn split(bytes: &[u8]) -> &[[u8; 2]] {
        bytes.as_chunks().0
    }
}

impl Field for u32 {
    type Raw = [u8; 4];

    const WIDTH: usize = 4;

    ghost WIDTH = { 4 };

    ghost value = { long 0 };

    ghost held = { long 0 };

    fn read(raw: &[u8; 4]) -> u32 {
        u32::from_le_bytes(*raw)
    }

    fn split(bytes: &[u8]) -> &[[u8; 4]] {
        bytes.as_chunks().0
    }
}

// A drive level and its luminance.
#[derive(Clone, Copy)]
pub struct Reading {
    pub ddl: Ddl,
    pub luminance: Luminance,
}

impl Field for Reading {
    type Raw = [u8; 6];

    const WIDTH: usize = 6;

    ghost WIDTH = { 6 };

    ghost value = { λ s. record { ddl = record { 0 = word 0 s }; luminance = record { 0 = long 2 s } } };

    ghost held = { λ s. record { ddl = record { 0 = word 0 s }; luminance = record { 0 = long 2 s } } };

    fn read(raw: &[u8; 6]) -> Reading {
        let [a, b, c, d, e, f] = *raw;
        Reading {
            ddl: Ddl(u16::read(&[a, b])),
            luminance: Luminance(u32::read(&[c, d, e, f])),
        }
    }

    fn split(bytes: &[u8]) -> &[[u8; 6]] {
        bytes.as_chunks().0
    }
}

// The items of a section that are left, as an iterator over them and by their places.
#[derive(Clone, Copy)]
pub struct Items<'a, F: Field> {
    raw: &'a [F::Raw],
}

impl<'a, F: Field> Items<'a, F> {
    pub(crate) fn new(raw: &'a [F::Raw]) -> Self
        ensures { result.raw.now ≡ raw.now }
    {
        Items { raw }
    }

    pub fn len(&self) -> usize
        ensures { result ≡ length self.now.raw.now }
    {
        self.raw.len()
    }

    pub fn get(&self, i: usize) -> F
        requires { i < length self.now.raw.now }
        ensures { (d : F.Raw) → result ≡ F.held (get_or self.now.raw.now i d) }
    {
        F::read(&self.raw[i])
    }

    // All items, to the front of an array. By place: nothing is known of what a zip with iter_mut wrote.
    pub fn fill(&self, array: &mut [F])
        requires { length self.now.raw.now ≤ length array.old }
        ensures { array.new ≡ map F.held self.now.raw.now ++ drop (length self.now.raw.now) array.old }
    {
        for (i, item) in array[..self.len()].iter_mut().enumerate() {
            *item = self.get(i);
        }
    }
}

impl<'a, F: Field> Iterator for Items<'a, F> {
    type Item = F;

    ghost next_gives = { YieldsFirst (λ v. map F.held v.raw.now) };

    ghost remaining = { λ v. at_most (length v.raw.now) };

    fn next(&mut self) -> Option<F> {
        let (first, rest) = self.raw.split_first()?;
        self.raw = rest;
        Some(F::read(first))
    }

    fn size_hint(&self) -> (usize, Option<usize>)
        ensures lower { IsWithinCount result.0 (at_most (length self.now.raw.now)) }
        ensures upper { IfSome result.1 (UpTo (at_most (length self.now.raw.now))) }
        ensures exact { (result.0 ≡ length self.now.raw.now) × (result.1 ≡ Some (length self.now.raw.now)) }
    {
        (self.len(), Some(self.len()))
    }
}

// A record that is not refused with 2 to 4: its sections, and its job or refusal 5 to 7.
#[derive(Drop)]
pub struct JobRecord<'a> {
    pub job: Result<Job, Refusal>,
    pub settings: Items<'a, u16>,
    pub lamps: Items<'a, u16>,
    pub sweep: Items<'a, Reading>,
    pub check: Items<'a, u32>,
    ghost five: { length settings.raw.now ≡ 5 },
    ghost up_to_8: { length lamps.raw.now ≤ 8 },
    ghost some: { 2 ≤ length sweep.raw.now },
    ghost up_to_1024: { length sweep.raw.now ≤ 1024 },
    ghost up_to_18: { length check.raw.now ≤ 18 },
}
