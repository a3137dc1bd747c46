// The light of the room, and the characteristic curve of a display from its sweep.
#![tactic(auto)]

ghost use Rattle.std.specs.Prelude.{◌≡◌, ◌++◌, ◌+◌, ◌-◌, ◌<◌, ◌≤◌, ℕ, List, length, drop, get_or};
ghost use Rattle.record.specs.Reader.{ddls_of, luminances_of};
ghost use Rattle.curve.specs.Curve.{curve_of};
ghost use Rattle.curve.specs.Room.{room_luminance, added_luminance, room_mark, mark_number};
ghost use Rattle.curve.specs.Walk.{between, LitReading, Drawable};

use record::{Items, Meter, Reading};
use units::{Ddl, Luminance, Lux, Reflectance};

// What the room's light does to the screen's black.
#[derive(Clone, Copy)]
pub enum RoomMark {
    Low = 0,
    High = 1,
}

impl From<RoomMark> for u32 {
    ghost from_gives = { λ mark n. n ≡ mark_number mark };

    fn from(mark: RoomMark) -> u32 {
        mark as u32
    }
}

// A0: what the lamps add to the luminance of the screen's face.
pub fn room_luminance(lux: Lux, reflectance: Reflectance) -> Luminance
    ensures { result.0 ≡ room_luminance lux.0 reflectance.0 }
{
    let illuminance = u32::from(lux.0);
    let rd = u32::from(reflectance.0);
    Luminance(illuminance * rd)
}

// What is added to each reading of a meter.
pub fn added_luminance(meter: Meter, room: Luminance) -> Luminance
    ensures { result.0 ≡ added_luminance meter room.0 }
{
    match meter {
        Meter::Contact => room,
        Meter::Telescopic => Luminance(0),
    }
}

// Low where four times A0 is at most the first reading, taken as recorded.
pub fn room_mark(room: Luminance, first: Luminance) -> RoomMark
    ensures { result ≡ room_mark room.0 first.0 }
{
    let light = u64::from(room.0);
    let black = u64::from(first.0);
    if 4 * light <= black {
        RoomMark::Low
    } else {
        RoomMark::High
    }
}

// The line between two readings, level by level: whole units of luminance, and parts of a unit, `width` of which make one.
#[derive(Drop)]
struct Line {
    // How many levels the readings are apart.
    width: u32,
    // The rise from each level to the next.
    whole: u32,
    rest: u32,
    // Where the line is.
    luminance: Luminance,
    part: u32,

    ghost narrow: { width < 65536 },
    ghost rest_below: { rest < width },
    ghost part_below: { part < width },
}

impl Line {
    ghost use Rattle.curve.specs.Line.{LineAt, Steppable, Stepped};

    // At the first of two readings that are `width` levels apart. No part of a unit is there at the start, so that what lies between is rounded down.
    fn new(l1: Luminance, l2: Luminance, width: u32) -> Line
        requires { (l1.0 ≤ l2.0) × (1 < width) × (width < 65536) }
        ensures { LineAt l1.0 (l2.0 - l1.0) width 0 result }
    {
        let rise = l2.0 - l1.0;
        Line {
            width,
            whole: rise / width,
            rest: rise % width,
            luminance: l1,
            part: 0,
        }
    }

    // One level on. The part is written first: so the compiler makes no branch of it.
    fn step(&mut self)
        requires { Steppable self.old }
        ensures { Stepped self.old self.new }
    {
        let luminance = self.luminance.0 + self.whole;
        let part = self.part + self.rest;
        if part < self.width {
            self.part = part;
            self.luminance = Luminance(luminance);
        } else {
            self.part = part - self.width;
            self.luminance = Luminance(luminance + 1);
        }
    }
}

// Fills the levels strictly between two readings. Most pairs of a long sweep have none, and then nothing is divided.
fn fill_between(l1: Luminance, l2: Luminance, levels: &mut [u32])
    requires { (l1.0 ≤ l2.0) × (length levels.old < 65535) }
    ensures { levels.new ≡ between l1.0 l2.0 (length levels.old) }
{
    if levels.is_empty() {
        return;
    }
    let mut line = Line::new(l1, l2, levels.len() as u32 + 1);
    for level in levels.iter_mut() {
        line.step();
        *level = line.luminance.0;
    }
}

// Readings by their places.
pub trait Sweep {
    ghost ddls: { Self → List ℕ };

    ghost luminances: { Self → List ℕ };

    fn len(&self) -> usize
        ensures { result ≡ length (ddls self.now) };

    fn reading(&self, i: usize) -> Reading
        requires { (i < length (ddls self.now)) × (i < length (luminances self.now)) }
        ensures ddl { result.ddl.0 ≡ get_or (ddls self.now) i 0 }
        ensures luminance { result.luminance.0 ≡ get_or (luminances self.now) i 0 };
}

// Drive levels, and the luminance of each: two slices, for callers in Rust that have such. The operations give a record's sweep.
#[derive(Clone, Copy)]
pub struct Readings<'a> {
    pub ddls: &'a [u16],
    pub luminances: &'a [u32],
}

impl Sweep for Readings<'_> {
    ghost ddls = { λ it. it.ddls.now };

    ghost luminances = { λ it. it.luminances.now };

    fn len(&self) -> usize {
        self.ddls.len()
    }

    fn reading(&self, i: usize) -> Reading {
        Reading {
            ddl: Ddl(self.ddls[i]),
            luminance: Luminance(self.luminances[i]),
        }
    }
}

// The sweep of a record.
impl Sweep for Items<'_, Reading> {
    ghost ddls = { ddls_of };

    ghost luminances = { luminances_of };

    fn len(&self) -> usize {
        self.len()
    }

    fn reading(&self, i: usize) -> Reading {
        self.get(i)
    }
}

// Reading i with the light added.
fn lit_reading<S: Sweep>(sweep: &S, added: Luminance, i: usize) -> Reading
    requires inside { (i < length (S.ddls sweep.now)) × (i < length (S.luminances sweep.now)) }
    requires fits { added.0 + get_or (S.luminances sweep.now) i 0 < 4294967296 }
    ensures { LitReading (S.ddls sweep.now) (S.luminances sweep.now) added.0 i result }
{
    let reading = sweep.reading(i);
    Reading {
        ddl: reading.ddl,
        luminance: Luminance(added.0 + reading.luminance.0),
    }
}

// F(0) to F(top), into the front of a slice: each reading, and what lies between it and the next.
pub fn fill_curve<S: Sweep>(sweep: &S, top: Ddl, added: Luminance, curve: &mut [u32])
    requires { Drawable (S.ddls sweep.now) (S.luminances sweep.now) top.0 added.0 curve.old }
    ensures { curve.new ≡ curve_of added.0 (S.ddls sweep.now) (S.luminances sweep.now) top.0 ++ drop (top.0 + 1) curve.old }
{
    let mut last = lit_reading(sweep, added, 0);
    for i in 1..sweep.len() {
        let next = lit_reading(sweep, added, i);
        let from = usize::from(last.ddl.0);
        let to = usize::from(next.ddl.0);
        curve[from] = last.luminance.0;
        fill_between(last.luminance, next.luminance, &mut curve[from + 1..to]);
        last = next;
    }
    curve[usize::from(top.0)] = last.luminance.0;
}
