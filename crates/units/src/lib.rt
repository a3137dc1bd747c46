// The quantities of a calibration. Each is a type of its own: where one is asked for, another does not compile.
#![tactic(auto)]

// Illuminance in lux; one lamp gives 0 to 2,000, eight of them at most 16,000.
#[derive(Clone, Copy)]
pub struct Lux(pub u16);

// Luminance in units of 0.0001 cd/m²; Table B-1 runs from 500 to 39,934,040.
#[derive(Clone, Copy, PartialEq, Eq, PartialOrd, Ord)]
pub struct Luminance(pub u32);

// Drive level of the display (DDL), from 0 to 255, 511 or 1,023 by its depth.
#[derive(Clone, Copy, PartialEq, Eq, PartialOrd, Ord)]
pub struct Ddl(pub u16);

// Presentation value, 0 to 255.
#[derive(Clone, Copy)]
pub struct PValue(pub u16);

// JND index, counted in hundredths: 100 to 102,300.
#[derive(Clone, Copy)]
pub struct JndIndex(pub u32);

// Difference of two JND indices (N), in hundredths of a JND, 0 to 102,200.
#[derive(Clone, Copy)]
pub struct JndRange(pub u32);

// Diffuse reflectance of the screen's face (Rd) in units of 0.0001 per steradian, 0 to 1,000.
#[derive(Clone, Copy)]
pub struct Reflectance(pub u16);
