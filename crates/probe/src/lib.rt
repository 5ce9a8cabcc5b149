// The distance check: how near is the image of a place in a hexahedron to the probe, which stands at the origin?
// Corners are 24 floats, corner by corner, less the probe's place.
#![tactic(auto)]

ghost use Rattle.std.specs.Prelude.{◌≡◌, List, T, Float};
ghost use Rattle.answer.specs.Answer.{answered};
ghost use Rattle.answer.specs.Told.{told};
ghost use Rattle.cell.specs.Newton.{coords};
ghost use Rattle.hex_locate.specs.Locate.{inside, located};
ghost use Rattle.probe.specs.Check.{good_corner, good_corners, good_tolerance, near_on, near, good_inputs, checked, located_checked};
ghost use Rattle.probe.specs.Demand.{AcceptedIsNear, NearIsAccepted, Floats};

use answer::Refusal;
use cell::{Located, Point};

// 2^-100 and 2^100
const LEAST: f64 = 7.888609052210118e-31;

const MOST: f64 = 1267650600228229401496703205376.0;

// A coordinate of a corner is zero of either sign, or of a size from 2^-100 to 2^100.
fn good_corner(x: f64) -> bool
    ensures { result ≡ good_corner x }
{
    (x == 0.0) | ((LEAST <= x) & (x <= MOST)) | ((LEAST <= -x) & (-x <= MOST))
}

fn good_corners(p: &[f64; 24]) -> bool
    ensures { result ≡ good_corners p.now }
{
    let mut good = true;
    for &x in p {
        good = good_corner(x) & good;
    }
    good
}

// Finite and not below zero. Minus zero is not below.
fn good_tolerance(t: f64) -> bool
    ensures { result ≡ good_tolerance t }
{
    (0.0 <= t) & (t < 1.0 / 0.0)
}

// Whether a place lies in the cube.
fn good_place(at: Point) -> bool
    ensures { result ≡ inside (coords at) }
{
    hex_locate::within_one(at.x) & hex_locate::within_one(at.y) & hex_locate::within_one(at.z)
}

fn near_on(x: f64, t: f64) -> bool
    ensures { result ≡ near_on t x }
{
    (x <= t) & (-x <= t)
}

// Whether the image of a place is within the tolerance of the origin, on each axis.
fn near(p: &[f64; 24], pco: [f64; 3], t: f64) -> bool
    ensures { result ≡ near p.now pco t }
{
    let x = hex_image::image_of(p, pco);
    near_on(x[0], t) & near_on(x[1], t) & near_on(x[2], t)
}

// What is handed over by value are floats that binary64 holds, and a caller that was lent them has it from here. It compiles to nothing.
fn held(corners: [f64; 24])
    ensures { Floats 24 corners }
{}

// Refusals 3 and 4, with which both ladders begin.
fn good_inputs(corners: &[f64; 24], tolerance: f64) -> Result<(), Refusal>
    ensures { told result ≡ good_inputs corners.now tolerance }
{
    if !good_corners(corners) {
        return Err(Refusal::Corner);
    }
    if !good_tolerance(tolerance) {
        return Err(Refusal::Tolerance);
    }
    Ok(())
}

// The check's refusals in their order: 3, 4, 5, 6.
fn ladder(corners: &[f64; 24], at: Point, tolerance: f64) -> Result<(), Refusal>
    ensures { told result ≡ checked corners.now (coords at) tolerance }
{
    good_inputs(corners, tolerance)?;
    if !good_place(at) {
        return Err(Refusal::Coordinate);
    }
    if !near(corners, [at.x, at.y, at.z], tolerance) {
        return Err(Refusal::TooFar);
    }
    Ok(()) // accepted
}

// The check of corners that are lent, as C lends them; `check` has them by value. With M the largest corner size on an axis and e = 14 M / 2^53, an accepted place's exact image is at most T + e from
// the probe on each axis; and a place whose exact image is at most T - e from it on each is accepted.
pub fn judge(corners: &[f64; 24], at: Point, tolerance: f64) -> Result<(), Refusal>
    ensures value { told result ≡ checked corners.now (coords at) tolerance }
    ensures sound { AcceptedIsNear (result ≡ Ok tt) corners.now (coords at) tolerance }
    ensures complete { T (inside (coords at)) → NearIsAccepted (result ≡ Ok tt) corners.now (coords at) tolerance }
{
    held(*corners);
    ladder(corners, at, tolerance)
}

// Whether the image of a place is within the tolerance of the probe: `judge` of corners by value.
pub fn check(corners: [f64; 24], at: Point, tolerance: f64) -> Result<(), Refusal>
    ensures value { told result ≡ checked corners (coords at) tolerance }
    ensures sound { AcceptedIsNear (result ≡ Ok tt) corners (coords at) tolerance }
    ensures complete { T (inside (coords at)) → NearIsAccepted (result ≡ Ok tt) corners (coords at) tolerance }
{
    judge(&corners, at, tolerance)
}

// The checked locator's refusals in their order: 3, 4, then 1 or 2, then 6.
fn locate(corners: &[f64; 24], tolerance: f64) -> Result<[f64; 3], Refusal>
    ensures { told result ≡ located_checked corners.now tolerance }
{
    good_inputs(corners, tolerance)?;
    match hex_locate::newton(corners) {
        Located::Inside(pco) => {
            if near(corners, pco, tolerance) {
                Ok(pco)
            } else {
                Err(Refusal::TooFar)
            }
        }
        Located::Flat => Err(Refusal::Flat),
        Located::Outside => Err(Refusal::Outside),
    }
}

// Where the probe lies in the cell: the place that Newton finds, if its image is within the tolerance of the probe. What `check` promises of a place it
// accepts holds of this one, and Newton's place is kept where `check` would accept it.
pub fn locate_checked(corners: [f64; 24], tolerance: f64) -> Result<[f64; 3], Refusal>
    ensures value { told result ≡ located_checked corners tolerance }
    ensures sound { (q : List Float) → AcceptedIsNear (told result ≡ answered q) corners q tolerance }
    ensures complete { (q : List Float) → located corners ≡ answered q → NearIsAccepted (told result ≡ answered q) corners q tolerance }
{
    locate(&corners, tolerance)
}
