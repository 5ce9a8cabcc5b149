// hex.rs: the shape functions of the hexahedron, and their slopes, three a corner.
#![tactic(auto)]

ghost use Rattle.std.specs.Prelude.{◌≡◌, true, false};
ghost use Rattle.hex_shape.specs.Shape.{one8, sides, shape, slopes};

// What the shape values and their slopes are made of: one eighth, and the lower and the upper side of each axis.
struct Sides {
    one8: f64,
    lower: [f64; 3],
    upper: [f64; 3],
}

impl Sides {
    #[inline(always)]
    fn of(pco: [f64; 3]) -> Sides
        ensures eighth { result.one8 ≡ one8 }
        ensures lower { result.lower ≡ sides false pco }
        ensures upper { result.upper ≡ sides true pco }
    {
        let one = 1.0;
        let two = one + one;
        let [r0, r1, r2] = pco;
        Sides {
            one8: one / (two * two * two),
            lower: [one - r0, one - r1, one - r2],
            upper: [one + r0, one + r1, one + r2],
        }
    }
}

pub fn shapefunc(pco: [f64; 3]) -> [f64; 8]
    ensures { result ≡ shape pco }
{
    let Sides {
        one8,
        lower: [l0, l1, l2],
        upper: [u0, u1, u2],
    } = Sides::of(pco);
    [
        one8 * l0 * l1 * l2, // xyz
        one8 * u0 * l1 * l2, // Xyz
        one8 * u0 * u1 * l2, // XYz
        one8 * l0 * u1 * l2, // xYz
        one8 * l0 * l1 * u2, // xyZ
        one8 * u0 * l1 * u2, // XyZ
        one8 * u0 * u1 * u2, // XYZ
        one8 * l0 * u1 * u2, // xYZ
    ]
}

pub fn dndr(pco: [f64; 3]) -> [f64; 24]
    ensures { result ≡ slopes pco }
{
    let Sides {
        one8,
        lower: [l0, l1, l2],
        upper: [u0, u1, u2],
    } = Sides::of(pco);
    [
        -one8 * l1 * l2,
        -one8 * l0 * l2,
        -one8 * l0 * l1,
        one8 * l1 * l2,
        -one8 * u0 * l2,
        -one8 * u0 * l1,
        one8 * u1 * l2,
        one8 * u0 * l2,
        -one8 * u0 * u1,
        -one8 * u1 * l2,
        one8 * l0 * l2,
        -one8 * l0 * u1,
        -one8 * l1 * u2,
        -one8 * l0 * u2,
        one8 * l0 * l1,
        one8 * l1 * u2,
        -one8 * u0 * u2,
        one8 * u0 * l1,
        one8 * u1 * u2,
        one8 * u0 * u2,
        one8 * u0 * u1,
        -one8 * u1 * u2,
        one8 * l0 * u2,
        one8 * l0 * u1,
    ]
}
