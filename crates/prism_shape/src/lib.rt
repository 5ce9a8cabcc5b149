// prism.rs: the shape functions of the prism, and their slopes, three a corner.
#![tactic(auto)]

ghost use Rattle.std.specs.Prelude.{◌≡◌};
ghost use Rattle.prism_shape.specs.Shape.{shape, slopes};

pub fn shapefunc(pco: [f64; 3]) -> [f64; 6]
    ensures { result ≡ shape pco }
{
    let one = 1.0;
    let [r, s, t] = pco;
    let tm = one - t;
    let rs = one - r - s;
    [rs * tm, r * tm, s * tm, rs * t, r * t, s * t]
}

pub fn dndr(pco: [f64; 3]) -> [f64; 18]
    ensures { result ≡ slopes pco }
{
    let zero = 0.0;
    let one = 1.0;
    let [r, s, t] = pco;
    [
        -one + t,
        -one + t,
        -one + r + s,
        one - t,
        zero,
        -r,
        zero,
        one - t,
        -s,
        -t,
        -t,
        one - r - s,
        t,
        zero,
        r,
        zero,
        t,
        s,
    ]
}
