// hex.rs: the eight children of a hexahedron.
#![tactic(auto)]

ghost use Rattle.std.specs.Prelude.{◌≡◌};
ghost use Rattle.hex_children.specs.Children.{children};

// Each sub-hex i has corner[i] at its own corner i and grows toward the centre.
pub fn subdivide(corner: [u32; 8], edge: [u32; 12], quad: [u32; 6], center: u32) -> [u32; 64]
    ensures { result ≡ children corner edge quad center }
{
    let [c0, c1, c2, c3, c4, c5, c6, c7] = corner;
    let [e0, e1, e2, e3, e4, e5, e6, e7, e8, e9, e10, e11] = edge;
    let [q0, q1, q2, q3, q4, q5] = quad;
    let ct = center;
    [
        c0, e0, q0, e3, e8, q1, ct, q4, // (−1,−1,−1)
        e0, c1, e1, q0, q1, e9, q2, ct, // (+1,−1,−1)
        q0, e1, c2, e2, ct, q2, e10, q3, // (+1,+1,−1)
        e3, q0, e2, c3, q4, ct, q3, e11, // (−1,+1,−1)
        e8, q1, ct, q4, c4, e4, q5, e7, // (−1,−1,+1)
        q1, e9, q2, ct, e4, c5, e5, q5, // (+1,−1,+1)
        ct, q2, e10, q3, q5, e5, c6, e6, // (+1,+1,+1)
        q4, ct, q3, e11, e7, q5, e6, c7, // (−1,+1,+1)
    ]
}
