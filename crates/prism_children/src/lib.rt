// prism.rs: the eight children of a prism.
#![tactic(auto)]

ghost use Rattle.std.specs.Prelude.{◌≡◌};
ghost use Rattle.prism_children.specs.Children.{children};

// Midpoint-subdivide each triangular face into 4 sub-triangles, split vertically at mid-level.
// quad: [0]=face(0,3,4,1), [1]=face(1,4,5,2), [2]=face(2,5,3,0)
// edge: [0..2]=bottom tri, [3..5]=top tri, [6..8]=verticals (0-3, 1-4, 2-5)
pub fn subdivide(corner: [u32; 6], edge: [u32; 9], quad: [u32; 3]) -> [u32; 48]
    ensures { result ≡ children corner edge quad }
{
    let [c0, c1, c2, c3, c4, c5] = corner;
    let [e0, e1, e2, e3, e4, e5, e6, e7, e8] = edge;
    let [q0, q1, q2] = quad;
    [
        c0, e0, e2, e6, q0, q2, // col A (corner 0), bottom half
        e0, c1, e1, q0, e7, q1, // col B (corner 1), bottom half
        e2, e1, c2, q2, q1, e8, // col C (corner 2), bottom half
        e0, e1, e2, q0, q1, q2, // col D (center),   bottom half
        e6, q0, q2, c3, e3, e5, // col A, top half
        q0, e7, q1, e3, c4, e4, // col B, top half
        q2, q1, e8, e5, e4, c5, // col C, top half
        q0, q1, q2, e3, e4, e5, // col D, top half
    ]
}
