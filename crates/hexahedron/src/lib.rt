// hex.rs: the tables of the hexahedron. Corner order: xyz, Xyz, XYz, xYz, xyZ, XyZ, XYZ, xYZ.
#![tactic(auto)]

ghost use Rattle.std.specs.Prelude.{◌≡◌};
ghost use Rattle.hexahedron.specs.Cube.{hex_sign, edges, idx2node};

pub const HEX_SIGN: [[f64; 3]; 8] = [
    [-1., -1., -1.],
    [1., -1., -1.],
    [1., 1., -1.],
    [-1., 1., -1.],
    [-1., -1., 1.],
    [1., -1., 1.],
    [1., 1., 1.],
    [-1., 1., 1.],
];

pub const EDGE2NODE: [[usize; 2]; 12] = [
    [0, 1],
    [1, 2],
    [2, 3],
    [3, 0],
    [4, 5],
    [5, 6],
    [6, 7],
    [7, 4],
    [0, 4],
    [1, 5],
    [2, 6],
    [3, 7],
];

pub const IDX2NODE: [usize; 24] = [
    0, 3, 2, 1, // face 0, bottom
    0, 1, 5, 4, // face 1, front
    1, 2, 6, 5, // face 2, right
    2, 3, 7, 6, // face 3, back
    3, 0, 4, 7, // face 4, left
    4, 5, 6, 7, // face 5, top
];

// The tables as values: a constant has no contract, and these hold the rows.
pub fn hex_sign() -> [[f64; 3]; 8]
    ensures { result ≡ hex_sign }
{
    HEX_SIGN
}

pub fn edge2node() -> [[usize; 2]; 12]
    ensures { result ≡ edges }
{
    EDGE2NODE
}

pub fn idx2node() -> [usize; 24]
    ensures { result ≡ idx2node }
{
    IDX2NODE
}
