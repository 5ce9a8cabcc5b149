// prism.rs: the table of the prism's edges. Corners 0, 1, 2 are the bottom triangle, 3, 4, 5 the top.
#![tactic(auto)]

ghost use Rattle.std.specs.Prelude.{◌≡◌};
ghost use Rattle.prism.specs.Wedge.{edges};

pub const EDGE2NODE: [[usize; 2]; 9] = [
    [0, 1], // edge 0
    [1, 2], // edge 1
    [2, 0], // edge 2
    [3, 4], // edge 3
    [4, 5], // edge 4
    [5, 3], // edge 5
    [0, 3], // edge 6
    [1, 4], // edge 7
    [2, 5], // edge 8
];

// The table as a value: a constant has no contract, and this one holds the rows.
pub fn edge2node() -> [[usize; 2]; 9]
    ensures { result ≡ edges }
{
    EDGE2NODE
}
