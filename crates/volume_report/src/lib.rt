// The exact volumes of a mesh file: 216 times each cell's, the total, and the first cell that is not above zero.
#![tactic(auto)]

ghost use Rattle.std.specs.Prelude.{◌≡◌, [], ◌∷◌, ◌+◌, ◌*◌, ◌/◌, ◌<◌, ◌≤◌, pos, length};
ghost use Rattle.numbers.specs.Rule.{tabulate};
ghost use Rattle.answer.specs.Answer.{answered, and_then, left};
ghost use Rattle.answer.specs.Told.{told};
ghost use Rattle.integers.specs.Integers.{integers};
ghost use Rattle.integers.specs.Sizes.{EachWithin};
ghost use Rattle.mat3_col_major.specs.Mat3.{det_in};
ghost use Rattle.exact_volume.specs.Volume.{volume216};
ghost use Rattle.exact_volume.specs.Determinants.{along, part};
ghost use Rattle.volume_report.specs.Report.{grid_numbers, cell_at, corner_of, cell_volume, volumes_of, total, first_not_above, mesh_report, room_for, report_into, volumes_in};
ghost use Rattle.volume_report.specs.Told.{summary_of};
ghost use Rattle.volume_report.specs.Sized.{most_volume, at, Row, Part, OnGrid};

use answer::Refusal;
use hxm::{CELL_NUMBERS, MOST_NUMBERS, MOST_WORDS, NODE_WORDS};

// The total, the number of cells and the first cell that is not above zero.
#[derive(Clone, Copy, PartialEq, Eq)]
pub struct Summary {
    pub total: i64,
    pub cells: u32,
    pub first: u32,
}

// The differences of corners that one axis gives to a part of the volume.
#[derive(Clone, Copy)]
struct Axis {
    twist: i64,
    far: i64,
    near: i64,
    ghost small: { Row twist far near },
}

// The coordinates of a cell's corners on one axis.
#[derive(Clone, Copy)]
struct Corners {
    x: [i64; 8],
    ghost on_grid: { EachWithin 1024 x },
}

// A cell by its corners on the three axes.
#[derive(Clone, Copy)]
struct Cell {
    x: Corners,
    y: Corners,
    z: Corners,
}

// A mesh whose nodes are on the grid: whole numbers, three for each node that the cells name.
#[derive(Clone, Copy)]
struct GridMesh<'a> {
    numbers: &'a [i64],
    cells: &'a [u32],
    ghost on_grid: { OnGrid numbers.now cells.now },
    ghost few: { length cells.now ≤ 1024 },
}

impl Corners {
    // p and q are next to corner 0, u and v next to corner 6: four numbers, as the definition has them, since a struct would state each one's bound too.
    fn along(&self, p: usize, q: usize, u: usize, v: usize) -> Axis
        requires { (p < 8) × (q < 8) × (u < 8) × (v < 8) }
        ensures { result.twist ∷ result.far ∷ result.near ∷ []
            ≡ along integers pos (at self.now.x) p q u v }
    {
        let x = &self.x;
        Axis {
            twist: (x[p] - x[q]) + (x[u] - x[v]),
            far: x[6] - x[p],
            near: x[v] - x[0],
        }
    }
}

fn determinant(r: Axis, s: Axis, t: Axis) -> i64
    ensures { Part (det_in integers
        (r.twist ∷ r.far ∷ r.near ∷ s.twist ∷ s.far ∷ s.near ∷ t.twist ∷ t.far ∷ t.near ∷ [])) result }
{
    r.twist * (s.far * t.near - s.near * t.far)
        + r.far * (s.near * t.twist - s.twist * t.near)
        + r.near * (s.twist * t.far - s.far * t.twist)
}

impl Cell {
    // One of the three determinants.
    fn part(&self, p: usize, q: usize, u: usize, v: usize) -> i64
        requires { (p < 8) × (q < 8) × (u < 8) × (v < 8) }
        ensures { Part (part integers pos (at self.now.x.x) (at self.now.y.x) (at self.now.z.x) p q u v) result }
    {
        determinant(
            self.x.along(p, q, u, v),
            self.y.along(p, q, u, v),
            self.z.along(p, q, u, v),
        )
    }

    // 216 times the signed volume.
    fn volume(&self) -> i64
        ensures { result ≡ volume216 (at self.now.x.x) (at self.now.y.x) (at self.now.z.x) }
    {
        let first = self.part(3, 1, 7, 2);
        let second = self.part(4, 3, 5, 7);
        let third = self.part(1, 4, 2, 5);
        18 * (first + second + third)
    }
}

impl GridMesh<'_> {
    // The coordinates of cell c's corners on axis i.
    fn corners(&self, c: usize, i: usize) -> Corners
        requires { (8 * c + 8 ≤ length self.now.cells.now) × (i < 3) }
        ensures { result.x ≡ tabulate 8 (corner_of self.now.numbers.now (cell_at self.now.cells.now c) i) }
    {
        let mut x = [0i64; 8];
        // By index, which is a corner's in the list that is read and in the one that is written.
        for k in 0..8usize {
            let node = self.cells[CELL_NUMBERS * c + k] as usize;
            x[k] = self.numbers[NODE_WORDS * node + i];
        }
        Corners { x }
    }

    fn cell_volume(&self, c: usize) -> i64
        requires { 8 * c + 8 ≤ length self.now.cells.now }
        ensures { result ≡ cell_volume self.now.numbers.now (cell_at self.now.cells.now c) }
    {
        let cell = Cell {
            x: self.corners(c, 0),
            y: self.corners(c, 1),
            z: self.corners(c, 2),
        };
        cell.volume()
    }

    // Writes the volumes of as many cells as the list has places.
    fn put_volumes(&self, out: &mut [i64])
        requires { 8 * length out.old ≤ length self.now.cells.now }
        ensures { out.new ≡ volumes_of self.now.numbers.now self.now.cells.now (length out.old) }
    {
        // By index: of a list that an iterator writes a proof knows the length alone.
        for c in 0..out.len() {
            out[c] = self.cell_volume(c);
        }
    }

    // Reports the volumes, where the list has room for them.
    fn report(&self, volumes: &mut [i64]) -> Result<Summary, Refusal>
        ensures answer { told result
            ≡ summary_of (room_for (length volumes.old) (mesh_report self.now.numbers.now self.now.cells.now (length self.now.cells.now / 8))) }
        ensures output { volumes.new
            ≡ left (volumes_in (room_for (length volumes.old) (mesh_report self.now.numbers.now self.now.cells.now (length self.now.cells.now / 8))))
            volumes.old }
    {
        let count = self.cells.len() / CELL_NUMBERS;
        if volumes.len() < count {
            return Err(Refusal::Length);
        }
        let volumes = &mut volumes[..count];
        self.put_volumes(volumes);
        Ok(Summary {
            total: total(volumes),
            cells: count as u32,
            first: first_not_above(volumes) as u32,
        })
    }
}

// Writes the whole numbers that the words hold.
fn put_numbers(words: &[u64], out: &mut [i64]) -> Result<(), Refusal>
    requires { length words.now ≡ length out.old }
    ensures { grid_numbers words.now ≡ and_then (told result) (λ _. answered out.new) }
{
    for (i, word) in words.iter().enumerate() {
        out[i] = grid_number::grid_number(*word)?;
    }
    Ok(())
}

#[tactic(auto, using(crate::proofs::Sums::sum_fits))]
fn total(volumes: &[i64]) -> i64
    requires { EachWithin most_volume volumes.now × (length volumes.now ≤ 128) }
    ensures { result ≡ total volumes.now }
{
    let mut sum = 0;
    for volume in volumes {
        sum += *volume;
    }
    sum
}

// The first volume that is not above zero, or how many there are.
fn first_not_above(volumes: &[i64]) -> usize
    ensures { result ≡ first_not_above volumes.now }
{
    volumes
        .iter()
        .position(|volume| *volume <= 0)
        .unwrap_or(volumes.len())
}

// Reports the volumes of a mesh file into a lent list.
pub fn report(bytes: &[u8], volumes: &mut [i64]) -> Result<Summary, Refusal>
    ensures answer { told result ≡ summary_of (report_into (length volumes.old) bytes.now) }
    ensures output { volumes.new ≡ left (volumes_in (report_into (length volumes.old) bytes.now)) volumes.old }
{
    let mut words = [0u64; MOST_WORDS];
    let mut cells = [0u32; MOST_NUMBERS];
    let counts = hxm::read(bytes, &mut words, &mut cells)?;
    let coords = NODE_WORDS * (counts.nodes as usize);
    let corners = CELL_NUMBERS * (counts.cells as usize);
    let mut numbers = [0i64; MOST_WORDS];
    let numbers = &mut numbers[..coords];
    put_numbers(&words[..coords], numbers)?;
    let mesh = GridMesh {
        numbers,
        cells: &cells[..corners],
    };
    mesh.report(volumes)
}
