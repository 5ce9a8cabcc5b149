// A mesh refined: each cell is cut in eight, and what cells share gets one number.
// An edge or a face is kept as its key, so that one search serves both and compares one number. A face's key is its nodes; those with one number then have to
// have one ring, or the mesh is twisted.
#![tactic(auto)]

ghost use Rattle.std.specs.Prelude.{◌≡◌, cond, not, ◌+◌, ◌*◌, ◌^◌, ◌<◌, ◌≤◌, eqb, length, get_or};
ghost use Rattle.numbers.specs.Rule.{all};
ghost use Rattle.answer.specs.Answer.{answered, refused, left};
ghost use Rattle.answer.specs.Told.{told};
ghost use Rattle.faults.specs.Faults.{first_fault};
ghost use Rattle.numbering.specs.Refinement.{same_nodes, twisted, cell_count, next, next_by};
ghost use Rattle.keys.specs.Keys.{face_key, face_ring};
ghost use Rattle.refine.specs.Refine.{refined, children_in};
ghost use Rattle.refine.specs.Search.{found_in, new_from, numbered, Agrees, face_number, Standing, Between, by_number, RingsByNumber};

use answer::Refusal;
use keys::{FaceKeys, MOST_CELLS, MOST_EDGES, MOST_FACES};

// As many numbers as the most cells have edges, faces and centres.
const MOST_NUMBERS: usize = 2432;

// The numbers of a mesh's edges, faces and centres, cell after cell.
#[derive(Drop)]
struct Numbers {
    edges: [u32; MOST_EDGES],
    faces: [u32; MOST_FACES],
    centers: [u32; MOST_CELLS],
}

// The number of `key`, if one of the edges or faces of the cells before `cell` has that key: each cell has `width` of them. A `for` gives no value, so the
// search over the cells counts them itself.
fn find(keys: &[u64], numbers: &[u32], width: usize, cell: usize, key: u64) -> Option<u32>
    requires { (width * cell ≤ length keys.now) × (width * cell ≤ length numbers.now) }
    ensures { result ≡ found_in keys.now numbers.now (width * cell) key }
{
    let mut c = 0usize;
    'search: loop {
        if c == cell {
            break 'search None;
        }
        for i in 0..width {
            let at = width * c + i;
            if keys[at] == key {
                break 'search Some(numbers[at]);
            }
        }
        c += 1;
    }
}

// Numbers the edges, or the faces, of a cell. The answer is the next number.
fn number(keys: &[u64], numbers: &mut [u32], width: usize, cell: usize, first: u32) -> u32
    requires { (width * cell + width ≤ length keys.now) × (width * cell + width ≤ length numbers.old) × (first + width < 2 ^ 32) }
    ensures numbers { numbers.new ≡ numbered keys.now numbers.old (width * cell) first width }
    ensures next { result ≡ first + new_from keys.now (width * cell) width }
    ensures few { result ≤ first + width }
{
    let mut next = first;
    for i in 0..width {
        let at = width * cell + i;
        match find(keys, numbers, width, cell, keys[at]) {
            Some(number) => {
                numbers[at] = number;
            }
            None => {
                numbers[at] = next;
                next += 1;
            }
        }
    }
    next
}

// For each number of a face, from `first` up, the ring of the last face that has it.
fn rings_by_number(first: u32, faces: &[u32], rings: &[u32]) -> [u32; MOST_NUMBERS]
    requires { (length rings.now ≡ length faces.now) × Between first faces.now (length faces.now) }
    ensures { RingsByNumber first faces.now rings.now (length faces.now) result }
{
    let mut last = [0u32; MOST_NUMBERS];
    for (j, face) in faces.iter().enumerate() {
        last[(*face - first) as usize] = rings[j];
    }
    last
}

// Whether some face has another ring than the one kept for its number.
fn rings_differ(first: u32, faces: &[u32], rings: &[u32], kept: &[u32; MOST_NUMBERS]) -> bool
    requires { (length rings.now ≡ length faces.now) × Between first faces.now (length faces.now) }
    ensures { result ≡ not (all (length faces.now) (λ j. eqb (by_number first faces.now kept.now j) (get_or rings.now j 0))) }
{
    for (j, face) in faces.iter().enumerate() {
        if kept[(*face - first) as usize] != rings[j] {
            return true;
        }
    }
    false
}

// A mesh that can be refined: of at most 1,024 nodes and 128 cells, in none of which there is a fault.
#[derive(Clone, Copy)]
struct Mesh<'a> {
    n: u32,
    cells: &'a [u32],
    ghost few_nodes: { n ≤ 1024 },
    ghost few_cells: { length cells.now ≤ 1024 },
    ghost faultless: { first_fault n 8 cells.now ≡ 0 },
}

impl<'a> Mesh<'a> {
    // Numbers the edges, the faces and the centre of each cell, cell after cell. The answer is the next free number.
    fn number_cells(&self, face_keys: &[u64; MOST_FACES], numbers: &mut Numbers) -> u32
        requires { Agrees face_keys.now (6 * cell_count self.now.cells.now) (face_key self.now.cells.now) }
        ensures free { result ≡ next_by same_nodes self.now.n self.now.cells.now }
        ensures numbers { Standing self.now.n self.now.cells.now numbers.new.edges numbers.new.faces numbers.new.centers (cell_count self.now.cells.now) }
        ensures few { result ≤ self.now.n + 19 * cell_count self.now.cells.now }
    {
        let mut edge_keys = [0; MOST_EDGES];
        keys::edge_keys_into(self.cells, &mut edge_keys);
        let mut free = self.n;
        for cell in 0..self.cells.len() / 8 {
            free = number(&edge_keys, &mut numbers.edges, 12, cell, free);
            free = number(face_keys, &mut numbers.faces, 6, cell, free);
            numbers.centers[cell] = free;
            free += 1;
        }
        free
    }

    // Whether two faces have the same nodes and different rings, where `faces` holds their numbers by their nodes, and `rings` the nodes opposite the smallest.
    fn twisted(&self, faces: &[u32; MOST_FACES], rings: &[u32; MOST_FACES]) -> bool
        requires numbers { Agrees faces.now (6 * cell_count self.now.cells.now) (face_number self.now.n self.now.cells.now) }
        requires few { next_by same_nodes self.now.n self.now.cells.now ≤ self.now.n + 2432 }
        requires rings { Agrees rings.now (6 * cell_count self.now.cells.now) (face_ring self.now.cells.now) }
        ensures { result ≡ twisted self.now.cells.now }
    {
        let count = 6 * (self.cells.len() / 8);
        let faces = &faces[..count];
        let rings = &rings[..count];
        let kept = rings_by_number(self.n, faces, rings);
        rings_differ(self.n, faces, rings, &kept)
    }

    // Numbers all cells, and then writes their children, unless a face is twisted.
    fn refine(&self, out: &mut [u32]) -> Result<u32, Refusal>
        requires { 64 * cell_count self.now.cells.now ≤ length out.old }
        ensures answer { told result ≡ cond (twisted self.now.cells.now) (refused 14) (answered (next self.now.n self.now.cells.now)) }
        ensures output { out.new ≡ left (children_in (told result) self.now.n self.now.cells.now) out.old }
    {
        let mut numbers = Numbers {
            edges: [0; MOST_EDGES],
            faces: [0; MOST_FACES],
            centers: [0; MOST_CELLS],
        };
        let mut face_keys = FaceKeys {
            keys: [0; MOST_FACES],
            rings: [0; MOST_FACES],
        };
        keys::face_keys_into(self.cells, &mut face_keys);
        let free = self.number_cells(&face_keys.keys, &mut numbers);
        if self.twisted(&numbers.faces, &face_keys.rings) {
            return Err(Refusal::Twisted);
        }
        mesh_children::write_cells(
            self.cells,
            &numbers.edges,
            &numbers.faces,
            &numbers.centers,
            out,
        );
        Ok(free)
    }
}

// Refines a mesh of n nodes and eight node numbers a cell, into 64 numbers a cell.
#[tactic(auto, using(faults::proofs::Faults::refuses), unfolding(crate::specs::Refine::refined))]
pub fn refine(n: u32, cells: &[u32], out: &mut [u32]) -> Result<u32, Refusal>
    ensures answer { told result ≡ refined n cells.now (length out.old) }
    ensures output { out.new ≡ left (children_in (told result) n cells.now) out.old }
{
    if n > 1024 || cells.len() > 1024 {
        return Err(Refusal::Limit);
    }
    if cells.len() % 8 != 0 || out.len() < 64 * (cells.len() / 8) {
        return Err(Refusal::Length);
    }
    faults::first_fault(n, cells)?;
    Mesh { n, cells }.refine(out)
}
