// The edges and faces of a mesh, each as one number, its key: the nodes in rising order are the digits. Faces that have one key, which is the same four nodes,
// are told apart by the node opposite the smallest.
#![tactic(auto)]

ghost use Rattle.std.specs.Prelude.{◌≡◌, [], ◌∷◌, ◌*◌, ◌<◌, min, map, replicate};
ghost use Rattle.faults.specs.Faults.{names};
ghost use Rattle.numbering.specs.Refinement.{cell_count, edge_corners, face_corners};
ghost use Rattle.keys.specs.Keys.{packed, key, opposite, edge_key, face_key, face_ring, keys_in};

// The most cells, and as many edges and faces as they have.
pub const MOST_CELLS: usize = 128;

pub const MOST_EDGES: usize = 1536;

pub const MOST_FACES: usize = 768;

// The faces of a mesh: the key of each, and the node opposite the smallest, which tells the rings of one key apart. The keys stand by themselves, so that
// they are searched as those of the edges are, which have no rings.
#[derive(Drop)]
pub struct FaceKeys {
    pub keys: [u64; MOST_FACES],
    pub rings: [u32; MOST_FACES],
}

// Four numbers as the digits of one, base 1,024, the first digit highest.
fn digits(a: u32, b: u32, c: u32, d: u32) -> u64
    ensures { result ≡ packed (a ∷ b ∷ c ∷ d ∷ []) }
{
    u64::from(d) + 1024 * (u64::from(c) + 1024 * (u64::from(b) + 1024 * u64::from(a)))
}

// The ends of edge e of a cell in rising order, as the digits of one number.
#[tactic(auto, using(numbering::proofs::Cells::edge_corner, crate::proofs::Keys::pair_key))]
fn edge_key(cell: &[u32; 8], e: usize) -> u64
    requires { e < 12 }
    ensures { result ≡ key (map (names cell.now) (edge_corners e)) }
{
    let a = cell[hexahedron::EDGE2NODE[e][0]];
    let b = cell[hexahedron::EDGE2NODE[e][1]];
    u64::from(a.max(b)) + 1024 * u64::from(a.min(b))
}

// The ring of nodes of face f of a cell.
#[tactic(auto, using(numbering::proofs::Cells::face_corner))]
fn face_nodes(cell: &[u32; 8], f: usize) -> [u32; 4]
    requires { f < 6 }
    ensures { result ≡ map (names cell.now) (face_corners f) }
{
    [
        cell[hexahedron::IDX2NODE[4 * f]],
        cell[hexahedron::IDX2NODE[4 * f + 1]],
        cell[hexahedron::IDX2NODE[4 * f + 2]],
        cell[hexahedron::IDX2NODE[4 * f + 3]],
    ]
}

// The nodes of a face in rising order, as the digits of one number.
fn face_key(ring: [u32; 4]) -> u64
    ensures { result ≡ key ring }
{
    let [a, b, c, d] = ring;
    let p = a.min(b);
    let q = a.max(b);
    let r = c.min(d);
    let s = c.max(d);
    let m = p.max(r);
    let k = q.min(s);
    digits(p.min(r), m.min(k), m.max(k), q.max(s))
}

// The node opposite the smallest one, which is the other end of the diagonal that the smallest is on.
fn opposite(ring: [u32; 4]) -> u32
    ensures { result ≡ opposite ring }
{
    let [a, b, c, d] = ring;
    if a.min(c) < b.min(d) {
        a.max(c)
    } else {
        b.max(d)
    }
}

// The keys of the edges, twelve a cell. Of a longer list of cells the first 128 count.
pub fn edge_keys(cells: &[u32]) -> [u64; MOST_EDGES]
    ensures { result ≡ keys_in (replicate 1536 0) (12 * min (cell_count cells.now) 128) (edge_key cells.now) }
{
    let mut keys = [0; MOST_EDGES];
    edge_keys_into(cells, &mut keys);
    keys
}

// The keys of the faces, six a cell, and the nodes opposite the smallest ones.
pub fn face_keys(cells: &[u32]) -> FaceKeys
    ensures keys { result.keys ≡ keys_in (replicate 768 0) (6 * min (cell_count cells.now) 128) (face_key cells.now) }
    ensures rings { result.rings ≡ keys_in (replicate 768 0) (6 * min (cell_count cells.now) 128) (face_ring cells.now) }
{
    let mut faces = FaceKeys {
        keys: [0; MOST_FACES],
        rings: [0; MOST_FACES],
    };
    face_keys_into(cells, &mut faces);
    faces
}

// Puts the keys of the edges into a lent list: one of this size that is returned is copied on its way. By index: of a list that an iterator writes a proof
// knows the length alone.
pub fn edge_keys_into(cells: &[u32], keys: &mut [u64; MOST_EDGES])
    ensures { keys.new ≡ keys_in keys.old (12 * min (cell_count cells.now) 128) (edge_key cells.now) }
{
    let (whole, _) = cells.as_chunks::<8>();
    for j in 0..12 * whole.len().min(MOST_CELLS) {
        keys[j] = edge_key(&whole[j / 12], j % 12);
    }
}

// Puts the keys and rings of the faces as `edge_keys_into` does: a face has a ring beside its key, and an edge has none, so that each has a loop of its own.
pub fn face_keys_into(cells: &[u32], faces: &mut FaceKeys)
    ensures keys { faces.new.keys ≡ keys_in faces.old.keys (6 * min (cell_count cells.now) 128) (face_key cells.now) }
    ensures rings { faces.new.rings ≡ keys_in faces.old.rings (6 * min (cell_count cells.now) 128) (face_ring cells.now) }
{
    let (whole, _) = cells.as_chunks::<8>();
    for j in 0..6 * whole.len().min(MOST_CELLS) {
        let ring = face_nodes(&whole[j / 6], j % 6);
        faces.keys[j] = face_key(ring);
        faces.rings[j] = opposite(ring);
    }
}
