// hex.rs: `iso_surface` up to its triangles, where the surface of value zero cuts the twelve edges of a cube.
#![tactic(auto)]

ghost use Rattle.std.specs.Prelude.{◌≡◌, ◌+◌, ◌*◌, ◌<◌, set};
ghost use Rattle.numbers.specs.Bits.{bit};
ghost use Rattle.numbers.specs.Rule.{tabulate, grid};
ghost use Rattle.binary64.specs.Binary64.{◌!◌};
ghost use Rattle.hexahedron.specs.Cube.{hex_sign};
ghost use Rattle.hex_iso_mask.specs.Cut.{sign_index, mask_of};
ghost use Rattle.hex_iso.specs.Edges.{end_on, held_between, edge_on, iso_edges};

use hex_iso_position::{Cube, End};

// What `iso_surface` makes its triangles of: `cubeindex`, the mask `e0`, and three floats for each of the twelve edges.
#[derive(Drop)]
pub struct IsoEdges {
    pub index: u32,
    pub mask: u32,
    pub positions: [f64; 36],
}

// Corner i_node as an end of an edge. The table of signs is lent, so that it is laid out once and not for each end.
fn corner(signs: &[[f64; 3]; 8], corner_value: &[f64; 8], i_node: usize) -> End
    requires { (signs.now ≡ hex_sign) × (i_node < 8) }
    ensures { result ≡ end_on corner_value.now i_node }
{
    End {
        sign: signs[i_node],
        value: corner_value[i_node],
    }
}

// What an edge holds: three plus infinities, as the definition makes them, where the mask leaves it uncut.
fn vert(e0: u32, i_edge: usize, cube: Cube, end0: End, end1: End) -> [f64; 3]
    requires { i_edge < 12 }
    ensures { result ≡ tabulate 3 (held_between (bit e0 i_edge) cube.center cube.half_width end0 end1) }
{
    if (e0 >> i_edge) & 1 == 0 {
        return [1.0 / 0.0; 3];
    }
    cube.position(end0, end1)
}

// Stores what edge i_edge holds. C lends 36 floats in a row, and of rows that are lent out of them a proof would know no element afterwards.
fn put_vert(vertlist: &mut [f64; 36], i_edge: usize, p: [f64; 3])
    requires { i_edge < 12 }
    ensures { vertlist.new
        ≡ set (set (set vertlist.old (3 * i_edge + 0) (p ! 0)) (3 * i_edge + 1) (p ! 1)) (3 * i_edge + 2) (p ! 2) }
{
    vertlist[3 * i_edge + 0] = p[0];
    vertlist[3 * i_edge + 1] = p[1];
    vertlist[3 * i_edge + 2] = p[2];
}

// What each edge holds, edge by edge.
fn vert_list(cube: Cube, corner_value: [f64; 8], e0: u32, vertlist: &mut [f64; 36])
    requires { e0 ≡ mask_of (sign_index corner_value) }
    ensures { vertlist.new ≡ grid 12 3 (edge_on cube.center cube.half_width corner_value) }
{
    // in locals, so that the tables are laid out once and not for each edge
    let edge2node = hexahedron::edge2node();
    let signs = hexahedron::hex_sign();
    *vertlist = [1.0 / 0.0; 36];
    for (i_edge, &[i0_node, i1_node]) in edge2node.iter().enumerate() {
        let end0 = corner(&signs, &corner_value, i0_node);
        let end1 = corner(&signs, &corner_value, i1_node);
        let p = vert(e0, i_edge, cube, end0, end1);
        put_vert(vertlist, i_edge, p);
    }
}

// `iso_surface` up to its triangles: the positions go to `vertlist`, which C lends, and `cubeindex` is returned.
#[tactic(auto, using(hex_iso_mask::proofs::Cut::index_below))]
pub fn iso_edges_into(
    center: [f64; 3],
    half_width: f64,
    corner_value: [f64; 8],
    vertlist: &mut [f64; 36],
) -> u32
    ensures index { result ≡ (iso_edges center half_width corner_value).index }
    ensures byte { result < 256 }
    ensures positions { vertlist.new ≡ (iso_edges center half_width corner_value).positions }
{
    let cut = hex_iso_mask::iso_cut(corner_value);
    vert_list(
        Cube { center, half_width },
        corner_value,
        cut.mask,
        vertlist,
    );
    cut.index
}

// The same by value.
pub fn iso_edges(center: [f64; 3], half_width: f64, corner_value: [f64; 8]) -> IsoEdges
    ensures { result ≡ iso_edges center half_width corner_value }
{
    let cut = hex_iso_mask::iso_cut(corner_value);
    let mut positions = [0.0; 36];
    vert_list(
        Cube { center, half_width },
        corner_value,
        cut.mask,
        &mut positions,
    );
    IsoEdges {
        index: cut.index,
        mask: cut.mask,
        positions,
    }
}
