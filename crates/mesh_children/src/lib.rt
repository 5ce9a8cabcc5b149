// The children of a mesh's cells, from lists of their nodes and of the numbers that their edges, faces and centres have.
#![tactic(auto)]

ghost use Rattle.std.specs.Prelude.{◌≡◌, length};
ghost use Rattle.answer.specs.Answer.{answered, left};
ghost use Rattle.hex_children.specs.Children.{children};
ghost use Rattle.mesh_children.specs.MeshChildren.{children_by};

// Writes one cell's children into the part of the output that is theirs.
fn write_children(part: &mut [u32], corner: [u32; 8], edge: [u32; 12], quad: [u32; 6], center: u32)
    requires { length part.old ≡ 64 }
    ensures { part.new ≡ children corner edge quad center }
{
    let children = hex_children::subdivide(corner, edge, quad, center);
    part.copy_from_slice(&children);
}

// Writes the children of each cell into its part of the output, of as many cells as every list has and the output has room for.
pub fn write_cells(cells: &[u32], edges: &[u32], faces: &[u32], centers: &[u32], out: &mut [u32])
    ensures { out.new ≡
        left (answered (children_by cells.now edges.now faces.now centers.now (length out.old)))
        out.old }
{
    let (corners, _) = cells.as_chunks::<8>();
    let (edges, _) = edges.as_chunks::<12>();
    let (quads, _) = faces.as_chunks::<6>();
    let numbered = edges.len().min(quads.len()).min(centers.len());
    let count = corners.len().min(numbered).min(out.len() / 64);
    // By index: of a list that an iterator writes a proof knows the length alone.
    for c in 0..count {
        let start = 64 * c;
        let end = start + 64;
        write_children(
            &mut out[start..end],
            corners[c],
            edges[c],
            quads[c],
            centers[c],
        );
    }
}
