// The C face: what a simulator links as libisnemgul.a (include/isnemgul.h). Each function takes its arguments apart, calls the Rattle face
// and writes the answer. It returns 0 where it answered, and otherwise a refusal's number, and then no lent memory has changed: `Leaves`.
#![tactic(auto)]

ghost use Rattle.std.specs.Prelude.{◌≡◌, List, T, Float, length};
ghost use Rattle.answer.specs.Answer.{answered, Leaves, left, number_of};
ghost use Rattle.mat3_col_major.specs.Mat3.{transposed, product, det};
ghost use Rattle.mat3_inverse.specs.Inverse.{inverse};
ghost use Rattle.hex_shape.specs.Shape as Hex;
ghost use Rattle.hex_image.specs.Image as HexImage;
ghost use Rattle.hex_locate.specs.Locate.{inside, located as hex_located};
ghost use Rattle.hex_gradient.specs.Gradient.{gradient, shape_gradient};
ghost use Rattle.hex_weighted_gradient.specs.Weighted.{weighted_gradient};
ghost use Rattle.hex_volume.specs.Volume.{volume as hex_volume_of};
ghost use Rattle.hex_iso_mask.specs.Cut.{iso_mask};
ghost use Rattle.hex_iso_position.specs.Position.{iso_position};
ghost use Rattle.hex_iso.specs.Edges.{iso_edges};
ghost use Rattle.hex_children.specs.Children.{children as hex_children_of};
ghost use Rattle.probe.specs.Check.{checked, located_checked};
ghost use Rattle.probe.specs.Demand.{AcceptedIsNear, NearIsAccepted};
ghost use Rattle.proposals.specs.Judgements.{judgements, zeros_in};
ghost use Rattle.proposals.specs.Demand.{ZeroIsNear, NearIsZero, Each};
ghost use Rattle.prism_shape.specs.Shape as Prism;
ghost use Rattle.prism_image.specs.Image as PrismImage;
ghost use Rattle.prism_locate.specs.Locate.{located as prism_located};
ghost use Rattle.prism_volume.specs.Volume.{volume_answer as prism_volume_of};
ghost use Rattle.prism_children.specs.Children.{children as prism_children_of};
ghost use Rattle.descendant.specs.Place.{descended};
ghost use Rattle.hxm.specs.Reads.{counts as counts_of, coords_of, corners_of, mesh_into};
ghost use Rattle.hxm_write.specs.Writes.{length_of, file_into};
ghost use Rattle.volume_report.specs.Report.{report_into, volumes_in};
ghost use Rattle.volume_report.specs.Told.{summary_of, total_told, counts_told};
ghost use Rattle.refine.specs.Refine.{refined, children_in};

use cell::Point;
use proposals::Proposal;

#[unsafe(no_mangle)]
pub extern "C" fn isn_mat3_transpose(m: &[f64; 9], out: &mut [f64; 9]) -> u32
    ensures { (result ≡ 0) × (out.new ≡ transposed m.now) }
{
    *out = mat3_col_major::transpose(*m);
    0
}

#[unsafe(no_mangle)]
pub extern "C" fn isn_mat3_mult_vec(a: &[f64; 9], b: &[f64; 3], out: &mut [f64; 3]) -> u32
    ensures { (result ≡ 0) × (out.new ≡ product a.now b.now) }
{
    *out = mat3_col_major::mult_vec(*a, *b);
    0
}

#[unsafe(no_mangle)]
pub extern "C" fn isn_mat3_determinant(m: &[f64; 9], out: &mut f64) -> u32
    ensures { (result ≡ 0) × (out.new ≡ det m.now) }
{
    *out = mat3_col_major::determinant(*m);
    0
}

#[unsafe(no_mangle)]
pub extern "C" fn isn_mat3_try_inverse(m: &[f64; 9], out: &mut [f64; 9]) -> u32
    ensures { Leaves (inverse m.now) result out.old out.new }
{
    answer::put(mat3_inverse::try_inverse(*m), out)
}

#[unsafe(no_mangle)]
pub extern "C" fn isn_hex_shapefunc(pco: &[f64; 3], out: &mut [f64; 8]) -> u32
    ensures { (result ≡ 0) × (out.new ≡ Hex.shape pco.now) }
{
    *out = hex_shape::shapefunc(*pco);
    0
}

#[unsafe(no_mangle)]
pub extern "C" fn isn_hex_dndr(pco: &[f64; 3], out: &mut [f64; 24]) -> u32
    ensures { (result ≡ 0) × (out.new ≡ Hex.slopes pco.now) }
{
    *out = hex_shape::dndr(*pco);
    0
}

#[unsafe(no_mangle)]
pub extern "C" fn isn_hex_dxdr(corners: &[f64; 24], pco: &[f64; 3], out: &mut [f64; 9]) -> u32
    ensures { (result ≡ 0) × (out.new ≡ HexImage.jacobian_at corners.now pco.now) }
{
    hex_image::dxdr_into(corners, *pco, out);
    0
}

#[unsafe(no_mangle)]
pub extern "C" fn isn_hex_grad_shapefunc_from_dndr(
    corners: &[f64; 24],
    dndr: &[f64; 24],
    dndx: &mut [f64; 24],
    detjac: &mut f64,
) -> u32
    ensures { (result ≡ 0) × (dndx.new ≡ (gradient corners.now dndr.now).dndx)
        × (detjac.new ≡ (gradient corners.now dndr.now).detjac) }
{
    *detjac = hex_gradient::slopes_into(corners, dndr, dndx);
    0
}

#[unsafe(no_mangle)]
pub extern "C" fn isn_hex_dndx(
    corners: &[f64; 24],
    pco: &[f64; 3],
    shape: &mut [f64; 8],
    dndx: &mut [f64; 24],
    detjac: &mut f64,
) -> u32
    ensures { (result ≡ 0) × (shape.new ≡ (shape_gradient corners.now pco.now).shape)
        × (dndx.new ≡ (shape_gradient corners.now pco.now).dndx)
        × (detjac.new ≡ (shape_gradient corners.now pco.now).detjac) }
{
    let found = hex_gradient::dndx(*corners, pco[0], pco[1], pco[2]);
    let values = found.shape;
    let gradient = found.dndx;
    *shape = values;
    *dndx = gradient;
    *detjac = found.detjac;
    0
}

#[unsafe(no_mangle)]
pub extern "C" fn isn_hex_grad_shapefunc(
    corners: &[f64; 24],
    points: &[f64],
    i1: u32,
    i2: u32,
    i3: u32,
    dndx: &mut [f64; 24],
    detwei: &mut f64,
) -> u32
    ensures { Leaves (weighted_gradient corners.now points.now i1 i2 i3) result
        (dndx.old, detwei.old) (dndx.new, detwei.new) }
{
    answer::number_of(hex_weighted_gradient::weighted_gradient(
        corners,
        points,
        i1 as usize,
        i2 as usize,
        i3 as usize,
        dndx,
        detwei,
    ))
}

#[unsafe(no_mangle)]
pub extern "C" fn isn_hex_volume(corners: &[f64; 24], points: &[f64], out: &mut f64) -> u32
    ensures { Leaves (hex_volume_of corners.now points.now) result out.old out.new }
{
    answer::put(hex_volume::volume(*corners, points), out)
}

#[unsafe(no_mangle)]
pub extern "C" fn isn_hex_parametric_coord_for_origin(corners: &[f64; 24], at: &mut [f64; 3]) -> u32
    ensures { Leaves (hex_located corners.now) result at.old at.new }
{
    answer::put(hex_locate::newton(corners).place(), at)
}

#[unsafe(no_mangle)]
pub extern "C" fn isn_hex_iso_position_on_edge(
    center: &[f64; 3],
    half_width: f64,
    i0: u32,
    i1: u32,
    val0: f64,
    val1: f64,
    out: &mut [f64; 3],
) -> u32
    ensures { Leaves (iso_position center.now half_width i0 i1 val0 val1) result out.old out.new }
{
    let found = hex_iso_position::iso_position_on_edge(
        *center,
        half_width,
        i0 as usize,
        i1 as usize,
        val0,
        val1,
    );
    answer::put(found, out)
}

#[unsafe(no_mangle)]
pub extern "C" fn isn_hex_iso_edges(
    center: &[f64; 3],
    half_width: f64,
    values: &[f64; 8],
    index: &mut u32,
    positions: &mut [f64; 36],
) -> u32
    ensures { (result ≡ 0) × (index.new ≡ (iso_edges center.now half_width values.now).index)
        × (positions.new ≡ (iso_edges center.now half_width values.now).positions) }
{
    *index = hex_iso::iso_edges_into(*center, half_width, *values, positions);
    0
}

#[unsafe(no_mangle)]
pub extern "C" fn isn_hex_iso_mask(index: u32, mask: &mut u32) -> u32
    ensures { Leaves (iso_mask index) result mask.old mask.new }
{
    answer::put(hex_iso_mask::iso_mask(index), mask)
}

#[unsafe(no_mangle)]
pub extern "C" fn isn_hex_subdivide(
    corner: &[u32; 8],
    edge: &[u32; 12],
    quad: &[u32; 6],
    center: u32,
    out: &mut [u32; 64],
) -> u32
    ensures { (result ≡ 0) × (out.new ≡ hex_children_of corner.now edge.now quad.now center) }
{
    *out = hex_children::subdivide(*corner, *edge, *quad, center);
    0
}

#[unsafe(no_mangle)]
pub extern "C" fn isn_hex_check(corners: &[f64; 24], at: &[f64; 3], tolerance: f64) -> u32
    ensures value { result ≡ number_of (checked corners.now at.now tolerance) }
    ensures sound { AcceptedIsNear (result ≡ 0) corners.now at.now tolerance }
    ensures complete { T (inside at.now) → NearIsAccepted (result ≡ 0) corners.now at.now tolerance }
{
    let place = Point {
        x: at[0],
        y: at[1],
        z: at[2],
    };
    answer::number_of(probe::judge(corners, place, tolerance))
}

#[unsafe(no_mangle)]
#[tactic(auto, using(crate::proofs::Demand::locate_told))]
pub extern "C" fn isn_hex_locate_checked(
    corners: &[f64; 24],
    tolerance: f64,
    at: &mut [f64; 3],
) -> u32
    ensures leaves { Leaves (located_checked corners.now tolerance) result at.old at.new }
    ensures sound { AcceptedIsNear (result ≡ 0) corners.now at.new tolerance }
    ensures complete { (q : List Float) → hex_located corners.now ≡ answered q
        → NearIsAccepted ((result ≡ 0) × (at.new ≡ q)) corners.now q tolerance }
{
    answer::put(probe::locate_checked(*corners, tolerance), at)
}

#[unsafe(no_mangle)]
pub extern "C" fn isn_hex_check_proposals(
    corners: &[f64; 24],
    list: &[Proposal],
    out: &mut [u32],
    accepted: &mut u32,
) -> u32
    ensures answer { Leaves (zeros_in (judgements corners.now list.now (length out.old))) result
        accepted.old accepted.new }
    ensures output { out.new ≡ left (judgements corners.now list.now (length out.old)) out.old }
    ensures sound { result ≡ 0 → Each ZeroIsNear corners.now list.now out.new }
    ensures complete { result ≡ 0 → Each NearIsZero corners.now list.now out.new }
{
    answer::put(proposals::check_proposals(*corners, list, out), accepted)
}

#[unsafe(no_mangle)]
pub extern "C" fn isn_prism_shapefunc(pco: &[f64; 3], out: &mut [f64; 6]) -> u32
    ensures { (result ≡ 0) × (out.new ≡ Prism.shape pco.now) }
{
    *out = prism_shape::shapefunc(*pco);
    0
}

#[unsafe(no_mangle)]
pub extern "C" fn isn_prism_dndr(pco: &[f64; 3], out: &mut [f64; 18]) -> u32
    ensures { (result ≡ 0) × (out.new ≡ Prism.slopes pco.now) }
{
    *out = prism_shape::dndr(*pco);
    0
}

#[unsafe(no_mangle)]
pub extern "C" fn isn_prism_dxdr(corners: &[f64; 18], pco: &[f64; 3], out: &mut [f64; 9]) -> u32
    ensures { (result ≡ 0) × (out.new ≡ PrismImage.jacobian_at corners.now pco.now) }
{
    prism_image::dxdr_into(corners, *pco, out);
    0
}

#[unsafe(no_mangle)]
pub extern "C" fn isn_prism_volume(
    corners: &[f64; 18],
    line: &[f64],
    triangle: &[f64],
    out: &mut f64,
) -> u32
    ensures { Leaves (prism_volume_of corners.now line.now triangle.now) result out.old out.new }
{
    answer::put(prism_volume::volume(*corners, line, triangle), out)
}

#[unsafe(no_mangle)]
pub extern "C" fn isn_prism_parametric_coord_for_origin(
    corners: &[f64; 18],
    at: &mut [f64; 3],
) -> u32
    ensures { Leaves (prism_located corners.now) result at.old at.new }
{
    answer::put(prism_locate::newton(corners).place(), at)
}

#[unsafe(no_mangle)]
pub extern "C" fn isn_prism_subdivide(
    corner: &[u32; 6],
    edge: &[u32; 9],
    quad: &[u32; 3],
    out: &mut [u32; 48],
) -> u32
    ensures { (result ≡ 0) × (out.new ≡ prism_children_of corner.now edge.now quad.now) }
{
    *out = prism_children::subdivide(*corner, *edge, *quad);
    0
}

#[unsafe(no_mangle)]
pub extern "C" fn isn_refine(n: u32, cells: &[u32], out: &mut [u32], next: &mut u32) -> u32
    ensures answer { Leaves (refined n cells.now (length out.old)) result next.old next.new }
    ensures output { out.new ≡ left (children_in (refined n cells.now (length out.old)) n cells.now)
        out.old }
{
    answer::put(refine::refine(n, cells, out), next)
}

#[unsafe(no_mangle)]
pub extern "C" fn isn_descendant(path: &[u32], corner: u32, out: &mut [i32; 3]) -> u32
    ensures { Leaves (descended path.now corner) result out.old out.new }
{
    answer::put(descendant::descendant(path, corner), out)
}

#[unsafe(no_mangle)]
pub extern "C" fn isn_hxm_read(
    bytes: &[u8],
    nodes: &mut [u64],
    cells: &mut [u32],
    counts: &mut [u32; 2],
) -> u32
    ensures answer { Leaves (counts_of (mesh_into (length nodes.old) (length cells.old) bytes.now)) result
        counts.old counts.new }
    ensures coords { nodes.new ≡ left (coords_of (mesh_into (length nodes.old) (length cells.old) bytes.now))
        nodes.old }
    ensures corners { cells.new ≡ left (corners_of (mesh_into (length nodes.old) (length cells.old) bytes.now))
        cells.old }
{
    answer::put(hxm::read(bytes, nodes, cells).map(<[u32; 2]>::from), counts)
}

#[unsafe(no_mangle)]
pub extern "C" fn isn_hxm_write(nodes: &[u64], cells: &[u32], out: &mut [u8], size: &mut u32) -> u32
    ensures answer { Leaves (length_of (file_into (length out.old) nodes.now cells.now)) result
        size.old size.new }
    ensures output { out.new ≡ left (file_into (length out.old) nodes.now cells.now) out.old }
{
    answer::put(hxm_write::write(nodes, cells, out), size)
}

#[unsafe(no_mangle)]
pub extern "C" fn isn_volume_report(
    bytes: &[u8],
    volumes: &mut [i64],
    total: &mut i64,
    counts: &mut [u32; 2],
) -> u32
    ensures sum { Leaves (total_told (summary_of (report_into (length volumes.old) bytes.now))) result
        total.old total.new }
    ensures cells { Leaves (counts_told (summary_of (report_into (length volumes.old) bytes.now))) result
        counts.old counts.new }
    ensures output { volumes.new ≡ left (volumes_in (report_into (length volumes.old) bytes.now)) volumes.old }
{
    match volume_report::report(bytes, volumes) {
        Ok(summary) => {
            *total = summary.total;
            *counts = [summary.cells, summary.first];
            0
        }
        Err(refusal) => refusal.number(),
    }
}
