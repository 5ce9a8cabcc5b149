// Whether the function that a record names answers its input words as was stored.
ghost use Rattle.std.specs.Prelude.{◌+◌, ◌<◌, ◌≤◌, length};

use crate::record::Record;
use cell::Point;

fn hex_grad_shapefunc_from_dndr(stored: &Record) -> bool {
    let found = hex_gradient::grad_shapefunc_from_dndr(stored.values(0), stored.values(24));
    stored.gives(0, &found.dndx) & stored.gives(24, &[found.detjac])
}

fn hex_dndx(stored: &Record) -> bool {
    let [r, s, t]: [f64; 3] = stored.values(24);
    let found = hex_gradient::dndx(stored.values(0), r, s, t);
    stored.gives(0, &found.shape) & stored.gives(8, &found.dndx) & stored.gives(32, &[found.detjac])
}

// No stored list has more than 72 numbers; its length stands in the word before it.
fn hex_grad_shapefunc(stored: &Record) -> bool {
    let n = stored.length(24, 72);
    let points: [f64; 72] = stored.values(25);
    let [i1, i2, i3]: [u32; 3] = stored.values(25 + n);
    match hex_weighted_gradient::grad_shapefunc(
        stored.values(0),
        &points[..n],
        i1 as usize,
        i2 as usize,
        i3 as usize,
    ) {
        Ok(found) => {
            let (dndx, detwei) = found;
            stored.gives(0, &dndx) & stored.gives(24, &[detwei])
        }
        Err(refusal) => stored.refuses(refusal),
    }
}

fn hex_volume(stored: &Record) -> bool {
    let n = stored.length(24, 72);
    let points: [f64; 72] = stored.values(25);
    let found = hex_volume::volume(stored.values(0), &points[..n]);
    stored.answers(found.map(|volume| [volume]))
}

fn hex_iso_position_on_edge(stored: &Record) -> bool {
    let [i0, i1]: [u32; 2] = stored.values(4);
    stored.answers(hex_iso_position::iso_position_on_edge(
        stored.values(0),
        stored.value(3),
        i0 as usize,
        i1 as usize,
        stored.value(6),
        stored.value(7),
    ))
}

fn hex_iso_edges(stored: &Record) -> bool {
    let found = hex_iso::iso_edges(stored.values(0), stored.value(3), stored.values(4));
    stored.gives(0, &[found.index]) & stored.gives(1, &found.positions)
}

fn hex_subdivide(stored: &Record) -> bool {
    let found = hex_children::subdivide(
        stored.values(0),
        stored.values(8),
        stored.values(20),
        stored.value(26),
    );
    stored.gives(0, &found)
}

fn prism_volume(stored: &Record) -> bool {
    let n = stored.length(18, 72);
    let line: [f64; 72] = stored.values(19);
    let m = stored.length(19 + n, 72);
    let triangle: [f64; 72] = stored.values(20 + n);
    let found = prism_volume::volume(stored.values(0), &line[..n], &triangle[..m]);
    stored.answers(found.map(|volume| [volume]))
}

fn prism_subdivide(stored: &Record) -> bool {
    let found = prism_children::subdivide(stored.values(0), stored.values(6), stored.values(15));
    stored.gives(0, &found)
}

fn hex_check(stored: &Record) -> bool {
    let [x, y, z]: [f64; 3] = stored.values(24);
    match probe::check(stored.values(0), Point { x, y, z }, stored.value(27)) {
        Ok(()) => stored.gives::<f64>(0, &[]),
        Err(refusal) => stored.refuses(refusal),
    }
}

// Whether a record is answered as it was. A record names its function by a number.
pub fn agrees(stored: &Record) -> bool {
    match stored.function() {
        1 => stored.gives(0, &mat3_col_major::transpose(stored.values(0))),
        2 => stored.gives(
            0,
            &mat3_col_major::mult_vec(stored.values(0), stored.values(9)),
        ),
        3 => stored.gives(0, &[mat3_col_major::determinant(stored.values(0))]),
        4 => stored.answers(mat3_inverse::try_inverse(stored.values(0))),
        5 => stored.gives(0, &hex_shape::shapefunc(stored.values(0))),
        6 => stored.gives(0, &hex_shape::dndr(stored.values(0))),
        7 => stored.gives(0, &hex_image::dxdr(stored.values(0), stored.values(24))),
        8 => hex_grad_shapefunc_from_dndr(stored),
        9 => hex_dndx(stored),
        10 => hex_grad_shapefunc(stored),
        11 => hex_volume(stored),
        12 => stored.answers(hex_locate::parametric_coord_for_origin(stored.values(0)).place()),
        13 => hex_iso_position_on_edge(stored),
        14 => hex_iso_edges(stored),
        15 => stored.answers(hex_iso_mask::iso_mask(stored.value(0)).map(|mask| [mask])),
        16 => hex_subdivide(stored),
        17 => stored.gives(0, &prism_shape::shapefunc(stored.values(0))),
        18 => stored.gives(0, &prism_shape::dndr(stored.values(0))),
        19 => stored.gives(0, &prism_image::dxdr(stored.values(0), stored.values(18))),
        20 => prism_volume(stored),
        21 => stored.answers(prism_locate::parametric_coord_for_origin(stored.values(0)).place()),
        22 => prism_subdivide(stored),
        23 => hex_check(stored),
        24 => stored.answers(probe::locate_checked(stored.values(0), stored.value(24))),
        _ => false,
    }
}
