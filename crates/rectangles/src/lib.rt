// The rectangle of a face: the least box around all points of edges with that face on a side.
#![tactic(auto)]

ghost use Rattle.std.specs.Prelude.{◌≡◌, [], ◌∷◌, ◌+◌, ◌*◌, ◌≤◌, pos, nat_abs, length};
ghost use Rattle.std.proofs.Math.Seq.{paste};
ghost use Rattle.lists.specs.Scans.{fold};
ghost use Rattle.lists.specs.Tables.{sweep};
ghost use Rattle.bounding_boxes.specs.Extents.{widen};
ghost use Rattle.map.specs.Limits.{face_width};
ghost use Rattle.map.specs.Rows.{borders, boundary, rectangle};
ghost use Rattle.map_rows.specs.Rows.{EdgeRow, EdgesInRange, edge_at, edges_of};
ghost use Rattle.rectangles.specs.Boxes.{boundary_box, settled_box, Bounded, box_cells, set_row, set_face, set_two};

use bounding_boxes::Extent;
use map::Map;

// One more than the greatest coordinate.
pub const BEYOND: u64 = Map::COORDINATE as u64 + 1;

// No point yet: every point is left of it and below.
pub const NO_POINT: Extent = Extent {
    left: BEYOND,
    right: 0,
    low: BEYOND,
    high: 0,
};

// Of face 0, and of a face with no edge.
pub const ZEROS: Extent = Extent {
    left: 0,
    right: 0,
    low: 0,
    high: 0,
};

// Whether edge row i has the face on a side.
fn borders(edges: &[i64], i: usize, face: i64) -> bool
    requires { EdgeRow edges.now i × (face ≡ pos (nat_abs face)) }
    ensures { result ≡ borders (nat_abs face) (edge_at edges.now i) }
{
    let left = edges[i * map::EDGE_WIDTH + map::LEFT];
    let right = edges[i * map::EDGE_WIDTH + map::RIGHT];
    left == face || right == face
}

// The box with the points of edge row i, where that has the face on a side.
fn with_edge(e: Extent, edges: &[i64], i: usize, face: i64) -> Extent
    requires { EdgeRow edges.now i × (face ≡ pos (nat_abs face)) }
    ensures { result ≡ fold widen e (boundary (edge_at edges.now i ∷ []) (nat_abs face)) }
{
    if borders(edges, i, face) {
        e.united(bounding_boxes::extent_of(map_rows::curve_of(edges, i)))
    } else {
        e
    }
}

// The boxes around the boundaries of two faces, in one pass over the edges.
fn boundary_boxes(edges: &[i64], count: usize, a: i64, b: i64) -> (Extent, Extent)
    requires { EdgesInRange edges.now count × (a ≡ pos (nat_abs a)) × (b ≡ pos (nat_abs b)) }
    ensures { (result.0 ≡ boundary_box (edges_of edges.now count) (nat_abs a))
        × (result.1 ≡ boundary_box (edges_of edges.now count) (nat_abs b)) }
{
    let mut first = NO_POINT;
    let mut second = NO_POINT;
    for i in 0..count {
        first = with_edge(first, edges, i, a);
        second = with_edge(second, edges, i, b);
    }
    (first, second)
}

// The box of a boundary as a rectangle: four zeros where it has no point.
fn settled(e: Extent) -> Extent
    ensures { result ≡ settled_box e }
{
    if e.right < e.left { ZEROS } else { e }
}

// The numbers of a rectangle, from place `at` on.
fn write_box(faces: &mut [i64], at: usize, e: Extent)
    requires { (at + 4 ≤ length faces.old) × Bounded e }
    ensures { faces.new ≡ paste faces.old at (box_cells e) 4 }
{
    let row = [e.left as i64, e.low as i64, e.right as i64, e.high as i64];
    tables::write(faces, at, &row);
}

// The rectangle in the row of a face; the other rows stay.
fn write_rectangle(faces: &mut [i64], n: usize, face: i64, e: Extent)
    requires { (n * face_width ≤ length faces.old) × Bounded e }
    ensures { faces.new ≡ sweep (set_row face e) faces.old 0 n }
{
    for k in 0..n {
        if faces[k * map::FACE_WIDTH] == face {
            write_box(faces, k * map::FACE_WIDTH + map::LEAST_X, e);
        }
    }
}

// The rectangle of a face by the box around its boundary; face 0 has none.
fn set_rectangle(faces: &mut [i64], n: usize, face: i64, e: Extent)
    requires { (n * face_width ≤ length faces.old) × (face ≡ pos (nat_abs face)) × Bounded e }
    ensures { faces.new ≡ set_face n (nat_abs face) (settled_box e) faces.old }
{
    if face != 0 {
        write_rectangle(faces, n, face, settled(e));
    }
}

// Sets the rectangles of two faces; face 0 has none, and a face that is not there changes nothing.
pub fn set_rectangles(edges: &[i64], count: usize, faces: &mut [i64], n: usize, a: i64, b: i64)
    requires { EdgesInRange edges.now count × (n * face_width ≤ length faces.old)
        × (a ≡ pos (nat_abs a)) × (b ≡ pos (nat_abs b)) }
    ensures { faces.new ≡ set_two n (rectangle (edges_of edges.now count)) (nat_abs a) (nat_abs b)
        faces.old }
{
    if a == 0 && b == 0 {
        return;
    }
    let (first, second) = boundary_boxes(edges, count, a, b);
    set_rectangle(faces, n, a, first);
    set_rectangle(faces, n, b, second);
}
