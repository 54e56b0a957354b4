// Of condition 2: each face has the rectangle that the edges give. One pass over the edges widens the boxes of the
// faces on their sides, whose rows are given for each directed edge: `bears`.
#![tactic(auto)]

ghost use Rattle.std.specs.Prelude.{◌≡◌, cond, ◌||◌, ℕ, ◌+◌, ◌*◌, ◌≤◌, ◌<◌, length, get_or, replicate};
ghost use Rattle.std.proofs.Math.Seq.{paste};
ghost use Rattle.lists.specs.Tests.{same};
ghost use Rattle.lists.specs.Scans.{all_of};
ghost use Rattle.lists.specs.Tables.{table};
ghost use Rattle.tables.specs.Tables.{rows, row_at};
ghost use Rattle.bounding_boxes.specs.Extents.{extent_of, union};
ghost use Rattle.map.specs.Limits.{face_width, max_edges, max_faces};
ghost use Rattle.map.specs.Rows.{rectangle};
ghost use Rattle.map.specs.Form.{has_box};
ghost use Rattle.map_rows.specs.Rows.{EdgeRow, EdgeRows, FaceRows, edge_at, edges_of, face_at};
ghost use Rattle.darts.specs.Positions.{RowsNamed};
ghost use Rattle.rectangles.specs.Boxes.{no_point, boundary_box, Bounded};
ghost use Rattle.form_rectangles.specs.Merged.{box_in, settled_for, row_fits};

use bounding_boxes::Extent;
use map::Map;
use rectangles::{NO_POINT, ZEROS};

// The first n boxes have no point.
fn empty_boxes(boxes: &mut [Extent; Map::FACES], n: usize)
    requires { n ≤ max_faces }
    ensures { boxes.new ≡ paste boxes.old 0 (replicate n no_point) n }
{
    boxes[..n].fill(NO_POINT);
}

// The boxes of rows a and b take in the curve of edge row i.
fn take_curve(boxes: &mut [Extent; Map::FACES], edges: &[i64], i: usize, a: usize, b: usize)
    requires { EdgeRow edges.now i × (a < max_faces) × (b < max_faces) }
    ensures { (j : ℕ) → box_in boxes.new j
        ≡ cond (same j a || same j b)
        (union (box_in boxes.old j) (extent_of (edge_at edges.now i).curve))
        (box_in boxes.old j) }
{
    let e = bounding_boxes::extent_of(map_rows::curve_of(edges, i));
    boxes[a] = boxes[a].united(e);
    if a != b {
        boxes[b] = boxes[b].united(e);
    }
}

// The boxes of all faces take in the curves of the edges that they border.
fn take_edges(boxes: &mut [Extent; Map::FACES], edges: &[i64], count: usize, bears: &[u16])
    requires { EdgeRows edges.now count × (count ≤ max_edges) × (count * 2 ≤ length bears.now)
        × ((p : ℕ) → p < count * 2 → get_or bears.now p 0 < max_faces) }
    ensures { (faces : _) (n : ℕ) → FaceRows faces n → n ≤ max_faces
        → ((j : ℕ) → j < n → box_in boxes.old j ≡ no_point)
        → RowsNamed face_width faces n edges.now 5 bears.now (count * 2)
        → (k : ℕ) → k < n
        → box_in boxes.new k
        ≡ boundary_box (edges_of edges.now count) (face_at faces k) }
{
    for i in 0..count {
        let left = usize::from(bears[i * 2]);
        let right = usize::from(bears[i * 2 + 1]);
        take_curve(boxes, edges, i, left, right);
    }
}

// The rectangle of face row k by its box: four zeros for face 0, and where the box has no point.
fn settled(boxes: &[Extent; Map::FACES], faces: &[i64], k: usize) -> Extent
    requires { (k < max_faces) × (k * face_width + face_width ≤ length faces.now) }
    ensures { result ≡ settled_for (face_at faces.now k) (box_in boxes.now k) }
{
    let e = boxes[k];
    if (faces[k * map::FACE_WIDTH] == 0) | (e.right < e.left) {
        return ZEROS;
    }
    e
}

// Whether face row k has this rectangle.
fn has_box(faces: &[i64], k: usize, e: Extent) -> bool
    requires { (k < max_faces) × (k * face_width + face_width ≤ length faces.now) × Bounded e }
    ensures { result ≡ has_box (λ f. e) (row_at face_width faces.now k) }
{
    let a = k * map::FACE_WIDTH;
    (faces[a + map::LEAST_X] == e.left as i64)
        & (faces[a + map::LEAST_Y] == e.low as i64)
        & (faces[a + map::GREATEST_X] == e.right as i64)
        & (faces[a + map::GREATEST_Y] == e.high as i64)
}

// Whether each face row has the rectangle of its box.
fn rows_fit(boxes: &[Extent; Map::FACES], faces: &[i64], n: usize) -> bool
    requires { (n ≤ max_faces) × (n * face_width ≤ length faces.now)
        × ((k : ℕ) → k < n → Bounded (box_in boxes.now k)) }
    ensures { result ≡ all_of (row_fits faces.now boxes.now)
        (table (λ k. k) 0 n) }
{
    for k in 0..n {
        if !has_box(faces, k, settled(boxes, faces, k)) {
            return false;
        }
    }
    true
}

// Whether each face has the rectangle that the edges give.
pub fn rectangles_fit(edges: &[i64], count: usize, faces: &[i64], n: usize, bears: &[u16]) -> bool
    requires { EdgeRows edges.now count × FaceRows faces.now n × (count ≤ max_edges) × (n ≤ max_faces)
        × (count * 2 ≤ length bears.now)
        × RowsNamed face_width faces.now n edges.now 5 bears.now (count * 2) }
    ensures { result ≡ all_of (has_box (rectangle (edges_of edges.now count)))
        (rows face_width n faces.now) }
{
    let mut boxes = [ZEROS; Map::FACES];
    empty_boxes(&mut boxes, n);
    take_edges(&mut boxes, edges, count, bears);
    rows_fit(&boxes, faces, n)
}
