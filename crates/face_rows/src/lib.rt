// Faces split and healed in all rows that name them.
#![tactic(auto)]

ghost use Rattle.std.specs.Prelude.{◌≡◌, true, cond, not, ◌&&◌, ℕ, suc, ◌+◌, ◌*◌, ◌-◌, ◌≤◌, ◌<◌, min, pos, nat_abs, length};
ghost use mathlib.Core.List.{[], ◌∷◌, ◌++◌, flat_map};
ghost use Rattle.std.specs.Int.Signed.{non_neg};
ghost use Rattle.integers.specs.Order.{sgn};
ghost use Rattle.lists.specs.Tests.{same, bit};
ghost use Rattle.tables.specs.Tables.{filled};
ghost use Rattle.plane.specs.Areas.{is_positive};
ghost use Rattle.bounding_boxes.specs.declared.Extent.{Extent};
ghost use Rattle.map.specs.Limits.{max_edges, last_number, face_width};
ghost use Rattle.map.specs.Rows.{Edge, Map, node_cells, edge_cells, map_of, box_of, counts};
ghost use Rattle.map.specs.Darts.{ring};
ghost use Rattle.map.specs.Faces.{ring_area};
ghost use Rattle.map.specs.Edits.{is_new, shared_out, split_face, renamed_faces};
ghost use Rattle.map.specs.Loans.{lent_now};
ghost use Rattle.map_rows.specs.Rows.{NodeRows, EdgeRows, nodes_of, edges_of, faces_of, faces_in, edge_at};
ghost use Rattle.lent_rows.specs.Lent.{drawn};
ghost use Rattle.head.specs.Heads.{Counted, changed_head};
ghost use Rattle.darts.specs.Positions.{dart_at};
ghost use Rattle.face_relabel.specs.Sharing.{ShareableFace, Ringed};
ghost use Rattle.face_rows.specs.Holds.{FaceTable, SomeTable, Unboxed, Blank, without_face, RowSplittable};
ghost use Rattle.face_rows.specs.Holds.{RowsHealable, Splittable, Healable, TablesOf, shares_in, sides_of};
ghost use Rattle.face_rows.specs.Holds.{split_faces, heal_faces, sides_alone, face_kept, merged_sides};

use face_relabel::Sides;
use lent_rows::Edges;
use map::{Counts, Head, Variant};
use outcomes::Carried;

// ---- leaves

// The old face goes: it takes new numbers, and is not face 0.
fn face_goes(how: Variant, old: i64) -> bool
    requires { old ≡ pos (nat_abs old) }
    ensures { result ≡ (is_new how && not (same (nat_abs old) 0)) }
{
    (how == Variant::New) & (old != 0)
}

// The head with a face more, and one or two numbers given.
fn with_face(h: Head, goes: bool) -> Head
    requires { Counted h }
    ensures { result ≡ changed_head h (counts 0 0 1) (counts 0 0 0) (counts 0 0 (cond goes 2 1)) }
{
    let given = Counts {
        nodes: 0,
        edges: 0,
        faces: 1 + goes as usize,
    };
    head::changed(h, head::FACE, head::NONE, given)
}

// The head with a face less, and a number given where one is made.
fn without_face(h: Head, makes: bool) -> Head
    requires { Counted h × (1 ≤ nat_abs h.faces) }
    ensures { result ≡ changed_head h (counts 0 0 0) (counts 0 0 1) (counts 0 0 (bit makes)) }
{
    let given = Counts {
        nodes: 0,
        edges: 0,
        faces: makes as usize,
    };
    head::changed(h, head::NONE, head::FACE, given)
}

// ---- the face table

// The face's row goes, where it has one.
fn remove_face(faces: &mut [i64], count: usize, face: i64)
    requires { SomeTable faces.old count × (non_neg face ≡ true) }
    ensures { (box : ℕ → Extent)
        → FaceTable (length faces.old) box (faces_of faces.old count) faces.old
        → FaceTable (length faces.old) box
        (without_face (nat_abs face) (faces_of faces.old count)) faces.new }
{
    if let Some(i) = tables::find_row(faces, map::FACE_WIDTH, count, face) {
        tables::remove_row(faces, map::FACE_WIDTH, count, i);
    }
}

// A face after the last; it has no rectangle yet.
fn push_face(faces: &mut [i64], count: usize, face: i64)
    requires { (count * face_width + face_width ≤ length faces.old) × (non_neg face ≡ true)
        × Blank faces.old count (nat_abs face) }
    ensures { (length faces.new ≡ length faces.old)
        × ((box : ℕ → Extent) → box (nat_abs face) ≡ box_of []
        → faces_in (length faces.old) box (faces_of faces.old count) ≡ faces.old
        → faces_in (length faces.old) box (faces_of faces.old count ++ nat_abs face ∷ [])
        ≡ faces.new) }
{
    faces[count * map::FACE_WIDTH] = face;
}

// The faces after a split: `a` and the number after it for the old face, or `a` beside it.
fn split_row(faces: &mut [i64], count: usize, old: i64, a: i64, goes: bool)
    requires { RowSplittable faces.old count old a }
    ensures { (box : ℕ → Extent) → Unboxed box (nat_abs a)
        → FaceTable (length faces.old) box (faces_of faces.old count) faces.old
        → faces_in (length faces.old) box
        (split_faces goes (nat_abs old) (nat_abs a) (faces_of faces.old count)) ≡ faces.new }
{
    if goes {
        remove_face(faces, count, old);
        push_face(faces, count - 1, a);
        push_face(faces, count, a + 1);
    } else {
        push_face(faces, count, a);
    }
}

// The faces after a heal: `face` for both, or the lower alone.
fn heal_row(faces: &mut [i64], count: usize, left: i64, right: i64, face: i64, makes: bool)
    requires { RowsHealable faces.old count left right face makes }
    ensures { (box : ℕ → Extent) → (makes ≡ true → box (nat_abs face) ≡ box_of [])
        → FaceTable (length faces.old) box (faces_of faces.old count) faces.old
        → faces_in (length faces.old) box
        (heal_faces makes left right (nat_abs face) (faces_of faces.old count)) ≡ faces.new }
{
    if makes {
        remove_face(faces, count, left);
        remove_face(faces, count - 1, right);
        push_face(faces, count - 2, face);
    } else {
        remove_face(faces, count, left.max(right));
    }
}

// ---- kinds 11 and 12: a face split

// The sides of the last edge: the reference side is left if the left ring's doubled area is positive, else right.
fn sides_of(edges: Edges<'_>, old: i64, a: i64, goes: bool) -> Sides
    requires { (1 ≤ edges.count) × (edges.count ≤ max_edges) × (a ≡ pos (nat_abs a))
        × (nat_abs a ≤ suc last_number) }
    ensures { result ≡ sides_of (is_positive
        (sgn (ring_area (drawn edges.entry)
        (ring (drawn edges.entry) (dart_at edges.entry.rows.now ((edges.entry.count - 1) * 2)))))) goes
        ((edges.entry.count - 1) * 2) old a }
{
    let p = (edges.count - 1) * 2;
    let is_left = 0 < rings::ring_area(edges, p);
    let b = if goes { a + 1 } else { old };
    let (inside, other) = if is_left | !goes { (a, b) } else { (b, a) };
    Sides {
        old,
        ring: p + !is_left as usize,
        inside,
        other,
    }
}

// All rows that named the old face.
fn share_rows(nodes: &mut [i64], n: usize, edges: &mut [i64], count: usize, s: Sides)
    requires { ShareableFace nodes.old n edges.old count s × Ringed edges.old count
        × (filled (length nodes.old) (flat_map node_cells (nodes_of nodes.old n)) ≡ nodes.old)
        × (filled (length edges.old) (flat_map edge_cells (edges_of edges.old count)) ≡ edges.old) }
    ensures { (m : Map) → m.nodes ≡ nodes_of nodes.old n → m.edges
        ≡ edges_of edges.old count
        → (filled (length nodes.old)
        (flat_map node_cells (shared_out (shares_in m (dart_at edges.old s.ring) s) m).nodes)
        ≡ nodes.new) × (filled (length edges.old)
        (flat_map edge_cells (shared_out (shares_in m (dart_at edges.old s.ring) s) m).edges)
        ≡ edges.new) }
{
    face_relabel::share_nodes(nodes, n, edges, count, s);
    face_relabel::share_edges(nodes, n, edges, count, s, darts::reverse(s.ring));
}

// Splits the face of the last edge; `old` is the face on both its sides.
pub fn split_face(
    nodes: &mut [i64],
    edges: &mut [i64],
    faces: &mut [i64],
    h: Head,
    how: Variant,
    old: i64,
) -> Head
    requires { Splittable nodes.old edges.old faces.old h old }
    ensures { (box : ℕ → Extent) → Unboxed box (nat_abs h.next_face)
        → FaceTable (length faces.old) box (faces_of faces.old (nat_abs h.faces))
        faces.old
        → TablesOf box nodes.old edges.old faces.old h
        (split_face how (edge_at edges.old (nat_abs h.edges - 1)).number
        (map_of (lent_now nodes.old edges.old faces.old h))) nodes.new
        edges.new faces.new result }
{
    let n = head::counts_of(h);
    let a = h.next_face;
    let goes = face_goes(how, old);
    let drawn = Edges {
        rows: edges,
        count: n.edges,
    };
    let s = sides_of(drawn, old, a, goes);
    share_rows(nodes, n.nodes, edges, n.edges, s);
    split_row(faces, n.faces, old, a, goes);
    with_face(h, goes)
}

// ---- kinds 13 and 14: two faces healed

// The face that is left: a new one, or the lower.
fn face_left(next: i64, left: i64, right: i64, makes: bool) -> i64
    requires { (next ≡ pos (nat_abs next)) × (left ≡ pos (nat_abs left)) × (right ≡ pos (nat_abs right)) }
    ensures { result ≡ pos (cond makes (nat_abs next) (min (nat_abs left) (nat_abs right))) }
{
    if makes { next } else { left.min(right) }
}

// `face` for left and right in all rows of nodes and edges.
fn rename_faces(
    nodes: &mut [i64],
    n: usize,
    edges: &mut [i64],
    count: usize,
    left: i64,
    right: i64,
    face: i64,
)
    requires { NodeRows nodes.old n × EdgeRows edges.old count
        × (filled (length nodes.old) (flat_map node_cells (nodes_of nodes.old n)) ≡ nodes.old)
        × (filled (length edges.old) (flat_map edge_cells (edges_of edges.old count)) ≡ edges.old)
        × (left ≡ pos (nat_abs left)) × (right ≡ pos (nat_abs right)) × (face ≡ pos (nat_abs face)) }
    ensures { (row : Edge) (m : Map) → row.left ≡ nat_abs left → row.right ≡ nat_abs right → m.nodes
        ≡ nodes_of nodes.old n → m.edges ≡ edges_of edges.old count
        → (filled (length nodes.old) (flat_map node_cells (renamed_faces row (nat_abs face) m).nodes)
        ≡ nodes.new) × (filled (length edges.old)
        (flat_map edge_cells (renamed_faces row (nat_abs face) m).edges) ≡ edges.new) }
{
    face_relabel::rename_face(nodes, n, edges, count, left, face);
    face_relabel::rename_face(nodes, n, edges, count, right, face);
}

// Heals the faces left and right, which become one: the head after it, and the face that is left.
pub fn heal_faces(
    nodes: &mut [i64],
    edges: &mut [i64],
    faces: &mut [i64],
    h: Head,
    left: i64,
    right: i64,
    makes: bool,
) -> Carried
    requires { Healable nodes.old edges.old faces.old h left right }
    ensures { ((box : ℕ → Extent) → Unboxed box (nat_abs h.next_face)
        → FaceTable (length faces.old) box (faces_of faces.old (nat_abs h.faces))
        faces.old
        → TablesOf box nodes.old edges.old faces.old h
        (merged_sides makes (sides_alone (nat_abs left) (nat_abs right))
        (map_of (lent_now nodes.old edges.old faces.old h)))
        nodes.new edges.new faces.new result.head)
        × (result.value ≡ pos (face_kept makes (sides_alone (nat_abs left) (nat_abs right))
        (map_of (lent_now nodes.old edges.old faces.old h)))) }
{
    let n = head::counts_of(h);
    let face = face_left(h.next_face, left, right, makes);
    rename_faces(nodes, n.nodes, edges, n.edges, left, right, face);
    heal_row(faces, n.faces, left, right, face, makes);
    Carried {
        head: without_face(h, makes),
        value: face,
    }
}
