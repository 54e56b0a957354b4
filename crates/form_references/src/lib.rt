// Of condition 2: named rows exist, and curves run from node to node. The rows that are found are written down for what
// follows.
#![tactic(auto)]

ghost use Rattle.std.specs.Prelude.{◌≡◌, true, false, ◌&&◌, ℕ, ◌+◌, ◌*◌, ◌/◌, ◌≤◌, ◌<◌, pos, negsuc, nat_abs, length};
ghost use Rattle.std.specs.Int.Signed.{lt_z};
ghost use Rattle.lists.specs.Scans.{all_of};
ghost use Rattle.tables.specs.Tables.{Rising};
ghost use Rattle.plane.specs.Points.{same_point};
ghost use Rattle.curves.specs.Curves.{Run, curve_of, last_point};
ghost use Rattle.curves.specs.Tests.{neighbours_differ};
ghost use Rattle.map.specs.Limits.{node_width, edge_width, face_width, max_nodes, max_edges, max_faces};
ghost use Rattle.map.specs.Rows.{node_of, dart_of};
ghost use Rattle.map.specs.Form.{in_face, named, curve_fits};
ghost use Rattle.map_rows.specs.Rows.{NodeRows, EdgeRow, EdgeRows, FaceRows, nodes_of, edges_of, edge_at, node_map};
ghost use Rattle.darts.specs.Positions.{dart_at, side_cell, RowsNamed, NextsNamed};
ghost use Rattle.form_ranges.specs.Ranges.{map_in, face_map, EdgesInOrder, InOrder};
ghost use Rattle.form_references.specs.Sides.{has_row, has_link, all_sides};

use map::Counts;
use plane::Point;

// ---- names

// Whether a row with the number exists.
fn exists(t: &[i64], w: usize, count: usize, number: i64, index: &[u16]) -> bool
    requires { Rising w t.now count × (length index.now ≡ 4096) }
    ensures { result ≡ has_row w t.now count number }
{
    tables::find_indexed(t, w, count, number, index).is_some()
}

// Whether the containing face of a node exists, where there is one.
fn node_names(row: &[i64], faces: &[i64], n: usize, index: &[u16]) -> bool
    requires { (length row.now ≡ node_width) × FaceRows faces.now n × (length index.now ≡ 4096) }
    ensures { result ≡ in_face (face_map faces.now n) (node_of row.now).face }
{
    let z = row[map::NODE_FACE];
    z < 0 || exists(faces, map::FACE_WIDTH, n, z, index)
}

// Whether the containing faces of all nodes exist.
fn nodes_name_faces(nodes: &[i64], n: usize, faces: &[i64], f: usize, index: &[u16]) -> bool
    requires { (n * node_width ≤ length nodes.now) × FaceRows faces.now f × (length index.now ≡ 4096) }
    ensures { result ≡ all_of (λ k. in_face (face_map faces.now f) k.face) (nodes_of nodes.now n) }
{
    for i in 0..n {
        let a = i * map::NODE_WIDTH;
        let b = a + map::NODE_WIDTH;
        if !node_names(&nodes[a..b], faces, f, index) {
            return false;
        }
    }
    true
}

// Whether the row exists that the directed edge at position p names in a column pair; it is written.
fn find_row_of(
    t: &[i64],
    w: usize,
    n: usize,
    edges: &[i64],
    p: usize,
    k: usize,
    index: &[u16],
    rows: &mut [u16],
) -> bool
    requires { Rising w t.now n × (n ≤ max_edges)
        × (p / 2 * edge_width + edge_width ≤ length edges.now) × (k + 2 ≤ edge_width)
        × (length index.now ≡ 4096) × (p < length rows.old) }
    ensures { (result ≡ has_row w t.now n (side_cell edges.now p k))
        × (length rows.new ≡ length rows.old)
        × (result ≡ true → RowsNamed w t.now n edges.now k rows.old p
        → RowsNamed w t.now n edges.now k rows.new (p + 1)) }
{
    let number = darts::dart_cell(edges, p, k);
    let Some(x) = tables::find_indexed(t, w, n, number, index) else {
        return false;
    };
    rows[p] = x as u16;
    true
}

// Whether the rows exist that both sides of each edge name in columns k and k + 1; they are written.
pub fn find_rows(
    t: &[i64],
    w: usize,
    n: usize,
    edges: &[i64],
    count: usize,
    k: usize,
    index: &[u16],
    rows: &mut [u16],
) -> bool
    requires { Rising w t.now n × (n ≤ max_edges)
        × (count * edge_width ≤ length edges.now) × (k + 2 ≤ edge_width)
        × (length index.now ≡ 4096) × (count * 2 ≤ length rows.old) }
    ensures { (result ≡ all_sides (has_row w t.now n) edges.now k count)
        × (length rows.new ≡ length rows.old)
        × (result ≡ true → RowsNamed w t.now n edges.now k rows.new (count * 2)) }
{
    // two positions a turn: their places in the row are then constants
    for i in 0..count {
        if !find_row_of(t, w, n, edges, i * 2, k, index, rows) {
            return false;
        }
        if !find_row_of(t, w, n, edges, i * 2 + 1, k, index, rows) {
            return false;
        }
    }
    true
}

// The position of the directed edge that a link names: found, or missing.
fn find_position(edges: &[i64], count: usize, d: i64, index: &[u16]) -> Option<usize>
    requires { EdgesInOrder edges.now count × (length index.now ≡ 4096) }
    ensures { (result ≡ None → has_link edges.now count d ≡ false)
        × ((q : ℕ) → result ≡ Some q
        → (q < count * 2) × (dart_at edges.now q ≡ dart_of d)
        × (has_link edges.now count d ≡ true)) }
{
    if d < map::LEAST_LINK {
        return None;
    }
    let i = tables::find_indexed(edges, map::EDGE_WIDTH, count, d.abs(), index)?;
    Some(i * 2 + usize::from(d < 0))
}

// Whether the edge exists that the link of the directed edge at position p names; the position of its next is written.
fn find_next_of(edges: &[i64], count: usize, p: usize, index: &[u16], nexts: &mut [u16]) -> bool
    requires { EdgesInOrder edges.now count × (count ≤ max_edges) × (p < count * 2)
        × (length index.now ≡ 4096) × (p < length nexts.old) }
    ensures { (result ≡ has_link edges.now count (side_cell edges.now p 3))
        × (length nexts.new ≡ length nexts.old)
        × (result ≡ true → NextsNamed edges.now count nexts.old p
        → NextsNamed edges.now count nexts.new (p + 1)) }
{
    let link = darts::dart_cell(edges, p, map::NEXT_LEFT);
    let Some(x) = find_position(edges, count, link, index) else {
        return false;
    };
    nexts[p] = x as u16;
    true
}

// Whether the edges exist that both links of each edge name; their positions are written.
fn find_nexts(edges: &[i64], count: usize, index: &[u16], nexts: &mut [u16]) -> bool
    requires { EdgesInOrder edges.now count × (count ≤ max_edges)
        × (length index.now ≡ 4096) × (count * 2 ≤ length nexts.old) }
    ensures { (result ≡ all_sides (has_link edges.now count) edges.now 3 count)
        × (length nexts.new ≡ length nexts.old)
        × (result ≡ true → NextsNamed edges.now count nexts.new (count * 2)) }
{
    for i in 0..count {
        if !find_next_of(edges, count, i * 2, index, nexts) {
            return false;
        }
        if !find_next_of(edges, count, i * 2 + 1, index, nexts) {
            return false;
        }
    }
    true
}

// Whether named rows exist. For each directed edge it writes the row of the node where that starts, the position of its
// next, and the row of the face that it bears.
pub fn names_exist(
    nodes: &[i64],
    edges: &[i64],
    faces: &[i64],
    c: Counts,
    starts: &mut [u16],
    nexts: &mut [u16],
    bears: &mut [u16],
) -> bool
    requires { ((h : _) × InOrder nodes.now edges.now faces.now c h)
        × (c.nodes ≤ max_nodes) × (c.edges ≤ max_edges) × (c.faces ≤ max_faces)
        × (length starts.old ≡ max_edges * 2)
        × (length nexts.old ≡ max_edges * 2)
        × (length bears.old ≡ max_edges * 2) }
    ensures { ((h : _) → result ≡ named (map_in nodes.now edges.now faces.now c h))
        × (length starts.new ≡ max_edges * 2)
        × (length nexts.new ≡ max_edges * 2)
        × (length bears.new ≡ max_edges * 2)
        × (result ≡ true
        → RowsNamed node_width nodes.now c.nodes edges.now 1 starts.new (c.edges * 2)
        × NextsNamed edges.now c.edges nexts.new (c.edges * 2)
        × RowsNamed face_width faces.now c.faces edges.now 5 bears.new
        (c.edges * 2)) }
{
    // one index for the three tables in turn: what is left of the last is only a wrong first look
    let mut index = [0u16; tables::INDEX];
    tables::index_rows(faces, map::FACE_WIDTH, c.faces, &mut index);
    if !nodes_name_faces(nodes, c.nodes, faces, c.faces, &index) {
        return false;
    }
    if !find_rows(
        faces,
        map::FACE_WIDTH,
        c.faces,
        edges,
        c.edges,
        map::LEFT,
        &index,
        bears,
    ) {
        return false;
    }
    tables::index_rows(nodes, map::NODE_WIDTH, c.nodes, &mut index);
    if !find_rows(
        nodes,
        map::NODE_WIDTH,
        c.nodes,
        edges,
        c.edges,
        map::START,
        &index,
        starts,
    ) {
        return false;
    }
    tables::index_rows(edges, map::EDGE_WIDTH, c.edges, &mut index);
    find_nexts(edges, c.edges, &index, nexts)
}

// ---- curves

// Whether a curve of k points runs from u to v.
fn runs_between(c: &[i64], k: usize, u: Point, v: Point) -> bool
    requires { Run c.now × (k ≡ length c.now / 2) }
    ensures { result ≡ (same_point (curve_of c.now).first u
        && same_point (last_point (curve_of c.now)) v
        && neighbours_differ (curve_of c.now)) }
{
    let first = curves::point_at(c, 0) == u;
    let last = curves::point_at(c, k - 1) == v;
    first & last & curves::neighbours_differ(c)
}

// Whether the curve of edge row i runs from its start node to its end node.
fn curve_fits(nodes: &[i64], n: usize, edges: &[i64], i: usize, starts: &[u16]) -> bool
    requires { NodeRows nodes.now n × EdgeRow edges.now i × (i * 2 + 2 ≤ length starts.now)
        × RowsNamed node_width nodes.now n edges.now 1 starts.now (i * 2 + 2) }
    ensures { result ≡ curve_fits (node_map nodes.now n) (edge_at edges.now i) }
{
    let c = map_rows::curve_of(edges, i);
    let u = starts[i * 2] as usize;
    let v = starts[i * 2 + 1] as usize;
    let from = map_rows::node_point(nodes, u);
    let to = map_rows::node_point(nodes, v);
    let k = curves::point_count(c);
    // most edges are straight: the compiler unrolls the tests of two points
    if k == 2 {
        return runs_between(c, 2, from, to);
    }
    runs_between(c, k, from, to)
}

// Whether the curve of each edge runs from its start node to its end node.
pub fn curves_fit(nodes: &[i64], n: usize, edges: &[i64], count: usize, starts: &[u16]) -> bool
    requires { NodeRows nodes.now n × EdgeRows edges.now count × (count * 2 ≤ length starts.now)
        × RowsNamed node_width nodes.now n edges.now 1 starts.now (count * 2) }
    ensures { result ≡ all_of (curve_fits (node_map nodes.now n)) (edges_of edges.now count) }
{
    for i in 0..count {
        if !curve_fits(nodes, n, edges, i, starts) {
            return false;
        }
    }
    true
}
