// Condition 1, and of condition 2 what needs no walk: counts, ranges and zero rows, numbers.
#![tactic(auto)]

ghost use Rattle.std.specs.Prelude.{◌≡◌, true, false, ◌&&◌, [], ◌∷◌, ◌+◌, ◌*◌, ◌≤◌, ◌<◌, pos, length, get_or, take, drop};
ghost use Rattle.std.specs.Int.Signed.{le_z, non_neg};
ghost use Rattle.lists.specs.Scans.{all_of};
ghost use Rattle.tables.specs.Tables.{cell, rows, is_zero, within};
ghost use Rattle.curves.specs.Curves.{coordinate, max_points};
ghost use Rattle.map.specs.Limits.{max_nodes, max_edges, max_faces, node_width, edge_width, face_width};
ghost use Rattle.map.specs.Limits.{most_points, is_record, limit_of};
ghost use Rattle.map.specs.Rows.{Lent, whole};
ghost use Rattle.map.specs.Form.{counts_fit, nexts_fit, node_ranges, edge_ranges_to, face_ranges, numbers};
ghost use Rattle.map.specs.Loans.{lent_now};
ghost use Rattle.head.specs.Heads.{sizes_in};
ghost use Rattle.form_ranges.specs.Ranges.{map_in, ranged_rows, InRanges};

use map::{Counts, Head, Map};

// ---- 1: whole rows within the limits, and a face row

// Whether the tables are whole rows, within the limits, with a face row: condition 1.
pub fn is_whole(nodes: &[i64], edges: &[i64], faces: &[i64]) -> bool
    ensures { (h : _) → result ≡ whole (lent_now nodes.now edges.now faces.now h) }
{
    tables::whole_rows(nodes, map::NODE_WIDTH, 0, Map::NODES)
        && tables::whole_rows(edges, map::EDGE_WIDTH, 0, Map::EDGES)
        && tables::whole_rows(faces, map::FACE_WIDTH, 1, Map::FACES)
}

// ---- 2: numbers as they stand

// Counts within the tables.
fn counts_fit(h: Head, sizes: Counts) -> bool
    requires { (sizes.nodes ≤ max_nodes) × (sizes.edges ≤ max_edges) × (sizes.faces ≤ max_faces) }
    ensures { result ≡ (within 0 sizes.nodes h.nodes && within 0 sizes.edges h.edges
        && within 1 sizes.faces h.faces) }
{
    (0..=sizes.nodes as i64).contains(&h.nodes)
        & (0..=sizes.edges as i64).contains(&h.edges)
        & (1..=sizes.faces as i64).contains(&h.faces)
}

// Next numbers 1 to 1,000,000.
fn nexts_fit(h: Head) -> bool
    ensures { result ≡ nexts_fit h }
{
    (1..=map::LAST_NEXT).contains(&h.next_node)
        & (1..=map::LAST_NEXT).contains(&h.next_edge)
        & (1..=map::LAST_NEXT).contains(&h.next_face)
}

// Counts within the tables, next numbers 1 to 1,000,000, and 6 or 12 recorded.
pub fn head_fits(h: Head, sizes: Counts) -> bool
    requires { (sizes.nodes ≤ max_nodes) × (sizes.edges ≤ max_edges) × (sizes.faces ≤ max_faces) }
    ensures { (l : Lent) → sizes_in l.nodes l.edges l.faces ≡ sizes
        → result ≡ (counts_fit (record { nodes = l.nodes; edges = l.edges; faces = l.faces; head = h }) && nexts_fit h
        && is_record h.points) }
{
    counts_fit(h, sizes) & nexts_fit(h) & head::is_record(h.points)
}

// Number k is not negative.
fn is_natural(t: &[i64], k: usize) -> bool
    requires { k < length t.now }
    ensures { result ≡ non_neg (get_or t.now k (pos 0)) }
{
    0 <= t[k]
}

fn is_coordinate(t: &[i64], k: usize) -> bool
    requires { k < length t.now }
    ensures { result ≡ coordinate (get_or t.now k (pos 0)) }
{
    (0..=Map::COORDINATE).contains(&t[k])
}

fn node_ranges(row: &[i64]) -> bool
    requires { length row.now ≡ node_width }
    ensures { result ≡ node_ranges row.now }
{
    is_natural(row, 0)
        & is_coordinate(row, map::X)
        & is_coordinate(row, map::Y)
        & (-1 <= row[map::NODE_FACE])
}

fn nodes_ranged(nodes: &[i64], n: usize) -> bool
    requires { n * node_width ≤ length nodes.now }
    ensures { result ≡ all_of node_ranges (rows node_width n nodes.now) }
{
    for i in 0..n {
        let a = i * map::NODE_WIDTH;
        let b = a + map::NODE_WIDTH;
        if !node_ranges(&nodes[a..b]) {
            return false;
        }
    }
    true
}

// The numbers of a row that may not be negative.
fn edge_naturals(row: &[i64]) -> bool
    requires { length row.now ≡ edge_width }
    ensures { result ≡ all_of non_neg (cell row.now 0 ∷ cell row.now 1
        ∷ cell row.now 2 ∷ cell row.now 5 ∷ cell row.now 6 ∷ []) }
{
    is_natural(row, 0)
        & is_natural(row, map::START)
        & is_natural(row, map::END)
        & is_natural(row, map::LEFT)
        & is_natural(row, map::RIGHT)
}

// Coordinates of n points, and zeros behind them.
fn points_ranged(row: &[i64], n: usize) -> bool
    requires { (length row.now ≡ edge_width) × (n ≤ max_points) }
    ensures { result ≡ (all_of coordinate (take (2 * n) (drop 8 row.now))
        && all_of is_zero (drop (2 * n) (drop 8 row.now))) }
{
    let end = map::POINTS_AT + 2 * n;
    curves::are_coordinates(&row[map::POINTS_AT..end]) && tables::rest_zero(row, end)
}

// The ranges of an edge row, with 2 points or more, to the number that the head records.
fn edge_ranges(row: &[i64], points: i64) -> bool
    requires { (length row.now ≡ edge_width) × (is_record points ≡ true) }
    ensures { result ≡ edge_ranges_to (most_points (limit_of points)) row.now }
{
    if !(edge_naturals(row) & (2..=points).contains(&row[map::POINT_COUNT])) {
        return false;
    }
    let n = tables::natural(row, map::POINT_COUNT);
    // most edges are straight: the compiler unrolls the tests of two points
    if n == 2 {
        return points_ranged(row, 2);
    }
    points_ranged(row, n)
}

fn edges_ranged(edges: &[i64], n: usize, points: i64) -> bool
    requires { (n * edge_width ≤ length edges.now) × (is_record points ≡ true) }
    ensures { result ≡ all_of (edge_ranges_to (most_points (limit_of points))) (rows edge_width n edges.now) }
{
    for i in 0..n {
        let a = i * map::EDGE_WIDTH;
        let b = a + map::EDGE_WIDTH;
        if !edge_ranges(&edges[a..b], points) {
            return false;
        }
    }
    true
}

fn faces_ranged(faces: &[i64], n: usize) -> bool
    requires { n * face_width ≤ length faces.now }
    ensures { result ≡ all_of face_ranges (rows face_width n faces.now) }
{
    for i in 0..n {
        if !is_natural(faces, i * map::FACE_WIDTH) {
            return false;
        }
    }
    true
}

// Whether the rows in use are in range, and all numbers behind them 0.
pub fn is_ranged(nodes: &[i64], edges: &[i64], faces: &[i64], c: Counts, points: i64) -> bool
    requires { (c.nodes * node_width ≤ length nodes.now) × (c.edges * edge_width ≤ length edges.now)
        × (c.faces * face_width ≤ length faces.now) × (is_record points ≡ true) }
    ensures { result ≡ ranged_rows nodes.now edges.now faces.now c
        (limit_of points) }
{
    if !(tables::rest_zero(nodes, c.nodes * map::NODE_WIDTH)
        & tables::rest_zero(edges, c.edges * map::EDGE_WIDTH)
        & tables::rest_zero(faces, c.faces * map::FACE_WIDTH))
    {
        return false;
    }
    nodes_ranged(nodes, c.nodes)
        & edges_ranged(edges, c.edges, points)
        & faces_ranged(faces, c.faces)
}

// ---- numbers

// Whether the numbers of each table rise and are below the next, and face 0 is there.
pub fn numbers_fit(nodes: &[i64], edges: &[i64], faces: &[i64], c: Counts, h: Head) -> bool
    requires { InRanges nodes.now edges.now faces.now c h }
    ensures { result ≡ numbers (map_in nodes.now edges.now faces.now c h) }
{
    let next_node = head::to_usize(h.next_node);
    let next_edge = head::to_usize(h.next_edge);
    let next_face = head::to_usize(h.next_face);
    tables::numbers_rise(nodes, map::NODE_WIDTH, c.nodes, 1, next_node)
        && tables::numbers_rise(edges, map::EDGE_WIDTH, c.edges, 1, next_edge)
        && tables::numbers_rise(faces, map::FACE_WIDTH, c.faces, 0, next_face)
        && tables::natural(faces, 0) == 0
}
