// A face shared out between two sides, and faces renamed.
#![tactic(auto)]

ghost use Rattle.std.specs.Prelude.{◌≡◌, cond, ℕ, ◌+◌, ◌*◌, ◌≤◌, ◌<◌, get_or, length};
ghost use Rattle.lists.specs.Tests.{same};
ghost use Rattle.lists.specs.Tables.{sweep};
ghost use Rattle.tables.specs.Tables.{replace_at};
ghost use Rattle.plane.specs.Points.{InRange};
ghost use Rattle.map.specs.Limits.{node_width, edge_width, max_edges};
ghost use Rattle.map_rows.specs.Rows.{edge_at};
ghost use Rattle.darts.specs.Positions.{side_cell};
ghost use Rattle.face_relabel.specs.Sharing.{Ringed, ShareableFace, Whole, ring_encloses, start_of};
ghost use Rattle.face_relabel.specs.Sharing.{ring_mark, side_shared, node_shared, edge_shared};

use lent_rows::{Edges, Nodes};
use plane::Point;

// A face to share out: its number, a directed edge on the reference side and its ring's numbers for the two sides.
#[derive(Clone, Copy)]
pub struct Sides {
    pub old: i64,
    pub ring: usize,
    pub inside: i64,
    pub other: i64,
}

// The marks of the two sides; 0 stands where there is none yet.
const INSIDE: u16 = 1;

const OTHER: u16 = 2;

impl Sides {
    // The number of a side.
    fn number(self, is_inside: bool) -> i64
        ensures { result ≡ cond is_inside self.inside self.other }
    {
        if is_inside { self.inside } else { self.other }
    }
}

// The mark of a side.
fn mark_of(is_inside: bool) -> u16
    ensures { result ≡ cond is_inside 1 2 }
{
    if is_inside { INSIDE } else { OTHER }
}

// The number of the side of a point.
fn side_of(edges: Edges<'_>, s: Sides, q: Point) -> i64
    requires { (edges.count ≤ max_edges) × (s.ring < edges.count * 2) × InRange q }
    ensures { result
        ≡ cond (ring_encloses edges.entry.rows.now edges.entry.count s.ring q) s.inside s.other }
{
    s.number(rings::encloses(edges, s.ring, q))
}

// Shares out the isolated nodes of the old face: each gets the number of its side.
pub fn share_nodes(nodes: &mut [i64], n: usize, edges: &[i64], count: usize, s: Sides)
    requires { ShareableFace nodes.old n edges.now count s }
    ensures { nodes.new
        ≡ sweep (node_shared nodes.old n edges.now count s) nodes.old 0 n }
{
    let drawn = Edges { rows: edges, count };
    for i in 0..n {
        if nodes[i * map::NODE_WIDTH + map::NODE_FACE] == s.old {
            let side = side_of(drawn, s, map_rows::node_point(nodes, i));
            nodes[i * map::NODE_WIDTH + map::NODE_FACE] = side;
        }
    }
}

// Whether a ring whose lowest edge is row i lies on the reference side, by the start node of that edge.
fn is_inside(nodes: Nodes<'_>, edges: Edges<'_>, s: Sides, i: usize) -> bool
    requires { ShareableFace nodes.rows.now nodes.count edges.rows.now edges.count s × (i < edges.count) }
    ensures { result ≡ ring_encloses edges.entry.rows.now edges.entry.count s.ring
        (start_of nodes.entry.rows.now nodes.entry.count (edge_at edges.entry.rows.now i)) }
{
    let start = edges.rows[i * map::EDGE_WIDTH + map::START];
    let Some(k) = tables::find_row(nodes.rows, map::NODE_WIDTH, nodes.count, start) else {
        return false;
    };
    rings::encloses(edges, s.ring, map_rows::node_point(nodes.rows, k))
}

// Marks the rings of the old face that are not marked by their sides.
fn mark_sides(nodes: Nodes<'_>, edges: Edges<'_>, s: Sides, marks: &mut [u16])
    requires { ShareableFace nodes.rows.now nodes.count edges.rows.now edges.count s
        × Ringed edges.rows.now edges.count × Whole edges.rows.now edges.count marks.old }
    ensures { (length marks.new ≡ length marks.old)
        × ((q : ℕ) → q < edges.entry.count * 2 → side_cell edges.entry.rows.now q 5 ≡ s.old
        → get_or marks.new q 0
        ≡ cond (same (get_or marks.old q 0) 0)
        (ring_mark nodes.entry.rows.now nodes.entry.count edges.entry.rows.now edges.entry.count s.ring q)
        (get_or marks.old q 0)) }
{
    for p in 0..edges.count * 2 {
        if (darts::dart_cell(edges.rows, p, map::LEFT) == s.old) & (marks[p] == 0) {
            let mark = mark_of(is_inside(nodes, edges, s, p / 2));
            rings::mark_ring(edges, p, mark, marks);
        }
    }
}

// Writes the number of their side to the directed edges of the old face.
fn write_sides(edges: &mut [i64], count: usize, s: Sides, marks: &[u16])
    requires { (count * edge_width ≤ length edges.old) × (count * 2 ≤ length marks.now) }
    ensures { edges.new ≡ sweep (side_shared s marks.now) edges.old 0 (count * 2) }
{
    for p in 0..count * 2 {
        if darts::dart_cell(edges, p, map::LEFT) == s.old {
            darts::set_dart_cell(edges, p, map::LEFT, s.number(marks[p] == INSIDE));
        }
    }
}

// Shares out the rings of the old face, each whole to one side; `across` is the new edge's other side.
pub fn share_edges(
    nodes: &[i64],
    n: usize,
    edges: &mut [i64],
    count: usize,
    s: Sides,
    across: usize,
)
    requires { ShareableFace nodes.now n edges.old count s × Ringed edges.old count × (across < count * 2) }
    ensures { edges.new
        ≡ sweep (edge_shared nodes.now n edges.old count s across)
        edges.old 0 (count * 2) }
{
    let placed = Nodes {
        rows: nodes,
        count: n,
    };
    let drawn = Edges { rows: edges, count };
    let mut marks = [0u16; map::DARTS];
    rings::mark_ring(drawn, across, OTHER, &mut marks);
    rings::mark_ring(drawn, s.ring, INSIDE, &mut marks);
    mark_sides(placed, drawn, s, &mut marks);
    write_sides(edges, count, s, &marks);
}

// Renames a face: `new` for `old` in all rows of nodes and edges.
pub fn rename_face(nodes: &mut [i64], n: usize, edges: &mut [i64], count: usize, old: i64, new: i64)
    requires { (n * node_width ≤ length nodes.old) × (count * edge_width ≤ length edges.old) }
    ensures { (nodes.new ≡ sweep (λ l i. replace_at old new l (i * node_width + 3)) nodes.old 0 n)
        × (edges.new
        ≡ sweep (λ l i. replace_at old new l (i * edge_width + 6))
        (sweep (λ l i. replace_at old new l (i * edge_width + 5)) edges.old 0 count) 0 count) }
{
    tables::replace_column(nodes, map::NODE_WIDTH, n, map::NODE_FACE, old, new);
    tables::replace_column(edges, map::EDGE_WIDTH, count, map::LEFT, old, new);
    tables::replace_column(edges, map::EDGE_WIDTH, count, map::RIGHT, old, new);
}
