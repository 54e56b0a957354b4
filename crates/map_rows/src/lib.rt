// The map's rows in lent tables: points, curves and containing faces read, node and edge rows written.
#![tactic(auto)]

ghost use Rattle.std.specs.Prelude.{◌≡◌, [], ◌∷◌, ◌+◌, ◌*◌, ◌≤◌, length};
ghost use Rattle.std.proofs.Math.Seq.{paste};
ghost use Rattle.lists.specs.Scans.{is_some};
ghost use Rattle.plane.specs.Points.{InRange};
ghost use Rattle.curves.specs.Curves.{Run, curve_of};
ghost use Rattle.map_rows.specs.Rows.{NodeRow, EdgeRow, node_at, edge_at, run_at};
ghost use Rattle.map_rows.specs.Cells.{cells_of};

use curve_edits::Line;
use plane::Point;

// ---- read

// The point of node row i.
pub fn node_point(nodes: &[i64], i: usize) -> Point
    requires { NodeRow nodes.now i }
    ensures { (result ≡ (node_at nodes.now i).at) × InRange result }
{
    Point {
        x: nodes[i * map::NODE_WIDTH + map::X] as u64,
        y: nodes[i * map::NODE_WIDTH + map::Y] as u64,
    }
}

// Whether the node of row i has a containing face: no edge ends there.
pub fn is_isolated(nodes: &[i64], i: usize) -> bool
    requires { NodeRow nodes.now i }
    ensures { result ≡ is_some (node_at nodes.now i).face }
{
    nodes[i * map::NODE_WIDTH + map::NODE_FACE] != -1
}

// The curve of edge row i.
pub fn curve_of(edges: &[i64], i: usize) -> &[i64]
    requires { EdgeRow edges.now i }
    ensures { Run result.now × (curve_of result.now ≡ (edge_at edges.now i).curve)
        × (result.now ≡ run_at edges.now i) }
{
    let a = i * map::EDGE_WIDTH + map::POINTS_AT;
    let n = edges[i * map::EDGE_WIDTH + map::POINT_COUNT] as usize;
    let b = a + 2 * n;
    &edges[a..b]
}

// ---- written

// The node row with these numbers at row i.
pub fn write_node(nodes: &mut [i64], i: usize, number: i64, x: i64, y: i64, face: i64)
    requires { i * 4 + 4 ≤ length nodes.old }
    ensures { nodes.new ≡ paste nodes.old (i * 4) (number ∷ x ∷ y ∷ face ∷ []) 4 }
{
    let row = [number, x, y, face];
    tables::write(nodes, i * map::NODE_WIDTH, &row);
}

// The numbers of an edge row before its points.
#[derive(Clone, Copy)]
pub struct Incidence {
    pub number: i64,
    pub start: i64,
    pub end: i64,
    pub next_left: i64,
    pub next_right: i64,
    pub left: i64,
    pub right: i64,
}

// The edge row with these numbers and points at row i.
pub fn write_edge(edges: &mut [i64], i: usize, s: Incidence, l: Line)
    requires { (i * 32 + 32 ≤ length edges.old) × (l.count ≤ 1000) }
    ensures { edges.new ≡ paste edges.old (i * 32) (cells_of s l) 32 }
{
    let row = [
        s.number,
        s.start,
        s.end,
        s.next_left,
        s.next_right,
        s.left,
        s.right,
        l.count as i64,
    ];
    tables::write(edges, i * map::EDGE_WIDTH, &row);
    tables::write(edges, i * map::EDGE_WIDTH + map::POINTS_AT, &l.cells);
}
