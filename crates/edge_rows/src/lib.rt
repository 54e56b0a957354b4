// Rows of edges drawn and undrawn: a new last edge linked in, and an edge unlinked and closed up.
#![tactic(auto)]

ghost use Rattle.std.specs.Prelude.{◌≡◌, ◌+◌, ◌*◌, ◌≤◌, ◌<◌, nat_abs, length, set};
ghost use Rattle.std.proofs.Math.Seq.{paste};
ghost use Rattle.tables.specs.Tables.{closed};
ghost use Rattle.map.specs.Limits.{node_width, edge_width};
ghost use Rattle.map.specs.Rows.{edge_cells};
ghost use Rattle.map_rows.specs.Rows.{NodeRows, EdgeRows};
ghost use Rattle.links.specs.Linking.{unlinked_edge};
ghost use Rattle.edge_rows.specs.Holds.{new_row, Drawable, Drawn};
ghost use Rattle.edge_rows.specs.Holds.{isolated_without, faced_if, Undrawable, Undrawn};

use lent_rows::Edges;
use map::Head;
use map_rows::Incidence;

// ---- leaves

// The face of a node row.
fn set_face(nodes: &mut [i64], i: usize, face: i64)
    requires { i * node_width + node_width ≤ length nodes.old }
    ensures { nodes.new ≡ set nodes.old (i * node_width + 3) face }
{
    nodes[i * map::NODE_WIDTH + map::NODE_FACE] = face;
}

// ---- an edge drawn

// The row of a new edge from node row u to node row v, with the face on both sides, is written last.
fn write_last(nodes: &[i64], edges: &mut [i64], h: Head, u: usize, v: usize, c: &[i64], face: i64)
    requires { Drawable nodes.now edges.old h u v c.now face }
    ensures { edges.new ≡ paste edges.old (nat_abs h.edges * edge_width)
        (edge_cells (new_row nodes.now h u v c.now face)) edge_width }
{
    let e = head::to_usize(h.edges);
    let number = h.next_edge;
    let start = nodes[u * map::NODE_WIDTH];
    let end = nodes[v * map::NODE_WIDTH];
    let back = links::negated(number);
    let row = Incidence {
        number,
        start,
        end,
        next_left: back,
        next_right: number,
        left: face,
        right: face,
    };
    map_rows::write_edge(edges, e, row, curve_edits::whole_of(c));
}

// Draws an edge from node row u to node row v with the face on both sides: its row is written last and linked in.
pub fn draw(
    nodes: &mut [i64],
    edges: &mut [i64],
    h: Head,
    u: usize,
    v: usize,
    c: &[i64],
    face: i64,
) -> Head
    requires { Drawable nodes.old edges.old h u v c.now face }
    ensures { Drawn nodes.old edges.old h u v c.now face nodes.new
        edges.new result }
{
    write_last(nodes, edges, h, u, v, c, face);
    let e = head::to_usize(h.edges);
    links::link_edge(edges, e + 1);
    set_face(nodes, u, -1);
    set_face(nodes, v, -1);
    head::changed(h, head::EDGE, head::NONE, head::EDGE)
}

// ---- an edge undrawn

// No edge ends at the node but that of row i.
fn is_isolated_without(edges: Edges<'_>, i: usize, node: i64) -> bool
    requires { i < edges.count }
    ensures { result ≡ isolated_without edges.entry.rows.now edges.entry.count i node }
{
    let u = edges.rows[i * map::EDGE_WIDTH + map::START];
    let v = edges.rows[i * map::EDGE_WIDTH + map::END];
    let own = (u == node) as usize + (v == node) as usize;
    links::edge_ends(edges, node) == own
}

// Edge row i unlinked and closed up: whether its two ends are isolated now.
fn undraw_edge(edges: &mut [i64], count: usize, i: usize, u: i64, v: i64) -> (bool, bool)
    requires { EdgeRows edges.old count × (i < count) }
    ensures { (edges.new ≡ closed edge_width (unlinked_edge edges.old count i) count i)
        × (result.0 ≡ isolated_without (unlinked_edge edges.old count i) count i u)
        × (result.1 ≡ isolated_without (unlinked_edge edges.old count i) count i v) }
{
    links::unlink_edge(edges, count, i);
    let unlinked = Edges { rows: edges, count };
    let start = is_isolated_without(unlinked, i, u);
    let end = is_isolated_without(unlinked, i, v);
    tables::remove_row(edges, map::EDGE_WIDTH, count, i);
    (start, end)
}

// A node that is isolated takes the face.
fn give_face(nodes: &mut [i64], count: usize, node: i64, face: i64, isolated: bool)
    requires { NodeRows nodes.old count }
    ensures { nodes.new ≡ faced_if nodes.old count node face isolated }
{
    if isolated {
        if let Some(i) = tables::find_row(nodes, map::NODE_WIDTH, count, node) {
            set_face(nodes, i, face);
        }
    }
}

// Undraws the edge of row i: the row is unlinked and closed up, and nodes left isolated take the face.
pub fn undraw(nodes: &mut [i64], edges: &mut [i64], h: Head, i: usize, face: i64) -> Head
    requires { Undrawable nodes.old edges.old h i face }
    ensures { Undrawn nodes.old edges.old h i face nodes.new
        edges.new result }
{
    let n = head::to_usize(h.nodes);
    let e = head::to_usize(h.edges);
    let u = edges[i * map::EDGE_WIDTH + map::START];
    let v = edges[i * map::EDGE_WIDTH + map::END];
    let (start, end) = undraw_edge(edges, e, i, u, v);
    give_face(nodes, n, u, face, start);
    give_face(nodes, n, v, face, end);
    head::changed(h, head::NONE, head::EDGE, head::NONE)
}
