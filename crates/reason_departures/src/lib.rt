// The tests behind the reasons that look at departures: 9, 11, 16, 17 and 19.
#![tactic(auto)]

ghost use Rattle.std.specs.Prelude.{◌≡◌, true, false, not, ◌&&◌, ◌+◌, ◌*◌, ◌<◌, ◌≤◌, nat_abs, length};
ghost use Rattle.std.specs.Int.Signed.{non_neg};
ghost use Rattle.lists.specs.Tests.{same};
ghost use Rattle.lists.specs.Scans.{any_of};
ghost use Rattle.curves.specs.Curves.{Run, curve_of};
ghost use Rattle.map.specs.Limits.{edge_width, max_edges};
ghost use Rattle.map.specs.Reasons.{edge_isolated, order_changes, first_reason};
ghost use Rattle.map.specs.Refusals.{refusal_of};
ghost use Rattle.map_rows.specs.Rows.{edge_at};
ghost use Rattle.lent_rows.specs.Lent.{drawn};
ghost use Rattle.links.specs.Linking.{positions, leaves_node};
ghost use Rattle.reason_departures.specs.Turning.{direction_taken_at, turns_at, ends_at, joins_at, joint_reasons};

use lent_rows::Edges;
use map::Refusal;

// ---- 9: isolated edges

// Whether the edge of row i ends at two different nodes where no other edge ends.
pub fn edge_isolated(edges: Edges<'_>, i: usize) -> bool
    requires { i < edges.count }
    ensures { result ≡ edge_isolated (drawn edges.entry) (edge_at edges.entry.rows.now i).number }
{
    let u = edges.rows[i * map::EDGE_WIDTH + map::START];
    let v = edges.rows[i * map::EDGE_WIDTH + map::END];
    u != v && links::edge_ends(edges, u) == 1 && links::edge_ends(edges, v) == 1
}

// ---- 11: a departure has the direction of another edge's end

// Whether another edge departs from the node u in the direction of the curve c, or from v in that of its reverse; `own`
// is the row of the edge that has the curve, and past them all for a new one.
pub fn direction_taken(edges: Edges<'_>, own: usize, u: i64, v: i64, c: &[i64]) -> bool
    requires { Run c.now }
    ensures { result ≡ direction_taken_at edges.entry.rows.now edges.entry.count own u v (curve_of c.now) }
{
    links::way_taken(edges, u, own, darts::first_step(c, false))
        || links::way_taken(edges, v, own, darts::first_step(c, true))
}

// ---- 19: cyclic order at an end would change

// Whether the first departure met clockwise from a departure at the node changes where edge row `own` gets the curve c.
fn turn_changes(edges: Edges<'_>, own: usize, c: &[i64], node: i64) -> bool
    requires { (edges.count ≤ max_edges) × Run c.now }
    ensures { result ≡ any_of (λ p. leaves_node edges.entry.rows.now node p
        && not (same (turns_at edges.entry.rows.now edges.entry.count edges.entry.count c.now p)
        (turns_at edges.entry.rows.now edges.entry.count own c.now p))) (positions edges.entry.count) }
{
    let mut list = [0u16; map::DARTS];
    let n = links::departures_at(edges, node, &mut list);
    let listed = &list[..n];
    for &p in listed {
        let before = links::clockwise(edges.rows, edges.count, c, listed, p as usize);
        let after = links::clockwise(edges.rows, own, c, listed, p as usize);
        if before != after {
            return true;
        }
    }
    false
}

// Whether the cyclic order at an end of edge row `own` changes where it gets the curve c.
pub fn order_changes(edges: Edges<'_>, own: usize, c: &[i64]) -> bool
    requires { (edges.count ≤ max_edges) × (own < edges.count) × Run c.now }
    ensures { result ≡ order_changes (drawn edges.entry)
        (edge_at edges.entry.rows.now own).number (curve_of c.now) }
{
    let u = edges.rows[own * map::EDGE_WIDTH + map::START];
    let v = edges.rows[own * map::EDGE_WIDTH + map::END];
    turn_changes(edges, own, c, u) || turn_changes(edges, own, c, v)
}

// ---- 16 and 17: the node where two edges are joined

// Whether edge row j starts or ends at the node.
fn ends_at(edges: &[i64], j: usize, node: i64) -> bool
    requires { j * edge_width + edge_width ≤ length edges.now }
    ensures { result ≡ ends_at edges.now j node }
{
    edges[j * map::EDGE_WIDTH + map::START] == node || edges[j * map::EDGE_WIDTH + map::END] == node
}

// The first reason against a joint: the edges are one or share no node, or no shared node has exactly two edge ends.
pub fn check_joint(edges: Edges<'_>, i: usize, j: usize) -> Result<(), Refusal>
    requires { (i < edges.count) × (j < edges.count) }
    ensures { refusal_of result ≡ first_reason (joint_reasons (drawn edges.entry)
        (edge_at edges.entry.rows.now i).number (edge_at edges.entry.rows.now j).number) }
{
    let u = edges.rows[i * map::EDGE_WIDTH + map::START];
    let v = edges.rows[i * map::EDGE_WIDTH + map::END];
    if i == j || !(ends_at(edges.rows, j, u) || ends_at(edges.rows, j, v)) {
        return Err(Refusal::NoSharedNode);
    }
    if !(joins_at(edges, j, v) || joins_at(edges, j, u)) {
        return Err(Refusal::OtherEdgeEnds);
    }
    Ok(())
}

// Whether edge row j ends at the node, which has exactly two edge ends.
pub fn joins_at(edges: Edges<'_>, j: usize, node: i64) -> bool
    requires { (j < edges.count) × (non_neg node ≡ true) }
    ensures { result ≡ joins_at (drawn edges.entry) (edge_at edges.entry.rows.now j).number (nat_abs node) }
{
    ends_at(edges.rows, j, node) && links::edge_ends(edges, node) == 2
}
