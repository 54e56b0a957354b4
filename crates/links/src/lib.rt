// The first departure met turning clockwise, and the only ways in which links change.
#![tactic(auto)]

ghost use Rattle.std.specs.Prelude.{◌≡◌, true, not, ◌&&◌, IfSome, ℕ, ◌+◌, ◌*◌, ◌/◌, ◌<◌, ◌≤◌, neg_ℤ, length, get_or};
ghost use Rattle.std.proofs.lemmas.List.Edits.{sets};
ghost use Rattle.std.specs.Int.Signed.{non_neg};
ghost use Rattle.lists.specs.Tests.{same};
ghost use Rattle.lists.specs.Scans.{any_of, count_of};
ghost use Rattle.plane.specs.Directions.{way_to, same_way};
ghost use Rattle.curves.specs.Curves.{Run};
ghost use Rattle.rotation.specs.Law.{lawful_next};
ghost use Rattle.map.specs.Limits.{edge_width, max_edges};
ghost use Rattle.map_rows.specs.Rows.{EdgeRows};
ghost use Rattle.darts.specs.Positions.{side_cell, way_at, way_with, StepInRange};
ghost use Rattle.links.specs.Linking.{Known, answer, later_of, chosen_of, positions, leaves_node, departures_but};
ghost use Rattle.links.specs.Linking.{first_met, departures_of, redirected, linked_at, linked_in, linked_edge};
ghost use Rattle.links.specs.Linking.{unlinked_edge};

use darts::Step;
use lent_rows::Edges;

// A choice among departures so far: the last counterclockwise of all, and of those before a direction.
#[derive(Clone, Copy)]
struct Choice {
    all: Option<usize>,
    below: Option<usize>,
}

impl Choice {
    // The first one met clockwise from the direction: the last before it, and the last of all where there is none.
    fn answer(self) -> Option<usize>
        ensures { result ≡ answer self }
    {
        self.below.or(self.all)
    }
}

// The later of the chosen departure, if there is one, and p, with p's first step w.
fn later(edges: &[i64], own: usize, c: &[i64], chosen: Option<usize>, p: usize, w: Step) -> usize
    requires { IfSome chosen (Known edges.now own c.now) × StepInRange w }
    ensures { result ≡ later_of (way_with edges.now own c.now) chosen p (way_to w.from w.to) }
{
    let Some(k) = chosen else {
        return p;
    };
    if darts::before(darts::step_with(edges, own, c, k), w) {
        p
    } else {
        k
    }
}

// The choice with the departure p besides, for the direction v.
fn chosen(edges: &[i64], own: usize, c: &[i64], h: Choice, p: usize, v: Step) -> Choice
    requires { Known edges.now own c.now p
        × IfSome h.all (Known edges.now own c.now)
        × IfSome h.below (Known edges.now own c.now)
        × StepInRange v }
    ensures { result ≡ chosen_of (way_with edges.now own c.now) (way_to v.from v.to) h p }
{
    let w = darts::step_with(edges, own, c, p);
    let all = Some(later(edges, own, c, h.all, p, w));
    if !darts::before(w, v) {
        return Choice {
            all,
            below: h.below,
        };
    }
    Choice {
        all,
        below: Some(later(edges, own, c, h.below, p, w)),
    }
}

// The first departure from the node met turning clockwise from v, but for the positions a and b, where edge row `own`
// has the curve c.
pub fn first_clockwise(
    edges: Edges<'_>,
    own: usize,
    c: &[i64],
    node: i64,
    v: Step,
    a: usize,
    b: usize,
) -> Option<usize>
    requires { (own < edges.count → Run c.now) × StepInRange v }
    ensures { result ≡ first_met (way_with edges.entry.rows.now own c.now) (way_to v.from v.to)
        (departures_but edges.entry.rows.now edges.entry.count node a b) }
{
    let mut h = Choice {
        all: None,
        below: None,
    };
    for i in 0..edges.count {
        let p = i * 2;
        if edges.rows[i * map::EDGE_WIDTH + map::START] == node && p != a && p != b {
            h = chosen(edges.rows, own, c, h, p, v);
        }
        if edges.rows[i * map::EDGE_WIDTH + map::END] == node && p + 1 != a && p + 1 != b {
            h = chosen(edges.rows, own, c, h, p + 1, v);
        }
    }
    h.answer()
}

// Lists the departures from the node at the front of the list; their count.
pub fn departures_at(edges: Edges<'_>, node: i64, list: &mut [u16]) -> usize
    requires { (edges.count ≤ max_edges) × (edges.count * 2 ≤ length list.old) }
    ensures { (result ≡ length (departures_of edges.entry.rows.now edges.entry.count node))
        × (list.new ≡ sets list.old 0 (departures_of edges.entry.rows.now edges.entry.count node)) }
{
    let mut k = 0;
    for i in 0..edges.count {
        if edges.rows[i * map::EDGE_WIDTH + map::START] == node {
            list[k] = (i * 2) as u16;
            k += 1;
        }
        if edges.rows[i * map::EDGE_WIDTH + map::END] == node {
            list[k] = (i * 2 + 1) as u16;
            k += 1;
        }
    }
    k
}

// The first of the listed departures met turning clockwise from the departure p, where edge row `own` has the curve c;
// with no other, p.
pub fn clockwise(edges: &[i64], own: usize, c: &[i64], list: &[u16], p: usize) -> usize
    requires { Known edges.now own c.now p
        × ((k : ℕ) → k < length list.now → Known edges.now own c.now (get_or list.now k 0)) }
    ensures { result ≡ lawful_next (way_with edges.now own c.now) same p list.now }
{
    let v = darts::step_with(edges, own, c, p);
    let mut h = Choice {
        all: None,
        below: None,
    };
    for &d in list {
        let q = d as usize;
        if q != p {
            h = chosen(edges, own, c, h, q, v);
        }
    }
    h.answer().unwrap_or(p)
}

// Whether a departure from the node, but of edge row `own`, has the direction v.
pub fn way_taken(edges: Edges<'_>, node: i64, own: usize, v: Step) -> bool
    requires { StepInRange v }
    ensures { result ≡ any_of (λ p. leaves_node edges.entry.rows.now node p
        && not (same (p / 2) own)
        && same_way (way_at edges.entry.rows.now p) (way_to v.from v.to)) (positions edges.entry.count) }
{
    for i in 0..edges.count {
        if edges.rows[i * map::EDGE_WIDTH + map::START] == node
            && i != own
            && darts::same_way(darts::step_at(edges.rows, i * 2), v)
        {
            return true;
        }
        if edges.rows[i * map::EDGE_WIDTH + map::END] == node
            && i != own
            && darts::same_way(darts::step_at(edges.rows, i * 2 + 1), v)
        {
            return true;
        }
    }
    false
}

// How many edge ends are at the node.
pub fn edge_ends(edges: Edges<'_>, node: i64) -> usize
    ensures { (result ≡ count_of (leaves_node edges.entry.rows.now node) (positions edges.entry.count))
        × (result ≤ edges.entry.count * 2) }
{
    let mut n: usize = 0;
    for p in 0..edges.count * 2 {
        n += (darts::dart_cell(edges.rows, p, map::START) == node) as usize;
    }
    n
}

// ---- links changed

// The reverse of an edge as it is written.
pub fn negated(z: i64) -> i64
    requires { non_neg z ≡ true }
    ensures { result ≡ neg_ℤ z }
{
    -z
}

// Redirects links: what led to `old` leads to `new`.
pub fn redirect(edges: &mut [i64], count: usize, old: i64, new: i64)
    requires { count * edge_width ≤ length edges.old }
    ensures { edges.new ≡ redirected old new edges.old count }
{
    for i in 0..count {
        if edges[i * map::EDGE_WIDTH + map::NEXT_LEFT] == old {
            edges[i * map::EDGE_WIDTH + map::NEXT_LEFT] = new;
        }
        if edges[i * map::EDGE_WIDTH + map::NEXT_RIGHT] == old {
            edges[i * map::EDGE_WIDTH + map::NEXT_RIGHT] = new;
        }
    }
}

// Links in the new departure p where c is the first one met clockwise from it.
fn link_at(edges: &mut [i64], count: usize, p: usize, c: i64)
    requires { EdgeRows edges.old count × (p < count * 2) × (count ≤ max_edges + 1) }
    ensures { edges.new ≡ linked_at edges.old count p c }
{
    let d = darts::dart_at(edges, p);
    redirect(edges, count, c, d);
    darts::set_dart_cell(edges, darts::reverse(p), map::NEXT_LEFT, c);
}

// The first departure met turning clockwise from the departure p, where `other` is not there yet.
fn met(edges: Edges<'_>, p: usize, other: usize) -> Option<usize>
    requires { p < edges.count * 2 }
    ensures { result ≡ first_met (way_at edges.entry.rows.now) (way_at edges.entry.rows.now p)
        (departures_but edges.entry.rows.now edges.entry.count (side_cell edges.entry.rows.now p 1) p other) }
{
    let node = darts::dart_cell(edges.rows, p, map::START);
    let v = darts::step_at(edges.rows, p);
    first_clockwise(edges, edges.count, &edges.rows[0..0], node, v, p, other)
}

// Links in the new departure p, `other` not being there yet.
pub fn link_in(edges: &mut [i64], count: usize, p: usize, other: usize)
    requires { EdgeRows edges.old count × (p < count * 2) × (count ≤ max_edges + 1) }
    ensures { edges.new ≡ linked_in edges.old count p other }
{
    let drawn = Edges { rows: edges, count };
    let q = met(drawn, p, other).unwrap_or(p);
    let c = darts::dart_at(edges, q);
    link_at(edges, count, p, c);
}

// Links in the new last row, start first, then end.
pub fn link_edge(edges: &mut [i64], count: usize)
    requires { EdgeRows edges.old count × (0 < count) × (count ≤ max_edges + 1) }
    ensures { edges.new ≡ linked_edge edges.old count }
{
    let p = (count - 1) * 2;
    link_in(edges, count, p, p + 1);
    link_in(edges, count, p + 1, p + 1);
}

// Unlinks row i: what led to a removed departure leads where its reverse led, the start's departure first.
pub fn unlink_edge(edges: &mut [i64], count: usize, i: usize)
    requires { EdgeRows edges.old count × (i < count) }
    ensures { edges.new ≡ unlinked_edge edges.old count i }
{
    let p = i * 2;
    let d = darts::dart_at(edges, p);
    let back = darts::dart_at(edges, p + 1);
    let to = darts::dart_cell(edges, p + 1, map::NEXT_LEFT);
    redirect(edges, count, d, to);
    let then = darts::dart_cell(edges, p, map::NEXT_LEFT);
    redirect(edges, count, back, then);
}
