// Of condition 2 what needs a walk: departures from one node differ in direction, a node has no face exactly when an
// edge ends there, and the links. The rows of nodes and faces, and the positions of what follows, are given for each
// directed edge: `starts`, `bears`, `nexts`.
#![tactic(auto)]

ghost use Rattle.std.specs.Prelude.{◌≡◌, Bool, true, cond, ◌&&◌, ℕ, ◌+◌, ◌*◌, ◌/◌, ◌≤◌, ◌<◌, pos, negsuc, length, get_or};
ghost use Rattle.std.specs.Bool.{beq};
ghost use Rattle.lists.specs.Tests.{same};
ghost use Rattle.lists.specs.Scans.{all_of};
ghost use Rattle.lists.specs.Tables.{table};
ghost use Rattle.map.specs.Limits.{node_width, face_width, max_nodes, max_edges};
ghost use Rattle.map.specs.Form.{departures_differ, bare_marked, links_once, links_meet, rings_bear_one};
ghost use Rattle.tables.specs.Tables.{same_z};
ghost use Rattle.map_rows.specs.Rows.{EdgeRow, NodeRows, EdgeRows, FaceRows, edge_map};
ghost use Rattle.plane.specs.Directions.{signs, same_way};
ghost use Rattle.darts.specs.Positions.{way_at, RowsNamed, NextsNamed};
ghost use Rattle.form_links.specs.Drawn.{drawn_map};
ghost use Rattle.form_links.specs.Chains.{latest, some_below, starts_in, repeats, LeadsBack, Chained};

use map::Map;

// A chain for each node and pair of signs.
const CHAINS: usize = Map::NODES * darts::SIGN_PAIRS;

// ---- departures: those of one node with one pair of signs are chained, each to the one before it, as one more than
// its position; 0 ends a chain

// Whether a departure of the chain that ends with `last` has the direction of p. It calls itself, so that it stays out
// of the loop.
fn chain_has_way(edges: &[i64], last: u16, back: &[u16], p: usize) -> bool
    requires { ((q : ℕ) → q ≤ p → EdgeRow edges.now (q / 2))
        × (p ≤ length back.now) × (last ≤ p)
        × ((q : ℕ) → q < p → get_or back.now q 0 ≤ q) }
    ensures { (f : ℕ → Bool) → last ≡ latest f last
        → ((q : ℕ) → q < last → f q ≡ true → get_or back.now q 0 ≡ latest f q)
        → result ≡ some_below (λ q. f q && same_way (way_at edges.now q) (way_at edges.now p)) last }
{
    if last == 0 {
        return false;
    }
    let q = last as usize - 1;
    if darts::same_way(darts::step_at(edges, q), darts::step_at(edges, p)) {
        return true;
    }
    chain_has_way(edges, back[q], back, p)
}

// Whether the departure p, from node row i, has the direction of an earlier one. It joins the chain of its node and
// signs.
fn joins_alike(edges: &[i64], i: usize, p: usize, last: &mut [u16], back: &mut [u16]) -> bool
    requires { ((q : ℕ) → q ≤ p → EdgeRow edges.now (q / 2))
        × (i < max_nodes) × (p < max_edges * 2)
        × (max_nodes * 9 ≤ length last.old) × (max_edges * 2 ≤ length back.old)
        × LeadsBack p last.old back.old }
    ensures { (f : ℕ → ℕ) → f p ≡ i * 9 + signs (way_at edges.now p)
        → Chained f p last.old back.old
        → (result ≡ repeats edges.now f p) × Chained f (p + 1) last.new back.new }
{
    let j = i * darts::SIGN_PAIRS + darts::signs_at(edges, p);
    let c = last[j];
    last[j] = (p + 1) as u16;
    if c == 0 {
        return false;
    }
    back[p] = c;
    chain_has_way(edges, c, back, p)
}

// Whether the departures of each node differ in direction.
fn departures_differ(edges: &[i64], count: usize, starts: &[u16]) -> bool
    requires { EdgeRows edges.now count × (count ≤ max_edges) × (count * 2 ≤ length starts.now)
        × ((p : ℕ) → p < count * 2 → get_or starts.now p 0 < max_nodes) }
    ensures { (nodes : _) (n : ℕ) → NodeRows nodes n
        → RowsNamed node_width nodes n edges.now 1 starts.now (count * 2)
        → result ≡ departures_differ (drawn_map nodes n edges.now count) }
{
    let mut last = [0u16; CHAINS];
    let mut back = [0u16; map::DARTS];
    for i in 0..count {
        let p = i * 2;
        if joins_alike(edges, starts[p] as usize, p, &mut last, &mut back) {
            return false;
        }
        if joins_alike(edges, starts[p + 1] as usize, p + 1, &mut last, &mut back) {
            return false;
        }
    }
    true
}

// Marks with 1 the node rows where a directed edge starts.
fn mark_starts(count: usize, starts: &[u16], marks: &mut [u8])
    requires { (count ≤ max_edges) × (count * 2 ≤ length starts.now)
        × ((p : ℕ) → p < count * 2 → get_or starts.now p 0 < length marks.old) }
    ensures { (i : ℕ)
        → get_or marks.new i 0
        ≡ cond (starts_in starts.now (count * 2) i) 1 (get_or marks.old i 0) }
{
    for p in 0..count * 2 {
        let i = starts[p] as usize;
        marks[i] = 1;
    }
}

// Whether each node has face -1 exactly when its row is marked.
fn bare_marked(nodes: &[i64], n: usize, marks: &[u8]) -> bool
    requires { (n * node_width ≤ length nodes.now) × (n ≤ length marks.now) }
    ensures { result ≡ all_of (λ i. beq (same_z (get_or nodes.now (i * node_width + 3) (pos 0)) (negsuc 0))
        (same (get_or marks.now i 0) 1)) (table (λ i. i) 0 n) }
{
    for i in 0..n {
        if (nodes[i * map::NODE_WIDTH + map::NODE_FACE] == -1) != (marks[i] == 1) {
            return false;
        }
    }
    true
}

// Whether the departures of each node differ, and a node has face -1 exactly when an edge ends there.
pub fn departures_formed(
    nodes: &[i64],
    n: usize,
    edges: &[i64],
    count: usize,
    starts: &[u16],
) -> bool
    requires { NodeRows nodes.now n × EdgeRows edges.now count × (n ≤ max_nodes) × (count ≤ max_edges)
        × (count * 2 ≤ length starts.now)
        × RowsNamed node_width nodes.now n edges.now 1 starts.now (count * 2) }
    ensures { result ≡ (departures_differ (drawn_map nodes.now n edges.now count)
        && bare_marked (drawn_map nodes.now n edges.now count)) }
{
    if !departures_differ(edges, count, starts) {
        return false;
    }
    let mut marks = [0u8; Map::NODES];
    mark_starts(count, starts, &mut marks);
    bare_marked(nodes, n, &marks)
}

// ---- links

// Whether the next q of p, whose reverse is r, leaves the node where p arrives and bears its face.
fn link_fits(starts: &[u16], bears: &[u16], p: usize, r: usize, q: usize) -> bool
    requires { (r < length starts.now) × (q < length starts.now)
        × (p < length bears.now) × (q < length bears.now) }
    ensures { result ≡ (same (get_or starts.now q 0) (get_or starts.now r 0)
        && same (get_or bears.now q 0) (get_or bears.now p 0)) }
{
    (starts[q] == starts[r]) & (bears[q] == bears[p])
}

// Whether the links name each directed edge once, lead on, and keep the face.
pub fn links_formed(count: usize, starts: &[u16], nexts: &[u16], bears: &[u16]) -> bool
    requires { (count ≤ max_edges) × (count * 2 ≤ length starts.now) × (count * 2 ≤ length nexts.now)
        × (count * 2 ≤ length bears.now)
        × ((p : ℕ) → p < count * 2 → get_or nexts.now p 0 < count * 2) }
    ensures { (nodes edges faces : _) (n f : ℕ) → NodeRows nodes n → EdgeRows edges count → FaceRows faces f
        → RowsNamed node_width nodes n edges 1 starts.now (count * 2)
        → NextsNamed edges count nexts.now (count * 2)
        → RowsNamed face_width faces f edges 5 bears.now (count * 2)
        → result ≡ (links_once (edge_map edges count) && links_meet (edge_map edges count)
        && rings_bear_one (edge_map edges count)) }
{
    let mut marks = [0u8; map::DARTS];
    for i in 0..count {
        let p = i * 2;
        let r = p + 1;
        let q = nexts[p] as usize;
        if (marks[q] == 1) | !link_fits(starts, bears, p, r, q) {
            return false;
        }
        marks[q] = 1;
        let s = nexts[r] as usize;
        if (marks[s] == 1) | !link_fits(starts, bears, r, p, s) {
            return false;
        }
        marks[s] = 1;
    }
    true
}
