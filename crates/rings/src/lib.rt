// Ring walks by position, in 16 bits: marks, the list of a ring, its doubled area, and what it encloses.
#![tactic(auto)]

ghost use Rattle.std.specs.Prelude.{◌≡◌, map, ◌+◌, ◌*◌, ◌<◌, ◌≤◌, ◌/◌, length};
ghost use Rattle.std.proofs.Math.Seq.{paste};
ghost use Rattle.map.specs.Limits.{max_edges};
ghost use Rattle.map.specs.Rows.{dart_cell};
ghost use Rattle.map.specs.Darts.{ring, among, is_lowest};
ghost use Rattle.map_rows.specs.Rows.{EdgeRow, edge_at};
ghost use Rattle.lent_rows.specs.Lent.{drawn};
ghost use Rattle.darts.specs.Positions.{dart_at, odd};
ghost use Rattle.plane.specs.Points.{InRange};
ghost use Rattle.curves.specs.Edits.{course};
ghost use Rattle.curves.specs.Measures.{curve_area};
ghost use Rattle.map.specs.Faces.{ring_area, encloses as enclosedBy};
ghost use Rattle.rings.specs.Marks.{ring_marked};

use lent_rows::Edges;
use plane::Point;

// Marks the ring of p with v; its length.
pub fn mark_ring(edges: Edges<'_>, p: usize, v: u16, marks: &mut [u16]) -> usize
    requires { (edges.count ≤ max_edges) × (p < edges.count * 2)
        × (edges.count * 2 ≤ length marks.old) }
    ensures { (result ≡ length (ring (drawn edges.entry) (dart_at edges.entry.rows.now p)))
        × (marks.new ≡ ring_marked edges.entry.rows.now edges.entry.count p v marks.old) }
{
    let first = p as u16;
    let mut c = first;
    for k in 0..edges.count * 2 {
        marks[c as usize] = v;
        c = darts::next_position(edges.rows, edges.count, c);
        if c == first {
            return k + 1;
        }
    }
    edges.count * 2
}

// Whether the ring of p meets position q.
pub fn on_ring(edges: Edges<'_>, p: usize, q: usize) -> bool
    requires { (edges.count ≤ max_edges) × (p < edges.count * 2) × (q < edges.count * 2) }
    ensures { result ≡ among (ring (drawn edges.entry) (dart_at edges.entry.rows.now p))
        (dart_at edges.entry.rows.now q) }
{
    let first = p as u16;
    let mut c = first;
    for k in 0..edges.count * 2 {
        if c as usize == q {
            return true;
        }
        c = darts::next_position(edges.rows, edges.count, c);
        if c == first {
            return false;
        }
    }
    false
}

// Whether position p is the lowest of its ring.
pub fn is_lowest(edges: Edges<'_>, p: usize) -> bool
    requires { (edges.count ≤ max_edges) × (p < edges.count * 2) }
    ensures { result ≡ is_lowest (drawn edges.entry) (dart_at edges.entry.rows.now p) }
{
    let first = p as u16;
    let mut c = first;
    for k in 0..edges.count * 2 - 1 {
        c = darts::next_position(edges.rows, edges.count, c);
        if c <= first {
            return c == first;
        }
    }
    true
}

// Writes the ring of p from `at` on, as n directed edges.
pub fn write_ring(edges: Edges<'_>, p: usize, n: usize, list: &mut [i64], at: usize)
    requires { (edges.count ≤ max_edges) × (p < edges.count * 2)
        × (n ≡ length (ring (drawn edges) (dart_at edges.rows.now p)))
        × (at + n ≤ length list.old) }
    ensures { list.new ≡ paste list.old at
        (map dart_cell (ring (drawn edges.entry) (dart_at edges.entry.rows.now p))) n }
{
    let mut c = p as u16;
    for k in 0..n {
        list[at + k] = darts::dart_at(edges.rows, c as usize);
        c = darts::next_position(edges.rows, edges.count, c);
    }
}

// The doubled area of the directed edge at p.
fn dart_area(edges: &[i64], p: usize) -> i64
    requires { EdgeRow edges.now (p / 2) }
    ensures { result ≡ curve_area (course (odd p) (edge_at edges.now (p / 2)).curve) }
{
    let a = curves::area_of(map_rows::curve_of(edges, p / 2));
    if p % 2 == 0 { a } else { -a }
}

// The doubled area of the ring of p.
pub fn ring_area(edges: Edges<'_>, p: usize) -> i64
    requires { (edges.count ≤ max_edges) × (p < edges.count * 2) }
    ensures { result ≡ ring_area (drawn edges.entry)
        (ring (drawn edges.entry) (dart_at edges.entry.rows.now p)) }
{
    let first = p as u16;
    let mut c = first;
    let mut sum: i64 = 0;
    for k in 0..edges.count * 2 {
        sum += dart_area(edges.rows, c as usize);
        c = darts::next_position(edges.rows, edges.count, c);
        if c == first {
            return sum;
        }
    }
    sum
}

// Whether the ring of p encloses a point.
pub fn encloses(edges: Edges<'_>, p: usize, q: Point) -> bool
    requires { (edges.count ≤ max_edges) × (p < edges.count * 2) × InRange q }
    ensures { result ≡ enclosedBy (drawn edges.entry)
        (ring (drawn edges.entry) (dart_at edges.entry.rows.now p)) q }
{
    let first = p as u16;
    let mut c = first;
    let mut odd = false;
    for k in 0..edges.count * 2 {
        odd = odd != curves::odd_below(map_rows::curve_of(edges.rows, c as usize / 2), q);
        c = darts::next_position(edges.rows, edges.count, c);
        if c == first {
            return odd;
        }
    }
    odd
}
