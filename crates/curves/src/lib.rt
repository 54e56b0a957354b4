// Curves as runs of numbers x, y, x, y, .. in a lent slice: part of a ticket or of an edge row.
#![tactic(auto)]

ghost use Rattle.std.specs.Prelude.{◌≡◌, [], map, ◌+◌, ◌*◌, ◌-◌, ◌≤◌, ◌<◌, ◌/◌, length};
ghost use Rattle.lists.specs.Scans.{all_of};
ghost use Rattle.plane.specs.Points.{InRange};
ghost use Rattle.curves.specs.Curves.{Run, coordinate, is_run_to, point_at, points_from, segments, curve_of};
ghost use Rattle.curves.specs.Tests.{neighbours_differ, first_place, shares, seg_wrong, may_share};
ghost use Rattle.curves.specs.Tests.{seg_meeting, graver, gravest, meeting, free, free_after, is_simple};
ghost use Rattle.curves.specs.Measures.{curve_area, odd_below};
ghost use Rattle.curves.specs.Shares.{Shareable, point_of, end_of, listed, shareable, marked_ends};

use plane::{Contact, Point};

// Points of a curve, at most, and their coordinates.
pub const POINTS: usize = 12;

pub const CELLS: usize = 2 * POINTS;

// An end of a curve: one that segments may share, or one of its own alone.
#[derive(Clone, Copy)]
pub enum End {
    Common(Point),
    Own(Point),
}

// The ends of a curve, each with whether segments may share it.
#[derive(Clone, Copy)]
pub struct Shares {
    pub first: End,
    pub last: End,
}

// ---- points of a run

// The number of points.
pub fn point_count(c: &[i64]) -> usize
    ensures { result ≡ length c.now / 2 }
{
    c.len() / 2
}

// The number of segments.
fn segment_count(c: &[i64]) -> usize
    requires { Run c.now }
    ensures { (result + 1 ≡ length c.now / 2) × (1 ≤ result) × (result ≤ 11) }
{
    point_count(c) - 1
}

// Whether every number is a coordinate.
pub fn are_coordinates(c: &[i64]) -> bool
    ensures { result ≡ all_of coordinate c.now }
{
    for z in c {
        if !(0..=plane::COORDINATE).contains(z) {
            return false;
        }
    }
    true
}

// Whether the run has 2 to `most` points, and every coordinate in range.
pub fn is_run(c: &[i64], most: usize) -> bool
    ensures { result ≡ is_run_to most c.now }
{
    (2..=most).contains(&point_count(c)) && are_coordinates(c)
}

// Point i.
pub fn point_at(c: &[i64], i: usize) -> Point
    requires { Run c.now × (i < length c.now / 2) }
    ensures { (result ≡ point_at c.now i) × InRange result }
{
    Point {
        x: c[i * 2] as u64,
        y: c[i * 2 + 1] as u64,
    }
}

// ---- points of one curve

// Whether neighbouring points differ.
pub fn neighbours_differ(c: &[i64]) -> bool
    requires { Run c.now }
    ensures { result ≡ neighbours_differ (curve_of c.now) }
{
    let n = segment_count(c);
    for i in 0..n {
        if point_at(c, i) == point_at(c, i + 1) {
            return false;
        }
    }
    true
}

// The first place of p along the curve: the segment, counted from 0.
pub fn first_place(c: &[i64], p: Point) -> Option<usize>
    requires { Run c.now × InRange p }
    ensures { result ≡ first_place (curve_of c.now) p }
{
    let n = segment_count(c);
    for i in 0..n {
        if plane::on_segment(p, point_at(c, i), point_at(c, i + 1)) {
            return Some(i);
        }
    }
    None
}

// ---- points that two segments share

// The point as an end.
fn end_of(common: bool, p: Point) -> End
    ensures { result ≡ end_of common p }
{
    if common { End::Common(p) } else { End::Own(p) }
}

// Whether segments may share the end and it lies on both.
fn shared_at(end: End, a: Point, b: Point, c: Point, d: Point) -> bool
    requires { InRange (point_of end) × (InRange a) × (InRange b) × (InRange c) × (InRange d) }
    ensures { result ≡ shares (listed end []) a b c d }
{
    match end {
        End::Common(p) => plane::on_segment(p, a, b) && plane::on_segment(p, c, d),
        End::Own(_) => false,
    }
}

// Whether the segments a b and c d share a point that they may not share.
fn segments_wrong(l: Shares, a: Point, b: Point, c: Point, d: Point) -> bool
    requires { (Shareable l) × (InRange a) × (InRange b) × (InRange c) × (InRange d) }
    ensures { result ≡ seg_wrong (shareable l) a b c d }
{
    plane::segments_meet(a, b, c, d)
        && (plane::segments_stretch(a, b, c, d)
            || !shared_at(l.first, a, b, c, d) && !shared_at(l.last, a, b, c, d))
}

// ---- two curves

// The ends of c, each with whether it is an end of d.
pub fn common_ends(c: &[i64], d: &[i64]) -> Shares
    requires { Run c.now × Run d.now }
    ensures { (result ≡ marked_ends (curve_of c.now) (curve_of d.now)) × Shareable result }
{
    let a = point_at(c, 0);
    let z = point_at(c, segment_count(c));
    let b = point_at(d, 0);
    let y = point_at(d, segment_count(d));
    Shares {
        first: end_of(a == b || a == y, a),
        last: end_of(z == b || z == y, z),
    }
}

// The graver of what was found so far and of how the segments a b and c d meet, where they share a point that they may
// not share.
fn segments_meeting(found: Contact, l: Shares, a: Point, b: Point, c: Point, d: Point) -> Contact
    requires { (Shareable l) × (InRange a) × (InRange b) × (InRange c) × (InRange d) }
    ensures { result ≡ graver found (seg_meeting (shareable l) a b c d) }
{
    if segments_wrong(l, a, b, c, d) {
        found.max(plane::contact_of(a, b, c, d))
    } else {
        found
    }
}

// The gravest of what was found so far and of what the segment a b does with one of the curve's.
fn segment_meeting(so_far: Contact, l: Shares, a: Point, b: Point, c: &[i64]) -> Contact
    requires { (Shareable l) × (InRange a) × (InRange b) × Run c.now }
    ensures { result ≡ graver so_far (gravest (map (λ t. seg_meeting (shareable l) a b t.from t.to)
        (segments (curve_of c.now)))) }
{
    let n = segment_count(c);
    let mut found = so_far;
    for i in 0..n {
        found = segments_meeting(found, l, a, b, point_at(c, i), point_at(c, i + 1));
    }
    found
}

// How two curves meet but in common ends: the gravest that a segment of each do.
pub fn curves_meeting(c: &[i64], d: &[i64]) -> Contact
    requires { Run c.now × Run d.now }
    ensures { result ≡ meeting (curve_of c.now) (curve_of d.now) }
{
    let l = common_ends(c, d);
    let n = segment_count(c);
    let mut found = Contact::None;
    for i in 0..n {
        found = segment_meeting(found, l, point_at(c, i), point_at(c, i + 1), d);
    }
    found
}

// ---- simple curves

// Whether segment i and those from point i + 2 on share nothing, but the last of these may share the first point of a
// closed curve.
fn segment_free(c: &[i64], i: usize, closed: bool) -> bool
    requires { Run c.now × (i + 2 < length c.now / 2) }
    ensures { result ≡ free (may_share closed (point_at c.now 0) []) (point_at c.now i)
        (point_at c.now (i + 1)) (point_at c.now (i + 2)) (points_from c.now (i + 3)) }
{
    let n = segment_count(c);
    let a = point_at(c, i);
    let b = point_at(c, i + 1);
    let end = point_at(c, 0);
    for j in i + 2..n {
        let l = Shares {
            first: end_of(closed && j + 1 == n, end),
            last: End::Own(end),
        };
        if segments_wrong(l, a, b, point_at(c, j), point_at(c, j + 1)) {
            return false;
        }
    }
    true
}

// Whether segment i shares with the next only their common point, and with later ones nothing, but the first point
// of a closed curve.
fn segment_clear(c: &[i64], i: usize, closed: bool) -> bool
    requires { Run c.now × (i + 1 < length c.now / 2) }
    ensures { result ≡ free_after (may_share closed (point_at c.now 0) []) (point_at c.now i)
        (point_at c.now (i + 1)) (points_from c.now (i + 2)) }
{
    if segment_count(c) <= i + 1 {
        return true;
    }
    let b = point_at(c, i + 1);
    let l = Shares {
        first: End::Common(b),
        last: End::Own(b),
    };
    if segments_wrong(l, point_at(c, i), b, b, point_at(c, i + 2)) {
        return false;
    }
    segment_free(c, i, closed)
}

// Whether the curve is simple.
pub fn is_simple(c: &[i64]) -> bool
    requires { Run c.now }
    ensures { result ≡ is_simple (curve_of c.now) }
{
    let n = segment_count(c);
    let closed = point_at(c, n) == point_at(c, 0);
    if !segment_clear(c, 0, closed) {
        return false;
    }
    for i in 1..n {
        if !segment_clear(c, i, false) {
            return false;
        }
    }
    true
}

// ---- measures

// The doubled area of the curve and the origin.
pub fn area_of(c: &[i64]) -> i64
    requires { Run c.now }
    ensures { result ≡ curve_area (curve_of c.now) }
{
    let n = segment_count(c);
    let mut plus: u64 = 0;
    let mut minus: u64 = 0;
    for i in 0..n {
        let a = point_at(c, i);
        let b = point_at(c, i + 1);
        plus += plane::times(a.x, b.y);
        minus += plane::times(a.y, b.x);
    }
    plus as i64 - minus as i64
}

// Whether an odd number of segments pass below p.
pub fn odd_below(c: &[i64], p: Point) -> bool
    requires { Run c.now × InRange p }
    ensures { result ≡ odd_below (curve_of c.now) p }
{
    let n = segment_count(c);
    let mut odd = false;
    for i in 0..n {
        odd ^= directions::passes_below(p, point_at(c, i), point_at(c, i + 1));
    }
    odd
}
