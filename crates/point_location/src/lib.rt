// The face of a point: the face on the upper side of the highest segment below it.
#![tactic(auto)]

ghost use Rattle.std.specs.Prelude.{◌≡◌, true, Some, IfSome, ◌+◌, ◌*◌, ◌≤◌, ◌<◌, pos, nat_abs, length, get_or};
ghost use Rattle.std.specs.Int.Signed.{non_neg};
ghost use Rattle.lists.specs.Scans.{fold};
ghost use Rattle.plane.specs.Points.{InRange, max_coordinate};
ghost use Rattle.curves.specs.Curves.{Run, curve_of, segments};
ghost use Rattle.map.specs.Faces.{face_of_point};
ghost use Rattle.map_rows.specs.Rows.{EdgeRow, edge_at};
ghost use Rattle.lent_rows.specs.Lent.{drawn};
ghost use Rattle.point_location.specs.Highest.{HighestFits, face_bound, floor, highest_floor, over, sided, passed};
ghost use Rattle.point_location.specs.Highest.{rowed};

use lent_rows::Edges;
use plane::Point;

// The highest segment below a point, its ends ordered by x, and the face on its upper side.
#[derive(Clone, Copy)]
struct Highest {
    from: Point,
    to: Point,
    upper: u64,
}

// The segment a b with its ends ordered by x, and the face on its upper side.
fn floor_of(a: Point, b: Point, left: u64, right: u64) -> Highest
    requires { (InRange a) × (InRange b) × (left < face_bound) × (right < face_bound) }
    ensures { (floor result ≡ sided left right (record { from = a; to = b })) × HighestFits result }
{
    let (from, to) = if a.x <= b.x { (a, b) } else { (b, a) };
    let upper = if a.x < b.x { left } else { right };
    Highest { from, to, upper }
}

// The higher at x of the highest so far and g.
fn higher_of(x: u64, h: Option<Highest>, g: Highest) -> Highest
    requires { (x ≤ max_coordinate) × IfSome h HighestFits × HighestFits g }
    ensures { (highest_floor (Some result) ≡ over x (highest_floor h) (floor g)) × HighestFits result }
{
    let Some(f) = h else {
        return g;
    };
    if directions::is_higher(x, g.from, g.to, f.from, f.to) {
        g
    } else {
        f
    }
}

// The highest after the segment a b with its faces, where that passes below p.
fn floor_with(
    h: Option<Highest>,
    p: Point,
    a: Point,
    b: Point,
    left: u64,
    right: u64,
) -> Option<Highest>
    requires { IfSome h HighestFits × (InRange p) × (InRange a) × (InRange b) × (left < face_bound)
        × (right < face_bound) }
    ensures { (highest_floor result ≡ passed p left right (highest_floor h) (record { from = a; to = b }))
        × IfSome result HighestFits }
{
    if !directions::passes_below(p, a, b) {
        return h;
    }
    Some(higher_of(p.x, h, floor_of(a, b, left, right)))
}

// The highest after the segments of a curve with these faces.
fn floor_along(h: Option<Highest>, p: Point, c: &[i64], left: u64, right: u64) -> Option<Highest>
    requires { IfSome h HighestFits × (InRange p) × Run c.now × (left < face_bound) × (right < face_bound) }
    ensures { (highest_floor result ≡ fold (passed p left right) (highest_floor h)
        (segments (curve_of c.now))) × IfSome result HighestFits }
{
    let n = curves::point_count(c) - 1;
    let mut best = h;
    for k in 0..n {
        best = floor_with(
            best,
            p,
            curves::point_at(c, k),
            curves::point_at(c, k + 1),
            left,
            right,
        );
    }
    best
}

// A face in an edge row.
fn face_at(edges: &[i64], j: usize) -> u64
    requires { (j < length edges.now) × (non_neg (get_or edges.now j (pos 0)) ≡ true) }
    ensures { (result ≡ nat_abs (get_or edges.now j (pos 0))) × (result < face_bound) }
{
    edges[j] as u64
}

// The highest after the segments of edge row i.
fn floor_over(h: Option<Highest>, p: Point, edges: &[i64], i: usize) -> Option<Highest>
    requires { IfSome h HighestFits × (InRange p) × EdgeRow edges.now i }
    ensures { (highest_floor result ≡ rowed p (highest_floor h) (edge_at edges.now i)) × IfSome result HighestFits }
{
    let left = face_at(edges, i * map::EDGE_WIDTH + map::LEFT);
    let right = face_at(edges, i * map::EDGE_WIDTH + map::RIGHT);
    floor_along(h, p, map_rows::curve_of(edges, i), left, right)
}

// The face of a point on no node or edge.
pub fn face_of_point(edges: Edges<'_>, p: Point) -> i64
    requires { InRange p }
    ensures { result ≡ pos (face_of_point (drawn edges.entry) p) }
{
    let mut best = None;
    for i in 0..edges.count {
        best = floor_over(best, p, edges.rows, i);
    }
    match best {
        Some(h) => h.upper as i64,
        None => 0,
    }
}
