// Curves cut, joined, reversed and without surplus points. A new curve is built point by point in a line, by value.
#![tactic(auto)]

ghost use Rattle.std.specs.Prelude.{◌≡◌, List, [], ◌∷◌, ◌++◌, ◌+◌, ◌*◌, ◌-◌, ◌≤◌, ◌<◌, ◌/◌, length};
ghost use Rattle.lists.specs.Tables.{table};
ghost use Rattle.plane.specs.Points.{InRange};
ghost use Rattle.curves.specs.Curves.{Run, point_at, curve_of, points};
ghost use Rattle.curves.specs.Edits.{front, back, joined, without_surplus, reversed};
ghost use Rattle.curve_edits.specs.Lines.{line_of};

use plane::Point;

// The points of a curve as the 24 numbers of an edge row, and their number.
#[derive(Clone, Copy)]
pub struct Line {
    pub count: usize,
    pub cells: [i64; curves::CELLS],
}

impl Line {
    // No point yet.
    pub fn empty() -> Line
        ensures { result ≡ line_of [] }
    {
        Line {
            count: 0,
            cells: [0i64; curves::CELLS],
        }
    }
    // The line with one point more.
    fn with_point(self, p: Point) -> Line
        requires { InRange p × (self.count < 1000) }
        ensures { ((ps : List _) → self ≡ line_of ps → result ≡ line_of (ps ++ (p ∷ [])))
            × (result.count ≡ self.count + 1) }
    {
        let n = self.count;
        let mut cells = self.cells;
        if n < curves::POINTS {
            cells[n * 2] = p.x as i64;
            cells[n * 2 + 1] = p.y as i64;
        }
        Line {
            count: n + 1,
            cells,
        }
    }

    // The line with the points from `from` on, up to and without `to`, of the curve c.
    fn with_points(self, c: &[i64], from: usize, to: usize) -> Line
        requires { Run c.now × (from ≤ to) × (to ≤ length c.now / 2) × (self.count < 100) }
        ensures { ((ps : List _) → self ≡ line_of ps → result
            ≡ line_of (ps ++ table (point_at c.now) from (to - from))) × (result.count ≡ self.count + (to - from)) }
    {
        let mut out = self;
        for i in from..to {
            out = out.with_point(curves::point_at(c, i));
        }
        out
    }
}

// The curve as it is.
pub fn whole_of(c: &[i64]) -> Line
    requires { Run c.now }
    ensures { result ≡ line_of (points (curve_of c.now)) }
{
    Line::empty().with_points(c, 0, curves::point_count(c))
}

// The curve up to its first place at m.
pub fn front_of(c: &[i64], m: Point) -> Line
    requires { Run c.now × InRange m }
    ensures { result ≡ line_of (points (front m (curve_of c.now))) }
{
    let Some(i) = curves::first_place(c, m) else {
        return whole_of(c);
    };
    Line::empty().with_points(c, 0, i + 1).with_point(m)
}

// The curve from its first place at m on.
pub fn back_of(c: &[i64], m: Point) -> Line
    requires { Run c.now × InRange m }
    ensures { result ≡ line_of (points (back m (curve_of c.now))) }
{
    let start = Line::empty().with_point(m);
    let Some(i) = curves::first_place(c, m) else {
        return start;
    };
    let n = curves::point_count(c);
    if m == curves::point_at(c, i + 1) {
        start.with_points(c, i + 2, n)
    } else {
        start.with_points(c, i + 1, n)
    }
}

// The curve c and after it d, which starts where c ends; the joint is dropped when it lies straight between its
// neighbours.
pub fn joined_of(c: &[i64], d: &[i64]) -> Line
    requires { Run c.now × Run d.now }
    ensures { result ≡ line_of (points (joined (curve_of c.now) (curve_of d.now))) }
{
    let n = curves::point_count(c);
    let k = curves::point_count(d);
    let joint = curves::point_at(c, n - 1);
    let begin = Line::empty().with_points(c, 0, n - 1);
    if plane::straight_between(curves::point_at(c, n - 2), joint, curves::point_at(d, 1)) {
        begin.with_points(d, 1, k)
    } else {
        begin.with_point(joint).with_points(d, 1, k)
    }
}

// The curve without surplus points: the inner ones that lie straight between their given neighbours.
pub fn without_surplus(c: &[i64]) -> Line
    requires { Run c.now }
    ensures { result ≡ line_of (points (without_surplus (curve_of c.now))) }
{
    let last = curves::point_count(c) - 1;
    let mut out = Line::empty().with_point(curves::point_at(c, 0));
    for i in 1..last {
        let p = curves::point_at(c, i);
        if !plane::straight_between(curves::point_at(c, i - 1), p, curves::point_at(c, i + 1)) {
            out = out.with_point(p);
        }
    }
    out.with_point(curves::point_at(c, last))
}

// The curve the other way round.
pub fn reversed_of(c: &[i64]) -> Line
    requires { Run c.now }
    ensures { result ≡ line_of (points (reversed (curve_of c.now))) }
{
    let n = curves::point_count(c);
    let mut out = Line::empty();
    for i in 0..n {
        out = out.with_point(curves::point_at(c, n - 1 - i));
    }
    out
}
