// Exact geometry of points and segments. Definitions are over ℤ; the code is unsigned inside: a doubled area or a cross
// product is the difference of two sums of products, and its sign is how the two sums compare.
#![tactic(auto)]

ghost use Rattle.std.specs.Prelude.{◌≡◌, ◌+◌, ◌*◌, ◌≤◌, ◌<◌, pos, ◌-ℤ◌};
ghost use Rattle.integers.specs.Order.{sgn};
ghost use Rattle.plane.specs.Points.{InRange};
ghost use Rattle.plane.specs.Areas.{area, turn, is_null};
ghost use Rattle.plane.specs.Segments.{overlap, overlap_more, apart, straddle, meets, on_segment, straight_between};
ghost use Rattle.plane.specs.Segments.{stretches, ended, contact};

use std::cmp::Ordering;

// The greatest coordinate.
pub const COORDINATE: i64 = 1048575;

#[derive(Clone, Copy, PartialEq, Eq)]
pub struct Point {
    pub x: u64,
    pub y: u64,
}

// The way from a by b to c.
#[derive(Clone, Copy, PartialEq, Eq)]
pub enum Turn {
    Left,
    Straight,
    Right,
}

// How two segments meet: in no point, in one, in one that is inner to both, in more than one; the graver the greater.
#[derive(Clone, Copy, PartialEq, Eq, PartialOrd, Ord)]
pub enum Contact {
    None,
    Touch,
    Crossing,
    Stretch,
}

// A product of two coordinates.
pub fn times(a: u64, b: u64) -> u64
    requires { (a ≤ 1048575) × (b ≤ 1048575) }
    ensures { (result ≡ a * b) × (result ≤ 1099509530625) }
{
    a * b
}

// The part of the doubled area that is added; that of b, a, c is the part that is taken away.
fn plus_part(a: Point, b: Point, c: Point) -> u64
    requires { (InRange a) × (InRange b) × (InRange c) }
    ensures { (result ≡ a.x * b.y + b.x * c.y + c.x * a.y) × (result ≤ 3298528591875) }
{
    times(a.x, b.y) + times(b.x, c.y) + times(c.x, a.y)
}

// The doubled area of the triangle a b c: positive where the way from a by b to c turns left.
pub fn area2(a: Point, b: Point, c: Point) -> i64
    requires { (InRange a) × (InRange b) × (InRange c) }
    ensures { result ≡ area a b c }
{
    plus_part(a, b, c) as i64 - plus_part(b, a, c) as i64
}

// The sign of `plus` less `minus`, as a turn.
pub fn turn_of(plus: u64, minus: u64) -> Turn
    ensures { result ≡ turn (pos plus -ℤ pos minus) }
{
    match plus.cmp(&minus) {
        Ordering::Less => Turn::Right,
        Ordering::Equal => Turn::Straight,
        Ordering::Greater => Turn::Left,
    }
}

// The sign of the doubled area.
pub fn orient(a: Point, b: Point, c: Point) -> Turn
    requires { (InRange a) × (InRange b) × (InRange c) }
    ensures { result ≡ turn (area a b c) }
{
    turn_of(plus_part(a, b, c), plus_part(b, a, c))
}

// Whether the ranges of a, b and of c, d have a number in common.
pub fn ranges_overlap(a: u64, b: u64, c: u64, d: u64) -> bool
    ensures { result ≡ overlap a b c d }
{
    a.min(b) <= c.max(d) && c.min(d) <= a.max(b)
}

// Whether they have more than one number in common.
pub fn ranges_overlap_more(a: u64, b: u64, c: u64, d: u64) -> bool
    ensures { result ≡ overlap_more a b c d }
{
    let low = a.min(b).max(c.min(d));
    let high = a.max(b).min(c.max(d));
    low < high
}

// Whether the turns s and t are not both to the left and not both to the right.
fn turns_apart(s: Turn, t: Turn) -> bool
    ensures { result ≡ apart s t }
{
    s != t || s == Turn::Straight
}

// Whether c and d do not lie strictly on one side of the line a b.
fn straddles(a: Point, b: Point, c: Point, d: Point) -> bool
    requires { (InRange a) × (InRange b) × (InRange c) × (InRange d) }
    ensures { result ≡ straddle a b c d }
{
    turns_apart(orient(a, b, c), orient(a, b, d))
}

// Whether the segments a b and c d have a point in common.
pub fn segments_meet(a: Point, b: Point, c: Point, d: Point) -> bool
    requires { (InRange a) × (InRange b) × (InRange c) × (InRange d) }
    ensures { result ≡ meets a b c d }
{
    ranges_overlap(a.x, b.x, c.x, d.x)
        && ranges_overlap(a.y, b.y, c.y, d.y)
        && straddles(a, b, c, d)
        && straddles(c, d, a, b)
}

// Whether p lies on the segment a b.
pub fn on_segment(p: Point, a: Point, b: Point) -> bool
    requires { (InRange p) × (InRange a) × (InRange b) }
    ensures { result ≡ on_segment p a b }
{
    segments_meet(p, p, a, b)
}

// Whether p lies straight between a and b.
pub fn straight_between(a: Point, p: Point, b: Point) -> bool
    requires { (InRange a) × (InRange p) × (InRange b) }
    ensures { result ≡ straight_between a p b }
{
    a != p && p != b && on_segment(p, a, b)
}

// Whether a, b and c lie on one line.
fn collinear(a: Point, b: Point, c: Point) -> bool
    requires { (InRange a) × (InRange b) × (InRange c) }
    ensures { result ≡ is_null (sgn (area a b c)) }
{
    orient(a, b, c) == Turn::Straight
}

// Whether the segments a b and c d lie on one line with more than one common point.
pub fn segments_stretch(a: Point, b: Point, c: Point, d: Point) -> bool
    requires { (InRange a) × (InRange b) × (InRange c) × (InRange d) }
    ensures { result ≡ stretches a b c d }
{
    collinear(a, b, c)
        && collinear(a, b, d)
        && (ranges_overlap_more(a.x, b.x, c.x, d.x) || ranges_overlap_more(a.y, b.y, c.y, d.y))
}

// Whether an end of one of the segments a b and c d lies on the other.
fn end_touches(a: Point, b: Point, c: Point, d: Point) -> bool
    requires { (InRange a) × (InRange b) × (InRange c) × (InRange d) }
    ensures { result ≡ ended a b c d }
{
    on_segment(a, c, d) || on_segment(b, c, d) || on_segment(c, a, b) || on_segment(d, a, b)
}

// How the segments a b and c d meet.
pub fn contact_of(a: Point, b: Point, c: Point, d: Point) -> Contact
    requires { (InRange a) × (InRange b) × (InRange c) × (InRange d) }
    ensures { result ≡ contact a b c d }
{
    if !segments_meet(a, b, c, d) {
        Contact::None
    } else if segments_stretch(a, b, c, d) {
        Contact::Stretch
    } else if end_touches(a, b, c, d) {
        Contact::Touch
    } else {
        Contact::Crossing
    }
}
