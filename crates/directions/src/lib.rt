// Directions in counterclockwise order, and what passes below a point. Both go by signs of cross products: unsigned
// sums that are compared.
#![tactic(auto)]

ghost use Rattle.std.specs.Prelude.{◌≡◌, true, false, ◌+◌, ◌*◌, ◌≤◌, ◌<◌, pos, ◌-ℤ◌};
ghost use Rattle.integers.specs.Order.{sgn};
ghost use Rattle.plane.specs.Points.{InRange, max_coordinate};
ghost use Rattle.plane.specs.Areas.{turn};
ghost use Rattle.plane.specs.Directions.{way_to, sign_place, signs, class, cross, before, same_way};
ghost use Rattle.plane.specs.Below.{is_below, passes_below, higher};

use plane::{Point, Turn};
use std::cmp::Ordering;

// The signs: below, at and above 0.
const SIGNS: usize = 3;

// The pairs of signs.
pub const SIGN_PAIRS: usize = SIGNS * SIGNS;

// The eight direction classes by the signs of dx and dy, below, at and above 0; 8 where there is no direction.
const CLASSES: [[u8; SIGNS]; SIGNS] = [[5, 4, 3], [6, 8, 2], [7, 0, 1]];

// The place of the sign of `to` less `from` in the table.
fn sign_of(from: u64, to: u64) -> usize
    ensures { (result ≡ sign_place (sgn (pos to -ℤ pos from))) × (result < 3) }
{
    match to.cmp(&from) {
        Ordering::Less => 0,
        Ordering::Equal => 1,
        Ordering::Greater => 2,
    }
}

// The place of the signs of the direction from p to q among the pairs of signs.
pub fn signs_of(p: Point, q: Point) -> usize
    ensures { (result ≡ signs (way_to p q)) × (result < 9) }
{
    let i = sign_of(p.x, q.x);
    let j = sign_of(p.y, q.y);
    i * SIGNS + j
}

// The class of the direction from p to q.
pub fn class_of(p: Point, q: Point) -> u8
    ensures { result ≡ class (way_to p q) }
{
    let i = sign_of(p.x, q.x);
    let j = sign_of(p.y, q.y);
    CLASSES[i][j]
}

// The part of the cross product of b - a and d - c that is added; with a and b exchanged it is the part that is taken
// away.
fn cross_part(a: Point, b: Point, c: Point, d: Point) -> u64
    requires { (InRange a) × (InRange b) × (InRange c) × (InRange d) }
    ensures { (result ≡ b.x * d.y + a.x * c.y + b.y * c.x + a.y * d.x) × (result ≤ 4398038122500) }
{
    plane::times(b.x, d.y)
        + plane::times(a.x, c.y)
        + plane::times(b.y, c.x)
        + plane::times(a.y, d.x)
}

// The turn from the direction of a b to that of c d.
pub fn cross_turn(a: Point, b: Point, c: Point, d: Point) -> Turn
    requires { (InRange a) × (InRange b) × (InRange c) × (InRange d) }
    ensures { result ≡ turn (cross (way_to a b) (way_to c d)) }
{
    plane::turn_of(cross_part(a, b, c, d), cross_part(b, a, c, d))
}

// Whether the direction of a b comes before that of c d, counterclockwise from class 0 on.
pub fn comes_before(a: Point, b: Point, c: Point, d: Point) -> bool
    requires { (InRange a) × (InRange b) × (InRange c) × (InRange d) }
    ensures { result ≡ before (way_to a b) (way_to c d) }
{
    let k = class_of(a, b);
    let l = class_of(c, d);
    k < l || k == l && cross_turn(a, b, c, d) == Turn::Left
}

// Whether a b and c d have one direction.
pub fn same_direction(a: Point, b: Point, c: Point, d: Point) -> bool
    requires { (InRange a) × (InRange b) × (InRange c) × (InRange d) }
    ensures { result ≡ same_way (way_to a b) (way_to c d) }
{
    class_of(a, b) == class_of(c, d) && cross_turn(a, b, c, d) == Turn::Straight
}

// Whether the segment a b, a.x <= b.x, passes strictly below p with a.x <= p.x < b.x.
fn below_ordered(p: Point, a: Point, b: Point) -> bool
    requires { (InRange p) × (InRange a) × (InRange b) }
    ensures { result ≡ is_below p (record { from = a; to = b }) }
{
    a.x <= p.x && p.x < b.x && plane::orient(a, b, p) == Turn::Left
}

// Whether the segment a b passes below p.
pub fn passes_below(p: Point, a: Point, b: Point) -> bool
    requires { (InRange p) × (InRange a) × (InRange b) }
    ensures { result ≡ passes_below p (record { from = a; to = b }) }
{
    if a.x <= b.x {
        below_ordered(p, a, b)
    } else {
        below_ordered(p, b, a)
    }
}

// The part of the height of a b at x, times its run, that is added; with a and b exchanged it is the part that is taken
// away.
fn height_part(x: u64, a: Point, b: Point) -> u64
    requires { (x ≤ max_coordinate) × (InRange a) × (InRange b) }
    ensures { (result ≡ a.y * b.x + x * b.y) × (result ≤ 2199019061250) }
{
    plane::times(a.y, b.x) + plane::times(x, b.y)
}

// A height times a coordinate.
fn lift(h: u64, x: u64) -> u64
    requires { (h ≤ 2199019061250) × (x ≤ max_coordinate) }
    ensures { (result ≡ h * x) × (result ≤ 2305836412150218750) }
{
    h * x
}

// The part that is added where the heights of a b and c d at x are compared over a common run; with a and b exchanged
// it is the part taken away.
fn lift_part(x: u64, a: Point, b: Point, c: Point, d: Point) -> u64
    requires { (x ≤ max_coordinate) × (InRange a) × (InRange b) × (InRange c) × (InRange d) }
    ensures { result ≡ (a.y * b.x + x * b.y) * d.x + (b.y * a.x + x * a.y) * c.x
        + (c.y * d.x + x * d.y) * a.x + (d.y * c.x + x * c.y) * b.x }
{
    lift(height_part(x, a, b), d.x)
        + lift(height_part(x, b, a), c.x)
        + lift(height_part(x, c, d), a.x)
        + lift(height_part(x, d, c), b.x)
}

// Whether the segment a b is higher at x than c d, ties to the greater slope; both with their ends ordered by x.
pub fn is_higher(x: u64, a: Point, b: Point, c: Point, d: Point) -> bool
    requires { (x ≤ max_coordinate) × (InRange a) × (InRange b) × (InRange c) × (InRange d) }
    ensures { result ≡ higher x (record { from = a; to = b }) (record { from = c; to = d }) }
{
    let p = lift_part(x, a, b, c, d);
    let n = lift_part(x, b, a, c, d);
    n < p || n == p && cross_turn(c, d, a, b) == Turn::Left
}
