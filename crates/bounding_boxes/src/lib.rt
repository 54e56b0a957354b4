// The extent of a curve: the least box around its points. Curves whose extents lie apart share no point.
#![tactic(auto)]

ghost use Rattle.std.specs.Prelude.{◌≡◌};
ghost use Rattle.curves.specs.Curves.{Run, curve_of};
ghost use Rattle.bounding_boxes.specs.Extents.{widen, extent_of, union, boxes_apart};

use plane::Point;

#[derive(Clone, Copy)]
pub struct Extent {
    pub left: u64,
    pub right: u64,
    pub low: u64,
    pub high: u64,
}

impl Extent {
    // The extent with a point besides.
    fn widened(self, p: Point) -> Extent
        ensures { result ≡ widen self p }
    {
        Extent {
            left: self.left.min(p.x),
            right: self.right.max(p.x),
            low: self.low.min(p.y),
            high: self.high.max(p.y),
        }
    }

    // The least box around two.
    pub fn united(self, other: Extent) -> Extent
        ensures { result ≡ union self other }
    {
        Extent {
            left: self.left.min(other.left),
            right: self.right.max(other.right),
            low: self.low.min(other.low),
            high: self.high.max(other.high),
        }
    }

    // Whether the extents have no point in common.
    pub fn lies_apart(self, other: Extent) -> bool
        ensures { result ≡ boxes_apart self other }
    {
        self.right < other.left
            || other.right < self.left
            || self.high < other.low
            || other.high < self.low
    }
}

// The least box around a curve.
pub fn extent_of(c: &[i64]) -> Extent
    requires { Run c.now }
    ensures { result ≡ extent_of (curve_of c.now) }
{
    let p = curves::point_at(c, 0);
    let mut e = Extent {
        left: p.x,
        right: p.x,
        low: p.y,
        high: p.y,
    };
    let n = curves::point_count(c);
    for i in 1..n {
        e = e.widened(curves::point_at(c, i));
    }
    e
}
