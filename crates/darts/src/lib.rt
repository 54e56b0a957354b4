// Directed edges by position: twice the row, and one more for the reverse. Their columns stand side by side in an edge
// row: start and end, next left and next right, left and right face.
#![tactic(auto)]

ghost use Rattle.std.specs.Prelude.{◌≡◌, ◌+◌, ◌*◌, ◌/◌, ◌<◌, ◌≤◌, length, set};
ghost use Rattle.lists.specs.Tables.{place};
ghost use Rattle.planar_maps.specs.Rings.{same_dart};
ghost use Rattle.plane.specs.Directions.{way_to, signs, before as beforeWay, same_way};
ghost use Rattle.curves.specs.Curves.{Run, curve_of};
ghost use Rattle.curves.specs.Edits.{course};
ghost use Rattle.map.specs.Limits.{edge_width, max_edges};
ghost use Rattle.map.specs.Rows.{dart_of, dart_cell};
ghost use Rattle.map.specs.Darts.{directed, next};
ghost use Rattle.map_rows.specs.Rows.{EdgeRow, EdgeRows, edge_map};
ghost use Rattle.darts.specs.Positions.{reverse_of, dart_at, side_place, side_cell, way_at, StepInRange};
ghost use Rattle.darts.specs.Positions.{course_at, course_with, Along};

use map::Map;
use plane::Point;

// The places of a step's signs.
pub const SIGN_PAIRS: usize = directions::SIGN_PAIRS;

// The cell of a directed edge in a column pair of the edge rows: START the node that it leaves, NEXT_LEFT its next,
// LEFT the face that it bears.
pub fn dart_cell(edges: &[i64], p: usize, k: usize) -> i64
    requires { (p / 2 * edge_width + edge_width ≤ length edges.now) × (k + 2 ≤ edge_width) }
    ensures { result ≡ side_cell edges.now p k }
{
    edges[p / 2 * map::EDGE_WIDTH + k + p % 2]
}

// Writes that cell.
pub fn set_dart_cell(edges: &mut [i64], p: usize, k: usize, v: i64)
    requires { (p / 2 * edge_width + edge_width ≤ length edges.old) × (k + 2 ≤ edge_width) }
    ensures { edges.new ≡ set edges.old (side_place p k) v }
{
    edges[p / 2 * map::EDGE_WIDTH + k + p % 2] = v;
}

// The position of the reverse.
pub fn reverse(p: usize) -> usize
    requires { p < 5000 }
    ensures { result ≡ reverse_of p }
{
    if p % 2 == 0 { p + 1 } else { p - 1 }
}

// The directed edge at a position, as the tables write it.
pub fn dart_at(edges: &[i64], p: usize) -> i64
    requires { EdgeRow edges.now (p / 2) }
    ensures { result ≡ dart_cell (dart_at edges.now p) }
{
    let e = edges[p / 2 * map::EDGE_WIDTH];
    if p % 2 == 0 { e } else { -e }
}

// The position of a directed edge: found, or missing.
pub fn position_of(edges: &[i64], count: usize, d: i64) -> Option<usize>
    requires { EdgeRows edges.now count }
    ensures { result ≡ place (λ c. same_dart c (dart_of d)) 0 (directed (edge_map edges.now count)) }
{
    if (d < map::LEAST_LINK) | (Map::LAST_NUMBER < d) {
        return None;
    }
    let (number, back) = if d < 0 { (-d, 1) } else { (d, 0) };
    let i = tables::find_row(edges, map::EDGE_WIDTH, count, number)?;
    Some(i * 2 + back)
}

// The position of what follows; in form it is never missing. One step of a ring: walks hold positions in 16 bits.
pub fn next_position(edges: &[i64], count: usize, p: u16) -> u16
    requires { EdgeRows edges.now count × (count ≤ max_edges) × (p < count * 2) }
    ensures { (result < count * 2)
        × (dart_at edges.now result
        ≡ next (edge_map edges.now count) (dart_at edges.now p)) }
{
    let next = dart_cell(edges, p as usize, map::NEXT_LEFT);
    position_of(edges, count, next).unwrap_or(p as usize) as u16
}

// ---- directions

// Two points.
#[derive(Clone, Copy)]
pub struct Step {
    pub from: Point,
    pub to: Point,
}

// The first step along a curve, or along its reverse.
pub fn first_step(c: &[i64], back: bool) -> Step
    requires { Run c.now }
    ensures { Along result (course back (curve_of c.now)) }
{
    let n = curves::point_count(c);
    if back {
        // most edges are straight: where the count is known the compiler need not work out the place
        if n == 2 {
            return Step {
                from: curves::point_at(c, 1),
                to: curves::point_at(c, 0),
            };
        }
        Step {
            from: curves::point_at(c, n - 1),
            to: curves::point_at(c, n - 2),
        }
    } else {
        Step {
            from: curves::point_at(c, 0),
            to: curves::point_at(c, 1),
        }
    }
}

// The first step of the directed edge at a position.
pub fn step_at(edges: &[i64], p: usize) -> Step
    requires { EdgeRow edges.now (p / 2) }
    ensures { Along result (course_at edges.now p) }
{
    first_step(map_rows::curve_of(edges, p / 2), p % 2 == 1)
}

// The place of that step's signs among the pairs of signs.
pub fn signs_at(edges: &[i64], p: usize) -> usize
    requires { EdgeRow edges.now (p / 2) }
    ensures { (result ≡ signs (way_at edges.now p)) × (result < 9) }
{
    let v = step_at(edges, p);
    directions::signs_of(v.from, v.to)
}

// The first step of the directed edge at a position where edge row `own` has the curve c; no row has it, where `own` is
// past them all.
pub fn step_with(edges: &[i64], own: usize, c: &[i64], p: usize) -> Step
    requires { (p / 2 ≡ own → Run c.now)
        × (((p / 2 ≡ own) → ⊥) → EdgeRow edges.now (p / 2)) }
    ensures { Along result (course_with edges.now own c.now p) }
{
    if p / 2 == own {
        first_step(c, p % 2 == 1)
    } else {
        step_at(edges, p)
    }
}

// Whether the direction of v comes before that of w, counterclockwise.
pub fn before(v: Step, w: Step) -> bool
    requires { StepInRange v × StepInRange w }
    ensures { result ≡ beforeWay (way_to v.from v.to) (way_to w.from w.to) }
{
    directions::comes_before(v.from, v.to, w.from, w.to)
}

// Whether v and w have one direction.
pub fn same_way(v: Step, w: Step) -> bool
    requires { StepInRange v × StepInRange w }
    ensures { result ≡ same_way (way_to v.from v.to) (way_to w.from w.to) }
{
    directions::same_direction(v.from, v.to, w.from, w.to)
}
