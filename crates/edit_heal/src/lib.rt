// Kinds 9 and 10: two edges healed into one.
#![tactic(auto)]

ghost use Rattle.std.specs.Prelude.{◌≡◌, ℕ, ◌+◌, ◌*◌, ◌/◌, ◌≤◌, ◌<◌, pos, nat_abs, length};
ghost use Rattle.lists.specs.Tables.{place};
ghost use Rattle.tables.specs.Tables.{same_z, column, closed};
ghost use Rattle.curves.specs.Curves.{points, max_points};
ghost use Rattle.curve_edits.specs.Lines.{line_of};
ghost use Rattle.map.specs.Limits.{max_edges, node_width, edge_width};
ghost use Rattle.map.specs.Rows.{counts};
ghost use Rattle.map.specs.Reasons.{first_reason};
ghost use Rattle.map.specs.Refusals.{refusal_of};
ghost use Rattle.map.specs.Loans.{lent_now};
ghost use Rattle.map_rows.specs.Rows.{edge_at, EdgeRow, NodeRows};
ghost use Rattle.map_rows.specs.Cells.{cells_of};
ghost use Rattle.head.specs.Heads.{Counted, changed_head};
ghost use Rattle.outcomes.specs.Outcomes.{Formed, edited, done_of, outcome_now};
ghost use Rattle.outcomes.specs.Variants.{heal_ticket};
ghost use Rattle.edit_heal.specs.Heals.{dart_with, JointRows, PartsOf, course_at, joined_line};
ghost use Rattle.edit_heal.specs.Heals.{TwoDarts, led_to_healed, RowAndDarts, healed_incidence, closed_up, TwoRows};
ghost use Rattle.edit_heal.specs.Heals.{healed_written, HealableRows, healed_rows, late_reasons, healed_value};
ghost use Rattle.edit_heal.specs.Heals.{heal_numbers, HealableEdges, HealedTables};

use curve_edits::Line;
use lent_rows::Edges;
use map::{Counts, Head, Refusal, Variant};
use map_rows::Incidence;
use outcomes::Carried;

// ---- the two directed edges that are joined

// Two directed edges by position, and the node between them.
#[derive(Clone, Copy)]
struct Parts {
    first: usize,
    second: usize,
    joint: i64,
}

// The position of the directed edge of row j that has the node at its end k: START leaves it, END arrives there.
fn dart_with(edges: &[i64], j: usize, k: usize, node: i64) -> usize
    requires { (j * edge_width + edge_width ≤ length edges.now) × (j ≤ max_edges) × (k < edge_width) }
    ensures { result ≡ dart_with edges.now j k node }
{
    if edges[j * map::EDGE_WIDTH + k] == node {
        j * 2
    } else {
        j * 2 + 1
    }
}

// The two directed edges that are joined, in the direction of edge row i.
fn parts_of(edges: Edges<'_>, i: usize, j: usize) -> Parts
    requires { JointRows edges i j }
    ensures { PartsOf edges.entry.rows.now edges.entry.count i j result }
{
    let u = edges.rows[i * map::EDGE_WIDTH + map::START];
    let v = edges.rows[i * map::EDGE_WIDTH + map::END];
    if reason_departures::joins_at(edges, j, v) {
        return Parts {
            first: i * 2,
            second: dart_with(edges.rows, j, map::START, v),
            joint: v,
        };
    }
    Parts {
        first: dart_with(edges.rows, j, map::END, u),
        second: i * 2,
        joint: u,
    }
}

// The curve of the directed edge at a position, in its own direction.
fn course_of(edges: &[i64], p: usize) -> Line
    requires { EdgeRow edges.now (p / 2) }
    ensures { result ≡ line_of (points (course_at edges.now p)) }
{
    let c = map_rows::curve_of(edges, p / 2);
    if p % 2 == 1 {
        curve_edits::reversed_of(c)
    } else {
        curve_edits::whole_of(c)
    }
}

// The curve of p, and after it that of q.
fn joined_line(edges: &[i64], p: usize, q: usize) -> Line
    requires { EdgeRow edges.now (p / 2) × EdgeRow edges.now (q / 2) }
    ensures { result ≡ joined_line edges.now p q }
{
    let a = course_of(edges, p);
    let b = course_of(edges, q);
    curve_edits::joined_of(&a.cells[..a.count * 2], &b.cells[..b.count * 2])
}

// ---- the edge rows

// What led to p leads to the edge `number`, and what led to the reverse of q to its reverse.
fn lead_to_healed(edges: &mut [i64], e: usize, p: usize, q: usize, number: i64)
    requires { TwoDarts edges.old e p q number }
    ensures { edges.new ≡ led_to_healed edges.old e p q number }
{
    let c = darts::dart_at(edges, p);
    let d = darts::dart_at(edges, darts::reverse(q));
    links::redirect(edges, e, c, number);
    links::redirect(edges, e, d, links::negated(number));
}

// The numbers of the healed edge, with the faces of row i.
fn healed_incidence(edges: &[i64], i: usize, p: usize, q: usize, number: i64) -> Incidence
    requires { RowAndDarts edges.now i p q }
    ensures { result ≡ healed_incidence edges.now i p q number }
{
    let start = darts::dart_cell(edges, p, map::START);
    let end = darts::dart_cell(edges, darts::reverse(q), map::START);
    let next_left = darts::dart_cell(edges, q, map::NEXT_LEFT);
    let next_right = darts::dart_cell(edges, darts::reverse(p), map::NEXT_LEFT);
    let left = edges[i * map::EDGE_WIDTH + map::LEFT];
    let right = edges[i * map::EDGE_WIDTH + map::RIGHT];
    Incidence {
        number,
        start,
        end,
        next_left,
        next_right,
        left,
        right,
    }
}

// The place of row i after row j is gone.
fn closed_up(i: usize, j: usize) -> usize
    ensures { result ≡ closed_up i j }
{
    if j < i { i - 1 } else { i }
}

// The healed edge in the place of row i or, where that number goes, last; row j goes.
fn write_healed(
    edges: &mut [i64],
    e: usize,
    i: usize,
    j: usize,
    how: Variant,
    s: Incidence,
    l: Line,
)
    requires { TwoRows edges.old e i j × (l.count ≤ max_points) }
    ensures { edges.new ≡ healed_written how edges.old e i j (cells_of s l) }
{
    match how {
        Variant::Mod => {
            map_rows::write_edge(edges, i, s, l);
            tables::remove_row(edges, map::EDGE_WIDTH, e, j);
        }
        Variant::New => {
            tables::remove_row(edges, map::EDGE_WIDTH, e, j);
            tables::remove_row(edges, map::EDGE_WIDTH, e - 1, closed_up(i, j));
            map_rows::write_edge(edges, e - 2, s, l);
        }
    }
}

// Rows i and j healed along the parts s into the edge `number`, which has the points of l.
fn heal_rows(
    edges: &mut [i64],
    e: usize,
    i: usize,
    j: usize,
    s: Parts,
    how: Variant,
    number: i64,
    l: Line,
)
    requires { HealableRows edges.old e i j s.first s.second number l }
    ensures { edges.new ≡ healed_rows edges.old e i j s.first s.second how number l }
{
    lead_to_healed(edges, e, s.first, s.second, number);
    let healed = healed_incidence(edges, i, s.first, s.second, number);
    write_healed(edges, e, i, j, how, healed, l);
}

// ---- nodes and head

// The row of the joint goes.
fn remove_joint(nodes: &mut [i64], n: usize, joint: i64)
    requires { NodeRows nodes.old n }
    ensures { (k : ℕ) → place (same_z joint) 0 (column node_width nodes.old n) ≡ Some k
        → nodes.new ≡ closed node_width nodes.old n k }
{
    if let Some(k) = tables::find_row(nodes, map::NODE_WIDTH, n, joint) {
        tables::remove_row(nodes, map::NODE_WIDTH, n, k);
    }
}

// The value: the healed edge's number where it is new.
fn healed_value(h: Head, how: Variant) -> i64
    ensures { result ≡ healed_value h how }
{
    match how {
        Variant::New => h.next_edge,
        Variant::Mod => 0,
    }
}

// The numbers that are given: an edge's, or none.
fn heal_numbers(how: Variant) -> Counts
    ensures { result ≡ heal_numbers how }
{
    match how {
        Variant::New => head::EDGE,
        Variant::Mod => head::NONE,
    }
}

// The head with a node and an edge less.
fn after_heal(h: Head, how: Variant) -> Head
    requires { Counted h × (1 ≤ nat_abs h.nodes) × (1 ≤ nat_abs h.edges) }
    ensures { result ≡ changed_head h (counts 0 0 0) (counts 1 1 0) (heal_numbers how) }
{
    head::changed(h, head::NONE, head::NODE_AND_EDGE, heal_numbers(how))
}

// ---- the heal

// Whether the healed curve has too many points, or no number is left for the edge.
fn check_late(count: usize, h: Head, how: Variant) -> Result<(), Refusal>
    requires { Counted h }
    ensures { refusal_of result ≡ first_reason (late_reasons count h how) }
{
    if head::most_points(h) < count {
        return Err(Refusal::TooManyPoints);
    }
    if how == Variant::New && head::is_spent(h, head::EDGE) {
        return Err(Refusal::NumbersSpent);
    }
    Ok(())
}

// Rows i and j healed along the parts s, and the joint gone.
fn carry_out(
    nodes: &mut [i64],
    edges: &mut [i64],
    h: Head,
    how: Variant,
    i: usize,
    j: usize,
    s: Parts,
    l: Line,
) -> Carried
    requires { HealableEdges nodes.old edges.old h i j s l }
    ensures { HealedTables nodes.old edges.old h how i j s l nodes.new
        edges.new result }
{
    let number = outcomes::own_or_next(edges, h, how, i);
    heal_rows(edges, head::to_usize(h.edges), i, j, s, how, number, l);
    remove_joint(nodes, head::to_usize(h.nodes), s.joint);
    Carried {
        head: after_heal(h, how),
        value: healed_value(h, how),
    }
}

// Kinds 9 and 10 on the edges of rows i and j.
fn heal_at_rows(
    nodes: &mut [i64],
    edges: &mut [i64],
    faces: &[i64],
    h: Head,
    how: Variant,
    i: usize,
    j: usize,
) -> Result<Carried, Refusal>
    requires { Formed nodes.old edges.old faces.now h × (i < nat_abs h.edges) × (j < nat_abs h.edges) }
    ensures { outcome_now nodes.new edges.new faces.now (done_of h result)
        ≡ edited (lent_now nodes.old edges.old faces.now h)
        (heal_ticket how (pos (edge_at edges.old i).number) (pos (edge_at edges.old j).number)) }
{
    let e = head::to_usize(h.edges);
    let drawn = Edges {
        rows: edges,
        count: e,
    };
    reason_departures::check_joint(drawn, i, j)?;
    let s = parts_of(drawn, i, j);
    let l = joined_line(edges, s.first, s.second);
    check_late(l.count, h, how)?;
    Ok(carry_out(nodes, edges, h, how, i, j, s, l))
}

// Joins two edges into one at a node where no other edge ends, or answers the first reason against it.
pub fn heal_edges(
    nodes: &mut [i64],
    edges: &mut [i64],
    faces: &[i64],
    h: Head,
    how: Variant,
    edge: i64,
    other: i64,
) -> Result<Carried, Refusal>
    requires { Formed nodes.old edges.old faces.now h }
    ensures { outcome_now nodes.new edges.new faces.now (done_of h result)
        ≡ edited (lent_now nodes.old edges.old faces.now h)
        (heal_ticket how edge other) }
{
    let e = head::to_usize(h.edges);
    let Some(i) = tables::find_row(edges, map::EDGE_WIDTH, e, edge) else {
        return Err(Refusal::NoSuchRow);
    };
    let Some(j) = tables::find_row(edges, map::EDGE_WIDTH, e, other) else {
        return Err(Refusal::NoSuchRow);
    };
    heal_at_rows(nodes, edges, faces, h, how, i, j)
}
