// The fourteen kinds of tickets, chosen by the ticket's first number: a match on it decides argument count and edit.
#![tactic(auto)]

ghost use Rattle.std.specs.Prelude.{◌≡◌, true, false, None, Some, ◌-◌, ◌<◌, length, drop};
ghost use Rattle.std.proofs.Math.Option.{none};
ghost use Rattle.map.specs.Tickets.{read};
ghost use Rattle.map.specs.Ticket.{ticket};
ghost use Rattle.map.specs.Loans.{lent_now};
ghost use Rattle.outcomes.specs.Outcomes.{Formed, done_of, outcome_now};
ghost use Rattle.edit_dispatch.specs.Shaped.{shaped, shaped_rows, kind, kind_sent, kind_for, count_fits, read_for};
ghost use Rattle.edit_dispatch.specs.Shaped.{Asked, edges_named, draws_edge};

use edit_add::add_edge;
use edit_curve::change_curve;
use edit_heal::heal_edges;
use edit_isolated::{add_isolated_edge, remove_isolated_edge};
use edit_nodes::{add_node, move_node, remove_node};
use edit_remove::remove_edge;
use edit_split::split_edge;
use map::{Head, Refusal, Variant};
use outcomes::Carried;

// The edits, each by the function that carries it out.
#[derive(Clone, Copy)]
enum Routine {
    AddNode,
    MoveNode,
    RemoveNode,
    AddIsolatedEdge,
    RemoveIsolatedEdge,
    ChangeCurve,
    Split(Variant),
    Heal(Variant),
    AddEdge(Variant),
    RemoveEdge(Variant),
}

// What a ticket has after its first number: so many arguments, then a curve or nothing; and the edit it asks for.
#[derive(Clone, Copy)]
struct Kind {
    arguments: usize,
    curve: bool,
    routine: Routine,
}

// The places of the arguments in a ticket, after its kind.
const FIRST: usize = 1;

const SECOND: usize = 2;

const THIRD: usize = 3;

// ---- the argument count of each kind

// Arguments alone.
fn numbers(arguments: usize, routine: Routine) -> Kind
    ensures { result ≡ kind arguments false routine }
{
    Kind {
        arguments,
        curve: false,
        routine,
    }
}

// Arguments and a curve.
fn numbers_and_curve(arguments: usize, routine: Routine) -> Kind
    ensures { result ≡ kind arguments true routine }
{
    Kind {
        arguments,
        curve: true,
        routine,
    }
}

// The kind of a first number, where that is one.
fn kind_of(z: i64) -> Option<Kind>
    ensures { result ≡ kind_sent z }
{
    match z {
        1 => Some(numbers(3, Routine::AddNode)),
        2 => Some(numbers(3, Routine::MoveNode)),
        3 => Some(numbers(1, Routine::RemoveNode)),
        4 => Some(numbers_and_curve(2, Routine::AddIsolatedEdge)),
        5 => Some(numbers(1, Routine::RemoveIsolatedEdge)),
        6 => Some(numbers_and_curve(1, Routine::ChangeCurve)),
        7 => Some(numbers(3, Routine::Split(Variant::New))),
        8 => Some(numbers(3, Routine::Split(Variant::Mod))),
        9 => Some(numbers(2, Routine::Heal(Variant::New))),
        10 => Some(numbers(2, Routine::Heal(Variant::Mod))),
        11 => Some(numbers_and_curve(2, Routine::AddEdge(Variant::New))),
        12 => Some(numbers_and_curve(2, Routine::AddEdge(Variant::Mod))),
        13 => Some(numbers(1, Routine::RemoveEdge(Variant::New))),
        14 => Some(numbers(1, Routine::RemoveEdge(Variant::Mod))),
        _ => None,
    }
}

// So many numbers after the first are the count of the kind: its arguments, or these and pairs.
fn count_fits(k: Kind, n: usize) -> bool
    ensures { result ≡ count_fits k n }
{
    if k.curve {
        (k.arguments <= n) & (n % 2 == k.arguments % 2)
    } else {
        n == k.arguments
    }
}

// The routine that a ticket asks for, where it has the count of numbers of its kind.
fn read_routine(t: &[i64]) -> Option<Routine>
    ensures unknown { result ≡ None → read t.now ≡ none }
    ensures known { (r : _) → result ≡ Some r → Asked r t.now }
{
    let z = t.first()?;
    let k = kind_of(*z)?;
    if count_fits(k, t.len() - 1) {
        Some(k.routine)
    } else {
        None
    }
}

// ---- the edit of rows

// Carries out a routine on numbers of its count, but for the rectangles.
fn edit_rows(
    nodes: &mut [i64],
    edges: &mut [i64],
    faces: &mut [i64],
    h: Head,
    routine: Routine,
    t: &[i64],
) -> Result<Carried, Refusal>
    requires { Formed nodes.old edges.old faces.old h
        × (count_fits (kind_for routine) (length t.now - 1) ≡ true) }
    ensures { outcome_now nodes.new edges.new faces.new (done_of h result)
        ≡ shaped_rows (lent_now nodes.old edges.old faces.old h)
        (read_for routine (drop 1 t.now)) }
{
    match routine {
        Routine::AddNode => add_node(nodes, edges, faces, h, t[FIRST], t[SECOND], t[THIRD]),
        Routine::MoveNode => move_node(nodes, edges, faces, h, t[FIRST], t[SECOND], t[THIRD]),
        Routine::RemoveNode => remove_node(nodes, edges, faces, h, t[FIRST]),
        Routine::AddIsolatedEdge => {
            add_isolated_edge(nodes, edges, faces, h, t[FIRST], t[SECOND], &t[THIRD..])
        }
        Routine::RemoveIsolatedEdge => remove_isolated_edge(nodes, edges, faces, h, t[FIRST]),
        Routine::ChangeCurve => change_curve(nodes, edges, faces, h, t[FIRST], &t[SECOND..]),
        Routine::Split(how) => {
            split_edge(nodes, edges, faces, h, how, t[FIRST], t[SECOND], t[THIRD])
        }
        Routine::Heal(how) => heal_edges(nodes, edges, faces, h, how, t[FIRST], t[SECOND]),
        Routine::AddEdge(how) => {
            add_edge(
                nodes,
                edges,
                faces,
                h,
                how,
                t[FIRST],
                t[SECOND],
                &t[THIRD..],
            )
        }
        Routine::RemoveEdge(how) => remove_edge(nodes, edges, faces, h, how, t[FIRST]),
    }
}

// ---- the rectangles that it affects

// How many edges a ticket names, by its first numbers.
fn edges_named(routine: Routine) -> usize
    ensures { result ≡ edges_named routine }
{
    match routine {
        Routine::AddNode
        | Routine::MoveNode
        | Routine::RemoveNode
        | Routine::AddIsolatedEdge
        | Routine::AddEdge(_) => 0,
        Routine::RemoveIsolatedEdge
        | Routine::ChangeCurve
        | Routine::Split(_)
        | Routine::RemoveEdge(_) => 1,
        Routine::Heal(_) => 2,
    }
}

// Whether it draws an edge.
fn draws_edge(routine: Routine) -> bool
    ensures { result ≡ draws_edge routine }
{
    matches!(routine, Routine::AddIsolatedEdge | Routine::AddEdge(_))
}

// Carries out a routine on numbers of its count: the rows, and then the rectangles that it affects.
fn carry_out(
    nodes: &mut [i64],
    edges: &mut [i64],
    faces: &mut [i64],
    h: Head,
    routine: Routine,
    t: &[i64],
) -> Result<Carried, Refusal>
    requires { Formed nodes.old edges.old faces.old h
        × (count_fits (kind_for routine) (length t.now - 1) ≡ true) × (0 < length t.now) }
    ensures { outcome_now nodes.new edges.new faces.new (done_of h result)
        ≡ shaped (lent_now nodes.old edges.old faces.old h)
        (read_for routine (drop 1 t.now)) }
{
    let e = head::to_usize(h.edges);
    let before = edit_rectangles::affected_before(edges, e, edges_named(routine), t);
    let carried = edit_rows(nodes, edges, faces, h, routine, t)?;
    let after = carried.head;
    let a = edit_rectangles::affected_after(edges, h, after, draws_edge(routine), before);
    edit_rectangles::set_affected(edges, faces, after, a);
    Ok(carried)
}

// Carries out a ticket on tables in form, or answers the first reason against it.
pub fn edit(
    nodes: &mut [i64],
    edges: &mut [i64],
    faces: &mut [i64],
    h: Head,
    t: &[i64],
) -> Result<Carried, Refusal>
    requires { Formed nodes.old edges.old faces.old h }
    ensures { outcome_now nodes.new edges.new faces.new (done_of h result)
        ≡ ticket (lent_now nodes.old edges.old faces.old h) t.now }
{
    let Some(routine) = read_routine(t) else {
        return Err(Refusal::UnknownTicket);
    };
    carry_out(nodes, edges, faces, h, routine, t)
}
