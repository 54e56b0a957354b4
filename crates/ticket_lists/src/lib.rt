// A list of tickets in one call, from the empty map on.
#![tactic(auto)]

ghost use Rattle.std.specs.Prelude.{◌≡◌, ◌||◌, [], ◌∷◌, ◌++◌, map, ◌≤◌, ltb, length};
ghost use Rattle.map.specs.Grow.{Grown, after};
ghost use Rattle.map.specs.Reasons.{first_reason};
ghost use Rattle.map.specs.Refusals.{refusal_of};
ghost use Rattle.map.specs.Ticket.{create_reasons};
ghost use Rattle.map.specs.Loans.{lent_now};
ghost use Rattle.outcomes.specs.Outcomes.{done_of};
ghost use Rattle.ticket_lists.specs.Runs.{tickets_of, over_front, Runs};

use map::{Head, Refusal};
use outcomes::{Carried, Done};

// The reasons against the call: creation's, and 20 where the answers would not fit.
fn check_run(
    nodes: &[i64],
    edges: &[i64],
    faces: &[i64],
    points: i64,
    lengths: &[usize],
    refusals: &[u64],
    values: &[i64],
) -> Result<(), Refusal>
    ensures { (h : _) → refusal_of result
        ≡ first_reason (create_reasons (lent_now nodes.now edges.now faces.now h) points
        ++ (20, ltb (length refusals.now) (length lengths.now) || ltb (length values.now) (length lengths.now)) ∷ []) }
{
    engine::check_create(nodes, edges, faces, points)?;
    let n = lengths.len();
    if (refusals.len() < n) | (values.len() < n) {
        return Err(Refusal::NoRoom);
    }
    Ok(())
}

// The tickets one after the other, each with what its length takes of the numbers that are left.
fn run_tickets(
    nodes: &mut [i64],
    edges: &mut [i64],
    faces: &mut [i64],
    h: Head,
    numbers: &[i64],
    lengths: &[usize],
    refusals: &mut [u64],
    values: &mut [i64],
) -> Head
    requires { (length lengths.now ≤ length refusals.old) × (length lengths.now ≤ length values.old) }
    ensures { (g : Grown) → g ≡ after (lent_now nodes.old edges.old faces.old h)
        (tickets_of numbers.now lengths.now)
        → (lent_now nodes.new edges.new faces.new result ≡ g.lent)
        × (refusals.new ≡ over_front (map (λ a. a.refusal) g.answers) refusals.old)
        × (values.new ≡ over_front (map (λ a. a.value) g.answers) values.old) }
{
    let mut head = h;
    let mut left = numbers;
    for (i, n) in lengths.iter().enumerate() {
        let (t, later) = left.split_at((*n).min(left.len()));
        let done = engine::ticket(nodes, edges, faces, head, t);
        refusals[i] = done.answer.refusal;
        values[i] = done.answer.value;
        head = done.head;
        left = later;
    }
    head
}

// The list from the empty map on, or the first reason against the call.
fn run_all(
    nodes: &mut [i64],
    edges: &mut [i64],
    faces: &mut [i64],
    h: Head,
    points: i64,
    numbers: &[i64],
    lengths: &[usize],
    refusals: &mut [u64],
    values: &mut [i64],
) -> Result<Carried, Refusal>
    ensures { let done = done_of h result in Runs (lent_now nodes.old edges.old faces.old h) points
        numbers.now lengths.now refusals.old values.old
        (record {
          lent = lent_now nodes.new edges.new faces.new done.head;
          refusals = refusals.new;
          values = values.new;
          answer = done.answer;
        }) }
{
    check_run(nodes, edges, faces, points, lengths, refusals, values)?;
    let empty = engine::empty_map(nodes, edges, faces, h, points);
    let head = run_tickets(
        nodes, edges, faces, empty.head, numbers, lengths, refusals, values,
    );
    Ok(Carried { head, value: 0 })
}

// A list of tickets from the empty map on, which is created for curves of at most so many points, 6 or 12. `numbers`
// has the tickets one after the other, and `lengths` how many numbers each has.
pub fn run(
    nodes: &mut [i64],
    edges: &mut [i64],
    faces: &mut [i64],
    h: Head,
    points: i64,
    numbers: &[i64],
    lengths: &[usize],
    refusals: &mut [u64],
    values: &mut [i64],
) -> Done
    ensures { Runs (lent_now nodes.old edges.old faces.old h) points
        numbers.now lengths.now refusals.old values.old
        (record {
          lent = lent_now nodes.new edges.new faces.new result.head;
          refusals = refusals.new;
          values = values.new;
          answer = result.answer;
        }) }
{
    let ran = run_all(
        nodes, edges, faces, h, points, numbers, lengths, refusals, values,
    );
    outcomes::done_after(h, ran)
}
