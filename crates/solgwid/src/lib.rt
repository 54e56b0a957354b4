// The engine for programs in C and Rust: include/solgwid.h. A slice goes as a pointer and a length, the head as seven
// numbers; each function answers the refusal.
#![tactic(auto)]

ghost use Rattle.std.specs.Prelude.{◌≡◌, pos};
ghost use Rattle.map.specs.Ticket.{ticket, emptied, edges_of_face};
ghost use Rattle.map.specs.Loans.{lent_now};
ghost use Rattle.nesting.specs.Contents.{contents_of};
ghost use Rattle.ticket_lists.specs.Runs.{Runs};
ghost use Rattle.head.specs.Heads.{head_in};

// Makes the empty map for curves of at most so many points, 6 or 12, whatever the tables and the head held.
#[unsafe(no_mangle)]
pub extern "C" fn solgwid_empty_map(
    nodes: &mut [i64],
    edges: &mut [i64],
    faces: &mut [i64],
    head: &mut [i64; head::WIDTH],
    points: i64,
) -> u64
    ensures { record {
      lent = lent_now nodes.new edges.new faces.new (head_in head.new);
      answer = record { refusal = result; value = pos 0 };
    }
        ≡ emptied (lent_now nodes.old edges.old faces.old (head_in head.old)) points }
{
    let done = engine::empty_map(nodes, edges, faces, head::from_numbers(head), points);
    head::put_numbers(head, done.head);
    done.answer.refusal
}

// Carries out one ticket; its value is stored.
#[unsafe(no_mangle)]
pub extern "C" fn solgwid_ticket(
    nodes: &mut [i64],
    edges: &mut [i64],
    faces: &mut [i64],
    head: &mut [i64; head::WIDTH],
    numbers: &[i64],
    value: &mut i64,
) -> u64
    ensures { record {
      lent = lent_now nodes.new edges.new faces.new (head_in head.new);
      answer = record { refusal = result; value = value.new };
    }
        ≡ ticket (lent_now nodes.old edges.old faces.old (head_in head.old))
        numbers.now }
{
    let done = engine::ticket(nodes, edges, faces, head::from_numbers(head), numbers);
    head::put_numbers(head, done.head);
    *value = done.answer.value;
    done.answer.refusal
}

// Lists the edges of a face, written from the front of the list; the value is the count of numbers written.
#[unsafe(no_mangle)]
pub extern "C" fn solgwid_edges_of_face(
    nodes: &[i64],
    edges: &[i64],
    faces: &[i64],
    head: &[i64; head::WIDTH],
    face: i64,
    list: &mut [i64],
    value: &mut i64,
) -> u64
    ensures { record { list = list.new; answer = record { refusal = result; value = value.new } }
        ≡ edges_of_face
        (lent_now nodes.now edges.now faces.now (head_in head.now))
        face list.old }
{
    let answer = engine::edges_of_face(nodes, edges, faces, head::from_numbers(head), face, list);
    *value = answer.value;
    answer.refusal
}

// Lists the contents of the sheet, written from the front of the list; the value is the count of numbers written.
#[unsafe(no_mangle)]
pub extern "C" fn solgwid_contents(
    nodes: &[i64],
    edges: &[i64],
    faces: &[i64],
    head: &[i64; head::WIDTH],
    list: &mut [i64],
    value: &mut i64,
) -> u64
    ensures { record { list = list.new; answer = record { refusal = result; value = value.new } }
        ≡ contents_of (lent_now nodes.now edges.now faces.now (head_in head.now))
        list.old }
{
    let answer = contents::contents(nodes, edges, faces, head::from_numbers(head), list);
    *value = answer.value;
    answer.refusal
}

// Carries out a list of tickets from the empty map on, with a refusal and a value for each.
#[unsafe(no_mangle)]
pub extern "C" fn solgwid_run(
    nodes: &mut [i64],
    edges: &mut [i64],
    faces: &mut [i64],
    head: &mut [i64; head::WIDTH],
    points: i64,
    numbers: &[i64],
    lengths: &[usize],
    refusals: &mut [u64],
    values: &mut [i64],
) -> u64
    ensures { Runs
        (lent_now nodes.old edges.old faces.old (head_in head.old))
        points numbers.now lengths.now refusals.old values.old
        (record {
          lent = lent_now nodes.new edges.new faces.new (head_in head.new);
          refusals = refusals.new;
          values = values.new;
          answer = record { refusal = result; value = pos 0 };
        }) }
{
    let done = ticket_lists::run(
        nodes,
        edges,
        faces,
        head::from_numbers(head),
        points,
        numbers,
        lengths,
        refusals,
        values,
    );
    head::put_numbers(head, done.head);
    done.answer.refusal
}
