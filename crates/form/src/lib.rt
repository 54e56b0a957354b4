// Conditions 1 and 2: tables that are whole, and in form.
#![tactic(auto)]

ghost use Rattle.std.specs.Prelude.{◌≡◌, true, ◌&&◌, ◌≤◌};
ghost use Rattle.lists.specs.Scans.{all_of};
ghost use Rattle.tables.specs.Tables.{rows};
ghost use Rattle.map.specs.Limits.{max_nodes, max_edges, max_faces, face_width};
ghost use Rattle.map.specs.Rows.{whole, rectangle};
ghost use Rattle.map.specs.Form.{formed, has_box, in_form};
ghost use Rattle.map.specs.Reasons.{first_reason};
ghost use Rattle.map.specs.Refusals.{refusal_of};
ghost use Rattle.map.specs.Ticket.{lent_reasons};
ghost use Rattle.map.specs.Loans.{lent_now};
ghost use Rattle.map_rows.specs.Rows.{edges_of};
ghost use Rattle.form_ranges.specs.Ranges.{map_in, InRanges};

use map::{Counts, Head, Refusal};

// Whether tables in range are in form.
fn is_formed(nodes: &[i64], edges: &[i64], faces: &[i64], c: Counts, h: Head) -> bool
    requires { InRanges nodes.now edges.now faces.now c h
        × (c.nodes ≤ max_nodes) × (c.edges ≤ max_edges) × (c.faces ≤ max_faces) }
    ensures { result ≡ (formed (map_in nodes.now edges.now faces.now c h)
        && all_of (has_box (rectangle (edges_of edges.now c.edges)))
        (rows face_width c.faces faces.now)) }
{
    if !form_ranges::numbers_fit(nodes, edges, faces, c, h) {
        return false;
    }
    let mut starts = [0u16; map::DARTS];
    let mut nexts = [0u16; map::DARTS];
    let mut bears = [0u16; map::DARTS];
    if !form_references::names_exist(nodes, edges, faces, c, &mut starts, &mut nexts, &mut bears) {
        return false;
    }
    if !form_references::curves_fit(nodes, c.nodes, edges, c.edges, &starts) {
        return false;
    }
    if !form_links::departures_formed(nodes, c.nodes, edges, c.edges, &starts) {
        return false;
    }
    if !form_links::links_formed(c.edges, &starts, &nexts, &bears) {
        return false;
    }
    form_rectangles::rectangles_fit(edges, c.edges, faces, c.faces, &bears)
}

// Whether tables that are whole are in form.
pub fn in_form(nodes: &[i64], edges: &[i64], faces: &[i64], h: Head) -> bool
    requires { whole (lent_now nodes.now edges.now faces.now h) ≡ true }
    ensures { result ≡ in_form (lent_now nodes.now edges.now faces.now h) }
{
    if !form_ranges::head_fits(h, head::sizes_of(nodes, edges, faces)) {
        return false;
    }
    let c = head::counts_of(h);
    form_ranges::is_ranged(nodes, edges, faces, c, h.points) && is_formed(nodes, edges, faces, c, h)
}

// The lending program's reasons, 1 and 2, which every call but creation looks at first.
pub fn check_lent(nodes: &[i64], edges: &[i64], faces: &[i64], h: Head) -> Result<(), Refusal>
    ensures { refusal_of result
        ≡ first_reason (lent_reasons (lent_now nodes.now edges.now faces.now h)) }
{
    if !form_ranges::is_whole(nodes, edges, faces) {
        return Err(Refusal::NotWhole);
    }
    if !in_form(nodes, edges, faces, h) {
        return Err(Refusal::NotInForm);
    }
    Ok(())
}
