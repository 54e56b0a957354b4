// Rows of any width in lent slices of numbers: w numbers to a row, rows from the front in rising number order, zeros
// behind.
#![tactic(auto)]

ghost use Rattle.std.specs.Prelude.{◌≡◌, true, ℕ, ◌+◌, ◌*◌, ◌-◌, ◌<◌, ◌≤◌, T, pos, nat_abs, get_or, length, drop, replicate};
ghost use Rattle.std.proofs.Math.Seq.{paste};
ghost use Rattle.std.specs.Int.Signed.{lt_z, non_neg};
ghost use Rattle.lists.specs.Scans.{all_of};
ghost use Rattle.lists.specs.Tables.{place, sweep, table};
ghost use Rattle.tables.specs.Tables.{last_bits, indexed};
ghost use Rattle.tables.specs.Tables.{same_z, column, Rising, whole_rows, is_zero, numbered, replace_at, closed};

// ---- lookup

// The row, among the first hi, of a number greater than those of the rows before lo: by halves. A function that calls
// itself is compiled once, and stays out of the loops that look.
fn search_row(t: &[i64], w: usize, lo: usize, hi: usize, number: i64) -> Option<usize>
    requires { Rising w t.now hi × ((k : ℕ) → k < lo → lt_z (get_or t.now (k * w) (pos 0)) number ≡ true) }
    ensures { result ≡ place (same_z number) 0 (column w t.now hi) }
{
    if hi <= lo {
        return None;
    }
    let mid = lo + (hi - lo) / 2;
    let z = t[mid * w];
    if z == number {
        return Some(mid);
    }
    if z < number {
        return search_row(t, w, mid + 1, hi, number);
    }
    search_row(t, w, lo, mid, number)
}

// The row of a number. In a table from which no row after the first was removed the first look meets it.
pub fn find_row(t: &[i64], w: usize, count: usize, number: i64) -> Option<usize>
    requires { Rising w t.now count }
    ensures { result ≡ place (same_z number) 0 (column w t.now count) }
{
    if count == 0 {
        return None;
    }
    let steps = usize::try_from(number.saturating_sub(t[0])).unwrap_or(0);
    let i = steps.min(count - 1);
    if t[i * w] == number {
        return Some(i);
    }
    search_row(t, w, 0, count, number)
}

// Places of an index, and the bits that choose one.
pub const INDEX: usize = 4096;

const LAST_BITS: i64 = 4095;

// Rows that an index can name.
const PLACES: usize = 65536;

// A number's last 12 bits.
fn last_bits(z: i64) -> usize
    ensures { (result ≡ last_bits z) × (result < 4096) }
{
    (z & LAST_BITS) as usize
}

// Each row stands in the index under its number's last 12 bits, unless a later one took the place. An index says where
// to look first, and no more.
pub fn index_rows(t: &[i64], w: usize, count: usize, index: &mut [u16])
    requires { (1 ≤ w) × (count * w ≤ length t.now) × (length index.old ≡ 4096) }
    ensures { (index.new ≡ sweep (indexed w t.now) index.old 0 count)
        × (length index.new ≡ 4096) }
{
    for i in 0..count {
        index[last_bits(t[i * w])] = (i % PLACES) as u16;
    }
}

// The row of a number, where the index tells at the first look.
pub fn find_indexed(t: &[i64], w: usize, count: usize, number: i64, index: &[u16]) -> Option<usize>
    requires { Rising w t.now count × (length index.now ≡ 4096) }
    ensures { result ≡ place (same_z number) 0 (column w t.now count) }
{
    let row = usize::from(index[last_bits(number)]);
    if row < count && t[row * w] == number {
        return Some(row);
    }
    search_row(t, w, 0, count, number)
}

// ---- tests of rows

// Whether the table is whole rows of w numbers, from `least` to `most` of them.
pub fn whole_rows(t: &[i64], w: usize, least: usize, most: usize) -> bool
    requires { 1 ≤ w }
    ensures { result ≡ whole_rows w least most t.now }
{
    let n = t.len() / w;
    t.len() % w == 0 && (least..=most).contains(&n)
}

// Whether all numbers are 0: all bits are read, with no branch at each.
pub fn are_zero(t: &[i64]) -> bool
    ensures { result ≡ all_of is_zero t.now }
{
    let mut bits = 0;
    for z in t {
        bits |= *z;
    }
    bits == 0
}

// Whether all numbers from `at` on are 0.
pub fn rest_zero(t: &[i64], at: usize) -> bool
    requires { at ≤ length t.now }
    ensures { result ≡ all_of is_zero (drop at t.now) }
{
    are_zero(&t[at..])
}

// Number k, which is not negative.
pub fn natural(t: &[i64], k: usize) -> usize
    requires { (k < length t.now) × T (non_neg (get_or t.now k (pos 0))) }
    ensures { result ≡ nat_abs (get_or t.now k (pos 0)) }
{
    t[k] as usize
}

// Whether the first column rises from `least` on and is below `next`.
pub fn numbers_rise(t: &[i64], w: usize, count: usize, least: usize, next: usize) -> bool
    requires { (1 ≤ w) × (count * w ≤ length t.now) × (all_of non_neg (column w t.now count) ≡ true) }
    ensures { result ≡ numbered least next (table (λ i. nat_abs (get_or t.now (i * w) (pos 0))) 0 count) }
{
    let mut low = least;
    for i in 0..count {
        let n = natural(t, i * w);
        if !(low..next).contains(&n) {
            return false;
        }
        low = n + 1;
    }
    true
}

// ---- rows written

// n numbers from `at` on are 0.
pub fn clear(t: &mut [i64], at: usize, n: usize)
    requires { at + n ≤ length t.old }
    ensures { t.new ≡ paste t.old at (replicate n (pos 0)) n }
{
    t[at..at + n].fill(0);
}

// The row stands from `at` on.
pub fn write(t: &mut [i64], at: usize, row: &[i64])
    requires { at + length row.now ≤ length t.old }
    ensures { t.new ≡ paste t.old at row.now (length row.now) }
{
    t[at..at + row.len()].copy_from_slice(row);
}

// Row i goes, the rows after it move down, and the last is cleared.
pub fn remove_row(t: &mut [i64], w: usize, count: usize, i: usize)
    requires { (i < count) × (count * w ≤ length t.old) }
    ensures { t.new ≡ closed w t.old count i }
{
    let at = i * w;
    let end = count * w;
    t.copy_within(at + w..end, at);
    clear(t, end - w, w);
}

// `new` for `old` in column k.
pub fn replace_column(t: &mut [i64], w: usize, count: usize, k: usize, old: i64, new: i64)
    requires { (k < w) × (count * w ≤ length t.old) }
    ensures { t.new ≡ sweep (λ l i. replace_at old new l (i * w + k)) t.old 0 count }
{
    for i in 0..count {
        if t[i * w + k] == old {
            t[i * w + k] = new;
        }
    }
}
