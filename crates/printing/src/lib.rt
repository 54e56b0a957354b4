// Numbers as text, from a place of a buffer on. Each function answers the place after what it wrote.
#![tactic(auto)]

ghost use Rattle.std.specs.Prelude.{◌≡◌, ◌+◌, ◌*◌, ◌≤◌, length};
ghost use Rattle.std.proofs.lemmas.List.Edits.{sets};
ghost use Rattle.printing.specs.Texts.{natural_text, number_text, row_text};

use itoa::Buffer;

// The digits of a number of 64 bits, at most.
pub const DIGITS: usize = 20;

// The bytes of a number in a row, at most: a blank, a sign and the digits.
pub const CELL: usize = 2 + DIGITS;

// Puts a text into a buffer.
pub fn put_text(out: &mut [u8], at: usize, text: &[u8]) -> usize
    requires { at + length text.now ≤ length out.old }
    ensures { (out.new ≡ sets out.old at text.now)
        × (result ≡ at + length text.now) }
{
    let end = at + text.len();
    out[at..end].copy_from_slice(text);
    end
}

// The digits of a number without a sign.
pub fn write_natural(out: &mut [u8], at: usize, n: u64) -> usize
    requires { at + 20 ≤ length out.old }
    ensures { (out.new ≡ sets out.old at (natural_text n))
        × (result ≡ at + length (natural_text n)) }
{
    put_text(out, at, Buffer::new().format(n).as_bytes())
}

// A sign where the number is below 0, and its digits.
pub fn write_number(out: &mut [u8], at: usize, z: i64) -> usize
    requires { at + 21 ≤ length out.old }
    ensures { (out.new ≡ sets out.old at (number_text z))
        × (result ≡ at + length (number_text z)) }
{
    put_text(out, at, Buffer::new().format(z).as_bytes())
}

// A row: a blank before each number, and a line end.
pub fn write_row(out: &mut [u8], at: usize, row: &[i64]) -> usize
    requires { at + length row.now * 22 + 1 ≤ length out.old }
    ensures { (out.new ≡ sets out.old at (row_text row.now))
        × (result ≡ at + length (row_text row.now)) }
{
    let mut end = at;
    for z in row {
        end = put_text(out, end, b" ");
        end = write_number(out, end, *z);
    }
    put_text(out, end, b"\n")
}
