// A ticket as a line of text.
#![tactic(auto)]

ghost use Rattle.std.specs.Prelude.{◌≡◌, ◌≤◌, List, Some, length};
ghost use Rattle.std.specs.Option.{option_map};
ghost use Rattle.std.proofs.Math.Seq.{sets, paste};
ghost use Rattle.text.specs.Lines.{max_line, line_numbers, blank, word_number, words, numbers_of};
ghost use Rattle.text.specs.Parsed.{ParsedAs};

use std::str;

// The most bytes of a line.
pub const LINE: usize = 1000;

// The most numbers of a line: each is a digit at least, and a blank parts two.
pub const NUMBERS: usize = LINE / 2;

// Whether a byte is a tab, a form feed, a carriage return or a space.
#[tactic(auto, using(std::proofs::lemmas::Bool::Decides::nat_tests), unfolding(lists::specs::Tests::same))]
fn is_blank(b: u8) -> bool
    ensures { result ≡ blank b }
{
    matches!(b, b'\t' | b'\x0c' | b'\r' | b' ')
}

// A word as a number.
fn number_of(word: &[u8]) -> Option<i64>
    ensures { result ≡ word_number word.now }
{
    str::from_utf8(word).ok()?.parse().ok()
}

// The words of a line as numbers, from the front of the list on, and how many they are, if each is one.
fn read_numbers(line: &[u8], list: &mut [i64; NUMBERS]) -> Option<usize>
    requires { length line.now ≤ max_line }
    ensures count { result ≡ option_map length (numbers_of (words line.now)) }
    ensures numbers { (zs : List _) → numbers_of (words line.now) ≡ Some zs → list.new ≡ sets list.old 0 zs }
{
    let mut n = 0;
    for word in line.split(|b| is_blank(*b)).filter(|w| !w.is_empty()) {
        let z = number_of(word)?;
        list[n] = z;
        n += 1;
    }
    Some(n)
}

// Writes numbers from the front of the list.
fn write_numbers(list: &mut [i64], numbers: &[i64])
    requires { length numbers.now ≤ length list.old }
    ensures { list.new ≡ paste list.old 0 numbers.now (length numbers.now) }
{
    list[..numbers.len()].copy_from_slice(numbers);
}

// The numbers of a line, written from the front of the list; the rest of the list is untouched, and all of it where the
// line is wrong: the words are read into a list of their own. The list holds what a line can have.
pub fn parse(line: &[u8], list: &mut [i64; NUMBERS]) -> Option<usize>
    ensures { ParsedAs (line_numbers line.now) list.old result list.new }
{
    if LINE < line.len() {
        return None;
    }
    let mut numbers = [0i64; NUMBERS];
    let n = read_numbers(line, &mut numbers)?;
    write_numbers(list, &numbers[..n]);
    Some(n)
}
