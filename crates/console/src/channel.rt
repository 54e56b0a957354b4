// An input and an output.
ghost use Rattle.std.specs.Prelude.{◌≡◌, ◌≤◌, length, take, IsNone, IsSome, MatchOption};
ghost use Rattle.std.specs.Io.KnownBytes.{Consumes, IsAtEnd};
ghost use Rattle.console.specs.Wrote.{Wrote};

use std::io;
use std::io::{Read, Write};

// The bytes that are read at a time.
pub const INPUT: usize = 4096;

// An input, an output and the first failure of a call on them. After it nothing is read and nothing is written.
#[derive(Drop)]
pub struct Streams<R, W> {
    input: R,
    output: W,
    failure: Option<io::Error>,
}

impl<R: Read, W: Write> Streams<R, W> {
    pub fn new(input: R, output: W) -> Streams<R, W>
        ensures { result ≡ record { input = input; output = output; failure = None } }
    {
        Streams {
            input,
            output,
            failure: None,
        }
    }

    // The failure, if a call failed.
    pub fn result(&self) -> io::Result<()>
        ensures { MatchOption self.now.failure (result ≡ Ok tt) (λ failure. result ≡ Err failure) }
    {
        match self.failure {
            None => Ok(()),
            Some(failure) => Err(failure),
        }
    }

    // Reads some bytes; their count, 0 at the end of the input and after a failure.
    pub fn read_some(&mut self, buf: &mut [u8; INPUT]) -> usize
        ensures within { (result ≤ length buf.new) × (result ≡ length (take result buf.new)) }
        ensures fails_once { IsSome self.old.failure → (result ≡ 0) × (self.new ≡ self.old) }
        ensures writes_none { self.new.output ≡ self.old.output }
        ensures takes { IsNone self.new.failure
            → Consumes (R.remaining self.old.input) (R.remaining self.new.input) (take result buf.new) }
        ensures end { IsNone self.new.failure → result ≡ 0 → IsAtEnd (R.remaining self.new.input) }
    {
        if self.failure.is_some() {
            return 0;
        }
        match self.input.read(buf) {
            Ok(count) => count,
            Err(failure) => {
                self.failure = Some(failure);
                0
            }
        }
    }

    // Writes all of the bytes.
    pub fn write(&mut self, bytes: &[u8])
        ensures { Wrote W.contents self.old self.new bytes.now }
    {
        if self.failure.is_some() {
            return;
        }
        if let Err(failure) = self.output.write_all(bytes) {
            self.failure = Some(failure);
        }
    }
}
