// The answers' text, gathered in one buffer and handed on in large pieces.
ghost use Rattle.std.specs.Prelude.{◌≡◌, ◌+◌, ◌≤◌, true, [], ◌++◌, length, is_ok, if◌then◌else◌, vec_len, vec_capacity, decimal, Some, IfOk, IsOk, OnOk, OnErr};
ghost use Rattle.std.specs.Fmt.{signed_decimal, AppendsText};
ghost use Rattle.std.specs.Io.{WritesAtMost};
ghost use Rattle.std.specs.Io.KnownBytes.{Keeps, WriteAppends};

use arrayvec::ArrayString;
use itoa::Buffer;
use std::alloc::{AllocError, Global};
use std::fmt::Display;
use std::io::Write;
use std::{fmt, io};

// How many bytes most lines have at most.
const LINE: usize = 128;

// A text of answers. What finds no memory leaves it as it is.
#[derive(Drop)]
pub struct Answers {
    pub text: Vec<u8>,
}

impl Answers {
    pub fn new(heap: Global) -> Answers
        ensures { result.text.items ≡ [] }
    {
        Answers {
            text: Vec::new(heap),
        }
    }

    // Puts words behind the text.
    pub fn put(&mut self, words: &[u8]) -> Result<(), AllocError>
        ensures items { self.new.text.items ≡ (if is_ok result then self.old.text.items ++ words.now else self.old.text.items) }
        ensures room { vec_len self.old.text + length words.now ≤ vec_capacity self.old.text → is_ok result ≡ true }
    {
        self.text.extend_from_slice(words)
    }

    // Puts the digits of the number.
    pub fn number(&mut self, n: u64) -> Result<(), AllocError>
        ensures items { self.new.text.items ≡ (if is_ok result then self.old.text.items ++ decimal n else self.old.text.items) }
        ensures room { vec_len self.old.text + length (decimal n) ≤ vec_capacity self.old.text → is_ok result ≡ true }
    {
        self.put(Buffer::new().format(n).as_bytes())
    }

    // Puts the digits of the number's magnitude, a minus before them where it is negative.
    pub fn signed(&mut self, z: i64) -> Result<(), AllocError>
        ensures items { self.new.text.items ≡ (if is_ok result then self.old.text.items ++ signed_decimal z else self.old.text.items) }
        ensures room { vec_len self.old.text + length (signed_decimal z) ≤ vec_capacity self.old.text → is_ok result ≡ true }
    {
        self.put(Buffer::new().format(z).as_bytes())
    }

    // What `write!` and `writeln!` call. The words are made apart, so that the text stays where one of them finds no memory: on the
    // stack, if they are no longer than most lines.
    pub fn write_fmt<D: Display + Drop>(&mut self, words: D) -> Result<(), AllocError>
        ensures items { OnOk result (AppendsText self.old.text.items self.new.text.items (D.output words)) }
        ensures unchanged { OnErr result (self.new.text.items ≡ self.old.text.items) }
    {
        let mut line = ArrayString::<LINE>::new();
        match fmt::Write::write_fmt(&mut line, &words) {
            Ok(()) => self.put(line.as_bytes()),
            Err(_) => {
                let words = String::format(*self.text.allocator(), words)?;
                self.put(words.as_bytes())
            }
        }
    }

    // Makes the text empty.
    pub fn clear(&mut self)
        ensures { self.new.text.items ≡ [] }
    {
        self.text.clear();
    }
}

// A writer that takes all the bytes of each call, or, where there is no memory for them, none.
impl Write for Answers {
    ghost contents = { λ a. Some a.text.items };

    fn write(&mut self, words: &[u8]) -> io::Result<usize>
        ensures bound { WritesAtMost result words.now }
        ensures bytes { WriteAppends (Some self.old.text.items) (Some self.new.text.items) result words.now }
        ensures whole { IfOk result (λ n. n ≡ length words.now) }
        ensures unchanged { OnErr result (self.new.text.items ≡ self.old.text.items) }
        ensures room { vec_len self.old.text + length words.now ≤ vec_capacity self.old.text → is_ok result ≡ true }
    {
        self.put(words)?;
        Ok(words.len())
    }

    fn flush(&mut self) -> io::Result<()>
        ensures bytes { Keeps (Some self.old.text.items) (Some self.new.text.items) }
        ensures ok { IsOk result }
    {
        // Nothing is held back.
        Ok(())
    }
}
