// A text that is read in blocks of whole lines, so that it need not lie in memory as a whole.
use std::alloc::Global;
use std::io;
use std::io::{ErrorKind, Read};
use text::lines::whole_lines;

// For how many bytes the input is asked at a time.
const ROOM: usize = 128 * 1024;

#[derive(Drop)]
pub struct Blocks<'i, I> {
    input: &'i mut I,
    // what is read: the lines of the block, and behind them the beginning of a line
    read: Vec<u8>,
    // how many bytes the lines of the block have
    whole: usize,
}

// Reads once; a reading that a signal interrupts is tried again.
fn read_once<I: Read>(input: &mut I, room: &mut [u8]) -> io::Result<usize> {
    for _ in 0..u64::MAX {
        match input.read(room) {
            Err(e) if e.kind() == ErrorKind::Interrupted => {}
            result => return result,
        }
    }
    Ok(0)
}

impl<'i, I: Read> Blocks<'i, I> {
    // No block yet.
    pub fn of(heap: Global, input: &'i mut I) -> Blocks<'i, I> {
        Blocks {
            input,
            read: Vec::new(heap),
            whole: 0,
        }
    }

    // The lines of the block.
    pub fn lines(&self) -> &[u8] {
        self.read.as_slice().get(..self.whole).unwrap_or(&[])
    }

    // Lets go of the block, but for so many bytes at its end.
    pub fn keep(&mut self, left: usize) {
        let left = left.min(self.whole);
        let done = (self.whole - left).min(self.read.len());
        let kept = self.read.len() - done;
        self.read.as_mut_slice().copy_within(done.., 0);
        self.read.truncate(kept);
        self.whole = left;
    }

    // Goes on to the next block, whether there is one: each ends with a line, and the last with the text.
    pub fn advance(&mut self) -> io::Result<bool> {
        self.keep(0);
        for _ in 0..u64::MAX {
            let before = self.read.len();
            if !self.read_more()? {
                self.whole = before;
                break;
            }
            let lines = whole_lines(self.read.as_slice().get(before..).unwrap_or(&[]));
            if lines > 0 {
                self.whole = before.saturating_add(lines);
                break;
            }
        }
        Ok(self.whole > 0)
    }

    // Reads more behind what is read, whether there is more.
    fn read_more(&mut self) -> io::Result<bool> {
        let before = self.read.len();
        self.read.resize(before.saturating_add(ROOM), 0)?;
        let count = read_once(self.input, &mut self.read.as_mut_slice()[before..])?;
        self.read.truncate(before.saturating_add(count));
        Ok(count > 0)
    }
}
