// Tells the answers: each is one line, which begins with the number of the record's line.
use crate::meaning::{TALLY_MEANING, field_name, malformed_meaning, meaning};
use crate::words::Words;
use day::records::{SlotName, SourceName};
use daybook::answer::Answer;
use daybook::enrolled::Enrolled;
use daybook::notdone::{NotDone, Refused};
use std::alloc::{AllocError, Global};
use std::{fmt, io};
use text::answers::Answers;

// How many records were done, refused and malformed.
#[derive(Clone, Copy, PartialEq, Eq, Debug, Default)]
pub struct Tally {
    pub done: u64,
    pub refused: u64,
    pub malformed: u64,
}

impl fmt::Display for Tally {
    fn fmt<W: fmt::Write>(&self, f: &mut fmt::Formatter<W>) -> fmt::Result {
        let Tally {
            done,
            refused,
            malformed,
        } = self;
        write!(f, "{done} done, {refused} refused, {malformed} malformed")
    }
}

impl Tally {
    // Counts a record by how it ended.
    fn count<T>(&mut self, outcome: &Result<T, NotDone>) {
        let count = match outcome {
            Ok(_) => &mut self.done,
            Err(NotDone::Refused(_)) => &mut self.refused,
            Err(NotDone::Malformed(_)) => &mut self.malformed,
            Err(NotDone::Memory) => return,
        };
        *count = count.saturating_add(1);
    }
}

// Where answers go.
pub trait Outlet {
    // Takes whole lines of answers.
    fn put(&mut self, text: &[u8]) -> io::Result<()>;

    // So many lines of the text are read.
    fn reached(&mut self, line: u64) -> io::Result<()>;
}

// Lines of answers are handed on once there are so many bytes of them.
const BLOCK: usize = 64 * 1024;

// After so many lines the outlet hears how far it is.
const STRIDE: u64 = 10_000;

// How records are answered.
#[derive(Clone, Copy, PartialEq, Eq, Debug)]
pub struct Manner {
    // whether they are
    pub answers: bool,
    // whether a refusal is told with a sentence for the reader
    pub explains: bool,
    // whether each line of the text is shown before its answer
    pub shows: bool,
}

impl Manner {
    // Nothing is answered.
    pub const SILENT: Manner = Manner {
        answers: false,
        explains: false,
        shows: false,
    };

    // The answers alone.
    pub const PLAIN: Manner = Manner {
        answers: true,
        explains: false,
        shows: false,
    };

    // The answers, with a sentence for each refusal.
    pub const EXPLAINED: Manner = Manner {
        answers: true,
        explains: true,
        shows: false,
    };

    // The text and the answers, with a sentence for each refusal.
    pub const SHOWN: Manner = Manner {
        answers: true,
        explains: true,
        shows: true,
    };
}

#[derive(Drop)]
pub struct Teller<'o, O> {
    text: Answers,
    outlet: &'o mut O,
    manner: Manner,
    pub tally: Tally,
}

impl<'o, O: Outlet> Teller<'o, O> {
    pub fn new(heap: Global, outlet: &'o mut O, manner: Manner) -> Teller<'o, O> {
        Teller {
            text: Answers::new(heap),
            outlet,
            manner,
            tally: Tally::default(),
        }
    }

    // Tells words.
    pub fn write_fmt<D: fmt::Display + Drop>(&mut self, words: D) -> Result<(), AllocError> {
        self.text.write_fmt(words)
    }

    // Tells bytes as they are.
    pub fn put(&mut self, bytes: &[u8]) -> Result<(), AllocError> {
        self.text.put(bytes)
    }

    // A party as it was written; an empty code leaves no blank.
    fn party(&mut self, written: &[u8]) -> Result<(), AllocError> {
        if written.is_empty() {
            return Ok(());
        }
        self.text.put(b" ")?;
        self.text.put(written)
    }

    // A slot, with a blank before it: the type by its name, or as # and its number, and the interval.
    fn slot(&mut self, slot: SlotName) -> Result<(), AllocError> {
        match slot.type_name() {
            Some(name) => {
                self.text.put(b" ")?;
                self.text.put(name.as_bytes())?;
            }
            None => {
                self.text.put(b" #")?;
                self.text.number(u64::from(slot.charge_type))?;
            }
        }
        self.text.put(b" ")?;
        self.text.number(u64::from(slot.interval))
    }

    // The words of a record, each with a blank before it.
    fn words(&mut self, words: Words<'_>) -> Result<(), AllocError> {
        match words {
            Words::None => Ok(()),
            Words::Rule(rule) => write!(self.text, " {rule}"),
            Words::Resource(resource) => {
                self.text.put(b" ")?;
                self.text.number(u64::from(resource))
            }
            Words::Settlement(slot, _, rule) => {
                self.slot(slot)?;
                write!(self.text, " {rule}")
            }
            Words::Slot(slot) => self.slot(slot),
            Words::Party(party) => self.party(party.written),
            Words::Entry(slot, party) => {
                self.slot(slot)?;
                self.party(party.written)
            }
            Words::Source(source) => write!(self.text, " {source}"),
        }
    }

    // Shows a line of the text, where lines are shown.
    pub fn show(&mut self, line: &[u8]) -> Result<(), AllocError> {
        if !self.manner.shows {
            return Ok(());
        }
        if !line.is_empty() {
            self.text.put(b"    ")?;
            self.text.put(line)?;
        }
        self.text.put(b"\n")
    }

    // Ends a line, with a sentence for the reader where one is wanted.
    pub fn end(&mut self, sentence: &str) -> Result<(), AllocError> {
        if self.manner.explains {
            writeln!(self.text, " -- {sentence}")
        } else {
            self.text.put(b"\n")
        }
    }

    fn tell_refused(
        &mut self,
        refused: Refused,
        source: Option<SourceName>,
    ) -> Result<(), AllocError> {
        write!(self.text, ": {refused}")?;
        if self.manner.explains {
            write!(self.text, " -- ")?;
            if let Some(name) = field_name(refused, source) {
                write!(self.text, "{name}: ")?;
            }
            write!(self.text, "{}", meaning(refused))?;
        }
        writeln!(self.text)
    }

    // Tells how a record ended.
    fn tell(
        &mut self,
        line: u64,
        name: &[u8],
        words: Words<'_>,
        outcome: Result<Answer, NotDone>,
    ) -> Result<(), AllocError> {
        self.text.number(line)?;
        self.text.put(b": ")?;
        self.text.put(name)?;
        match outcome {
            Ok(answer) => {
                self.words(words)?;
                self.text.put(b": ok")?;
                answer.put_values(&mut self.text)?;
                self.text.put(b"\n")
            }
            Err(NotDone::Refused(refused)) => {
                self.words(words)?;
                self.tell_refused(refused, words.source())
            }
            Err(NotDone::Malformed(field)) => {
                write!(self.text, ": malformed at field {field}")?;
                self.end(malformed_meaning(field))
            }
            Err(NotDone::Memory) => Ok(()),
        }
    }

    // Counts how a record ended, and answers it. Want of memory ends the run.
    pub fn answer(
        &mut self,
        line: u64,
        name: &[u8],
        words: Words<'_>,
        outcome: Result<Answer, NotDone>,
    ) -> Result<(), AllocError> {
        if let Ok(Answer::Silent) = outcome {
            self.tally.done = self.tally.done.saturating_add(1);
            return Ok(());
        }
        self.answer_in_words(line, name, words, outcome)
    }

    // The same of a record of which something is told.
    fn answer_in_words(
        &mut self,
        line: u64,
        name: &[u8],
        words: Words<'_>,
        outcome: Result<Answer, NotDone>,
    ) -> Result<(), AllocError> {
        if let Err(NotDone::Memory) = outcome {
            return Err(AllocError);
        }
        self.tally.count(&outcome);
        if self.manner.answers {
            self.tell(line, name, words, outcome)?;
        }
        Ok(())
    }

    // Answers the opening at the line of the first call. It counts only where it is refused.
    pub fn opening(
        &mut self,
        line: u64,
        enrolled: &Enrolled,
        refused: Option<Refused>,
    ) -> Result<(), AllocError> {
        if refused.is_some() {
            self.tally.refused = self.tally.refused.saturating_add(1);
        }
        if !self.manner.answers {
            return Ok(());
        }
        write!(self.text, "{line}: open")?;
        match refused {
            Some(refused) => self.tell_refused(refused, None),
            None => writeln!(
                self.text,
                ": ok parties={} intervals={}",
                enrolled.parties.count(),
                enrolled.intervals
            ),
        }
    }

    // Whether there are enough answers to hand on, or the outlet is to hear of the progress.
    fn is_due(&self, line: u64) -> bool {
        self.text.text.len() >= BLOCK || line % STRIDE == 0
    }

    // Hands the answers on where there are enough of them, and lets the outlet know of the progress.
    pub fn pass_on(&mut self, line: u64) -> io::Result<()> {
        if self.is_due(line) {
            self.flush_at(line)?;
        }
        Ok(())
    }

    fn flush_at(&mut self, line: u64) -> io::Result<()> {
        self.flush()?;
        if line % STRIDE == 0 {
            self.outlet.reached(line)?;
        }
        Ok(())
    }

    // Tells how many records there were, and hands on all that is left.
    pub fn close(&mut self) -> io::Result<Tally> {
        let tally = self.tally;
        if self.manner.answers {
            write!(self.text, "{tally}")?;
            self.end(TALLY_MEANING)?;
        }
        self.flush()?;
        Ok(tally)
    }

    // Hands on all that is told.
    pub fn flush(&mut self) -> io::Result<()> {
        self.outlet.put(self.text.text.as_slice())?;
        self.text.clear();
        Ok(())
    }
}
