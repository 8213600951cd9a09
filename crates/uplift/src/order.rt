// What the program is asked for, by the words behind its name.

// What to make of a day.
#[derive(Clone, Copy)]
pub enum Command<'w> {
    // the answers, with a sentence for each refusal where that is asked for
    Run { explains: bool },
    // the sample day, shown
    Demo,
    // each party's statement, or one party's
    Statement { party: Option<&'w str> },
    // the journal, at a date
    Journal { date: &'w str },
    Help,
}

#[derive(Clone, Copy)]
pub struct Order<'w> {
    pub command: Command<'w>,
    // the file of the day; none for the standard input
    pub file: Option<&'w str>,
    // whether the progress is told
    pub progress: bool,
}

// The words ask for nothing that there is.
#[derive(Clone, Copy, PartialEq, Eq, Debug)]
pub struct Unclear;

// The date of a journal where none is asked for: a day has none of its own.
const DATE: &str = "2000-01-01";

// The words that are options, and the others in their order.
#[derive(Clone, Copy)]
struct Words<'w> {
    explains: bool,
    progress: bool,
    date: Option<&'w str>,
    first: Option<&'w str>,
    second: Option<&'w str>,
    third: Option<&'w str>,
}

impl<'w> Words<'w> {
    // Takes a word that is no option.
    fn take(&mut self, word: &'w str) -> Result<(), Unclear> {
        let place = if self.first.is_none() {
            &mut self.first
        } else if self.second.is_none() {
            &mut self.second
        } else if self.third.is_none() {
            &mut self.third
        } else {
            return Err(Unclear);
        };
        *place = Some(word);
        Ok(())
    }

    fn of(words: &'w [String]) -> Result<Words<'w>, Unclear> {
        let mut sorted = Words {
            explains: false,
            progress: false,
            date: None,
            first: None,
            second: None,
            third: None,
        };
        for word in words {
            match word.as_str() {
                "--explain" => sorted.explains = true,
                "--progress" => sorted.progress = true,
                word => match word.strip_prefix("--date=") {
                    Some(date) if is_date(date.as_bytes()) => sorted.date = Some(date),
                    Some(_) => return Err(Unclear),
                    None => sorted.take(word)?,
                },
            }
        }
        Ok(sorted)
    }
}

// Whether the text is written as a date: year, month and day.
fn is_date(text: &[u8]) -> bool {
    match text {
        [y @ .., b'-', a, b, b'-', c, d] => {
            y.len() == 4
                && y.iter().all(u8::is_ascii_digit)
                && [*a, *b, *c, *d].iter().all(u8::is_ascii_digit)
        }
        _ => false,
    }
}

impl<'w> Order<'w> {
    // What the words ask for.
    pub fn of(words: &'w [String]) -> Result<Order<'w>, Unclear> {
        let Words {
            explains,
            progress,
            date,
            first,
            second: file,
            third: party,
        } = Words::of(words)?;
        let command = match first {
            Some("run") => Command::Run { explains },
            Some("demo") => Command::Demo,
            Some("statement") => Command::Statement { party },
            Some("journal") => Command::Journal {
                date: date.unwrap_or(DATE),
            },
            Some("help" | "--help") => Command::Help,
            _ => return Err(Unclear),
        };
        let fits = match command {
            Command::Run { .. } => party.is_none() && date.is_none(),
            Command::Demo | Command::Help => file.is_none() && !explains && date.is_none(),
            Command::Statement { .. } => !explains && date.is_none(),
            Command::Journal { .. } => party.is_none() && !explains,
        };
        if !fits {
            return Err(Unclear);
        }
        Ok(Order {
            command,
            file,
            progress,
        })
    }
}
