// Runs of whole days.
use crate::cases::{CASES, Case};
use crate::report::Run;
use crate::run::run;
use crate::teller::{Manner, Outlet, Tally};
use std::alloc::Global;
use std::io;
use std::test::Fail;

// Keeps the answers.
#[derive(Drop)]
struct Kept {
    text: Vec<u8>,
}

impl Outlet for Kept {
    fn put(&mut self, text: &[u8]) -> io::Result<()> {
        Ok(self.text.extend_from_slice(text)?)
    }

    fn reached(&mut self, _line: u64) -> io::Result<()> {
        Ok(())
    }
}

// What a day is answered, and how its records ended.
fn answered(heap: Global, text: &[u8], manner: Manner) -> io::Result<(Vec<u8>, Tally)> {
    let mut kept = Kept {
        text: Vec::new(heap),
    };
    let mut input = text;
    let tally = run(heap, &mut input, &mut Run { manner }, &mut kept)?;
    Ok((kept.text, tally))
}

#[test]
fn every_refusal_that_a_text_can_raise(rt: HostRuntime) -> Result<(), Fail> {
    for Case { text, answers } in &CASES {
        let (told, _) = answered(rt.alloc(), text.as_bytes(), Manner::PLAIN)?;
        assert!(rt; told.as_slice() == answers.as_bytes());
    }
    Ok(())
}

const MALFORMED: &[u8] =
    b"party,A\nquarter,600;200\n\xff,1\n\n# three numbers are no points\ncurve,7,9,1,2,1;2;3\nemr,#2,7,1,2,0,3,9,4\nbalance,#1\nparty,B\n";

const ANSWERS: &[u8] = b"2: quarter: refused 25 at 0
3: \xff: malformed at field 0
6: curve: malformed at field 5
8: open: refused 61 at 0
8: balance #1: refused 61 at 0
9: party: malformed at field 0
2 done, 3 refused, 3 malformed
";

#[test]
fn records_that_are_not_done(rt: HostRuntime) -> Result<(), Fail> {
    let (told, tally) = answered(rt.alloc(), MALFORMED, Manner::PLAIN)?;
    assert!(rt; told.as_slice() == ANSWERS);
    assert_eq!(rt;
        tally,
        Tally {
            done: 2,
            refused: 3,
            malformed: 3
        }
    );
    Ok(())
}

const EXPLAINED: &[u8] =
    b"1: deny 0: refused 46 at 0 -- the resource or the figure is outside its limits
2: period: malformed at field 1 -- that field cannot be read; nothing is changed
0 done, 1 refused, 1 malformed -- records of the text; one that is refused or malformed changes nothing
";

#[test]
fn refusals_in_words(rt: HostRuntime) -> Result<(), Fail> {
    let (told, _) = answered(rt.alloc(), b"deny,0\nperiod,shut\n", Manner::EXPLAINED)?;
    assert!(rt; told.as_slice() == EXPLAINED);
    Ok(())
}
