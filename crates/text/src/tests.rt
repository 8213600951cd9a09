// Texts and what is read from them and written.
use crate::answers::Answers;
use crate::fields::{Fault, Fields};
use crate::{lines, numbers};
use std::io::Write;
use std::test::Fail;

#[test]
fn signed_numbers(rt: HostRuntime) {
    assert_eq!(rt; numbers::number_in(b"-9223372036854775808"), Some(i64::MIN));
    assert_eq!(rt; numbers::number_in::<i64>(b"9223372036854775808"), None);
    assert_eq!(rt;
        numbers::number_in(b"000000000000000000000000012"),
        Some(12i64)
    );
    assert_eq!(rt; numbers::number_in::<i64>(b"--5"), None);
}

#[test]
fn natural_numbers(rt: HostRuntime) {
    assert_eq!(rt; numbers::number_in(b"4294967295"), Some(4294967295u32));
    assert_eq!(rt; numbers::number_in::<u32>(b"4294967296"), None);
    assert_eq!(rt; numbers::number_in::<u32>(b"-0"), None);
    assert_eq!(rt; numbers::number_in::<u32>(b"5 "), None);
}

#[test]
fn fields_of_a_line(rt: HostRuntime) {
    let (name, mut fields) = Fields::of(b"emr, -3 ,\t,x y");
    assert!(rt; name == b"emr".as_slice());
    assert_eq!(rt; fields.count(), 3);
    assert_eq!(rt; fields.number::<u32>(), None);
    assert_eq!(rt; fields.number(), Some(-3i64));
    assert_eq!(rt; fields.number_or_zero(), Some(0u32));
    assert!(rt; fields.text() == Some(b"x y"));
    assert!(rt; fields.is_done());
}

#[test]
fn a_list(rt: HostRuntime) {
    let (_, mut fields) = Fields::of(b"quarter,1; 2 ;-3,,4;");
    let mut into: Vec<i64> = Vec::new(rt.alloc());
    assert_eq!(rt; fields.list(1, &mut into), Ok(()));
    assert_eq!(rt; fields.list(2, &mut into), Ok(()));
    assert!(rt; into.as_slice() == [1, 2, -3].as_slice());
    assert_eq!(rt; fields.list(3, &mut into), Err(Fault::Malformed(3)));
}

#[test]
fn lines_of_a_text(rt: HostRuntime) {
    let text = b"party,A\r\n\n  # no record\nclear,emr";
    assert_eq!(rt; lines::whole_lines(text), 24);
    let (line, rest) = lines::next_line(text);
    assert!(rt; line == b"party,A".as_slice());
    let (line, rest) = lines::next_line(rest);
    assert!(rt; lines::is_passed_over(line));
    let (line, rest) = lines::next_line(rest);
    assert!(rt; lines::is_passed_over(line));
    let (line, rest) = lines::next_line(rest);
    assert!(rt; line == b"clear,emr".as_slice());
    assert!(rt; rest.is_empty());
}

#[test]
fn answers_in_a_row(rt: HostRuntime) -> Result<(), Fail> {
    let mut out = Answers::new(rt.alloc());
    out.number(0)?;
    out.put(b": ")?;
    out.number(u64::MAX)?;
    out.put(b" ")?;
    out.signed(i64::MIN)?;
    assert!(rt; out.text.as_slice() == b"0: 18446744073709551615 -9223372036854775808".as_slice());
    out.clear();
    out.signed(70)?;
    assert!(rt; out.text.as_slice() == b"70".as_slice());
    Ok(())
}

#[test]
fn answers_written(rt: HostRuntime) -> Result<(), Fail> {
    let mut out = Answers::new(rt.alloc());
    let kind = "emr";
    write!(out, "{}: {kind} at {}", 12u64, -7i64)?;
    out.write_all(b"\n")?;
    writeln!(out, "{}", u32::MAX)?;
    assert!(rt; out.text.as_slice() == b"12: emr at -7\n4294967295\n".as_slice());
    Ok(())
}

// Words that are as long as a line made on the stack may be, and longer ones.
#[test]
fn long_words_written(rt: HostRuntime) -> Result<(), Fail> {
    let half = "0123456789 123456789 123456789 123456789 123456789 123456789 123";
    let mut out = Answers::new(rt.alloc());
    write!(out, "{half}{half}")?;
    write!(out, "{half}{half};")?;
    writeln!(out, "{}{half}{half}{half}", -5i64)?;
    let mut expected = Answers::new(rt.alloc());
    for words in [half, half, half, half, ";-5", half, half, half, "\n"] {
        expected.put(words.as_bytes())?;
    }
    assert_eq!(rt; half.len(), 64);
    assert!(rt; out.text.as_slice() == expected.text.as_slice());
    Ok(())
}
