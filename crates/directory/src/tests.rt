// Party directories on examples.
use crate::parties::{PartyCode, parties};
use numbers::numbered::Numbered;

fn place_of(codes: &[PartyCode], text: &[u8]) -> Option<usize> {
    match parties(codes) {
        Ok(directory) => directory.find(&PartyCode::of(text)),
        Err(_) => Some(0),
    }
}

fn refusal_of(codes: &[PartyCode]) -> (u8, usize) {
    match parties(codes) {
        Ok(_) => (0, 0),
        Err(refusal) => (refusal.number(), refusal.place()),
    }
}

#[test]
fn finds_codes(rt: HostRuntime) {
    let codes = [
        PartyCode::of(b"9"),
        PartyCode::of(b"AB"),
        PartyCode::of(b"ABC"),
        PartyCode::of(b"ABCDEFGH"),
        PartyCode::of(b"Z1"),
    ];
    assert_eq!(rt; place_of(&codes, b"9"), Some(1));
    assert_eq!(rt; place_of(&codes, b"AB"), Some(2));
    assert_eq!(rt; place_of(&codes, b"ABC"), Some(3));
    assert_eq!(rt; place_of(&codes, b"ABCDEFGH"), Some(4));
    assert_eq!(rt; place_of(&codes, b"Z1"), Some(5));
    assert_eq!(rt; place_of(&codes, b"ABD"), None);
    assert_eq!(rt; place_of(&codes, b"ABCDEFGHI"), None);
    assert_eq!(rt; place_of(&codes, b""), None);
}

#[test]
fn refuses_lists(rt: HostRuntime) {
    assert_eq!(rt; refusal_of(&[]), (13, 0));
    assert_eq!(rt; refusal_of(&[PartyCode::of(b"A"); 65]), (13, 0));
    assert_eq!(rt;
        refusal_of(&[
            PartyCode::of(b"B"),
            PartyCode::of(b"A"),
            PartyCode::of(b"a"),
        ],),
        (11, 3)
    );
    assert_eq!(rt;
        refusal_of(&[PartyCode::of(b""), PartyCode::of(b"ABCDEFGHI")]),
        (11, 1)
    );
    assert_eq!(rt;
        refusal_of(&[
            PartyCode::of(b"AB"),
            PartyCode::of(b"ABC"),
            PartyCode::of(b"ABC"),
            PartyCode::of(b"A"),
        ],),
        (12, 3)
    );
    assert_eq!(rt;
        refusal_of(&[PartyCode::of(b"ABC"), PartyCode::of(b"AB")]),
        (12, 2)
    );
}
