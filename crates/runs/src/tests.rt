use crate::calls::{perform, run_blank};
use crate::{Answer, Call, CallFault, Outcome};
use candidates::Candidate;
use collections::Collection;
use faults::{Layer, Refusal};
use fields::Mod7;

// Six places modulo 7, k = 2, τ = 3, s = 2, ℓ = 4.
const SHEET: [u8; 45] = [
    1, 0, 42, 1, 6, 2, 3, 2, 4, 0, 1, 0, 1, 0, 0, 0, 2, 0, 1, 0, 0, 0, 3, 0, 1, 0, 0, 0, 4, 0, 1,
    0, 5, 0, 5, 0, 1, 0, 6, 0, 6, 0, 1, 0, 0,
];

fn refusal(number: u8, place: usize, layer: Layer) -> Refusal {
    Refusal {
        number,
        place,
        layer,
    }
}

// What refuses a call, with the sheet's byte of a refused loading.
fn refused(answer: Answer) -> Option<(Refusal, Option<u128>)> {
    match answer {
        Ok(_) => None,
        Err(CallFault::Sheet(f)) => Some((f.refusal(), Some(f.byte()))),
        Err(f) => Some((f.refusal(), None)),
    }
}

// Accepted with nothing told: `refused` alone would take a list for it.
fn is_done(answer: Answer) -> bool {
    matches!(answer, Ok(Outcome::Done))
}

fn load(c: &mut Collection<Mod7>, sheet: &[u8]) -> Answer {
    perform(c, Call::Load(sheet), &mut [])
}

// What loading the sheet answers where some of its bytes are others.
fn damaged(others: &[(usize, u8)]) -> Answer {
    let mut sheet = SHEET;
    for (at, byte) in others {
        if *at < 45 {
            sheet[*at] = *byte;
        }
    }
    load(&mut Collection::new(), &sheet)
}

#[test]
fn sheets_are_refused(rt: HostRuntime) {
    assert!(rt; is_done(damaged(&[])));
    assert!(rt;
        refused(damaged(&[(0, 2), (3, 9)])) == Some((refusal(13, 0, Layer::Sheet), Some(0)))
    );
    assert!(rt;
        refused(damaged(&[(2, 44), (3, 9)])) == Some((refusal(14, 1, Layer::Sheet), Some(1)))
    );
    assert!(rt;
        refused(damaged(&[(3, 2), (5, 0)])) == Some((refusal(15, 3, Layer::Sheet), Some(3)))
    );
    let no_places = [1, 0, 6, 1, 0, 2, 3, 2, 4];
    assert!(rt;
        refused(load(&mut Collection::new(), &no_places))
            == Some((refusal(1, 0, Layer::Code), Some(4)))
    );
    assert!(rt;
        refused(damaged(&[(5, 6), (10, 0)])) == Some((refusal(2, 0, Layer::Code), Some(5)))
    );
    assert!(rt;
        refused(damaged(&[(34, 7), (16, 1)])) == Some((refusal(3, 4, Layer::Code), Some(33)))
    );
    assert!(rt;
        refused(damaged(&[(16, 1), (12, 0)])) == Some((refusal(4, 1, Layer::Code), Some(15)))
    );
    assert!(rt;
        refused(damaged(&[(18, 0), (7, 0)])) == Some((refusal(5, 1, Layer::Code), Some(17)))
    );
    assert!(rt;
        refused(damaged(&[(8, 3), (14, 9)])) == Some((refusal(6, 0, Layer::Code), Some(6)))
    );
    assert!(rt; refused(damaged(&[(32, 7)])) == Some((refusal(8, 3, Layer::Collection), Some(31))));
    assert!(rt; is_done(damaged(&[(31, 255), (32, 255)])));
    let mut c = Collection::new();
    assert!(rt; is_done(load(&mut c, &SHEET)));
    assert!(rt;
        refused(load(&mut c, &SHEET)) == Some((refusal(21, 0, Layer::Collection), Some(0)))
    );
}

#[test]
fn calls_are_refused(rt: HostRuntime) {
    let mut c = Collection::<Mod7>::new();
    assert!(rt; c.enter(9, 9).map_err(|f| f.refusal()) == Err(refusal(20, 0, Layer::Collection)));
    assert!(rt; c.withdraw(9).map_err(|f| f.refusal()) == Err(refusal(20, 0, Layer::Collection)));
    let _ = load(&mut c, &SHEET);
    assert!(rt; c.enter(6, 7).map_err(|f| f.refusal()) == Err(refusal(7, 6, Layer::Collection)));
    assert!(rt; c.enter(3, 7).map_err(|f| f.refusal()) == Err(refusal(8, 3, Layer::Collection)));
    assert!(rt; c.enter(3, 4).map_err(|f| f.refusal()) == Err(refusal(22, 3, Layer::Collection)));
    assert!(rt; c.enter(3, 5).map_err(|f| f.refusal()) == Ok(()));
    assert!(rt; c.withdraw(6).map_err(|f| f.refusal()) == Err(refusal(7, 6, Layer::Collection)));
    assert!(rt; c.withdraw(3).map_err(|f| f.refusal()) == Ok(()));
    assert!(rt; c.withdraw(3).map_err(|f| f.refusal()) == Err(refusal(23, 3, Layer::Collection)));
}

#[test]
fn areas_are_refused(rt: HostRuntime) {
    let mut c = Collection::<Mod7>::new();
    let mut word = [9; 6];
    let mut bytes = [9; 46];
    assert!(rt;
        c.issue(&[1, 1], &mut word).map_err(|f| f.refusal())
            == Err(refusal(20, 0, Layer::Collection))
    );
    assert!(rt;
        transfer::write(&c, &mut bytes).map_err(|f| f.refusal())
            == Err(refusal(20, 0, Layer::Collection))
    );
    let _ = load(&mut c, &SHEET);
    assert!(rt;
        c.issue(&[9, 1, 1], &mut word).map_err(|f| f.refusal())
            == Err(refusal(17, 0, Layer::Listing))
    );
    assert!(rt;
        c.issue(&[1, 7], &mut word[0..5]).map_err(|f| f.refusal())
            == Err(refusal(8, 1, Layer::Listing))
    );
    assert!(rt;
        c.issue(&[1, 1], &mut word[0..5]).map_err(|f| f.refusal())
            == Err(refusal(10, 0, Layer::Listing))
    );
    assert!(rt;
        transfer::write(&c, &mut bytes[0..44]).map_err(|f| f.refusal())
            == Err(refusal(10, 0, Layer::Listing))
    );
    assert!(rt; transfer::write(&c, &mut bytes).map_err(|f| f.refusal()) == Ok(45));
    assert!(rt; bytes[0..45] == SHEET[0..45] && bytes[45] == 9);
}

// Distance and message of a record.
fn record(c: Candidate) -> (u8, u16, u16) {
    (c.distance, c.message[0], c.message[1])
}

// The count of a list, and its first two records.
fn pair(answer: Answer) -> Option<(usize, (u8, u16, u16), (u8, u16, u16))> {
    match answer {
        Ok(Outcome::Listed(f)) => Some((f.count, record(f.records[0]), record(f.records[1]))),
        _ => None,
    }
}

// Two words are within 3 of the shares: that of the message 0, and that of 1 + x.
#[test]
fn lists_are_given_and_refused(rt: HostRuntime) {
    let all = Call::List {
        records: 8,
        numbers: 32000,
    };
    let calls = [
        all,
        Call::Load(&SHEET),
        all,
        Call::List {
            records: 3,
            numbers: 32000,
        },
        Call::List {
            records: 4,
            numbers: 31999,
        },
        Call::Withdraw { place: 3 },
        all,
    ];
    let mut work = [0; 32000];
    let mut answers = [Ok(Outcome::Done); 7];
    let _ = run_blank::<Mod7>(&calls, &mut answers, &mut work);
    assert!(rt; refused(answers[0]) == Some((refusal(20, 0, Layer::Collection), None)));
    assert!(rt; is_done(answers[1]));
    assert!(rt; pair(answers[2]) == Some((2, (2, 0, 0), (3, 1, 1))));
    assert!(rt; refused(answers[3]) == Some((refusal(10, 0, Layer::Listing), None)));
    assert!(rt; refused(answers[4]) == Some((refusal(11, 0, Layer::Listing), None)));
    assert!(rt; refused(answers[6]) == Some((refusal(24, 3, Layer::Listing), None)));
}
