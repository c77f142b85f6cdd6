// A line of each kind, on pages of several lengths.
use crate::{KeyRefusal, print};
use flood::Verdict;
use history::TakenCopy;
use refusal::RunFault;
use std::test::Fail;

const FORWARDED: TakenCopy<u8> = TakenCopy {
    instant: 6,
    from: 0,
    to: 1,
    hop: 2,
    number: 2,
    verdict: Verdict::Forwards,
};

const REFUSAL: KeyRefusal = KeyRefusal {
    number: 15,
    index: 3,
};

// 43 bytes have room for any refusal, and are not measured.
#[test]
fn bytes_behind_the_text_stay(rt: HostRuntime) -> Result<(), Fail> {
    let mut page = [b'.'; 34];
    assert_eq!(rt; print(&[FORWARDED], Some(REFUSAL), &mut page), Ok(32));
    assert_eq!(rt; page, *b"6 0 1 2 2 forwards\nrefusal 15 3\n..");
    let none: [TakenCopy<u8>; 0] = [];
    let mut page = [b'.'; 43];
    assert_eq!(rt; print(&none, Some(REFUSAL), &mut page), Ok(13));
    assert_eq!(rt; page, *b"refusal 15 3\n..............................");
    Ok(())
}

#[test]
fn a_page_one_byte_too_short_stays(rt: HostRuntime) -> Result<(), Fail> {
    let mut page = [b'.'; 18];
    assert_eq!(rt; print(&[FORWARDED], None, &mut page), Err(RunFault::NoRoom));
    assert_eq!(rt; page, [b'.'; 18]);
    Ok(())
}
