// Examples, on the code and on the meanings.
ghost use Rattle.numbering.specs.Worked.{Worked};

use crate::*;
use std::test::Fail;

// The worked cases hold of the meanings.
fn worked()
    ensures { Worked }
{}

#[test]
fn worked_cases(rt: HostRuntime) -> Result<(), Fail> {
    worked();
    let Some(differentiated) = Differentiated::new(2) else {
        return Err(Fail::new("smax 2 is lawful"));
    };
    assert!(rt; !differentiated.fresh(1, 1) && differentiated.fresh(2, 1));
    let Some(circular) = Circular::new(7) else {
        return Err(Fail::new("smax 7 is lawful"));
    };
    assert!(rt; circular.fresh(1, 6) && !circular.fresh(2, 6));
    assert_eq!(rt; circular.bound(6, 1), (3, 9));
    Ok(())
}

#[test]
fn ends_of_the_ranges(rt: HostRuntime) -> Result<(), Fail> {
    assert!(rt; Circular::new(1).is_none() && Differentiated::new(0).is_none());
    let Some(widest) = Circular::new(255) else {
        return Err(Fail::new("smax 255 is lawful"));
    };
    assert_eq!(rt; widest.next(255), Some(0));
    assert_eq!(rt; widest.bound(0, 0), (127, 381));
    assert_eq!(rt; Linear.next(4294967295), None);
    assert_eq!(rt; Linear.bound(4294967295, 0), (255, 4294967549));
    assert_eq!(rt; Linear.bound(0, 4294967295), (255, 255));
    Ok(())
}

#[test]
fn values_come_back(rt: HostRuntime) {
    assert_eq!(rt; Zero::of_value(Zero.value()), Some(Zero));
    assert!(rt; Zero::of_value(1).is_none() && u8::of_value(256).is_none());
    assert_eq!(rt; u8::of_value(255), Some(255));
    assert_eq!(rt; u32::of_value(4294967295), Some(4294967295));
}
