use crate::{
    BasicCond, Compare, Digit, Digits, Items, Join, LoadFault, MemShelf, MemSink, MemSource, Name,
    Op, Place, Shelf, Sink, Source, StoreFault, numeral_value, write_all,
};
use std::test::Fail;

#[test]
fn lists_and_names(rt: HostRuntime) -> Result<(), Fail> {
    let alloc = rt.alloc();
    let mut items: Items<u8> = Items::new(alloc);
    assert!(rt; items.is_empty());
    items.push(7)?;
    items.push(8)?;
    assert_eq!(rt; items.len(), 2);
    items.set(1, 9);
    assert_eq!(rt; items.as_slice(), [7, 9].as_slice());
    assert_eq!(rt; items.get(0).copied(), Some(7));
    assert_eq!(rt; items.pop(), Some(9));
    assert_eq!(rt; items.into_vec().as_slice(), [7].as_slice());
    let items = Items::from_vec(vec![in alloc; 1u8, 2]?);
    let same = Items::from_slice(alloc, items.as_slice())?;
    assert_eq!(rt; same.as_slice(), [1, 2].as_slice());

    let name = Name::new(alloc, b"led[1]")?;
    assert_eq!(rt; name.bytes(), b"led[1]".as_slice());
    let copy = name.copied(alloc)?;
    assert!(rt; copy.is(&name));
    assert!(rt; !copy.is(&Name::new(alloc, b"led[0]")?));
    Ok(())
}

#[test]
fn a_source_in_pieces(rt: HostRuntime) -> Result<(), Fail> {
    let alloc = rt.alloc();
    let bytes = Vec::from_slice(alloc, b"abcdef")?;
    let mut source = MemSource::new(bytes, 4, vec![in alloc; 1]?);
    let mut buffer = [0u8; 5];
    assert_eq!(rt; source.read(&mut buffer).ok(), Some(4));
    assert_eq!(rt; buffer, *b"abcd\0");
    assert!(rt; source.read(&mut buffer).is_err());
    assert_eq!(rt; source.read(&mut buffer).ok(), Some(2));
    assert_eq!(rt; buffer, *b"efcd\0");
    assert_eq!(rt; source.read(&mut buffer).ok(), Some(0));
    Ok(())
}

#[test]
fn a_sink_with_room(rt: HostRuntime) -> Result<(), Fail> {
    let alloc = rt.alloc();
    let mut sink = MemSink::new(alloc, 2, 5, vec![in alloc; 4]?)?;
    assert!(rt; write_all(&mut sink, b"abcde").is_ok());
    assert_eq!(rt; sink.bytes(), b"abcde".as_slice());
    assert_eq!(rt; sink.write(b"").ok(), Some(0));
    assert!(rt; sink.write(b"").is_err(), "the call of number 4 fails");
    assert!(rt; write_all(&mut sink, b"f").is_err(), "there is no room");
    assert_eq!(rt; sink.bytes(), b"abcde".as_slice());
    Ok(())
}

#[test]
fn a_shelf_of_files(rt: HostRuntime) -> Result<(), Fail> {
    let alloc = rt.alloc();
    let name = Name::new(alloc, b"a.v")?;
    let files = vec![in alloc; (name, Vec::from_slice(alloc, b"one")?)]?;
    let mut shelf = MemShelf::new(files, vec![in alloc; 4]?);
    let loaded = shelf.load(alloc, "a.v", 3)?;
    assert_eq!(rt; loaded.as_slice(), b"one".as_slice());
    assert!(rt; matches!(shelf.load(alloc, "a.v", 2), Err(LoadFault::TooLong(3))));
    assert!(rt; matches!(shelf.load(alloc, "b.v", 2), Err(LoadFault::Missing)));
    shelf.store(alloc, "b.v", b"two")?;
    assert!(rt; matches!(shelf.store(alloc, "a.v", b""), Err(StoreFault::Failed)));
    shelf.store(alloc, "a.v", b"three")?;
    assert_eq!(rt; shelf.file("a.v").unwrap_or(b""), b"three".as_slice());
    assert_eq!(rt; shelf.file("b.v").unwrap_or(b""), b"two".as_slice());
    assert!(rt; shelf.file("c.v").is_none());
    Ok(())
}

// Each digit alone: its letter, and whether it matches 0 then 0, 0 then 1, 1 then 0, and 1 then 1.
const DIGITS: [(Digit, [bool; 4]); 7] = [
    (Digit::Zero, [true, false, true, false]),
    (Digit::One, [false, true, false, true]),
    (Digit::Any, [true, true, true, true]),
    (Digit::Rise, [false, true, false, false]),
    (Digit::Fall, [false, false, true, false]),
    (Digit::Both, [false, true, true, false]),
    (Digit::Steady, [true, false, false, true]),
];

// Each operator with 6, which is 110, of 5, 6 and 7.
const OPERATORS: [(Op, [bool; 3]); 6] = [
    (Op::Eq, [false, true, false]),
    (Op::Ne, [true, false, true]),
    (Op::Lt, [true, false, false]),
    (Op::Le, [true, true, false]),
    (Op::Gt, [false, false, true]),
    (Op::Ge, [false, true, true]),
];

#[test]
fn each_digit(rt: HostRuntime) -> Result<(), Fail> {
    let alloc = rt.alloc();
    for (digit, matches) in DIGITS {
        let compare = Compare {
            probe: 0,
            op: Op::Eq,
            digits: Digits::new(vec![in alloc; digit]?),
        };
        assert_eq!(rt; compare.holds(0, 0), matches[0]);
        assert_eq!(rt; compare.holds(0, 1), matches[1]);
        assert_eq!(rt; compare.holds(1, 0), matches[2]);
        assert_eq!(rt; compare.holds(1, 1), matches[3]);
    }
    Ok(())
}

#[test]
fn each_operator(rt: HostRuntime) -> Result<(), Fail> {
    let alloc = rt.alloc();
    for (op, holds) in OPERATORS {
        let digits = vec![in alloc; Digit::Zero, Digit::One, Digit::One]?;
        let compare = Compare {
            probe: 0,
            op,
            digits: Digits::new(digits),
        };
        assert!(rt; compare.is_allowed());
        assert_eq!(rt; compare.holds(0, 5), holds[0]);
        assert_eq!(rt; compare.holds(0, 6), holds[1]);
        assert_eq!(rt; compare.holds(0, 7), holds[2]);
    }
    Ok(())
}

#[test]
fn a_condition_of_one_probe(rt: HostRuntime) -> Result<(), Fail> {
    let alloc = rt.alloc();
    let compare = Compare {
        probe: 1,
        op: Op::Ne,
        digits: Digits::new(vec![in alloc; Digit::Rise]?),
    };
    let condition = BasicCond {
        join: Join::Nor,
        compares: Items::from_vec(vec![in alloc; compare]?),
    };
    assert!(rt; condition.holds(&[0, 0], &[0, 1]), "no comparison is true");
    assert!(rt; !condition.holds(&[0, 1], &[0, 1]), "one is");
    Ok(())
}

#[test]
fn places_and_numbers(rt: HostRuntime) -> Result<(), Fail> {
    assert_eq!(rt; Place::behind(b"ab\nc"), Place { line: 2, col: 2 });
    assert_eq!(rt; numeral_value(16, b"f_F"), Some(255));
    Ok(())
}
