use crate::{Journal, Low, Place, Shown, Table, Tables, header, longer, numbers, read_numbers};
use model::{Ptr, Row};
use std::test::Fail;

#[test]
fn reads_numbers(rt: HostRuntime) -> Result<(), Fail> {
    let line = numbers(rt.alloc(), b"0 store 2 2 2 | 1 | 3:20:9\n")?;
    assert_eq!(rt; line.as_slice(), [0, 2, 2, 2, 1, 3, 20, 9].as_slice());
    let last = numbers(rt.alloc(), b"7 put 12")?;
    assert_eq!(rt; last.as_slice(), [7, 12].as_slice());
    let large = numbers(rt.alloc(), b"18446744073709551615, 18446744073709551616")?;
    assert_eq!(rt; large.as_slice(), [u64::MAX, u64::MAX].as_slice());
    let none = numbers(rt.alloc(), b"# a heading\n")?;
    assert_eq!(rt; none.len(), 0);
    Ok(())
}

#[test]
fn reads_the_first_numbers(rt: HostRuntime) -> Result<(), Fail> {
    let mut all = numbers(rt.alloc(), b"9 9 9 9")?;
    read_numbers(&mut all, 3, b"1 2,3;4 5")?;
    assert_eq!(rt; all.as_slice(), [1, 2, 3].as_slice());
    read_numbers(&mut all, 3, b"18446744073709551620 7")?;
    assert_eq!(rt; all.as_slice(), [1844674407370955162, 7].as_slice());
    read_numbers(&mut all, 3, b"18446744073709551616")?;
    assert_eq!(rt; all.as_slice(), [0].as_slice());
    read_numbers(&mut all, 0, b"7")?;
    assert_eq!(rt; all.len(), 0);
    Ok(())
}

#[test]
fn makes_a_number_longer(rt: HostRuntime) {
    assert_eq!(rt; longer(0, b'7'), Some(7));
    assert_eq!(rt; longer(12, b'0'), Some(120));
    assert_eq!(rt; longer(u64::MAX, b'0'), Some(u64::MAX));
    assert_eq!(rt; longer(12, b'/'), None);
    assert_eq!(rt; longer(12, b':'), None);
}

#[test]
fn cuts_numbers_to_fields(rt: HostRuntime) {
    assert_eq!(rt; u16::low(65537), 1);
    assert_eq!(rt; u32::low(4294967298), 2);
    assert_eq!(rt; u64::low(u64::MAX), u64::MAX);
    let h = header(&[1, 65538, 3]);
    assert_eq!(rt; h.len, 1);
    assert_eq!(rt; h.m, 2);
    assert_eq!(rt; h.root, 3);
    assert_eq!(rt; h.generation, 0);
}

#[test]
fn lends_first_words(rt: HostRuntime) -> Result<(), Fail> {
    let mut table = Table::new(vec![in rt.alloc(); 7u16; 3]?);
    assert_eq!(rt; table.lent().len(), 0);
    table.lend(2);
    table.lent_mut().fill(8);
    table.set(5, 9);
    table.set(1, 9);
    assert_eq!(rt; table.lent(), [8u16, 9].as_slice());
    table.lend(4);
    assert_eq!(rt; table.lent(), [8u16, 9, 7].as_slice());
    Ok(())
}

fn places(rt: &HostRuntime, tables: &Tables) -> Result<String, Fail> {
    let mut text = String::new(rt.alloc());
    for place in tables.places(rt.alloc())? {
        write!(text, " {place}")?;
    }
    Ok(text)
}

#[test]
fn lends_first_words_of_each_table(rt: HostRuntime) -> Result<(), Fail> {
    let mut tables = Tables::new(rt.alloc(), 4)?;
    tables.fill(Place::of(&[3, 2, 9]));
    tables.lend([3, 2, 1]);
    assert_eq!(rt; places(&rt, &tables)?.as_str(), " 3:2:9 3:2:0 3:0:0");
    tables.lend([0, 1, 5]);
    assert_eq!(rt; places(&rt, &tables)?.as_str(), " 0:2:9 0:0:9 0:0:9 0:0:9");
    Ok(())
}

#[test]
fn gives_the_first_places(rt: HostRuntime) -> Result<(), Fail> {
    let mut tables = Tables::new(rt.alloc(), 4)?;
    tables.fill(Place::of(&[1, 1, 1]));
    tables.give(3, &[3, 2, 9, 4]);
    tables.lend([4; 3]);
    assert_eq!(rt; places(&rt, &tables)?.as_str(), " 3:2:9 4:0:0 0:0:0 1:1:1");
    Ok(())
}

#[test]
fn shows_places(rt: HostRuntime) -> Result<(), Fail> {
    let mut tables = Tables::new(rt.alloc(), 4)?;
    tables.set(1, Place::of(&[3, 2, 9]));
    tables.lend([2, 0, 1]);
    assert_eq!(rt; places(&rt, &tables)?.as_str(), " 0:0:0 3:0:0");
    assert_eq!(rt; tables.count(), 2);
    assert!(rt; tables.place(1) == Place::of(&[3]));
    Ok(())
}

#[test]
fn shows_rows(rt: HostRuntime) -> Result<(), Fail> {
    let row = Row {
        old: Ptr::new(1, 2),
        new: Ptr::new(3, 4),
        overflow: true,
    };
    let mut journal = Journal::new(rt.alloc(), 2, row)?;
    journal.lend([2, 0, 0, 0, 1]);
    let mut text = String::new(rt.alloc());
    for row in journal.rows(rt.alloc())? {
        write!(text, " {}", Shown(row))?;
    }
    assert_eq!(rt; text.as_str(), " 1:0:0:0:1 1:0:0:0:0");
    Ok(())
}
