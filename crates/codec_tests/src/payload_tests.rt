use amqp_value::{PayloadError, PayloadList, PayloadReader, ValueError};
use bytes::Bytes;
use std::alloc::Global;
use std::test::Fail;

/// The bytes 1 to 9 in three pieces; an empty one among them is not kept.
fn nine_bytes(alloc: Global) -> Result<PayloadList, PayloadError> {
    let mut list = PayloadList::new(alloc);
    list.push(Bytes::from_static(&[1, 2, 3]))?;
    list.push(Bytes::from_static(&[4, 5, 6, 7, 8]))?;
    list.push(Bytes::new())?;
    list.push(Bytes::from_static(&[9]))?;
    Ok(list)
}

#[test]
fn reads_over_the_pieces(rt: HostRuntime) -> Result<(), Fail> {
    let list = nine_bytes(rt.alloc())?;
    let mut reader = PayloadReader::new(&list);
    let mut five = [0u8; 5];
    let mut ten = [0u8; 10];
    assert_eq!(rt; reader.read_exact(&mut five), Ok(()));
    assert_eq!(rt; five, [1, 2, 3, 4, 5]);
    assert_eq!(rt; reader.read_exact(&mut ten), Err(ValueError::Short));
    assert_eq!(rt; ten, [0; 10]);
    assert_eq!(rt; reader.remaining(), 4);
    Ok(())
}

#[test]
fn bytes_from_both_ends(rt: HostRuntime) -> Result<(), Fail> {
    let list = nine_bytes(rt.alloc())?;
    let backwards: Vec<u8> = list.iter().rev().collect(rt.alloc())?;
    assert_eq!(rt;
        backwards.as_slice(),
        [9u8, 8, 7, 6, 5, 4, 3, 2, 1].as_slice()
    );
    let mut bytes = list.iter();
    assert_eq!(rt; bytes.next_back(), Some(9));
    assert_eq!(rt; bytes.next(), Some(1));
    assert_eq!(rt; bytes.len(), 7);
    Ok(())
}

#[test]
fn keeps_the_first_bytes(rt: HostRuntime) -> Result<(), Fail> {
    let mut list = nine_bytes(rt.alloc())?;
    assert_eq!(rt; list.pieces(), 3);
    list.truncate(10);
    assert_eq!(rt; list.len(), 9);
    list.truncate(5);
    assert_eq!(rt; list.pieces(), 2);
    let first: Vec<u8> = list.iter().collect(rt.alloc())?;
    assert_eq!(rt; first.as_slice(), [1u8, 2, 3, 4, 5].as_slice());
    list.truncate(3);
    assert_eq!(rt; list.pieces(), 1);
    list.truncate(0);
    assert_eq!(rt; list.pieces(), 0);
    assert!(rt; list.is_empty());
    Ok(())
}

#[test]
fn a_piece_that_is_cut_is_not_copied(rt: HostRuntime) -> Result<(), Fail> {
    let whole = Bytes::copy_from_slice(rt.alloc(), &[1, 2, 3, 4])?;
    let mut list = PayloadList::new(rt.alloc());
    list.push(whole.clone()?)?;
    list.truncate(2);
    assert!(rt; !whole.is_unique());
    list.truncate(0);
    assert!(rt; whole.is_unique());
    Ok(())
}
