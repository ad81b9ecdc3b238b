use std::test::*;
use wire_buf::*;

#[test]
fn fields_in_network_order(rt: HostRuntime) -> Result<(), Fail> {
    let mut cursor = Cursor::new(&[7, 0x01, 0x02, 0xfd, 0xe9, 0x00, 0x00, 9, 8, 6]);
    assert_eq!(rt; cursor.u8(), Ok(7));
    assert_eq!(rt; cursor.u16(), Ok(258));
    assert_eq!(rt; cursor.u32(), Ok(0xfde9_0000));
    assert_eq!(rt; cursor.bytes(2), Ok([9, 8].as_slice()));
    assert_eq!(rt; cursor.u16(), Err(Short));
    assert_eq!(rt; cursor.rest(), [6].as_slice());
    Ok(())
}

#[test]
fn bytes_through_a_pipe(rt: HostRuntime) -> Result<(), Fail> {
    let mut pipe = Pipe::new(rt.alloc());
    pipe.put_u8(1)?;
    pipe.put_u16(0x0203)?;
    pipe.put_u32(0x0405_0607)?;
    pipe.push(&[8, 9])?;
    pipe.take(3);
    assert_eq!(rt; pipe.peek(), [4, 5, 6, 7, 8, 9].as_slice());
    pipe.take(6);
    assert!(rt; pipe.is_empty());
    Ok(())
}
