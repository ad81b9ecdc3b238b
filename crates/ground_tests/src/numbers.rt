use net_base::number::{BadNumber, read_u32, read_u64};
use std::test::Fail;

#[test]
fn numbers_are_read(rt: HostRuntime) -> Result<(), Fail> {
    assert_eq!(rt; read_u64(b"0")?, 0);
    assert_eq!(rt; read_u64(b"18446744073709551615")?, u64::MAX);
    assert_eq!(rt; read_u32(b"4294967295")?, u32::MAX);
    for text in ["", "007", "00", "-5", "+5", "1x", " 1", "1 ", "0x1"] {
        assert_eq!(rt; read_u64(text.as_bytes()), Err(BadNumber::NotNumber));
        assert_eq!(rt; read_u32(text.as_bytes()), Err(BadNumber::NotNumber));
    }
    let long = b"1000000000000000000000000000000000000000000000000000000000000000000000000000";
    for text in [b"18446744073709551616".as_slice(), long.as_slice()] {
        assert_eq!(rt; read_u64(text), Err(BadNumber::TooLarge));
    }
    assert_eq!(rt; read_u32(b"4294967296"), Err(BadNumber::TooLarge));
    Ok(())
}
