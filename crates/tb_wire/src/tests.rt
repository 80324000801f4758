use crate::{FieldValue, Wire, put_len, put_varint, read_field, read_varint, unzigzag, zigzag};
use std::alloc::{AllocError, Global};
use std::test::Fail;

#[test]
fn numbers_are_read(rt: HostRuntime) -> Result<(), Fail> {
    let cases: [(&[u8], Result<(u64, usize), Wire>); 6] = [
        (b"\x00", Ok((0, 1))),
        (b"\x80\x01\x05", Ok((128, 2))),
        (b"\x80\x00", Ok((0, 2))),
        (b"\x80", Err(Wire::Cut)),
        (
            b"\xff\xff\xff\xff\xff\xff\xff\xff\xff\x01",
            Ok((u64::MAX, 10)),
        ),
        (b"\xff\xff\xff\xff\xff\xff\xff\xff\xff\x02", Err(Wire::Long)),
    ];
    for (bytes, want) in cases {
        assert!(rt; read_varint(bytes, 0) == want, "of {bytes:?}");
    }
    for (signed, unsigned) in [
        (0i64, 0u64),
        (-1, 1),
        (1, 2),
        (i64::MAX, u64::MAX - 1),
        (i64::MIN, u64::MAX),
    ] {
        assert!(rt; zigzag(signed) == unsigned && unzigzag(unsigned) == signed);
    }
    Ok(())
}

#[test]
fn fields_are_put_and_read(rt: HostRuntime) -> Result<(), Fail> {
    let mut out = Vec::new(rt.alloc());
    assert!(rt; put_len(&mut out, 15, b"cafe").is_ok() && put_varint(&mut out, 300).is_ok());
    assert!(rt; out.as_slice() == b"\x7a\x04cafe\xac\x02".as_slice());
    let cases: [(&[u8], Option<(u32, FieldValue<'_>, usize)>); 5] = [
        (b"", None),
        (b"\x08\x96\x01", Some((1, FieldValue::Varint(150), 3))),
        (
            b"\x11\x01\x00\x00\x00\x00\x00\x00\x80",
            Some((2, FieldValue::Fixed64(0x8000_0000_0000_0001), 9)),
        ),
        (b"\x1a\x02ab\x00", Some((3, FieldValue::Bytes(b"ab"), 4))),
        (
            b"\x25\x02\x00\x00\x01",
            Some((4, FieldValue::Fixed32(0x0100_0002), 5)),
        ),
    ];
    for (bytes, want) in cases {
        let got = read_field(bytes, 0).map(|found| found.map(|f| (f.number, f.value, f.next)));
        assert!(rt; got == Ok(want), "of {bytes:?}");
    }
    let refused: [(&[u8], Wire); 6] = [
        (b"\x1b", Wire::Tag),
        (b"\x0e", Wire::Tag),
        (b"\x00\x00", Wire::Tag),
        (b"\x80\x80\x80\x80\x10\x00", Wire::Tag),
        (b"\x0a\x03ab", Wire::Cut),
        (b"\x0d\x00\x00\x00", Wire::Cut),
    ];
    for (bytes, why) in refused {
        assert!(rt; read_field(bytes, 0) == Err(why), "of {bytes:?}");
    }
    Ok(())
}

// So many bytes.
fn body(alloc: Global, count: usize) -> Result<Vec<u8>, AllocError> {
    vec![in alloc; 7u8; count]
}

#[test]
fn a_long_body_is_put_and_read(rt: HostRuntime) -> Result<(), Fail> {
    let body = body(rt.alloc(), 2_000_000)?;
    let mut out = Vec::new(rt.alloc());
    assert!(rt; put_len(&mut out, 1, &body).is_ok());
    let got = read_field(&out, 0).map(|found| found.map(|f| (f.number, f.value, f.next)));
    assert!(rt; got == Ok(Some((1, FieldValue::Bytes(&body), 2_000_004))));
    Ok(())
}
