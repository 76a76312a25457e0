use crate::fault::FidFault;
use crate::fid::Fid;

const FIRST: Fid = Fid {
    volume: 3,
    key: 1,
    cookie: 0x6370_37d6,
};

const GREATEST: Fid = Fid {
    volume: u32::MAX,
    key: u64::MAX,
    cookie: u32::MAX,
};

#[test]
fn reads_either_case_and_any_number_of_digits(rt: HostRuntime) {
    assert_eq!(rt; Fid::read(b"3,01637037d6"), Ok(FIRST));
    assert_eq!(rt; Fid::read(b"3,1637037d6"), Ok(FIRST));
    assert_eq!(rt; Fid::read(b"3,0001637037D6"), Ok(FIRST));
    assert_eq!(rt; Fid::read(b"3,00637037D6_1"), Ok(FIRST));
    assert_eq!(rt;
        Fid::read(b"4294967295,ffffffffffffffffFFFFFFFF"),
        Ok(GREATEST)
    );
    assert_eq!(rt;
        Fid::read(b"4294967295,0ffffffff_18446744073709551615"),
        Ok(GREATEST)
    );
}

#[test]
fn refuses_a_text_without_comma(rt: HostRuntime) {
    assert_eq!(rt; Fid::read(b""), Err(FidFault::NoComma));
    assert_eq!(rt; Fid::read(b"301637037d6"), Err(FidFault::NoComma));
}

#[test]
fn refuses_a_volume_that_is_no_number(rt: HostRuntime) {
    assert_eq!(rt; Fid::read(b"03,01637037d6"), Err(FidFault::BadVolume));
    assert_eq!(rt; Fid::read(b",01637037d6"), Err(FidFault::BadVolume));
    assert_eq!(rt; Fid::read(b"+3,01637037d6"), Err(FidFault::BadVolume));
    assert_eq!(rt;
        Fid::read(b"4294967296,01637037d6"),
        Err(FidFault::BadVolume)
    );
    assert_eq!(rt;
        Fid::read(b"18446744073709551616,01637037d6"),
        Err(FidFault::BadVolume)
    );
    assert!(rt; Fid::read(b"0,01637037d6").is_ok());
}

#[test]
fn refuses_a_delta_that_is_no_number(rt: HostRuntime) {
    assert_eq!(rt;
        Fid::read(b"3,ffffffffffffffff00000000_01"),
        Err(FidFault::BadDelta)
    );
    assert_eq!(rt; Fid::read(b"3,01637037d6_"), Err(FidFault::BadDelta));
    assert_eq!(rt; Fid::read(b"3,01637037d6_a"), Err(FidFault::BadDelta));
    assert_eq!(rt;
        Fid::read(b"3,00637037d6_18446744073709551616"),
        Err(FidFault::BadDelta)
    );
}

#[test]
fn refuses_digits_that_are_not_hexadecimal(rt: HostRuntime) {
    assert_eq!(rt; Fid::read(b"3,0163703,7d6"), Err(FidFault::BadHex));
    assert_eq!(rt; Fid::read(b"3,g"), Err(FidFault::BadHex));
    assert_eq!(rt; Fid::read(b"3,01637037d6_1_2"), Err(FidFault::BadHex));
}

#[test]
fn refuses_too_few_and_too_many_digits(rt: HostRuntime) {
    assert_eq!(rt; Fid::read(b"3,637037d6"), Err(FidFault::KeyTooShort));
    assert_eq!(rt; Fid::read(b"3,"), Err(FidFault::KeyTooShort));
    assert_eq!(rt;
        Fid::read(b"3,0ffffffffffffffff00000000"),
        Err(FidFault::KeyTooLong)
    );
}

#[test]
fn refuses_a_key_that_overflows(rt: HostRuntime) {
    assert_eq!(rt;
        Fid::read(b"3,ffffffffffffffff00000000_1"),
        Err(FidFault::KeyOverflow)
    );
    assert!(rt; Fid::read(b"3,ffffffffffffffff00000000_0").is_ok());
    assert_eq!(rt; GREATEST.plus(0), Ok(GREATEST));
    assert_eq!(rt; GREATEST.plus(1), Err(FidFault::KeyOverflow));
}

#[test]
fn writes_whole_bytes_without_zeros_before_the_key(rt: HostRuntime) {
    assert_eq!(rt; FIRST.write().as_slice(), b"3,01637037d6".as_slice());
    let zero = Fid { key: 0, ..FIRST };
    assert_eq!(rt; zero.write().as_slice(), b"3,00637037d6".as_slice());
    let later = Fid {
        key: 0x100,
        ..FIRST
    };
    assert_eq!(rt; later.write().as_slice(), b"3,0100637037d6".as_slice());
    assert_eq!(rt;
        GREATEST.write().as_slice(),
        b"4294967295,ffffffffffffffffffffffff".as_slice()
    );
}

#[test]
fn names_each_fault(rt: HostRuntime) {
    assert_eq!(rt; FidFault::NoComma.name(), "NoComma");
    assert_eq!(rt; FidFault::KeyOverflow.name(), "KeyOverflow");
}
