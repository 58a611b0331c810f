// The lines as they are printed.
use hit_report::{
    push_codes, push_count, push_hit, push_ok, push_overbudget, push_query_refused, push_records,
    push_refused,
};
use htss_defs::Codes;
use std::test::Fail;

#[test]
fn lines_are_appended(rt: HostRuntime) -> Result<(), Fail> {
    let mut text = Vec::from_slice(rt.alloc(), b"refused\n")?;
    push_hit(&mut text, 12, &[3], b"")?;
    push_hit(&mut text, 4294967295, &[2, 999, 1], b"a b")?;
    push_count(&mut text, 2)?;
    assert_eq!(rt;
        text.as_slice(),
        b"refused\nhit 12 3\nhit 4294967295 2,999,1 a b\nhits 2\n".as_slice()
    );
    Ok(())
}

#[test]
fn lines_in_place_of_hits_are_appended(rt: HostRuntime) -> Result<(), Fail> {
    let mut text = Vec::new(rt.alloc());
    push_query_refused(&mut text, 4, 20)?;
    push_query_refused(&mut text, 6, 21)?;
    push_overbudget(&mut text, 18446744073709551615)?;
    push_overbudget(&mut text, 0)?;
    assert_eq!(rt;
        text.as_slice(),
        b"query refused 4 20 TooLarge\nquery refused 6 21 List\noverbudget 18446744073709551615\noverbudget 0\n".as_slice()
    );
    Ok(())
}

#[test]
fn lines_of_records_are_appended(rt: HostRuntime) -> Result<(), Fail> {
    let mut text = Vec::new(rt.alloc());
    push_ok(&mut text, 1, 3, 2, b"ethanol")?;
    push_ok(&mut text, 2, 1, 0, b"")?;
    push_refused(&mut text, 3, 18446744073709551615, 9)?;
    push_records(&mut text, 3, 2, 1)?;
    assert_eq!(rt;
        text.as_slice(),
        b"ok 1 3 2 ethanol\nok 2 1 0\nrefused 3 18446744073709551615 9 BondType\nrecords 3 ok 2 refused 1\n".as_slice()
    );
    Ok(())
}

#[test]
fn lines_of_codes_are_appended(rt: HostRuntime) -> Result<(), Fail> {
    let mut text = Vec::new(rt.alloc());
    let carbon = Codes {
        words: [6, 65793, 65793, 65793, 65793],
    };
    let digits = Codes {
        words: [
            81985529216486895,
            18446744073709551615,
            0,
            9223372036854775808,
            11259375,
        ],
    };
    push_codes(&mut text, 1, &carbon)?;
    push_codes(&mut text, 999, &digits)?;
    assert_eq!(rt;
        text.as_slice(),
        b"1 0000000000000006 0000000000010101 0000000000010101 0000000000010101 0000000000010101\n999 0123456789abcdef ffffffffffffffff 0000000000000000 8000000000000000 0000000000abcdef\n".as_slice()
    );
    Ok(())
}
