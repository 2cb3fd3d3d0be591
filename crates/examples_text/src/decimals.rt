use decimal_lengths::Decimal::{BadByte, Empty, NoDigit, TooFar, TooLong};
use decimal_lengths::{Decimal, read_um, write_um};

static READ: [(&[u8], Result<i64, Decimal>); 64] = [
    (b"1.0005", Ok(1001)),
    (b"-1.0005", Ok(-1001)),
    (b"5e-4", Ok(1)),
    (b"4.9e-4", Ok(0)),
    (b".5", Ok(500)),
    (b"10000.0004", Ok(10_000_000)),
    (b"10000.0005", Err(TooFar)),
    (b"-", Err(NoDigit)),
    (b"1,5", Err(BadByte(1))),
    (b"e5", Err(BadByte(0))),
    // ties, and digits far behind them
    (b"0.0005", Ok(1)),
    (b"-0.0005", Ok(-1)),
    (b"0.0015", Ok(2)),
    (b"0.0025", Ok(3)),
    (b"-0.0025", Ok(-3)),
    (b"+2.5e-3", Ok(3)),
    (b"1.00049999", Ok(1000)),
    (b"0.00049999999999999999999999999999", Ok(0)),
    (b"0.00050000000000000000000000000001", Ok(1)),
    (b"10000.00049999999999999999999999", Ok(10_000_000)),
    // the greatest size
    (b"10000", Ok(10_000_000)),
    (b"-10000", Ok(-10_000_000)),
    (b"-10000.0005", Err(TooFar)),
    (b"1e4", Ok(10_000_000)),
    (b"1e5", Err(TooFar)),
    (b"-99999", Err(TooFar)),
    // signs and points
    (b"0", Ok(0)),
    (b"-0", Ok(0)),
    (b"+7", Ok(7000)),
    (b"1.", Ok(1000)),
    (b"-1.", Ok(-1000)),
    (b"1.e3", Ok(1_000_000)),
    (b"-.5e1", Ok(-5000)),
    (b"007.250", Ok(7250)),
    // exponents
    (b"2.000000e+01", Ok(20_000)),
    (b"1E3", Ok(1_000_000)),
    (b"1e-3", Ok(1)),
    (b"1e-4", Ok(0)),
    (b"0.0e-5", Ok(0)),
    (b"1e0004", Ok(10_000_000)),
    (b"1e1000", Err(TooFar)),
    (b"1e99999999999", Err(TooFar)),
    (b"0e99999999999", Ok(0)),
    (b"-1e-99999999999", Ok(0)),
    (b"100000000000000000000e-19", Ok(10_000)),
    (b"0.00000000000000000001e21", Ok(10_000)),
    // 60 digits, 64 bytes
    (
        b"123456789012345678901234567890123456789012345678901234567890e-57",
        Ok(123_457),
    ),
    // no decimal
    (b"", Err(Empty)),
    (&[b'0'; 64], Ok(0)),
    (&[b'0'; 65], Err(TooLong)),
    (&[b'x'; 65], Err(TooLong)),
    (b".", Err(NoDigit)),
    (b"+.", Err(NoDigit)),
    (b"1e", Err(NoDigit)),
    (b"1.5E-", Err(NoDigit)),
    (b" 1", Err(BadByte(0))),
    (b"1\n", Err(BadByte(1))),
    (b"nan", Err(BadByte(0))),
    (b"+-1", Err(BadByte(1))),
    (b".e5", Err(BadByte(1))),
    (b"1.2.3", Err(BadByte(3))),
    (b"1e+-5", Err(BadByte(3))),
    (b"1e5e", Err(BadByte(3))),
    (b"1e5.", Err(BadByte(3))),
];

static WRITTEN: [(i64, &[u8]); 13] = [
    (1001, b"1.001"),
    (-500, b"-0.5"),
    (20_000, b"20"),
    (0, b"0"),
    (1, b"0.001"),
    (-10, b"-0.01"),
    (100, b"0.1"),
    (1010, b"1.01"),
    (1200, b"1.2"),
    (10_000_000, b"10000"),
    (-9_999_999, b"-9999.999"),
    (i64::MAX, b"9223372036854775.807"),
    (i64::MIN, b"-9223372036854775.808"),
];

#[test]
fn lengths_are_read_and_written(rt: HostRuntime) {
    for (bytes, want) in &READ {
        assert_eq!(rt; read_um(bytes), *want);
    }
    for (um, want) in &WRITTEN {
        let mut to = [b' '; 24];
        let len = write_um(*um, &mut to);
        assert_eq!(rt; &to[..len], *want);
    }
}
