// The fix of the protocol's own lines, fixes that differ from it in one number, and the edges of the calendar.
use fix::{Date, Fix, Position, Time, check as checked};
use messages::{Gga, Gll, Rmc, Sentence, Zda, write_message, write_time_utc};
use settings::Systems;
use std::process::Abort;
use std::test::Fail;

const POSITION: Position = Position {
    latitude: -17_999_925,
    longitude: 72_000_090,
    altitude: 6_277,
    speed: 9,
    course: 75_020,
    hdop: 121,
};

const FIX: Fix = Fix {
    date: Date {
        year: 2011,
        month: 7,
        day: 2,
    },
    time: Time {
        hour: 23,
        minute: 53,
        second: 16,
        ms: 0,
    },
    run_time: 258,
    time_accuracy: 0x3f80_0000,
    ms_error: 0x0403_0201,
    satellites: 6,
    position: Some(POSITION),
};

fn at(position: Position) -> Fix {
    Fix {
        position: Some(position),
        ..FIX
    }
}

fn written<S: Sentence>(fix: &Fix, systems: u8, out: &mut [u8; 82]) -> Result<usize, Fail> {
    let systems = Systems::new(systems).ok_or("no systems")?;
    let fix = checked(fix).ok().ok_or("no fix")?;
    Ok(
        write_message::<S>(&fix, systems, out)
            .ok()
            .ok_or("not written")?,
    )
}

// The output holds the line, CR and LF, and behind them what it held before.
fn says<S: Sentence>(rt: &impl Abort, fix: &Fix, systems: u8, line: &str) -> Result<(), Fail> {
    let mut out = [0xee; 82];
    let len = written::<S>(fix, systems, &mut out)?;
    let text = line.as_bytes();
    let size = text.len();
    assert!(rt; size <= 80);
    assert!(rt; len == size + 2);
    assert!(rt; &out[0..size] == text);
    assert!(rt; &out[size..size + 2] == b"\r\n".as_slice());
    for b in &out[size + 2..82] {
        assert!(rt; *b == 0xee);
    }
    Ok(())
}

#[test]
fn known_lines(rt: HostRuntime) -> Result<(), Fail> {
    let new_year = Fix {
        date: Date {
            year: 2016,
            month: 12,
            day: 31,
        },
        time: Time {
            hour: 23,
            minute: 54,
            second: 2,
            ms: 0,
        },
        ..FIX
    };
    says::<Gga>(
        &rt,
        &FIX,
        1,
        "$GPGGA,235316.000,2959.9925,S,12000.0090,E,1,06,1.21,62.77,M,0.00,M,,*7B",
    )?;
    says::<Gll>(
        &rt,
        &FIX,
        1,
        "$GPGLL,2959.9925,S,12000.0090,E,235316.000,A,A*4E",
    )?;
    says::<Rmc>(
        &rt,
        &FIX,
        1,
        "$GPRMC,235316.000,A,2959.9925,S,12000.0090,E,0.009,75.020,020711,,,A*45",
    )?;
    says::<Zda>(&rt, &FIX, 1, "$GPZDA,235316.000,02,07,2011,00,00*51")?;
    says::<Zda>(&rt, &new_year, 3, "$GNZDA,235402.000,31,12,2016,00,00*4E")
}

#[test]
fn positions(rt: HostRuntime) -> Result<(), Fail> {
    for (altitude, line) in [
        (
            -1,
            "$GPGGA,235316.000,2959.9925,S,12000.0090,E,1,06,1.21,-0.01,M,0.00,M,,*63",
        ),
        (
            -100,
            "$GPGGA,235316.000,2959.9925,S,12000.0090,E,1,06,1.21,-1.00,M,0.00,M,,*63",
        ),
    ] {
        says::<Gga>(
            &rt,
            &at(Position {
                altitude,
                ..POSITION
            }),
            1,
            line,
        )?;
    }
    for (latitude, longitude, line) in [
        (
            -1,
            72_000_090,
            "$GPGLL,0000.0001,S,12000.0090,E,235316.000,A,A*4F",
        ),
        (0, 0, "$GPGLL,0000.0000,N,00000.0000,E,235316.000,A,A*59"),
        (
            -17_999_925,
            108_000_000,
            "$GPGLL,2959.9925,S,18000.0000,E,235316.000,A,A*4D",
        ),
        (
            -17_999_925,
            -108_000_000,
            "$GPGLL,2959.9925,S,18000.0000,W,235316.000,A,A*5F",
        ),
    ] {
        says::<Gll>(
            &rt,
            &at(Position {
                latitude,
                longitude,
                ..POSITION
            }),
            1,
            line,
        )?;
    }
    Ok(())
}

#[test]
fn satellites(rt: HostRuntime) -> Result<(), Fail> {
    for (satellites, line) in [
        (
            0,
            "$GPGGA,235316.000,2959.9925,S,12000.0090,E,1,00,1.21,62.77,M,0.00,M,,*7D",
        ),
        (
            24,
            "$GPGGA,235316.000,2959.9925,S,12000.0090,E,1,24,1.21,62.77,M,0.00,M,,*7B",
        ),
    ] {
        says::<Gga>(&rt, &Fix { satellites, ..FIX }, 1, line)?;
    }
    Ok(())
}

#[test]
fn no_position(rt: HostRuntime) -> Result<(), Fail> {
    let fix = Fix {
        position: None,
        ..FIX
    };
    says::<Gga>(&rt, &fix, 1, "$GPGGA,235316.000,,,,,0,06,,,M,0.00,M,,*60")?;
    says::<Gll>(&rt, &fix, 1, "$GPGLL,,,,,235316.000,V,N*7A")?;
    says::<Rmc>(&rt, &fix, 1, "$GPRMC,235316.000,V,,,,,,,020711,,,N*48")?;
    says::<Zda>(&rt, &fix, 1, "$GPZDA,235316.000,02,07,2011,00,00*51")
}

#[test]
fn time_utc(rt: HostRuntime) -> Result<(), Fail> {
    let systems = Systems::new(4).ok_or("no systems")?;
    let fix = checked(&FIX).ok().ok_or("no fix")?;
    let mut out = [0xee; 35];
    let len = write_time_utc(&fix, systems, &mut out)
        .ok()
        .ok_or("not written")?;
    assert!(rt; len == 34);
    assert!(rt; out[34] == 0xee);
    assert!(rt;
        &out[0..34]
            == b"\xba\xce\x18\x00\x01\x10\x02\x01\x00\x00\x00\x00\x80\x3f\x01\x02\x03\x04\x00\x00\xdb\x07\x07\x02\x17\x35\x10\x07\x02\x03\x32\x0c\x78\x93".as_slice()
    );
    let mut short = [0xee; 33];
    let refusal = write_time_utc(&fix, systems, &mut short)
        .err()
        .ok_or("written")?;
    assert!(rt; refusal.number() == 13);
    Ok(())
}

// The number by which a fix is refused, or 0.
fn number(fix: &Fix) -> u8 {
    checked(fix).err().map_or(0, |refusal| refusal.number())
}

#[test]
fn dates(rt: HostRuntime) {
    for (year, month, day, refusal) in [
        (2000, 2, 29, 0),
        (2096, 2, 29, 0),
        (2001, 2, 29, 4),
        (2099, 2, 29, 4),
        (1999, 1, 1, 0),
        (2099, 12, 31, 0),
        (1998, 12, 31, 4),
        (2100, 1, 1, 4),
    ] {
        let date = Date { year, month, day };
        assert!(rt; number(&Fix { date, ..FIX }) == refusal);
    }
}

#[test]
fn date_before_range(rt: HostRuntime) {
    let far = Fix {
        satellites: 25,
        ..FIX
    };
    let both = Fix {
        time: Time {
            hour: 24,
            ..FIX.time
        },
        ..far
    };
    assert!(rt; number(&far) == 5);
    assert!(rt; number(&both) == 4);
}
