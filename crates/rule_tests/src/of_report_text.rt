//! Each kind of line, letter by letter.
use crate::first_line::first_line;
use bson_doc::Rows;
use host_name::Host;
use report_text::{ignored_line, last_line, line};
use std::alloc::Global;
use std::test::Fail;
use write_retry::Outcome;

/// The hosts a.example:27017 and [::1]:27018.
fn two_hosts(alloc: Global) -> Result<Rows<Host>, Fail> {
    let mut names = Rows::new(alloc);
    names.push(Host::parse(alloc, "A.example")?)?;
    names.push(Host::parse(alloc, "[::1]:27018")?)?;
    Ok(names)
}

#[test]
fn lines_of_outcomes(rt: HostRuntime) -> Result<(), Fail> {
    let alloc = rt.alloc();
    let names = two_hosts(alloc)?;
    let rows = [
        (
            Outcome::Ok { n: 1, modified: 0 },
            "1: ok n=1 modified=0 attempts=1\n",
        ),
        (
            Outcome::Ok {
                n: i64::MIN,
                modified: i64::MAX,
            },
            "1: ok n=-9223372036854775808 modified=9223372036854775807 attempts=1\n",
        ),
        (Outcome::Error { code: -1 }, "1: error -1 attempts=1\n"),
        (Outcome::Network, "1: network attempts=1\n"),
        (Outcome::Late, "1: late attempts=1\n"),
        (Outcome::BadReply { at: 8 }, "1: bad-reply 8 attempts=1\n"),
        (
            Outcome::WriteErrors {
                count: 2,
                first: 11000,
            },
            "1: write-errors 2 first=11000 attempts=1\n",
        ),
        (Outcome::Concern { code: 64 }, "1: concern 64 attempts=1\n"),
        (Outcome::NoServer, "1: no-server attempts=1\n"),
        (
            Outcome::Incompatible {
                host: 1,
                min: 0,
                max: 12,
            },
            "1: incompatible [::1]:27018 0 12 attempts=1\n",
        ),
        (Outcome::PoolTimeout, "1: pool-timeout attempts=1\n"),
        (
            Outcome::PoolCleared { generation: 7 },
            "1: pool-cleared 7 attempts=1\n",
        ),
        (
            Outcome::PoolClosed { host: 0 },
            "1: pool-closed a.example:27017 attempts=1\n",
        ),
        (
            Outcome::TooLarge {
                size: 24_888_903,
                most: 16_777_216,
            },
            "1: too-large 24888903 16777216 attempts=1\n",
        ),
    ];
    for (outcome, wanted) in &rows {
        assert_eq!(rt; first_line(alloc, outcome, &names)?.as_str(), *wanted);
    }
    Ok(())
}

#[test]
fn an_ignored_option(rt: HostRuntime) -> Result<(), Fail> {
    let line = ignored_line(rt.alloc(), "w")?;
    assert_eq!(rt; line.as_str(), "ignored w\n");
    Ok(())
}

#[test]
fn numbers_of_commands_and_attempts(rt: HostRuntime) -> Result<(), Fail> {
    let alloc = rt.alloc();
    let last = line(alloc, u32::MAX, &Outcome::Late, 0, &Rows::new(alloc))?;
    assert_eq!(rt; last.as_str(), "4294967295: late attempts=0\n");
    let tried = line(alloc, 10, &Outcome::Network, 2, &Rows::new(alloc))?;
    assert_eq!(rt; tried.as_str(), "10: network attempts=2\n");
    Ok(())
}

#[test]
fn the_last_line_counts(rt: HostRuntime) -> Result<(), Fail> {
    let alloc = rt.alloc();
    assert_eq!(rt; last_line(alloc, 0, 0)?.as_str(), "done 0 ok 0\n");
    assert_eq!(rt;
        last_line(alloc, 100_000, 99_999)?.as_str(),
        "done 100000 ok 99999\n"
    );
    Ok(())
}
