//! Calls that may want memory do not with ample memory.
use conn_uri::{distinct, parse};
use std::test::Fail;

/// A string is read, and its settings are copied.
#[test]
fn a_string_is_read(rt: HostRuntime) -> Result<(), Fail> {
    let settings = parse(rt.alloc(), "mongodb://h:1,H:1/d?maxPoolSize=5")?;
    let copy = settings.copy(rt.alloc())?;
    assert_eq!(rt; copy.max_pool, 5);
    Ok(())
}

/// Hosts are kept once, where they come first.
#[test]
fn hosts_are_kept_once(rt: HostRuntime) -> Result<(), Fail> {
    let settings = parse(rt.alloc(), "mongodb://a,b,A")?;
    let hosts = distinct(rt.alloc(), settings.hosts.as_slice())?;
    assert_eq!(rt; hosts.len(), 2);
    Ok(())
}
