//! Texts, and the host or the first fault that each is read as.
use host_name::{Host, HostFault};
use std::test::Fail;

/// Names and ports (Connection String, Host Information), worked out by hand.
static HOSTS: [(&str, &str, u16); 22] = [
    ("a", "a", 27017),
    ("DB1:1", "db1", 1),
    ("db1.example:27017", "db1.example", 27017),
    ("DB2.Example", "db2.example", 27017),
    ("AZaz09@`{-_.:2", "azaz09@`{-_.", 2),
    ("\u{c4}\u{212a}B:3", "\u{c4}\u{212a}b", 3),
    ("127.0.0.1:65535", "127.0.0.1", 65535),
    ("h:00001", "h", 1),
    ("h:08080", "h", 8080),
    ("h:9", "h", 9),
    (" h :10", " h ", 10),
    ("[::1]", "[::1]", 27017),
    ("[::1]:1", "[::1]", 1),
    ("[FE80::A%eth0]:27018", "[fe80::a%eth0]", 27018),
    ("[x]", "[x]", 27017),
    ("[[]", "[[]", 27017),
    ("[a[b]:7", "[a[b]", 7),
    ("A[B]", "a[b]", 27017),
    ("a[b:c]:8", "a[b:c]", 8),
    ("a]", "a]", 27017),
    ("]:5", "]", 5),
    ("/tmp/mongodb-27017.sock", "/tmp/mongodb-27017.sock", 27017),
];

/// Texts that are no hosts, each with the first of its faults, worked out by hand.
static FAULTS: [(&str, HostFault); 34] = [
    ("[::1", HostFault::Bracket),
    ("[::1]x", HostFault::Bracket),
    ("[", HostFault::Bracket),
    ("a[b", HostFault::Bracket),
    ("a[b]c", HostFault::Bracket),
    ("[]x", HostFault::Bracket),
    ("[]x:0", HostFault::Bracket),
    ("[[a]]", HostFault::Bracket),
    ("[a]]:1", HostFault::Bracket),
    ("[:0", HostFault::Bracket),
    ("[a] :1", HostFault::Bracket),
    ("", HostFault::Empty),
    (":1", HostFault::Empty),
    (":", HostFault::Empty),
    ("::1", HostFault::Empty),
    (":0", HostFault::Empty),
    (":[", HostFault::Empty),
    ("[]", HostFault::Empty),
    ("[]:1", HostFault::Empty),
    ("[]:0", HostFault::Empty),
    ("a[]:1", HostFault::Empty),
    ("a:", HostFault::Port),
    ("a:1:2", HostFault::Port),
    ("[a]:", HostFault::Port),
    ("[a]:1:2", HostFault::Port),
    ("a:0", HostFault::Port),
    ("a:00000", HostFault::Port),
    ("a:65536", HostFault::Port),
    ("a:70000", HostFault::Port),
    ("a:000001", HostFault::Port),
    ("a:+1", HostFault::Port),
    ("a:1x", HostFault::Port),
    ("a: 1", HostFault::Port),
    ("a:[", HostFault::Port),
];

/// Each text that spells a host is read as that host.
#[test]
fn reads_hosts(rt: HostRuntime) -> Result<(), Fail> {
    for (text, name, port) in HOSTS {
        let host = Host::parse(rt.alloc(), text)?;
        assert_eq!(rt; host.name(), name, "in {text}");
        assert_eq!(rt; host.port(), port, "in {text}");
    }
    Ok(())
}

/// Each other text is refused by its first fault.
#[test]
fn refuses_other_texts(rt: HostRuntime) {
    for (text, fault) in FAULTS {
        match Host::parse(rt.alloc(), text) {
            Ok(_) => assert!(rt; false, "{text} is read"),
            Err(found) => assert_eq!(rt; found, fault, "in {text}"),
        }
    }
}

/// A host is shown with its port, and a copy is equal to it.
#[test]
fn shows_and_copies(rt: HostRuntime) -> Result<(), Fail> {
    let host = Host::parse(rt.alloc(), "[::A]")?;
    let shown = format!(in rt.alloc(); "{host}")?;
    assert_eq!(rt; shown.as_str(), "[::a]:27017");
    let text = host.text(rt.alloc())?;
    assert_eq!(rt; text.as_str(), "[::a]:27017");
    let copy = host.copy(rt.alloc())?;
    assert!(rt; copy == host);
    Ok(())
}

/// Hosts in their order: by bytes of names, of which a front comes first, and then by the port's number.
static IN_ORDER: [&str; 6] = ["[::1]:1", "a:900", "a:1000", "a.b:1", "ab:1", "b:1"];

/// Each host equals itself alone and stands before those behind it.
#[test]
fn stand_in_order(rt: HostRuntime) -> Result<(), Fail> {
    for (place, text) in IN_ORDER.iter().enumerate() {
        for (other_place, other_text) in IN_ORDER.iter().enumerate() {
            let host = Host::parse(rt.alloc(), text)?;
            let other = Host::parse(rt.alloc(), other_text)?;
            assert_eq!(rt; host.cmp(&other), place.cmp(&other_place));
            assert_eq!(rt; host == other, place == other_place);
            assert_eq!(rt; host < other, place < other_place);
        }
    }
    Ok(())
}
