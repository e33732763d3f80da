//! A text with its complaints, counted by hand, and bytes in hexadecimal.
use case_files::{CaseFault, Subject, Words, hex_bytes, push_hex, run_text};
use std::alloc::Global;
use std::test::Fail;

/// The sum of numbers.
#[derive(Drop)]
struct Sum(u64);

impl Subject for Sum {
    fn begin(&mut self, _alloc: Global) -> Result<(), CaseFault> {
        self.0 = 0;
        Ok(())
    }

    fn step(&mut self, alloc: Global, words: &mut Words<'_>) -> Result<(), CaseFault> {
        let _add = words.next_as("verb")?;
        let by = words
            .number::<u64>(alloc, "by")?
            .ok_or(CaseFault::Missing("by"))?;
        let twice = words.flag("twice");
        self.0 = self
            .0
            .saturating_add(if twice { by.saturating_mul(2) } else { by });
        Ok(())
    }

    fn fact(&self, alloc: Global, name: &str) -> Result<Option<String>, CaseFault> {
        match name {
            "sum" => Ok(Some(format!(in alloc; "sum {}", self.0)?)),
            _ => Ok(None),
        }
    }
}

const TEXT: &str =
    "# a file\n  sum 0\nadd by=1\n  sum 1\n\nadd twice by=2\n  sum 5\nadd by=1 by=1\n  sum 6\nadd by=x\n   sum\nadd by=1\nadd by=2\n  product 9\n";

const REPORT: &str =
    "a:2: expected behind no step\na:8: unknown or repeated word `by=1`\na:10: `x` is not in form\na:11: blanks out of place\na:12: nothing expected behind the step\na:14: the step has no fact `product`\na: 6 steps, 2 lines compared, 6 complaints\n";

#[test]
fn complains_with_file_and_line(rt: HostRuntime) -> Result<(), Fail> {
    let report = run_text(rt.alloc(), &mut Sum(7), "a", TEXT)?;
    assert!(rt; !report.is_clean());
    assert_eq!(rt; report.text(rt.alloc())?.as_str(), REPORT);
    Ok(())
}

#[test]
fn bytes_in_hexadecimal(rt: HostRuntime) -> Result<(), Fail> {
    let bytes = hex_bytes(rt.alloc(), "00ff1a")?;
    assert_eq!(rt; bytes.as_slice(), [0, 255, 26].as_slice());
    assert!(rt; hex_bytes(rt.alloc(), "0").is_err());
    assert!(rt; hex_bytes(rt.alloc(), "0G").is_err());
    let mut line = String::new(rt.alloc());
    push_hex(&mut line, bytes.as_slice())?;
    assert_eq!(rt; line.as_str(), "00ff1a");
    Ok(())
}
