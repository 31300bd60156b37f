//! Tests [`run`] on the runs of [`rows`], and with a writer that fails.

mod rows;

use crate::program::run;
use crate::tests::rows::{ANSWERS, EDITS, REFUSALS};
use std::alloc::Global;
use std::io;
use std::io::Write;
use std::process::Abort;
use std::test::Fail;

// A writer that takes at most seven bytes at a time. Its call number `failing_call` fails.
#[derive(Drop)]
struct Recorder {
    failing_call: u32,
    calls: u32,
    text: Vec<u8>,
    is_flushed: bool,
}

impl Recorder {
    fn call(&mut self) -> io::Result<()> {
        self.calls = self.calls.wrapping_add(1);
        if self.calls == self.failing_call {
            return Err(io::Error::from(io::ErrorKind::BrokenPipe));
        }
        Ok(())
    }
}

impl Write for Recorder {
    fn write(&mut self, bytes: &[u8]) -> io::Result<usize> {
        self.call()?;
        let count = bytes.len().min(7);
        self.text.extend_from_slice(&bytes[..count])?;
        self.is_flushed = false;
        Ok(count)
    }

    fn flush(&mut self) -> io::Result<()> {
        self.call()?;
        self.is_flushed = true;
        Ok(())
    }
}

// Runs the program with a writer whose call number `failing_call` fails. Returns the status and the writer.
fn run_with(alloc: Global, args: &[&str], failing_call: u32) -> Result<(u8, Recorder), Fail> {
    let mut owned = Vec::new(alloc);
    for text in args {
        owned.push(text.to_string(alloc)?)?;
    }
    let (calls, text, is_flushed) = (0, Vec::new(alloc), false);
    let mut out = Recorder {
        failing_call,
        calls,
        text,
        is_flushed,
    };
    Ok((run(owned.as_slice(), &mut out), out))
}

// Checks that a run prints and flushes the text, and ends with the status. Then checks that a call that fails is the last
// one, and that the status is 3. The last call of a run is the flush.
fn check<R: Abort + AllocGlobal>(
    rt: &R,
    args: &[&str],
    text: &str,
    status: u8,
) -> Result<(), Fail> {
    let (got, out) = run_with(rt.alloc(), args, 0)?;
    assert_eq!(rt; str::from_utf8(out.text.as_slice()), Ok(text), "{args:?}");
    assert!(rt; got == status && out.is_flushed, "{args:?}: status {got}");
    for failing_call in 1..=out.calls {
        let (got, out) = run_with(rt.alloc(), args, failing_call)?;
        let is_last = out.calls == failing_call;
        assert!(rt; got == 3 && is_last, "{args:?} at call {failing_call}");
    }
    Ok(())
}

#[test]
fn each_row_is_printed_with_its_status(rt: HostRuntime) -> Result<(), Fail> {
    for (args, text, status) in ANSWERS.iter().chain(&REFUSALS) {
        check(&rt, args, text, *status)?;
    }
    for (setting, bits) in &EDITS {
        let text = format!(in rt.alloc(); "{:#034X}\n", 1_u128 << 44 | *bits)?;
        check(&rt, &["edit", "0x100000000000", setting], text.as_str(), 0)?;
    }
    Ok(())
}

#[test]
fn at_most_64_edits_are_taken(rt: HostRuntime) -> Result<(), Fail> {
    let mut args = ["radix=16"; 66];
    args[0] = "edit";
    args[1] = "0x00000A0000000000000000000000000C";
    check(&rt, &args, "0x0A0A100000000000000000000000000C\n", 0)?;
    // A 65th edit is refused before the word and the edits are read.
    let mut args = ["radix=1"; 67];
    args[0] = "edit";
    args[1] = "0x";
    check(&rt, &args, "numfmt: too many edits\n", 2)
}
