//! Runs that ask for much, with ample memory: as many rounds as a trace may have, and blocks of a mebibyte and more.

use crate::test_runs::{report_of, text_of};
use hm_fakes::PlainMaker;
use hm_outside::NoGate;
use std::alloc::{AllocError, Global};
use std::fmt::Write;
use std::sync::Wait;
use std::test::Fail;
use std::thread::Threads;

// A trace of 1,024 rounds of one step, and its report.
fn most_rounds(alloc: Global) -> Result<(String, String), AllocError> {
    let mut text = String::new(alloc);
    let mut report = String::new(alloc);
    text.push_str("hmtrace 1\n")?;
    for round in 1..1025 {
        write!(text, "round\nthread 1\nmalloc r{round} 100\n")?;
        write!(report, "{round}.1.1 given 104\n")?;
    }
    text.push_str("end\n")?;
    Ok((text, report))
}

#[test]
fn as_many_rounds_as_may_be(rt: HostRuntime) -> Result<(), Fail> {
    let alloc = rt.alloc();
    let (text, report) = most_rounds(alloc)?;
    let (status, written) = report_of(&rt, alloc, &text, &mut PlainMaker, &NoGate)?;
    assert_eq!(rt; status, 0);
    assert_eq!(rt; written.as_slice(), report.as_bytes());
    Ok(())
}

#[test]
fn great_blocks(rt: HostRuntime) -> Result<(), Fail> {
    let alloc = rt.alloc();
    let steps =
        "malloc y 1048576\nwrite y 1048576 41\nrealloc z y 2000000\nread z 1048576\nread z+1048570 12\nfree z\n";
    let text = text_of(alloc, steps)?;
    let (status, written) = report_of(&rt, alloc, &text, &mut PlainMaker, &NoGate)?;
    assert_eq!(rt; status, 0);
    assert_eq!(rt;
        written.as_slice(),
        b"1.1.1 given 1048576\n1.1.2 written\n1.1.3 given 2097152\n1.1.4 bytes 41*1048576\n\
            1.1.5 bytes 41*6 00*6\n1.1.6 freed\n"
            .as_slice()
    );
    Ok(())
}
