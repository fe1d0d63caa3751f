//! Runs over devices that give or take little at a time, and that fail.
ghost use Rattle.std.specs.Prelude.{None};

use clr_office::{DeviceFault, Disposal, Page, Port, RunFault, Sink, Source, Text, run_office};
use std::io::{self, Write};
use std::test::Fail;

const INPUT: &str = "{\"format\":1,\"tables\":[],\"live\":[]}\n---\nshow,LIVE\n";

const LINES: &[u8] = b"rows 0\n";

/// A source that gives a byte at a time. One read fails, and the reads after it go on.
#[derive(Drop)]
struct Drip<'a> {
    rest: &'a [u8],
    reads_before_fault: usize,
    failed: bool,
}

impl Source for Drip<'_> {
    ghost remaining = { λ _. None };

    ghost failed = { λ drip. drip.failed };

    fn read_some(&mut self, buffer: &mut [u8]) -> Result<usize, DeviceFault> {
        if self.reads_before_fault == 0 && !self.failed {
            self.failed = true;
            return Err(DeviceFault);
        }
        self.reads_before_fault = self.reads_before_fault.saturating_sub(1);
        let Some((first, rest)) = self.rest.split_first() else {
            return Ok(0);
        };
        buffer[0] = *first;
        self.rest = rest;
        Ok(1)
    }
}

/// A page whose first puts go well, and the next fails.
#[derive(Drop)]
struct Jam {
    page: Page,
    puts_before_fault: usize,
    failed: bool,
}

impl Sink for Jam {
    ghost contents = { λ _. None };

    ghost failed = { λ jam. jam.failed };

    fn put(&mut self, bytes: &[u8]) -> Result<(), DeviceFault> {
        if self.puts_before_fault == 0 || self.page.put(bytes).is_err() {
            self.failed = true;
            return Err(DeviceFault);
        }
        self.puts_before_fault -= 1;
        Ok(())
    }
}

#[test]
fn runs_over_memory(rt: HostRuntime) -> Result<(), Fail> {
    let mut page = Page::new(rt.alloc(), LINES.len())?;
    let status = run_office(
        rt.alloc(),
        Disposal::Drop,
        &mut Text::new(INPUT.as_bytes()),
        &mut page,
    );
    assert_eq!(rt; status, Ok(0));
    assert_eq!(rt; page.as_slice(), LINES);
    let again = run_office(
        rt.alloc(),
        Disposal::Drop,
        &mut Text::new(INPUT.as_bytes()),
        &mut page,
    );
    assert_eq!(rt; again, Err(RunFault::WriteFailed));
    Ok(())
}

#[test]
fn writes_nothing_for_a_fault(rt: HostRuntime) -> Result<(), Fail> {
    let mut page = Page::new(rt.alloc(), LINES.len())?;
    let status = run_office(
        rt.alloc(),
        Disposal::Drop,
        &mut Text::new(b"{}\n"),
        &mut page,
    );
    assert_eq!(rt; status, Err(RunFault::NoSeparator));
    assert_eq!(rt; page.as_slice().len(), 0);
    Ok(())
}

#[test]
fn a_failed_read_is_not_tried_again(rt: HostRuntime) -> Result<(), Fail> {
    for reads_before_fault in 0..INPUT.len() + 2 {
        let mut page = Page::new(rt.alloc(), LINES.len())?;
        let mut drip = Drip {
            rest: INPUT.as_bytes(),
            reads_before_fault,
            failed: false,
        };
        let status = run_office(rt.alloc(), Disposal::Drop, &mut drip, &mut page);
        if reads_before_fault <= INPUT.len() {
            assert_eq!(rt; status, Err(RunFault::ReadFailed));
            assert_eq!(rt; page.as_slice().len(), 0);
        } else {
            assert_eq!(rt; status, Ok(0));
            assert_eq!(rt; page.as_slice(), LINES);
        }
    }
    Ok(())
}

#[test]
fn all_lines_go_out_in_one_put(rt: HostRuntime) -> Result<(), Fail> {
    for puts_before_fault in 0..2 {
        let mut jam = Jam {
            page: Page::new(rt.alloc(), LINES.len())?,
            puts_before_fault,
            failed: false,
        };
        let status = run_office(
            rt.alloc(),
            Disposal::Drop,
            &mut Text::new(INPUT.as_bytes()),
            &mut jam,
        );
        if puts_before_fault == 0 {
            assert_eq!(rt; status, Err(RunFault::WriteFailed));
        } else {
            assert_eq!(rt; status, Ok(0));
            assert_eq!(rt; jam.puts_before_fault, 0);
            assert_eq!(rt; jam.page.as_slice(), LINES);
        }
    }
    Ok(())
}

#[test]
fn ports_pass_on_what_memory_tells(rt: HostRuntime) -> Result<(), Fail> {
    let mut lines = Vec::new(rt.alloc());
    let mut reader = Port::new(INPUT.as_bytes());
    let status = run_office(
        rt.alloc(),
        Disposal::Leak,
        &mut reader,
        &mut Port::new(&mut lines),
    );
    assert_eq!(rt; status, Ok(0));
    assert_eq!(rt; lines.as_slice(), LINES);
    Ok(())
}

/// A writer that takes all that is written, and can't flush it.
#[derive(Drop)]
struct Clogged {
    taken: Vec<u8>,
}

impl Write for Clogged {
    fn write(&mut self, bytes: &[u8]) -> io::Result<usize> {
        self.taken.extend_from_slice(bytes)?;
        Ok(bytes.len())
    }

    fn flush(&mut self) -> io::Result<()> {
        Err(io::Error::from(io::ErrorKind::BrokenPipe))
    }
}

#[test]
fn a_failed_flush_is_a_failed_write(rt: HostRuntime) -> Result<(), Fail> {
    let mut port = Port::new(Clogged {
        taken: Vec::new(rt.alloc()),
    });
    let status = run_office(
        rt.alloc(),
        Disposal::Drop,
        &mut Text::new(INPUT.as_bytes()),
        &mut port,
    );
    assert_eq!(rt; status, Err(RunFault::WriteFailed));
    assert_eq!(rt; RunFault::WriteFailed.status(), 2);
    Ok(())
}
