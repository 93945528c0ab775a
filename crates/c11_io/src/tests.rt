ghost use Rattle.std.specs.Prelude.{◌≡◌, ◌<◌, ◌≤◌, ◌⊎◌, List, ℕ, length, IsOkUnless};
ghost use Rattle.c11_io.specs.Causes.{Rose};

use crate::*;
use std::alloc::{AllocError, Global};
use std::io::{self, Read, Write};
use std::test::Fail;

const DIGITS: &[u8] = b"0123456789";

fn digits(alloc: Global, per_read: usize, failing: &[u64]) -> Result<MemSource, AllocError> {
    Ok(MemSource::new(DIGITS.to_vec(alloc)?, per_read, failing.to_vec(alloc)?))
}

#[test]
fn a_text_is_read_whole_up_to_the_limit(rt: HostRuntime) -> Result<(), Fail> {
    let alloc = rt.alloc();
    for per_read in [0, 1, 3] {
        for limit in [10, 11, usize::MAX] {
            let bytes = read_all(alloc, &mut digits(alloc, per_read, &[])?, limit)?;
            assert_eq!(rt;
                bytes.as_slice(),
                DIGITS,
                "{per_read} a read, limit {limit}"
            );
        }
        for limit in [0, 8, 9] {
            let stop = read_all(alloc, &mut digits(alloc, per_read, &[])?, limit).err();
            assert_eq!(rt;
                stop,
                Some(ReadStop::TooLong),
                "{per_read} a read, limit {limit}"
            );
        }
    }
    Ok(())
}

/// What a caller can show: where no read fails, the length decides the answer, but for memory.
fn read_by_length<S: Source>(
    alloc: Global,
    source: &mut S,
    limit: usize,
) -> Result<Vec<u8>, ReadStop>
    ensures long { (left : List ℕ) → S.left source.old ≡ Some left → limit < length left
        → ¬ Rose (S.faults source.old) (S.faults source.new)
        → (result ≡ Err ReadStop.TooLong) ⊎ (result ≡ Err ReadStop.NoMemory) }
    ensures short { (left : List ℕ) → S.left source.old ≡ Some left → length left ≤ limit
        → ¬ Rose (S.faults source.old) (S.faults source.new)
        → IsOkUnless result ReadStop.NoMemory }
{
    read_all(alloc, source, limit)
}

#[test]
fn a_text_longer_than_one_read_is_whole(rt: HostRuntime) -> Result<(), Fail> {
    let alloc = rt.alloc();
    let text = vec![in alloc; b'x'; 10_000]?;
    let bytes = read_by_length(alloc, &mut SureSource::new(text.clone()?), 10_000)?;
    assert_eq!(rt; bytes.as_slice(), text.as_slice());
    let stop = read_by_length(alloc, &mut SureSource::new(text), 9_999).err();
    assert_eq!(rt; stop, Some(ReadStop::TooLong));
    Ok(())
}

#[test]
fn a_failing_read_is_a_fault(rt: HostRuntime) -> Result<(), Fail> {
    let alloc = rt.alloc();
    let mut source = digits(alloc, 4, &[2])?;
    let stop = read_all(alloc, &mut source, 10).err();
    assert_eq!(rt; stop, Some(ReadStop::Fault));
    // The read after it goes on where the last good one ended.
    let bytes = read_all(alloc, &mut source, 10)?;
    assert_eq!(rt; bytes.as_slice(), b"456789".as_slice());
    Ok(())
}

#[test]
fn a_memory_sink_takes_what_is_free(rt: HostRuntime) -> Result<(), Fail> {
    let alloc = rt.alloc();
    let mut sink = MemSink::new(alloc, 8, 3, Vec::new(alloc))?;
    let takes = [Ok(3), Ok(3), Ok(2), Err(Failed)];
    for take in takes {
        assert_eq!(rt; sink.write(DIGITS), take);
    }
    assert_eq!(rt; sink.taken(), b"01201201".as_slice());
    Ok(())
}

#[test]
fn a_writing_that_stops_leaves_a_prefix(rt: HostRuntime) -> Result<(), Fail> {
    let alloc = rt.alloc();
    let mut small = MemSink::new(alloc, 8, 3, Vec::new(alloc))?;
    assert_eq!(rt; write_all(&mut small, b""), Ok(()));
    assert_eq!(rt; write_all(&mut small, DIGITS), Err(WriteStop::Fault));
    assert_eq!(rt; small.taken(), b"01234567".as_slice());

    let text = vec![in alloc; b'x'; 100]?;
    let mut failing = MemSink::new(alloc, 100, 16, vec![in alloc; 3]?)?;
    assert_eq!(rt;
        write_all(&mut failing, text.as_slice()),
        Err(WriteStop::Fault)
    );
    assert_eq!(rt; failing.taken().len(), 32);

    assert_eq!(rt; write_all(&mut SureSink::new(), text.as_slice()), Ok(()));
    Ok(())
}

/// Gives five bytes, and then fails.
#[derive(Drop)]
struct Torn {
    reads: u8,
}

impl Read for Torn {
    fn read(&mut self, buf: &mut [u8]) -> io::Result<usize> {
        if self.reads == 1 || buf.len() < 5 {
            return Err(io::Error::from(io::ErrorKind::Other));
        }
        self.reads = 1;
        buf[..5].copy_from_slice(b"01234");
        Ok(5)
    }
}

#[test]
fn a_standard_reader_is_a_source(rt: HostRuntime) -> Result<(), Fail> {
    let alloc = rt.alloc();
    let bytes = read_all(alloc, &mut StdSource::new(DIGITS), 10)?;
    assert_eq!(rt; bytes.as_slice(), DIGITS);
    let stop = read_all(alloc, &mut StdSource::new(Torn { reads: 0 }), 10).err();
    assert_eq!(rt; stop, Some(ReadStop::Fault));
    Ok(())
}

/// Takes five bytes, then none, or fails.
#[derive(Drop)]
struct Stuck {
    writes: u8,
    fails: bool,
}

impl Write for Stuck {
    fn write(&mut self, buf: &[u8]) -> io::Result<usize> {
        if self.writes == 0 {
            self.writes = 1;
            return Ok(buf.len().min(5));
        }
        if self.fails {
            return Err(io::Error::from(io::ErrorKind::Other));
        }
        Ok(0)
    }

    fn flush(&mut self) -> io::Result<()> {
        Ok(())
    }
}

#[test]
fn a_standard_writer_is_a_sink(rt: HostRuntime) -> Result<(), Fail> {
    assert_eq!(rt; write_all(&mut StdSink::new(rt.stdout()), DIGITS), Ok(()));
    for fails in [false, true] {
        let mut sink = StdSink::new(Stuck { writes: 0, fails });
        assert_eq!(rt;
            write_all(&mut sink, DIGITS),
            Err(WriteStop::Fault),
            "fails: {fails}"
        );
    }
    Ok(())
}

#[test]
fn an_open_gate_returns() {
    OpenGate.pass(0, 0);
}

/// Fails its first call, and does its work at the next ones.
#[derive(Drop)]
struct Interrupted {
    calls: u8,
}

impl Read for Interrupted {
    fn read(&mut self, buf: &mut [u8]) -> io::Result<usize> {
        if self.calls == 0 {
            self.calls = 1;
            return Err(io::Error::from(io::ErrorKind::Interrupted));
        }
        Ok(0)
    }
}

impl Write for Interrupted {
    fn write(&mut self, buf: &[u8]) -> io::Result<usize> {
        if self.calls == 0 {
            self.calls = 1;
            return Err(io::Error::from(io::ErrorKind::Interrupted));
        }
        Ok(buf.len())
    }

    fn flush(&mut self) -> io::Result<()> {
        Ok(())
    }
}

#[test]
fn an_interrupted_call_is_a_fault_and_is_not_tried_again(rt: HostRuntime) {
    let alloc = rt.alloc();
    let stop = read_all(alloc, &mut StdSource::new(Interrupted { calls: 0 }), 10).err();
    assert_eq!(rt; stop, Some(ReadStop::Fault));
    let stop = write_all(&mut StdSink::new(Interrupted { calls: 0 }), DIGITS);
    assert_eq!(rt; stop, Err(WriteStop::Fault));
}
