//! Streams as callers meet them: which call fails, and what was read or taken until then.
use gh_io::{
    Failed, MemSink, MemSource, ReadError, Sink, Source, StdSink, StdSource, read_up_to, write_all,
};
use std::alloc::{AllocError, Global};
use std::io::{Error, ErrorKind, Read, Write};
use std::test::Fail;

// A script of 114 bytes is read by two calls, the second of which answers 0.
#[test]
fn reads_up_to_the_end_the_limit_or_a_fault(rt: HostRuntime) -> Result<(), Fail> {
    let alloc = rt.alloc();
    let text = vec![in alloc; b'x'; 114]?;
    let long = vec![in alloc; b'y'; 10000]?;
    // bytes, failing calls, limit; how many were read, or none at a fault; faults
    let cases: [(&[u8], &[u64], usize, Result<usize, ReadError>, u64); 6] = [
        (text.as_slice(), &[], 200, Ok(114), 0),
        (text.as_slice(), &[1], 200, Err(ReadError::Failed), 1),
        (text.as_slice(), &[2], 200, Err(ReadError::Failed), 1),
        (text.as_slice(), &[2], 114, Ok(114), 0),
        // a read asks for 4096 bytes, so two read twice as many, and no more
        (long.as_slice(), &[3], 8192, Ok(8192), 0),
        (long.as_slice(), &[3], 8193, Err(ReadError::Failed), 1),
    ];
    for (bytes, fails, limit, want, faults) in cases {
        let mut source = MemSource::new(alloc, bytes, fails)?;
        let found = read_up_to(alloc, &mut source, limit).map(|read| read.len());
        assert_eq!(rt; (found, source.faults()), (want, faults), "limit {limit}");
    }
    Ok(())
}

#[test]
fn takes_pieces_up_to_the_room_or_a_fault(rt: HostRuntime) -> Result<(), Fail> {
    // room, failing calls; whether both pieces were taken, bytes taken, faults
    let cases: [(usize, &[u64], bool, &[u8], u64); 4] = [
        (100, &[], true, b"first line\nsecond line\n", 0),
        (100, &[2], false, b"first line\n", 1),
        (20, &[], false, b"first line\nsecond li", 1),
        (0, &[], false, b"", 1),
    ];
    for (room, fails, both, bytes, faults) in cases {
        let mut sink = MemSink::new(rt.alloc(), room, fails)?;
        let taken = write_all(&mut sink, b"first line\n").is_ok()
            && write_all(&mut sink, b"second line\n").is_ok();
        assert_eq!(rt; (taken, sink.faults()), (both, faults), "room {room}");
        assert_eq!(rt; sink.bytes(), bytes, "room {room}");
    }
    Ok(())
}

// A reader that is interrupted, gives a byte, and then fails.
#[derive(Drop)]
struct Broken(u8);

impl Read for Broken {
    fn read(&mut self, buf: &mut [u8]) -> std::io::Result<usize> {
        self.0 = self.0.saturating_add(1);
        match (self.0, buf) {
            (1, _) => Err(Error::from(ErrorKind::Interrupted)),
            (2, [first, ..]) => {
                *first = b'!';
                Ok(1)
            }
            _ => Err(Error::from(ErrorKind::BrokenPipe)),
        }
    }
}

// A writer that is interrupted, takes two bytes, and then takes none.
#[derive(Drop)]
struct Full(u8);

impl Write for Full {
    fn write(&mut self, buf: &[u8]) -> std::io::Result<usize> {
        self.0 = self.0.saturating_add(1);
        match self.0 {
            1 => Err(Error::from(ErrorKind::Interrupted)),
            2 => Ok(buf.len().min(2)),
            _ => Ok(0),
        }
    }

    fn flush(&mut self) -> std::io::Result<()> {
        Ok(())
    }
}

#[test]
fn standard_streams_count_their_faults(rt: HostRuntime) -> Result<(), Fail> {
    let mut source = StdSource::new(Broken(0));
    let mut buf = [0; 4];
    assert_eq!(rt; source.read(&mut buf), Ok(1));
    assert_eq!(rt; source.read(&mut buf), Err(Failed));
    assert_eq!(rt; (source.faults(), buf.first()), (1, Some(&b'!')));
    let mut sink = StdSink::new(rt.alloc(), Full(0))?;
    assert_eq!(rt; write_all(&mut sink, b"one"), Ok(()));
    assert_eq!(rt; (sink.flush(), sink.faults()), (Err(Failed), 1));
    assert_eq!(rt; write_all(&mut sink, b"two"), Err(Failed));
    assert_eq!(rt; (sink.faults(), write_all(&mut sink, b"")), (2, Ok(())));
    let mut out = StdSink::new(rt.alloc(), rt.stdout())?;
    assert_eq!(rt;
        write_all(&mut out, b"written to standard output\n"),
        Ok(())
    );
    assert_eq!(rt; out.flush(), Ok(()));
    let mut input = StdSource::new(rt.stdin());
    assert_eq!(rt; input.read(&mut []), Ok(0));
    Ok(())
}

// A writer that keeps what it takes, at most so much a call, and fails from a call on.
#[derive(Drop)]
struct Pipe {
    bytes: Vec<u8>,
    most: usize,
    fails: u64,
    calls: u64,
}

impl Write for Pipe {
    fn write(&mut self, buf: &[u8]) -> std::io::Result<usize> {
        self.calls = self.calls.saturating_add(1);
        if self.calls >= self.fails {
            return Err(Error::from(ErrorKind::BrokenPipe));
        }
        let part = &buf[..buf.len().min(self.most)];
        match self.bytes.extend_from_slice(part) {
            Ok(()) => Ok(part.len()),
            Err(_) => Err(Error::from(ErrorKind::OutOfMemory)),
        }
    }

    fn flush(&mut self) -> std::io::Result<()> {
        Ok(())
    }
}

// Writes the text in pieces of this size: how many of its bytes were taken, and whether the flush was no fault.
fn written(
    alloc: Global,
    pipe: &mut Pipe,
    text: &[u8],
    size: usize,
) -> Result<(usize, bool), AllocError> {
    let mut sink = StdSink::new(alloc, pipe)?;
    let mut taken: usize = 0;
    for piece in text.chunks(size.max(1)) {
        if write_all(&mut sink, piece).is_ok() {
            taken = taken.saturating_add(piece.len());
        }
    }
    let flushed = sink.flush().is_ok();
    Ok((taken, flushed))
}

// Up to 65536 bytes go out in one call. After a fault there is one more, when the sink is dropped.
#[test]
fn standard_output_is_gathered(rt: HostRuntime) -> Result<(), Fail> {
    let alloc = rt.alloc();
    let mut text: Vec<u8> = Vec::with_capacity(alloc, 200000)?;
    for at in 0..200000u32 {
        text.push((at % 251) as u8)?;
    }
    // bytes of a piece, the most that a call takes, the first call that fails; how many bytes were taken, whether
    // the flush was no fault, how many bytes the writer has, its calls
    let cases: [(usize, usize, u64, (usize, bool), usize, u64); 7] = [
        (100, 65536, 99, (200000, true), 200000, 4),
        (200000, 65536, 99, (200000, true), 200000, 4),
        (100, 20000, 99, (200000, true), 200000, 13),
        (200000, 65536, 1, (0, false), 0, 2),
        (100, 65536, 2, (131000, false), 65500, 3),
        (100, 20000, 6, (131000, false), 85500, 7),
        (100, 65536, 4, (200000, false), 196500, 5),
    ];
    for (size, most, fails, found, has, calls) in cases {
        let mut pipe = Pipe {
            bytes: Vec::new(alloc),
            most,
            fails,
            calls: 0,
        };
        let got = written(alloc, &mut pipe, &text, size)?;
        assert_eq!(rt;
            (got, pipe.bytes.len(), pipe.calls),
            (found, has, calls),
            "{size} {most} {fails}"
        );
        assert!(rt; text.starts_with(&pipe.bytes), "{size} {most} {fails}");
    }
    Ok(())
}
