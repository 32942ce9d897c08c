//! The source and the sink over standard streams, and over streams that break.
use crate::{StdinSource, StdoutSink};
use std::io;
use std::io::{Error, ErrorKind, Read, Write};
use wap_devices::{Failed, Sink, Source, write_all};

/// What breaks after its first byte, and takes none before that.
#[derive(Drop)]
struct Broken {
    is_used: bool,
}

impl Read for Broken {
    fn read(&mut self, buffer: &mut [u8]) -> io::Result<usize> {
        if self.is_used || buffer.is_empty() {
            return Err(Error::from(ErrorKind::Other));
        }
        self.is_used = true;
        buffer[0] = b'k';
        Ok(1)
    }
}

impl Write for Broken {
    fn write(&mut self, _piece: &[u8]) -> io::Result<usize> {
        if self.is_used {
            return Err(Error::from(ErrorKind::Other));
        }
        self.is_used = true;
        Ok(0)
    }

    fn flush(&mut self) -> io::Result<()> {
        Ok(())
    }
}

/// A writer that takes two bytes at a time.
#[derive(Drop)]
struct Narrow {
    bytes: Vec<u8>,
}

impl Write for Narrow {
    fn write(&mut self, piece: &[u8]) -> io::Result<usize> {
        let count = piece.len().min(2);
        self.bytes.extend_from_slice(&piece[..count])?;
        Ok(count)
    }

    fn flush(&mut self) -> io::Result<()> {
        Ok(())
    }
}

/// A piece of which a part is taken is written whole, in as many calls as that needs.
#[test]
fn a_part_of_a_piece_is_taken(rt: HostRuntime) {
    let mut narrow = Narrow {
        bytes: Vec::new(rt.alloc()),
    };
    let mut out = StdoutSink::new(&mut narrow);
    assert!(rt; matches!(out.write(b"shown"), Ok(2)));
    assert!(rt; write_all(&mut out, b"own\n").is_ok());
    assert!(rt; narrow.bytes.as_slice() == b"shown\n".as_slice());
}

#[test]
fn standard_input_ends(rt: HostRuntime) {
    let mut keys = StdinSource::new(rt.stdin());
    assert!(rt; matches!(keys.read(&mut [b'-'; 3]), Ok(0)));
}

/// A read that fails leaves the buffer.
#[test]
fn a_reader_breaks(rt: HostRuntime) {
    let mut buffer = [b'-'; 3];
    let mut keys = StdinSource::new(Broken { is_used: false });
    assert!(rt; matches!(keys.read(&mut buffer), Ok(1)));
    assert!(rt; matches!(keys.read(&mut buffer), Err(Failed)));
    assert!(rt; buffer.as_slice() == b"k--".as_slice());
}

#[test]
fn standard_output_takes_bytes(rt: HostRuntime) {
    let mut out = StdoutSink::new(rt.stdout());
    assert!(rt; matches!(out.write(b"shown\n"), Ok(6)));
}

#[test]
fn a_writer_breaks(rt: HostRuntime) {
    let mut out = StdoutSink::new(Broken { is_used: false });
    assert!(rt; matches!(out.write(b"lost"), Ok(0)));
    assert!(rt; matches!(out.write(b"lost"), Err(Failed)));
}
