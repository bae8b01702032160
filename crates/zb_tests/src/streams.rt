use std::io::{self, ErrorKind, Read, Write};
use zb_outside::{Sink, Source, StdSink, StdSource, Trouble};

// A reader that fails and a writer that takes nothing.
#[derive(Drop)]
struct Broken;

impl Read for Broken {
    fn read(&mut self, _buf: &mut [u8]) -> io::Result<usize> {
        Err(io::Error::from(ErrorKind::Interrupted))
    }
}

impl Write for Broken {
    fn write(&mut self, _buf: &[u8]) -> io::Result<usize> {
        Ok(0)
    }

    fn flush(&mut self) -> io::Result<()> {
        Err(io::Error::from(ErrorKind::Interrupted))
    }
}

#[test]
fn streams_over_what_is_broken_fail(rt: HostRuntime) {
    assert!(rt; StdSource::new(Broken).read(&mut [0; 3]) == Err(Trouble::Failed));
    let mut sink = StdSink::new(Broken);
    assert!(rt; sink.write(b"ab") == Err(Trouble::Failed));
    assert!(rt; sink.write(b"") == Ok(0));
    assert!(rt; sink.flush() == Err(Trouble::Failed));
}
