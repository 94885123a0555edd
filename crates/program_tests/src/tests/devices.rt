use mb_base::{RealOut, WriteFault, write_all};
use std::alloc::Global;
use std::io::{self, BufWriter, ErrorKind, Write};
use std::test::Fail;

/// A device with room for so many bytes. It fails if there is none left.
#[derive(Drop)]
struct Device {
    room: usize,
}

impl Write for Device {
    fn write(&mut self, buf: &[u8]) -> io::Result<usize> {
        let count = buf.len().min(self.room);
        if count == 0 && !buf.is_empty() {
            return Err(io::Error::from(ErrorKind::StorageFull));
        }
        self.room -= count;
        Ok(count)
    }

    fn flush(&mut self) -> io::Result<()> {
        Ok(())
    }
}

/// How writing three bytes to a device ends, without a buffer.
fn end_at_once(room: usize) -> Result<(), WriteFault> {
    write_all(&mut RealOut::new(Device { room }), b"abc")
}

/// The same through a buffer, which takes all of them, so that the device comes to see them at the
/// flush alone.
fn end_at_the_flush(alloc: Global, room: usize) -> Result<Result<(), WriteFault>, Fail> {
    let writer = BufWriter::new(alloc, Device { room })?;
    Ok(write_all(&mut RealOut::new(writer), b"abc"))
}

#[test]
fn a_failed_flush_is_a_failed_write(rt: HostRuntime) -> Result<(), Fail> {
    for room in 0..5usize {
        let end = end_at_the_flush(rt.alloc(), room)?;
        let wanted = if room < 3 {
            Err(WriteFault { done: 0 })
        } else {
            Ok(())
        };
        assert!(rt; end == wanted);
    }
    Ok(())
}

#[test]
fn a_write_tells_what_was_taken_before(rt: HostRuntime) -> Result<(), Fail> {
    for room in 0..5usize {
        let wanted = if room < 3 {
            Err(WriteFault { done: room })
        } else {
            Ok(())
        };
        assert!(rt; end_at_once(room) == wanted);
    }
    Ok(())
}
