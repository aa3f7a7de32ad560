// A stream in memory, and one that gives a byte at a time and fails when it has no more.
use crate::read_full;
use std::io;
use std::io::Read;

#[derive(Drop)]
struct Dripping<'a> {
    bytes: &'a [u8],
}

impl Read for Dripping<'_> {
    fn read(&mut self, buf: &mut [u8]) -> io::Result<usize> {
        if self.bytes.is_empty() {
            return Err(io::ErrorKind::Other.into());
        }
        if buf.is_empty() {
            return Ok(0);
        }
        buf[0] = self.bytes[0];
        self.bytes = &self.bytes[1..];
        Ok(1)
    }
}

#[test]
fn stops_where_the_stream_ends(rt: HostRuntime) -> io::Result<()> {
    let mut from: &[u8] = b"abc";
    let mut buf = [1u8; 5];
    assert_eq!(rt; read_full(&mut from, &mut buf)?, 3);
    assert_eq!(rt; buf, [97, 98, 99, 1, 1]);
    assert_eq!(rt; read_full(&mut from, &mut buf)?, 0);
    Ok(())
}

#[test]
fn stops_where_the_buffer_is_full(rt: HostRuntime) -> io::Result<()> {
    let mut from: &[u8] = b"abcde";
    let mut buf = [1u8; 3];
    assert_eq!(rt; read_full(&mut from, &mut buf)?, 3);
    assert_eq!(rt; buf, [97, 98, 99]);
    assert_eq!(rt; read_full(&mut from, &mut buf)?, 2);
    assert_eq!(rt; buf, [100, 101, 99]);
    Ok(())
}

#[test]
fn reads_as_often_as_it_takes(rt: HostRuntime) -> io::Result<()> {
    let mut from = Dripping { bytes: b"abcd" };
    let mut buf = [1u8; 3];
    assert_eq!(rt; read_full(&mut from, &mut buf)?, 3);
    assert_eq!(rt; buf, [97, 98, 99]);
    Ok(())
}

#[test]
fn an_error_is_no_end(rt: HostRuntime) {
    let mut from = Dripping { bytes: b"ab" };
    let mut buf = [1u8; 3];
    assert!(rt; read_full(&mut from, &mut buf).is_err());
}
