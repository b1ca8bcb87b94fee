//! A device that takes one octet a call, and so many of them.

use super::same;
use asn1_core::SerializeError;
use asn1_device::WriteSink;
use asn1_traits::ToDer;
use std::alloc::Global;
use std::io::{self, Write};
use std::process::Abort;

#[derive(Drop)]
struct Narrow {
    room: usize,
    taken: Vec<u8>,
}

impl Write for Narrow {
    fn write(&mut self, octets: &[u8]) -> Result<usize, io::Error> {
        if self.room == 0 || octets.is_empty() {
            return Ok(0);
        }
        self.room -= 1;
        self.taken.extend_from_slice(&octets[..1])?;
        Ok(1)
    }

    fn flush(&mut self) -> Result<(), io::Error> {
        Ok(())
    }
}

// A write that fails leaves a front of the octets, as long as there was room.
pub fn leaves_a_front<R: Abort, T: ToDer>(rt: &R, alloc: Global, value: &T, octets: &[u8]) {
    for room in 0..=octets.len() {
        let mut sink = WriteSink::new(Narrow {
            room,
            taken: Vec::new(alloc),
        });
        let answer = value.write_der(&mut sink);
        let taken = sink.into_inner().taken;
        same(rt, taken.as_slice(), &octets[..room]);
        if room < octets.len() {
            same(rt, answer, Err(SerializeError::IOError));
        } else {
            same(rt, answer, Ok(octets.len()));
        }
    }
}
