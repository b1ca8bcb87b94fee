//! Devices: they give and take as they are told, and fail where they are told.

use std::alloc::Global;
use std::io::{Error, ErrorKind, Read, Write};

/// Gives at most `step` octets at a read, and fails at the read of the number `fails_at`, from 0.
#[derive(Drop)]
pub(crate) struct Giver<'a> {
    pub(crate) octets: &'a [u8],
    pub(crate) step: usize,
    pub(crate) fails_at: usize,
    pub(crate) reads: usize,
    pub(crate) widest: usize,
}

impl<'a> Giver<'a> {
    pub(crate) fn new(octets: &'a [u8], step: usize, fails_at: usize) -> Giver<'a> {
        Giver {
            octets,
            step,
            fails_at,
            reads: 0,
            widest: 0,
        }
    }
}

impl Read for Giver<'_> {
    fn read(&mut self, buf: &mut [u8]) -> Result<usize, Error> {
        let number = self.reads;
        self.reads = number.saturating_add(1);
        self.widest = self.widest.max(buf.len());
        if number == self.fails_at {
            return Err(Error::from(ErrorKind::Other));
        }
        let count = self.octets.len().min(self.step).min(buf.len());
        let (given, rest) = self.octets.split_at(count);
        buf[..count].copy_from_slice(given);
        self.octets = rest;
        Ok(count)
    }
}

/// Gives this octet at each of so many reads, and then the end.
#[derive(Drop)]
pub(crate) struct Repeater {
    pub(crate) octet: u8,
    pub(crate) left: usize,
}

impl Read for Repeater {
    fn read(&mut self, buf: &mut [u8]) -> Result<usize, Error> {
        if self.left == 0 || buf.is_empty() {
            return Ok(0);
        }
        self.left -= 1;
        buf[0] = self.octet;
        Ok(1)
    }
}

/// How a taker that has no room left answers.
#[derive(Clone, Copy, Debug)]
pub(crate) enum Full {
    Refuses,
    TakesNone,
}

/// Takes at most `step` octets at a write, and `room` in all.
#[derive(Drop)]
pub(crate) struct Taker {
    pub(crate) taken: Vec<u8>,
    pub(crate) step: usize,
    pub(crate) room: usize,
    pub(crate) full: Full,
    pub(crate) flushes: usize,
    pub(crate) flush_fails: bool,
}

impl Taker {
    pub(crate) fn new(alloc: Global, step: usize, room: usize, full: Full) -> Taker {
        Taker {
            taken: Vec::new(alloc),
            step,
            room,
            full,
            flushes: 0,
            flush_fails: false,
        }
    }
}

impl Write for Taker {
    fn write(&mut self, octets: &[u8]) -> Result<usize, Error> {
        let left = self.room.saturating_sub(self.taken.len());
        let count = octets.len().min(self.step).min(left);
        match self.full {
            Full::Refuses if count == 0 => Err(Error::from(ErrorKind::Other)),
            _ => {
                self.taken.extend_from_slice(&octets[..count])?;
                Ok(count)
            }
        }
    }

    fn flush(&mut self) -> Result<(), Error> {
        self.flushes = self.flushes.saturating_add(1);
        if self.flush_fails {
            return Err(Error::from(ErrorKind::Other));
        }
        Ok(())
    }
}
