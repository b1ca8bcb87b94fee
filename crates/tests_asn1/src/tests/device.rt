//! What no contract says: that std's devices are called, once for each call, and flushed.
ghost use Rattle.std.specs.Prelude.{◌≤◌, IfOk};

use super::same;
use asn1_device::{DeviceFault, ReadSource, Sink, Source, WriteSink, write_octets};
use std::io::{Error, ErrorKind, Read, Write};
use std::test::Fail;

// What a fake device answers at one call.
#[derive(Clone, Copy)]
enum Answer {
    Moves(usize),
    Interrupted,
    Refused,
}

// Answers as its script says, and after the script as `then` says.
#[derive(Drop)]
struct Fake<'a> {
    script: &'a [Answer],
    then: Answer,
    given: usize,
    taken: Vec<u8>,
    flushes: usize,
}

impl Fake<'_> {
    fn answer(&mut self, room: usize) -> Result<usize, Error>
        ensures { IfOk result (λ n. n ≤ room) }
    {
        let answer = match self.script {
            [first, rest @ ..] => {
                self.script = rest;
                *first
            }
            [] => self.then,
        };
        match answer {
            Answer::Moves(count) => Ok(count.min(room)),
            Answer::Interrupted => Err(Error::from(ErrorKind::Interrupted)),
            Answer::Refused => Err(Error::from(ErrorKind::Other)),
        }
    }
}

impl Read for Fake<'_> {
    fn read(&mut self, buf: &mut [u8]) -> Result<usize, Error> {
        let count = self.answer(buf.len())?;
        for octet in buf[..count].iter_mut() {
            *octet = 7;
        }
        self.given = self.given.saturating_add(count);
        Ok(count)
    }
}

impl Write for Fake<'_> {
    fn write(&mut self, octets: &[u8]) -> Result<usize, Error> {
        let count = self.answer(octets.len())?;
        self.taken.extend_from_slice(&octets[..count])?;
        Ok(count)
    }

    fn flush(&mut self) -> Result<(), Error> {
        self.flushes = self.flushes.saturating_add(1);
        self.answer(0)?;
        Ok(())
    }
}

fn make_fake<'a>(rt: &HostRuntime, script: &'a [Answer], then: Answer) -> Fake<'a> {
    Fake {
        script,
        then,
        given: 0,
        taken: Vec::new(rt.alloc()),
        flushes: 0,
    }
}

#[test]
fn reads_until_the_end(rt: HostRuntime) -> Result<(), Fail> {
    let octets = [1, 2, 3];
    let mut source = ReadSource::new(octets.as_slice());
    let mut buf = [0; 2];
    same(&rt, source.read(&mut buf), Ok(2));
    same(&rt, buf.as_slice(), [1, 2].as_slice());
    same(&rt, source.read(&mut buf), Ok(1));
    same(&rt, buf[0], 3);
    same(&rt, source.read(&mut buf), Ok(0));
    same(&rt, source.into_inner().is_empty(), true);
    Ok(())
}

#[test]
fn a_refused_read_is_told_and_an_interrupted_one_is_tried_again(rt: HostRuntime) {
    let script = [
        Answer::Interrupted,
        Answer::Moves(2),
        Answer::Refused,
        Answer::Moves(1),
    ];
    let mut source = ReadSource::new(make_fake(&rt, &script, Answer::Moves(0)));
    let mut buf = [0; 4];
    same(&rt, source.read(&mut buf), Ok(2));
    same(&rt, source.read(&mut buf), Err(DeviceFault));
    same(&rt, source.read(&mut buf), Ok(1));
    same(&rt, source.read(&mut buf), Ok(0));
    same(&rt, source.into_inner().given, 3);
}

#[test]
fn all_octets_are_written_in_any_pieces(rt: HostRuntime) {
    for step in 1..6 {
        let mut sink = WriteSink::new(make_fake(&rt, &[Answer::Interrupted], Answer::Moves(step)));
        same(&rt, write_octets(&mut sink, b"octets"), Ok(()));
        same(&rt, sink.flush(), Ok(()));
        let device = sink.into_inner();
        same(&rt, device.taken.as_slice(), b"octets".as_slice());
        same(&rt, device.flushes, 1);
    }
}

#[test]
fn a_failed_write_leaves_a_front(rt: HostRuntime) {
    let one = [Answer::Moves(1); 6];
    for (at, _) in one.iter().enumerate() {
        for failed in [Answer::Refused, Answer::Moves(0)] {
            let mut sink = WriteSink::new(make_fake(&rt, &one[..at], failed));
            same(&rt, write_octets(&mut sink, b"octets"), Err(DeviceFault));
            let device = sink.into_inner();
            same(&rt, device.taken.as_slice(), &b"octets"[..at]);
            same(&rt, device.flushes, 0);
        }
    }
}

#[test]
fn a_failed_flush_is_told(rt: HostRuntime) {
    let mut sink = WriteSink::new(make_fake(&rt, &[], Answer::Refused));
    same(&rt, sink.flush(), Err(DeviceFault));
    same(&rt, sink.write(&[]), Err(DeviceFault));
}
