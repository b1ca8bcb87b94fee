//! What no contract says: what is written and told of streams whose devices fail or have no end.

use crate::tests::devices::{Full, Giver, Repeater, Taker};
use crate::tests::framing::{FIRST, THIRD};
use asn1_device::{ReadSource, WriteSink};
use certpath_engine::{End, ItemInput, ItemsError, frame};
use std::alloc::{AllocError, Global};
use std::fmt::Debug;
use std::process::Abort;
use std::test::Fail;

// What came is what was wanted.
fn same<R: Abort, T: PartialEq + Debug + Drop>(rt: &R, got: T, want: T) {
    assert_eq!(rt; got, want);
}

const NEVER: usize = usize::MAX;

// What a device answers, and what the other was given.
#[derive(Drop)]
struct Framed {
    answer: Result<End, ItemsError>,
    taken: Vec<u8>,
}

// The limit is that of certificates as long as the longer one.
fn frame_on(alloc: Global, giver: Giver<'_>, taker: Taker) -> Framed {
    let mut source = ReadSource::new(giver);
    let mut sink = WriteSink::new(taker);
    let answer = frame(alloc, &mut source, 87, &mut sink);
    Framed {
        answer,
        taken: sink.into_inner().taken,
    }
}

fn two_certificates(alloc: Global) -> Result<Vec<u8>, AllocError> {
    let mut octets = FIRST.to_vec(alloc)?;
    octets.extend_from_slice(&THIRD)?;
    Ok(octets)
}

// A taker that takes all.
fn taker(rt: &HostRuntime) -> Taker {
    Taker::new(rt.alloc(), NEVER, NEVER, Full::Refuses)
}

#[test]
fn a_read_that_fails(rt: HostRuntime) -> Result<(), Fail> {
    // 158 octets by 40 are four reads, and the fifth meets the end
    let octets = two_certificates(rt.alloc())?;
    for fails_at in 0..6 {
        let giver = Giver::new(octets.as_slice(), 40, fails_at);
        let done = frame_on(rt.alloc(), giver, taker(&rt));
        if fails_at < 5 {
            same(&rt, done.answer, Err(ItemsError::Read(ItemInput::Bundle)));
            assert!(rt; done.taken.is_empty(), "at {fails_at}");
        } else {
            same(&rt, done.answer, Ok(End::Clean));
        }
    }
    Ok(())
}

#[test]
fn a_write_that_fails(rt: HostRuntime) -> Result<(), Fail> {
    let text = b"0 0 69\n1 69 89\nend clean\n";
    let octets = two_certificates(rt.alloc())?;
    for (room, _) in text.iter().enumerate() {
        for full in [Full::Refuses, Full::TakesNone] {
            for step in [3, NEVER] {
                let giver = Giver::new(octets.as_slice(), NEVER, NEVER);
                let taker = Taker::new(rt.alloc(), step, room, full);
                let done = frame_on(rt.alloc(), giver, taker);
                wrote_a_front(&rt, &done, text, room);
            }
        }
    }
    Ok(())
}

// A write failed, with so many octets of the text written.
fn wrote_a_front<R: Abort>(rt: &R, done: &Framed, text: &[u8], room: usize) {
    assert!(rt;
        done.answer == Err(ItemsError::Write),
        "answer after {room}"
    );
    assert!(rt; done.taken.len() == room, "length after {room}");
    assert!(rt; text.starts_with(&done.taken), "octets after {room}");
}

#[test]
fn the_flush(rt: HostRuntime) -> Result<(), Fail> {
    for flush_fails in [false, true] {
        let mut source = ReadSource::new(Giver::new(&[0x30, 0x00], NEVER, NEVER));
        let mut device = taker(&rt);
        device.flush_fails = flush_fails;
        let mut sink = WriteSink::new(device);
        let answer = frame(rt.alloc(), &mut source, 0, &mut sink);
        let wanted = if flush_fails {
            Err(ItemsError::Write)
        } else {
            Ok(End::Clean)
        };
        same(&rt, answer, wanted);
        let device = sink.into_inner();
        same(
            &rt,
            device.taken.as_slice(),
            b"0 0 2\nend clean\n".as_slice(),
        );
        same(&rt, device.flushes, 1);
        assert!(rt; source.into_inner().widest <= 65536);
    }
    Ok(())
}

#[test]
fn a_reader_without_an_end(rt: HostRuntime) -> Result<(), Fail> {
    // the end may come at the last read that is made
    for (left, wanted) in [
        (16_777_215, Ok(End::Fault(0))),
        (16_777_216, Err(ItemsError::TooLong(ItemInput::Bundle))),
    ] {
        let mut source = ReadSource::new(Repeater { octet: 0x31, left });
        let mut sink = WriteSink::new(taker(&rt));
        same(&rt, frame(rt.alloc(), &mut source, 0, &mut sink), wanted);
        same(&rt, source.into_inner().left, 0);
        same(&rt, sink.into_inner().taken.is_empty(), wanted.is_err());
    }
    Ok(())
}

#[test]
fn texts_of_errors(rt: HostRuntime) -> Result<(), Fail> {
    for (error, name) in [
        (ItemsError::Read(ItemInput::Bundle), "Read"),
        (ItemsError::TooLong(ItemInput::Bundle), "TooLong"),
        (ItemsError::OutOfMemory, "OutOfMemory"),
        (ItemsError::Write, "Write"),
    ] {
        let text = error.to_string(rt.alloc())?;
        same(&rt, text.as_str(), name);
    }
    Ok(())
}
