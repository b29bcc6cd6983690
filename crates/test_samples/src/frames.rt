//! Logs of swatches, each behind its length. The bytes are worked out by hand, from the protobuf encoding guide.

use buffa_frames::{Delimited, FrameError, FrameFault, FrameReader, Front, frame_at_front};
use buffa_wire::{Blank, Decode, DecodeError};
use sample_palette::shade::Shade;
use sample_palette::swatch::Swatch;
use std::alloc::Global;
use std::io;
use std::io::{ErrorKind, Read};
use std::test::Fail;

// A swatch of shade B, an empty one, and one with an undeclared field, whose length is spelled with a byte too many.
const LOG: [u8; 8] = [0x02, 0x08, 0x01, 0x00, 0x82, 0x00, 0x18, 0x07];

// Bytes that are given one at a time, and how many were; the call that would give the byte at `fails` fails once.
#[derive(Drop)]
struct Slow<'a> {
    bytes: &'a [u8],
    given: usize,
    fails: usize,
}

impl Read for Slow<'_> {
    fn read(&mut self, buf: &mut [u8]) -> io::Result<usize> {
        if self.given == self.fails {
            self.fails = usize::MAX;
            return Err(io::Error::from(ErrorKind::Interrupted));
        }
        if buf.is_empty() || self.given >= self.bytes.len() {
            return Ok(0);
        }
        buf[0] = self.bytes[self.given];
        self.given += 1;
        Ok(1)
    }
}

#[test]
fn a_log_is_written_and_read(rt: HostRuntime) -> Result<(), Fail> {
    let alloc = rt.alloc();
    let swatch = Swatch::decode_from_slice(alloc, &[0x08, 0x01])?;
    let mut log = Vec::new(alloc);
    swatch.try_encode_length_delimited(alloc, &mut log)?;
    Swatch::blank(alloc).try_append_length_delimited(alloc, &mut log)?;
    let written: [u8; 4] = [0x02, 0x08, 0x01, 0x00];
    assert!(rt; log.as_slice() == written.as_slice());
    let mut rest: &[u8] = &log;
    let again = Swatch::decode_length_delimited(alloc, &mut rest)?;
    assert!(rt; again.shade == Some(Shade::B) && rest.len() == 1);
    Ok(())
}

#[test]
fn a_length_may_not_pass_the_end(rt: HostRuntime) -> Result<(), Fail> {
    let mut rest: &[u8] = &[0x05, 0x08, 0x01];
    let refused = Swatch::decode_length_delimited(rt.alloc(), &mut rest).err();
    assert!(rt; refused == Some(DecodeError::UnexpectedEof) && rest.len() == 2);
    Ok(())
}

#[test]
fn the_front_is_told(rt: HostRuntime) -> Result<(), Fail> {
    let front = frame_at_front(&[0x03, 0x61, 0x62, 0x63, 0x00], 1_000);
    assert!(rt; front == Front::Frame { start: 1, end: 4 });
    let received: [u8; 3] = [0x03, 0x61, 0x62];
    let front = frame_at_front(&received, 1_000);
    assert!(rt; front == Front::More { at_least: 1 });
    assert!(rt; frame_at_front(&[], 1_000) == Front::More { at_least: 1 });
    assert!(rt; frame_at_front(&[0x00], 0) == Front::Frame { start: 1, end: 1 });
    assert!(rt; frame_at_front(&[0x83, 0x00], 1_000) == Front::More { at_least: 3 });
    assert!(rt; frame_at_front(&[0x96], 1_000) == Front::More { at_least: 23 });
    assert!(rt; frame_at_front(&[0xFF], 127) == Front::More { at_least: 128 });
    Ok(())
}

#[test]
fn a_length_is_refused_as_soon_as_it_is_known_to_be_too_long(rt: HostRuntime) -> Result<(), Fail> {
    let refused = frame_at_front(&[0xFF, 0x7F], 1_000) == Front::Refused(FrameFault::TooLong);
    assert!(rt; refused);
    assert!(rt; frame_at_front(&[0xFF], 126) == Front::Refused(FrameFault::TooLong));
    assert!(rt; frame_at_front(&[0x04], 3) == Front::Refused(FrameFault::TooLong));
    let zeros: [u8; 9] = [0x80; 9];
    assert!(rt; frame_at_front(&zeros, 0) == Front::More { at_least: 1 });
    let ten: [u8; 10] = [0x80, 0x80, 0x80, 0x80, 0x80, 0x80, 0x80, 0x80, 0x80, 0x00];
    assert!(rt; frame_at_front(&ten, 0) == Front::Frame { start: 10, end: 10 });
    let high: [u8; 10] = [0x80, 0x80, 0x80, 0x80, 0x80, 0x80, 0x80, 0x80, 0x80, 0x01];
    assert!(rt; frame_at_front(&high, 1_000) == Front::Refused(FrameFault::TooLong));
    let none: [u8; 10] = [0x80, 0x80, 0x80, 0x80, 0x80, 0x80, 0x80, 0x80, 0x80, 0x02];
    assert!(rt; frame_at_front(&none, 1_000) == Front::Refused(FrameFault::MalformedLength));
    let both: [u8; 10] = [0xFF, 0xFF, 0xFF, 0xFF, 0xFF, 0xFF, 0xFF, 0xFF, 0xFF, 0x02];
    assert!(rt; frame_at_front(&both, 1_000) == Front::Refused(FrameFault::TooLong));
    Ok(())
}

#[test]
fn a_log_is_read_frame_by_frame(rt: HostRuntime) -> Result<(), Fail> {
    let alloc = rt.alloc();
    let log: &[u8] = &LOG;
    let mut frames = FrameReader::new(alloc, log, 100);
    assert!(rt; frames.frame().is_empty());
    assert!(rt; frames.next_frame()?);
    let first = Swatch::decode_from_slice(alloc, frames.frame())?;
    assert!(rt; first.shade == Some(Shade::B) && first.unknown_fields.len() == 0);
    assert!(rt; frames.next_frame()?);
    assert!(rt; frames.frame().is_empty());
    assert!(rt; frames.next_frame()?);
    let third = Swatch::decode_from_slice(alloc, frames.frame())?;
    assert!(rt; third.unknown_fields.len() == 1);
    assert!(rt; !frames.next_frame()?);
    assert!(rt; frames.frame().is_empty());
    assert!(rt; !frames.next_frame()?);
    Ok(())
}

#[test]
fn the_stream_stands_behind_the_frame(rt: HostRuntime) -> Result<(), Fail> {
    let log: &[u8] = &LOG;
    let mut frames = FrameReader::new(rt.alloc(), log, 100);
    assert!(rt; frames.next_frame()?);
    let rest = frames.into_inner();
    assert!(rt; rest.len() == 5);
    Ok(())
}

#[test]
fn all_frames_of_a_log_are_read(rt: HostRuntime) -> Result<(), Fail> {
    let alloc = rt.alloc();
    let log: &[u8] = &LOG;
    let mut frames = FrameReader::new(alloc, log, 100);
    assert!(rt; frames.next_frame()?);
    let bodies = frames.read_to_end(alloc)?;
    assert!(rt; bodies.len() == 2 && bodies[0].is_empty());
    let third: &[u8] = &[0x18, 0x07];
    assert!(rt; bodies[1].as_slice() == third);
    Ok(())
}

// How many frames a log has, and why there are no more: nothing at its end.
fn frames_in(alloc: Global, log: &[u8]) -> (usize, Option<FrameError>) {
    let mut frames = FrameReader::new(alloc, log, 100);
    for count in 0..10usize {
        match frames.next_frame() {
            Ok(true) => {}
            Ok(false) => return (count, None),
            Err(error) => return (count, Some(error)),
        }
    }
    (10, None)
}

#[test]
fn a_log_is_cut_at_each_byte(rt: HostRuntime) -> Result<(), Fail> {
    let counts: [usize; 9] = [0, 0, 0, 1, 2, 2, 2, 2, 3];
    let whole: [bool; 9] = [true, false, false, true, true, false, false, false, true];
    for cut in 0..9usize {
        let (count, error) = frames_in(rt.alloc(), &LOG[..cut]);
        assert!(rt; count == counts[cut]);
        match error {
            None => assert!(rt; whole[cut]),
            Some(FrameError::Cut) => assert!(rt; !whole[cut]),
            Some(_) => assert!(rt; false),
        }
    }
    Ok(())
}

#[test]
fn of_a_frame_that_is_too_long_the_length_alone_is_read(rt: HostRuntime) -> Result<(), Fail> {
    let mut stream = Slow {
        bytes: &[0xE8, 0x07, 0x01, 0x02, 0x03],
        given: 0,
        fails: usize::MAX,
    };
    let mut frames = FrameReader::new(rt.alloc(), &mut stream, 999);
    assert!(rt;
        matches!(
            frames.next_frame(),
            Err(FrameError::Refused(FrameFault::TooLong))
        )
    );
    assert!(rt;
        matches!(
            frames.next_frame(),
            Err(FrameError::Refused(FrameFault::TooLong))
        )
    );
    drop(frames);
    assert!(rt; stream.given == 2);
    Ok(())
}

#[test]
fn a_reader_goes_on_behind_a_failure(rt: HostRuntime) -> Result<(), Fail> {
    for fails in 0..4usize {
        let stream = Slow {
            bytes: &LOG,
            given: 0,
            fails,
        };
        let mut frames = FrameReader::new(rt.alloc(), stream, 2);
        if fails < 3 {
            assert!(rt; matches!(frames.next_frame(), Err(FrameError::Stream(_))));
        }
        assert!(rt; frames.next_frame()?);
        let body: &[u8] = &[0x08, 0x01];
        assert!(rt; frames.frame() == body);
    }
    Ok(())
}

#[test]
fn a_stream_that_ends_within_a_frame_is_cut(rt: HostRuntime) -> Result<(), Fail> {
    let log: &[u8] = &[0x02, 0x08];
    let mut frames = FrameReader::new(rt.alloc(), log, 2);
    assert!(rt; matches!(frames.next_frame(), Err(FrameError::Cut)));
    assert!(rt; frames.frame().is_empty());
    assert!(rt; matches!(frames.next_frame(), Err(FrameError::Cut)));
    Ok(())
}
