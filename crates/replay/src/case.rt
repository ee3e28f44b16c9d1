// The cases of a file.
use super::bytes::{cut, words};
use bits::{BitPos, BitReader};
use desk::Refusal;
use std::io::{self, Read};

// What was called.
#[derive(Clone, Copy)]
pub(crate) enum Call {
    ReaderPushes,
    WriterPushes,
    DecodeNal,
    Framing,
    Read,
    ReadBit,
    ReadUe,
    ReadSe,
    Skip,
    HasMoreRbspData,
    FinishRbsp,
    FinishSeiPayload,
    Write,
    WriteBit,
    WriteUe,
    WriteSe,
    WriteTrailing,
    SliceGroup,
    SliceRect,
    NumRefIdx,
}

// A number that stands for no call.
#[derive(Clone, Copy)]
pub(crate) struct NoCall;

impl TryFrom<u32> for Call {
    type Error = NoCall;

    fn try_from(number: u32) -> Result<Call, NoCall> {
        Ok(match number {
            0 => Call::ReaderPushes,
            1 => Call::WriterPushes,
            2 => Call::DecodeNal,
            3 => Call::Framing,
            4 => Call::Read,
            5 => Call::ReadBit,
            6 => Call::ReadUe,
            7 => Call::ReadSe,
            8 => Call::Skip,
            9 => Call::HasMoreRbspData,
            10 => Call::FinishRbsp,
            11 => Call::FinishSeiPayload,
            12 => Call::Write,
            13 => Call::WriteBit,
            14 => Call::WriteUe,
            15 => Call::WriteSe,
            16 => Call::WriteTrailing,
            17 => Call::SliceGroup,
            18 => Call::SliceRect,
            19 => Call::NumRefIdx,
            _ => return Err(NoCall),
        })
    }
}

// The call; what goes in: a, b, c and the input; what comes out: x, y, z and the output.
#[derive(Clone, Copy)]
pub(crate) struct Case<'a> {
    // A number: an unknown call is a difference, and the file goes on.
    pub(crate) call: u32,
    pub(crate) a: u32,
    pub(crate) b: u32,
    pub(crate) c: u32,
    pub(crate) x: u32,
    pub(crate) y: u32,
    pub(crate) z: u32,
    pub(crate) input: &'a [u8],
    pub(crate) output: &'a [u8],
}

// The most bytes of a case's input and output.
pub(crate) const MOST: usize = 4096;

impl Case<'_> {
    // A reader at bit a.
    pub(crate) fn reader(self) -> BitReader {
        BitReader {
            at: BitPos(self.a as usize),
        }
    }

    // The answer's number is the original's.
    pub(crate) fn numbered<T>(self, answer: &Result<T, Refusal>) -> bool {
        u32::from(desk::number(answer)) == self.x
    }
}

// How many marks a framing call is lent.
const MARKS: usize = 512;

// What is lent to the calls, for all cases of a file.
#[derive(Drop)]
pub(crate) struct Lent {
    room: [u8; MOST],
    marks: [u64; MARKS],
}

impl Lent {
    pub(crate) fn new() -> Lent {
        Lent {
            room: [0; MOST],
            marks: [0; MARKS],
        }
    }

    // The room. No byte of it is the one that is to come there, so that what a call leaves unwritten is a difference.
    pub(crate) fn room(&mut self, output: &[u8]) -> &mut [u8; MOST] {
        for (byte, recorded) in self.room.iter_mut().zip(output) {
            *byte = !*recorded;
        }
        &mut self.room
    }

    // The room and the marks, of which so many are to come, and none is there: an end lies behind what was given before.
    pub(crate) fn room_and_marks(
        &mut self,
        output: &[u8],
        ends: usize,
    ) -> (&mut [u8; MOST], &mut [u64; MARKS]) {
        for mark in self.marks.iter_mut().take(ends) {
            *mark = u64::MAX;
        }
        self.room(output);
        (&mut self.room, &mut self.marks)
    }
}

// A case that the file cuts short, or whose head asks for more than MOST bytes.
#[derive(Clone, Copy)]
pub(crate) struct Broken;

// The cases of a file, one behind the other, and the memory for the one that is lent.
#[derive(Drop)]
pub(crate) struct Cases<R> {
    file: R,
    body: [u8; MOST],
}

impl<R: Read> Cases<R> {
    pub(crate) fn new(file: R) -> Cases<R> {
        Cases {
            file,
            body: [0; MOST],
        }
    }

    // The next case; None at the end of the file. Its head is nine words; the last two are the lengths of its input and its output. What the file
    // lacks of a head is 0.
    pub(crate) fn next(&mut self) -> io::Result<Option<Result<Case<'_>, Broken>>> {
        let Cases { file, body } = self;
        let mut head = [0; 36];
        if fill(file, &mut head)? == head.len() {
            return Ok(None);
        }
        let [call, a, b, c, x, y, z, input, output] = words::<9>(&head);
        let all = input as usize + output as usize;
        let Some(body) = body.get_mut(..all) else {
            return Ok(Some(Err(Broken)));
        };
        if fill(file, body)? > 0 {
            return Ok(Some(Err(Broken)));
        }
        let (input, output) = cut(body, input as usize);
        Ok(Some(Ok(Case {
            call,
            a,
            b,
            c,
            x,
            y,
            z,
            input,
            output,
        })))
    }
}

// Reads until the buffer is full or the file ends: how much of the buffer is left. No `for`: how much a read gives, only it tells.
fn fill(file: &mut impl Read, mut buf: &mut [u8]) -> io::Result<usize> {
    while !buf.is_empty() {
        let n = file.read(buf)?;
        if n == 0 {
            break;
        }
        buf = &mut buf[n..];
    }
    Ok(buf.len())
}
