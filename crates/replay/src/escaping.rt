// Calls 0, 1 and 2: a reader and a writer, each by two pushes, and a whole NAL.
use super::bytes::cut;
use super::case::{Case, Lent};
use desk::{Pushed, Refusal};
use rbsp::nal::{Decoded, Undecoded, decode_nal, shown};
use rbsp::reader::{ByteReader, Stopped};
use rbsp::writer::ByteWriter;

// Two pushes: the number, and the bytes taken and written in all, are the original's.
fn pushes_right<F>(case: Case, lent: &mut Lent, mut push: F) -> bool
where
    F: FnMut(&[u8], &mut [u8]) -> Result<Pushed, Stopped>,
    requires { F.IsAlwaysCallable push }
{
    let room = lent.room(case.output);
    let mut answer = Ok(());
    let mut taken = 0usize;
    let mut written = 0usize;
    let (one, two) = cut(case.input, case.b as usize);
    for part in [one, two] {
        let Some(rest) = room.get_mut(written..) else {
            return false;
        };
        let p = match push(part, rest) {
            Ok(p) => p,
            Err(Stopped::Forbidden(p)) => {
                answer = Err(Refusal::ForbiddenByte);
                p
            },
            // No buffer here is too long, and no state bad.
            Err(Stopped::Refused(_)) => return false,
        };
        taken = taken.saturating_add(p.taken);
        written = written.saturating_add(p.written);
        if answer.is_err() {
            break;
        }
    }
    case.numbered(&answer) && taken == case.y as usize && room.get(..written) == Some(case.output)
}

pub(crate) fn reader_right(case: Case, lent: &mut Lent) -> bool {
    let mut reader = ByteReader::skipping_bytes(case.a as usize);
    pushes_right(case, lent, |chunk, room| reader.push(chunk, room))
}

pub(crate) fn writer_right(case: Case, lent: &mut Lent) -> bool {
    let mut writer = ByteWriter::new();
    pushes_right(
        case,
        lent,
        |chunk, room| writer.push(chunk, room).map_err(Stopped::Refused),
    )
}

pub(crate) fn decoded_right(case: Case, lent: &mut Lent) -> bool {
    let room = lent.room(case.output);
    let decoded = decode_nal(case.input, room);
    let answered = match decoded {
        Ok(Decoded::Own) => case.x == 0 && case.y == 0,
        Ok(Decoded::Filled(_)) => case.x == 0 && case.y == 1,
        Err(why) => {
            u32::from(why.number()) == case.x && why == Undecoded::Forbidden(case.z as usize)
        },
    };
    answered && shown(case.input, room, decoded) == case.output
}
