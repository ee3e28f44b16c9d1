// Holds the port to recorded answers of the original, h264-reader 0.9.0: counts the cases of each file of data/, and the differences.
// The original is not at hand here. compare/record writes the files, and compare/src/record.rs says what each case is.
#![tactic(auto)]

mod bits_cases;
mod bytes;
mod case;
mod escaping;
mod framing;
mod groups;

use bits_cases::{more_right, read_right, signed, write_right};
use bytes::byte;
use case::{Call, Case, Cases, Lent};
use std::rt::Files;
use std::{fs, io};

// Whether a call answers as the original did.
fn right(case: Case, lent: &mut Lent) -> bool {
    let Ok(call) = Call::try_from(case.call) else {
        return false;
    };
    let Case { input, b, c, y, .. } = case;
    // Each case goes to its own call, as recorded. The calls differ in what they take: a table of closures would be no plainer.
    match call {
        Call::ReaderPushes => escaping::reader_right(case, lent),
        Call::WriterPushes => escaping::writer_right(case, lent),
        Call::DecodeNal => escaping::decoded_right(case, lent),
        Call::Framing => framing::right(case, lent),
        Call::Read => read_right(case, y, |reader| reader.read(input, b)),
        Call::ReadBit => read_right(case, y, |reader| reader.read_bit(input).map(u32::from)),
        Call::ReadUe => read_right(case, y, |reader| reader.read_ue(input)),
        Call::ReadSe => read_right(case, signed(c == 1, y), |reader| reader.read_se(input)),
        Call::Skip => read_right(case, y, |reader| reader.skip(input, b).map(|()| 0)),
        Call::HasMoreRbspData => more_right(case),
        Call::FinishRbsp => case.numbered(&case.reader().finish_rbsp(input)),
        Call::FinishSeiPayload => case.numbered(&case.reader().finish_sei_payload(input)),
        Call::Write => write_right(
            case,
            lent,
            |writer, room| writer.write(room, byte(input), c),
        ),
        Call::WriteBit => write_right(case, lent, |writer, room| writer.write_bit(room, c == 1)),
        Call::WriteUe => write_right(case, lent, |writer, room| writer.write_ue(room, c)),
        Call::WriteSe => write_right(
            case,
            lent,
            |writer, room| writer.write_se(room, signed(byte(input) == 1, c)),
        ),
        Call::WriteTrailing => write_right(
            case,
            lent,
            |writer, room| writer.write_rbsp_trailing_bits(room),
        ),
        Call::SliceGroup => groups::groups_right(case, lent),
        Call::SliceRect => groups::rect_right(case),
        Call::NumRefIdx => read_right(case, y, |reader| pps::read_num_ref_idx(input, reader)),
    }
}

// Memory is constant whatever the file's length. A broken case is a difference, and what follows it is not read. Nothing says that a file ends, so
// turns are counted: none comes to 2^64 of them.
fn replay(rt: &(impl Files + Print), name: &str, path: &str) -> io::Result<()> {
    let mut file = Cases::new(fs::open(rt, path)?);
    let mut lent = Lent::new();
    let mut cases = 0u64;
    let mut differences = 0u64;
    for _ in 0..u64::MAX {
        let Some(next) = file.next()? else {
            break;
        };
        let Ok(case) = next else {
            differences = differences.saturating_add(1);
            break;
        };
        cases = cases.saturating_add(1);
        if !right(case, &mut lent) {
            differences = differences.saturating_add(1);
        }
    }
    println!(rt; "{name}: {cases} cases, {differences} differences")
}

fn main(rt: HostRuntime) -> io::Result<()> {
    replay(&rt, "escaping", "escaping.bin")?;
    replay(&rt, "framing", "framing.bin")?;
    replay(&rt, "bits", "bits.bin")?;
    replay(&rt, "groups", "groups.bin")
}
