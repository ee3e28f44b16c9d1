// Slice groups: the calls of `pps`. The numbers of a group, of a rectangle and of a picture are the C interface's; `replay` and `sheets` have the
// like of their own, which are those of a recorded file and of a printed line.
ghost use Rattle.std.specs.Prelude.{◌≡◌};
ghost use Rattle.pps.specs.Rule.{num_ref_idx};
ghost use Rattle.pps.specs.Answer.{rect_of};
ghost use Rattle.bits.specs.Reading.{reader_at};
ghost use Rattle.exports.specs.Bits.{FrontsBits};
ghost use Rattle.exports.specs.Groups.{picture_of, rect_numbers, FrontsRect, group_numbers, groups_numbers, pair_of, corner_numbers};
ghost use Rattle.exports.specs.Groups.{arrays, FrontsGroups};

use super::numbers::{field, moved, reader_at};
use bits::BitReader;
use desk::Refusal;
use pps::{Geometry, SliceGroup, SliceGroupRead, SliceGroups, SliceRect, read_num_ref_idx};

// read_num_ref_idx. The answer: number, value, and the place behind it.
#[unsafe(no_mangle)]
pub extern "C" fn dampfeather_read_num_ref_idx(at: usize, s: &[u8], answer: &mut [u64; 3])
    ensures { FrontsBits (reader_at at) (num_ref_idx s.now at) answer.new }
{
    let mut reader = reader_at(at);
    *answer = field(read_num_ref_idx(s, &mut reader), reader);
}

fn geometry(width: u32, size: u32) -> Geometry
    ensures { result ≡ picture_of width size }
{
    Geometry {
        pic_width_in_mbs: width,
        pic_size_in_map_units: size,
    }
}

fn pair(rect: SliceRect) -> [u32; 2]
    ensures { result ≡ pair_of rect }
{
    [rect.top_left, rect.bottom_right]
}

fn rect_numbers(answer: Result<SliceRect, Refusal>, reader: BitReader) -> [u64; 4]
    ensures { result ≡ rect_numbers answer reader }
{
    let [number, place] = moved(&answer, reader);
    let [top_left, bottom_right] = answer.map_or([0; 2], pair);
    [number, place, u64::from(top_left), u64::from(bottom_right)]
}

// SliceRect::read. The answer: number, the place behind it, top_left, bottom_right.
#[unsafe(no_mangle)]
pub extern "C" fn dampfeather_read_slice_rect(
    at: usize,
    s: &[u8],
    width: u32,
    size: u32,
    answer: &mut [u64; 4],
)
    ensures { FrontsRect (reader_at at) (rect_of s.now at width size) answer.new }
{
    let mut reader = reader_at(at);
    *answer = rect_numbers(
        SliceRect::read(s, &mut reader, geometry(width, size)),
        reader,
    );
}

fn group_numbers(group: SliceGroup) -> [u64; 4]
    ensures { result ≡ group_numbers group }
{
    match group {
        SliceGroup::Interleaved => [0, 0, 0, 0],
        SliceGroup::Dispersed => [1, 0, 0, 0],
        SliceGroup::ForegroundAndLeftover => [2, 0, 0, 0],
        SliceGroup::Changing {
            change_type,
            slice_group_change_direction_flag,
            slice_group_change_rate_minus1,
        } => [
            u64::from(u32::from(change_type)),
            u64::from(slice_group_change_direction_flag),
            u64::from(slice_group_change_rate_minus1),
            0,
        ],
        SliceGroup::ExplicitAssignment {
            pic_size_in_map_units_minus1,
        } => [6, 0, 0, u64::from(pic_size_in_map_units_minus1)],
    }
}

fn groups_numbers(answer: &Result<SliceGroupRead, Refusal>, reader: BitReader) -> [u64; 4]
    ensures { result ≡ groups_numbers answer.now reader }
{
    let [number, place] = moved(answer, reader);
    match answer {
        Ok(read) => [
            number,
            place,
            u64::from(read.groups.num_slice_groups_minus1),
            read.ids as u64,
        ],
        Err(_) => [number, place, 0, 0],
    }
}

// The corners of each rectangle in turn.
fn corners(rects: [SliceRect; 7]) -> [u32; 14]
    ensures { result ≡ corner_numbers rects }
{
    let pairs = rects.map(pair);
    let mut all = [0; 14];
    all.copy_from_slice(pairs.as_flattened());
    all
}

// SliceGroup::read. The answer: number, the place behind the last field, num_slice_groups_minus1, and the count of ids written. The group: its
// map type, the direction, the rate, and pic_size_in_map_units_minus1. The run lengths; and the corners of each rectangle in turn. A refusal
// writes the answer alone.
#[unsafe(no_mangle)]
pub extern "C" fn dampfeather_read_slice_groups(
    at: usize,
    s: &[u8],
    num_slice_groups_minus1: u32,
    width: u32,
    size: u32,
    ids: &mut [u8],
    answer: &mut [u64; 4],
    group: &mut [u64; 4],
    runs: &mut [u32; 8],
    rects: &mut [u32; 14],
)
    ensures { FrontsGroups s.now (reader_at at) num_slice_groups_minus1 (picture_of width size) ids.old
        (arrays group.old runs.old rects.old)
        ids.new answer.new (arrays group.new runs.new rects.new) }
{
    let mut reader = reader_at(at);
    let read = SliceGroup::read(
        s,
        &mut reader,
        num_slice_groups_minus1,
        geometry(width, size),
        ids,
    );
    *answer = groups_numbers(&read, reader);
    if let Ok(SliceGroupRead { groups, .. }) = read {
        let SliceGroups {
            group: kind,
            run_length_minus1,
            rectangles,
            ..
        } = groups;
        *group = group_numbers(kind);
        *runs = run_length_minus1;
        *rects = corners(rectangles);
    }
}
