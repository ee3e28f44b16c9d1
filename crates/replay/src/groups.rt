// Calls 17 and 18: slice groups, and a rectangle. The words are the recorded file's; those of `exports`, near them, are the C interface's.
use super::bytes::{cut, words};
use super::case::{Case, Lent};
use pps::{Geometry, SliceGroup, SliceGroups, SliceRect};

fn geometry(case: Case) -> Geometry {
    Geometry {
        pic_width_in_mbs: case.c / 65536,
        pic_size_in_map_units: case.c % 65536,
    }
}

fn corners(r: SliceRect) -> [u32; 2] {
    [r.top_left, r.bottom_right]
}

pub(crate) fn rect_right(case: Case) -> bool {
    let mut reader = case.reader();
    let answer = SliceRect::read(case.input, &mut reader, geometry(case));
    case.numbered(&answer)
        && reader.at.0 == case.y as usize
        && answer.map_or(true, |r| corners(r) == words::<2>(case.output))
}

// Map type, direction, rate and pic_size_in_map_units_minus1.
fn kind(group: SliceGroup) -> (u32, bool, u32, u32) {
    match group {
        SliceGroup::Interleaved => (0, false, 0, 0),
        SliceGroup::Dispersed => (1, false, 0, 0),
        SliceGroup::ForegroundAndLeftover => (2, false, 0, 0),
        SliceGroup::Changing {
            change_type,
            slice_group_change_direction_flag,
            slice_group_change_rate_minus1,
        } => (
            u32::from(change_type),
            slice_group_change_direction_flag,
            slice_group_change_rate_minus1,
            0,
        ),
        SliceGroup::ExplicitAssignment {
            pic_size_in_map_units_minus1,
        } => (6, false, 0, pic_size_in_map_units_minus1),
    }
}

// Four words of the kind, eight run lengths, and the corners of seven rectangles.
fn recorded(groups: SliceGroups, output: &[u8]) -> bool {
    let (head, rest) = cut(output, 16);
    let (runs, rects) = cut(rest, 32);
    let [map_type, direction, rate, last] = words::<4>(head);
    kind(groups.group) == (map_type, direction == 1, rate, last)
        && groups.run_length_minus1 == words::<8>(runs)
        && groups.rectangles.map(corners).as_flattened() == words::<14>(rects).as_slice()
}

pub(crate) fn groups_right(case: Case, lent: &mut Lent) -> bool {
    let (output, ids) = cut(case.output, 104);
    let room = lent.room(ids);
    let mut reader = case.reader();
    let answer = SliceGroup::read(case.input, &mut reader, case.b, geometry(case), room);
    case.numbered(&answer)
        && reader.at.0 == case.y as usize
        && answer.map_or(true, |r| {
            r.groups.num_slice_groups_minus1 == case.b
                && recorded(r.groups, output)
                && room.get(..r.ids) == Some(ids)
        })
}
