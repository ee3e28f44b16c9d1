// Slice groups of a picture parameter set (Rec 7.3.2.2, 7.4.2.2), over the bit crate's promises alone.
#![tactic(auto)]

ghost use Rattle.std.specs.Prelude.{◌≡◌};
ghost use Rattle.bits.specs.Reading.{Reads};
ghost use Rattle.pps.specs.Rule.{num_ref_idx};
ghost use Rattle.pps.specs.Answer.{change_number};

mod fields;
mod group_ids;
mod groups;
mod picture;
mod rectangles;

use bits::BitReader;
use desk::Refusal;
use fields::FieldReader;

// The picture that a parameter set is read for: its width in macroblocks, and its size in map units.
#[derive(Clone, Copy, Debug, PartialEq, Eq)]
pub struct Geometry {
    pub pic_width_in_mbs: u32,
    pub pic_size_in_map_units: u32,
}

#[derive(Clone, Copy, Debug, PartialEq, Eq)]
pub struct SliceRect {
    pub top_left: u32,
    pub bottom_right: u32,
}

// Map types 3, 4 and 5.
#[derive(Clone, Copy, Debug, PartialEq, Eq)]
pub enum SliceGroupChangeType {
    BoxOut = 3,
    RasterScan,
    WipeOut,
}

// The map type.
impl From<SliceGroupChangeType> for u32 {
    ghost from_gives = { λ change_type number. number ≡ change_number change_type };

    fn from(change_type: SliceGroupChangeType) -> u32 {
        change_type as u32
    }
}

// The lists that Rust keeps in these cases stand beside the enum, in `SliceGroups`, and the ids in a lent buffer.
#[derive(Clone, Copy, Debug, PartialEq, Eq)]
pub enum SliceGroup {
    Interleaved,
    Dispersed,
    ForegroundAndLeftover,
    Changing {
        change_type: SliceGroupChangeType,
        slice_group_change_direction_flag: bool,
        slice_group_change_rate_minus1: u32,
    },
    ExplicitAssignment {
        pic_size_in_map_units_minus1: u32,
    },
}

// The lists are arrays of the most that there may be, since nothing is allocated here. Entries that the map type does not use are 0.
#[derive(Clone, Copy, Debug, PartialEq, Eq)]
pub struct SliceGroups {
    pub group: SliceGroup,
    pub num_slice_groups_minus1: u32,
    pub run_length_minus1: [u32; 8],
    pub rectangles: [SliceRect; 7],
}

// What a read of slice groups gives: the groups, and the count of ids written.
#[derive(Clone, Copy, Debug, PartialEq, Eq)]
pub struct SliceGroupRead {
    pub groups: SliceGroups,
    pub ids: usize,
}

// num_ref_idx_l0_default_active_minus1 or its fellow. A refusal leaves the reader as it came; the field is taken apart as in fields.rt.
pub fn read_num_ref_idx(s: &[u8], reader: &mut BitReader) -> Result<u32, Refusal>
    ensures { Reads reader.old reader.new result (num_ref_idx s.now reader.old.at.0) }
{
    let mut fields = FieldReader { s, at: *reader };
    let field = fields.ue_below(32, Refusal::BadNumRefIdx);
    let Ok(value) = field else {
        return field;
    };
    *reader = fields.at;
    Ok(value)
}
