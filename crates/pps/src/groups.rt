// The slice-group part of the syntax table, Rec 7.3.2.2. The map type is decided by ranges, and each field's answer taken apart by `let .. else`, as
// document 01 asks. `count` and `picture` stand apart: a rectangle read by itself has no count, and a struct of both would be
// taken apart in each function.
ghost use Rattle.std.specs.Prelude.{◌≡◌};
ghost use Rattle.pps.specs.Rule.{run_lengths, rectangles, change};
ghost use Rattle.pps.specs.Step.{ReadsPart, ReadsTable};
ghost use Rattle.pps.specs.Answer.{change_type, groups_with, no_runs, no_rects, ReadsGroups};

use super::fields::FieldReader;
use super::picture::{GroupCount, Picture};
use super::{Geometry, SliceGroup, SliceGroupChangeType, SliceGroupRead, SliceGroups, SliceRect};
use bits::BitReader;
use desk::Refusal;

const NO_RECTANGLE: SliceRect = SliceRect {
    top_left: 0,
    bottom_right: 0,
};

impl SliceGroups {
    // Groups of a case that uses no array.
    pub(crate) fn plain(group: SliceGroup, count: GroupCount) -> SliceGroups
        ensures { result ≡ groups_with group count.minus1 no_runs no_rects }
    {
        SliceGroups {
            group,
            num_slice_groups_minus1: count.minus1,
            run_length_minus1: [0; 8],
            rectangles: [NO_RECTANGLE; 7],
        }
    }
}

impl SliceGroupChangeType {
    // Total, as the map type is known to be 3, 4 or 5 here: a `TryFrom` would answer a refusal that cannot come.
    fn from_id(id: u32) -> SliceGroupChangeType
        ensures { result ≡ change_type id }
    {
        match id {
            3 => SliceGroupChangeType::BoxOut,
            4 => SliceGroupChangeType::RasterScan,
            _ => SliceGroupChangeType::WipeOut,
        }
    }
}

// Each of these reads a map type's fields. The two that fill an array are no one function over the reader of a field: it would take a closure with a
// contract for each, and be no shorter.
impl FieldReader<'_> {
    fn run_lengths(
        &mut self,
        count: GroupCount,
        picture: Picture,
    ) -> Result<SliceGroupRead, Refusal>
        ensures { ReadsPart self.old self.new count.minus1 result (run_lengths count.minus1 picture.size self.old.s.now self.old.at.at.0) }
    {
        let mut run_length_minus1 = [0u32; 8];
        for run in &mut run_length_minus1[..=count.minus1 as usize] {
            let field = self.ue_below(picture.size, Refusal::BadRunLength);
            let Ok(value) = field else {
                return Err(field.unwrap_err());
            };
            *run = value;
        }
        let groups = SliceGroups {
            run_length_minus1,
            ..SliceGroups::plain(SliceGroup::Interleaved, count)
        };
        Ok(SliceGroupRead { groups, ids: 0 })
    }

    fn rectangles(&mut self, count: GroupCount, picture: Picture) -> Result<SliceGroupRead, Refusal>
        ensures { ReadsPart self.old self.new count.minus1 result
            (rectangles count.minus1 picture.width picture.size self.old.s.now self.old.at.at.0) }
    {
        let mut rectangles = [NO_RECTANGLE; 7];
        for rectangle in &mut rectangles[..count.minus1 as usize] {
            let field = self.rectangle(picture);
            let Ok(value) = field else {
                return Err(field.unwrap_err());
            };
            *rectangle = value;
        }
        let groups = SliceGroups {
            rectangles,
            ..SliceGroups::plain(SliceGroup::ForegroundAndLeftover, count)
        };
        Ok(SliceGroupRead { groups, ids: 0 })
    }

    #[tactic(auto, unfolding(crate::specs::Rule::change))]
    fn change(
        &mut self,
        count: GroupCount,
        picture: Picture,
        map_type: u32,
    ) -> Result<SliceGroupRead, Refusal>
        ensures { ReadsPart self.old self.new count.minus1 result (change map_type picture.size self.old.s.now self.old.at.at.0) }
    {
        let direction = self.at.read_bit(self.s);
        let Ok(slice_group_change_direction_flag) = direction else {
            return Err(direction.unwrap_err());
        };
        let rate = self.ue_below(picture.size, Refusal::BadChangeRate);
        let Ok(slice_group_change_rate_minus1) = rate else {
            return Err(rate.unwrap_err());
        };
        let group = SliceGroup::Changing {
            change_type: SliceGroupChangeType::from_id(map_type),
            slice_group_change_direction_flag,
            slice_group_change_rate_minus1,
        };
        Ok(SliceGroupRead {
            groups: SliceGroups::plain(group, count),
            ids: 0,
        })
    }

    // The map type, and its fields.
    fn slice_groups(
        &mut self,
        count: GroupCount,
        picture: Picture,
        ids: &mut [u8],
    ) -> Result<SliceGroupRead, Refusal>
        ensures { ReadsTable self.old self.new count.minus1 picture.width picture.size ids.old result ids.new }
    {
        let first = self.at.read_ue(self.s);
        let Ok(slice_group_map_type) = first else {
            return Err(first.unwrap_err());
        };
        match slice_group_map_type {
            0 => self.run_lengths(count, picture),
            1 => Ok(SliceGroupRead {
                groups: SliceGroups::plain(SliceGroup::Dispersed, count),
                ids: 0,
            }),
            2 => self.rectangles(count, picture),
            3..=5 => self.change(count, picture, slice_group_map_type),
            6 => self.group_ids(count, picture, ids),
            _ => Err(Refusal::BadMapType),
        }
    }
}

impl SliceGroup {
    // A refusal leaves the reader and the ids as they came. Five things are lent and given, as document 01 has them: its reader holds no bytes,
    // so `s` and `reader` stand apart in every read.
    pub fn read(
        s: &[u8],
        reader: &mut BitReader,
        num_slice_groups_minus1: u32,
        geometry: Geometry,
        ids: &mut [u8],
    ) -> Result<SliceGroupRead, Refusal>
        ensures { ReadsGroups s.now reader.old num_slice_groups_minus1 geometry ids.old reader.new result ids.new }
    {
        desk::entry(s.len(), ids.len(), 0, reader.past_end(s))?;
        let picture = Picture::try_from(geometry)?;
        let count = GroupCount::try_from(num_slice_groups_minus1)?;
        let mut fields = FieldReader { s, at: *reader };
        let read = fields.slice_groups(count, picture, ids)?;
        *reader = fields.at;
        Ok(read)
    }
}
