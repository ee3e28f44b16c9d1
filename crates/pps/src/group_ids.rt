// Type 6: ids in a lent buffer. Each field's answer is taken apart by `let .. else`, as document 01 asks.
ghost use Rattle.pps.specs.Step.{ReadsIds, IdsFit, IdsPut};

use super::fields::FieldReader;
use super::picture::{GroupCount, Picture};
use super::{SliceGroup, SliceGroupRead, SliceGroups};
use desk::Refusal;

impl FieldReader<'_> {
    // An id of that many bits for each of `ids`. The bits are all there, so no field is refused here.
    fn put_ids(&mut self, width: u32, ids: &mut [u8])
        requires { IdsFit self.old.s.now self.old.at.at.0 width ids.old }
        ensures { IdsPut self.old self.new width ids.old ids.new }
    {
        for id in ids {
            let field = self.at.read(self.s, width);
            let Ok(value) = field else {
                return;
            };
            *id = value as u8;
        }
    }

    // Nothing is written before the bits of every id and room for them are known to be there.
    pub(crate) fn group_ids(
        &mut self,
        count: GroupCount,
        picture: Picture,
        ids: &mut [u8],
    ) -> Result<SliceGroupRead, Refusal>
        ensures { ReadsIds self.old self.new count.minus1 picture.size ids.old result ids.new }
    {
        let first = self.ue_below(picture.size, Refusal::BadPicSize);
        let Ok(pic_size_in_map_units_minus1) = first else {
            return Err(first.unwrap_err());
        };
        let width = count.id_bits();
        let bits = (pic_size_in_map_units_minus1 + 1) * width;
        let mut ahead = self.at;
        let all = ahead.skip(self.s, bits);
        let Ok(()) = all else {
            return Err(all.unwrap_err());
        };
        let many = pic_size_in_map_units_minus1 as usize + 1;
        if many > ids.len() {
            return Err(Refusal::NoRoom);
        }
        self.put_ids(width, &mut ids[..many]);
        let group = SliceGroup::ExplicitAssignment {
            pic_size_in_map_units_minus1,
        };
        Ok(SliceGroupRead {
            groups: SliceGroups::plain(group, count),
            ids: many,
        })
    }
}
