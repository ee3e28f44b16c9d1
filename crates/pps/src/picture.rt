// What a read of slice groups is given, once the entry checks have let it through.
ghost use Rattle.std.specs.Prelude.{◌≤◌, ◌<◌};
ghost use Rattle.pps.specs.Rule.{most_units};

use super::Geometry;
use desk::Refusal;

// The most map units of a picture.
const MOST_UNITS: u32 = 36_864;

// A geometry that has passed the entry checks.
#[derive(Clone, Copy)]
pub(crate) struct Picture {
    pub width: u32,
    pub size: u32,
    ghost wide: { 0 < width },
    ghost small: { size ≤ most_units },
}

impl TryFrom<Geometry> for Picture {
    ghost use Rattle.pps.specs.Step.{PictureOf};

    type Error = Refusal;

    ghost try_from_gives = { PictureOf };

    #[tactic(auto, unfolding(crate::specs::Rule::bad_picture))]
    fn try_from(geometry: Geometry) -> Result<Picture, Refusal> {
        let width = geometry.pic_width_in_mbs;
        let size = geometry.pic_size_in_map_units;
        if width == 0 || size == 0 || size > MOST_UNITS || size % width != 0 {
            return Err(Refusal::BadGeometry);
        }
        Ok(Picture { width, size })
    }
}

// A num_slice_groups_minus1 that has passed them.
#[derive(Clone, Copy)]
pub(crate) struct GroupCount {
    pub minus1: u32,
    ghost some: { 1 ≤ minus1 },
    ghost few: { minus1 ≤ 7 },
}

impl TryFrom<u32> for GroupCount {
    ghost use Rattle.pps.specs.Step.{CountOf};

    type Error = Refusal;

    ghost try_from_gives = { CountOf };

    #[tactic(auto, unfolding(crate::specs::Rule::bad_group_count))]
    fn try_from(minus1: u32) -> Result<GroupCount, Refusal> {
        if !(1..=7).contains(&minus1) {
            return Err(Refusal::BadGeometry);
        }
        Ok(GroupCount { minus1 })
    }
}

impl GroupCount {
    ghost use Rattle.std.specs.Prelude.{◌≡◌};
    ghost use Rattle.pps.specs.Rule.{id_bits};

    // The bits of a group id: the least b with 2^b at least minus1 + 1.
    #[tactic(auto, using(crate::proofs::Ids::id_bits_1, crate::proofs::Ids::id_bits_2, crate::proofs::Ids::id_bits_3))]
    pub(crate) fn id_bits(self) -> u32
        ensures { result ≡ id_bits self.minus1 }
    {
        match self.minus1 {
            1 => 1,
            2..=3 => 2,
            _ => 3,
        }
    }
}
