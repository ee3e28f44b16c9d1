// A rectangle of map units (Rec 7.4.2.2, top_left and bottom_right). Each field's answer is taken apart by `let .. else`, as document 01 asks.
ghost use Rattle.std.specs.Prelude.{◌≡◌};
ghost use Rattle.pps.specs.Rule.{bottom_right_ok, rectangle};
ghost use Rattle.pps.specs.Step.{ReadsField};
ghost use Rattle.pps.specs.Answer.{ReadsRectIn};

use super::fields::FieldReader;
use super::picture::Picture;
use super::{Geometry, SliceRect};
use bits::BitReader;
use desk::Refusal;

// May a rectangle end at this map unit?
#[tactic(auto, unfolding(crate::specs::Rule::bottom_right_ok))]
fn bottom_right_ok(size: u32, unit: u32) -> bool
    ensures { result ≡ bottom_right_ok size unit }
{
    unit <= size
}

impl FieldReader<'_> {
    // Both fields, and then the checks of them.
    #[tactic(auto, unfolding(crate::specs::Rule::rectangle))]
    pub(crate) fn rectangle(&mut self, picture: Picture) -> Result<SliceRect, Refusal>
        ensures { ReadsField self.old self.new result (rectangle picture.width picture.size self.old.s.now self.old.at.at.0) }
    {
        let first = self.at.read_ue(self.s);
        let Ok(top_left) = first else {
            return Err(first.unwrap_err());
        };
        let second = self.at.read_ue(self.s);
        let Ok(bottom_right) = second else {
            return Err(second.unwrap_err());
        };
        if top_left > bottom_right {
            return Err(Refusal::InvalidTopLeft);
        }
        if !bottom_right_ok(picture.size, bottom_right) {
            return Err(Refusal::InvalidBottomRight);
        }
        if top_left % picture.width > bottom_right % picture.width {
            return Err(Refusal::InvalidTopLeft);
        }
        Ok(SliceRect {
            top_left,
            bottom_right,
        })
    }
}

impl SliceRect {
    // A refusal leaves the reader as it came.
    pub fn read(s: &[u8], reader: &mut BitReader, geometry: Geometry) -> Result<SliceRect, Refusal>
        ensures { ReadsRectIn s.now reader.old geometry reader.new result }
    {
        desk::entry(s.len(), 0, 0, reader.past_end(s))?;
        let picture = Picture::try_from(geometry)?;
        let mut fields = FieldReader { s, at: *reader };
        let rect = fields.rectangle(picture)?;
        *reader = fields.at;
        Ok(rect)
    }
}
