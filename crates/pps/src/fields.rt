// Fields, read one behind another.
ghost use Rattle.desk.specs.Refusing.{refusal_number};
ghost use Rattle.pps.specs.Rule.{ue_below};
ghost use Rattle.pps.specs.Step.{ReadsField};

use bits::BitReader;
use desk::Refusal;

// A read under way: the bytes, and a reader at the next field. A refusal lets it go, so a lent reader moves only once all is read.
#[derive(Clone, Copy)]
pub(crate) struct FieldReader<'a> {
    pub s: &'a [u8],
    pub at: BitReader,
}

// Here and in the readers of each map type, each field's answer is taken apart by `let .. else`, as document 01 asks, and not by `?`. A public read
// makes one of these of what it is lent and writes the reader back: two lines, where a function that took the read as a closure would be no shorter.
impl FieldReader<'_> {
    // ue(v) of less than the limit, or the refusal.
    #[tactic(auto, unfolding(crate::specs::Rule::ue_below))]
    pub(crate) fn ue_below(&mut self, limit: u32, over: Refusal) -> Result<u32, Refusal>
        ensures { ReadsField self.old self.new result (ue_below limit (refusal_number over) self.old.s.now self.old.at.at.0) }
    {
        let field = self.at.read_ue(self.s);
        let Ok(value) = field else {
            return field;
        };
        if value >= limit {
            return Err(over);
        }
        Ok(value)
    }
}
