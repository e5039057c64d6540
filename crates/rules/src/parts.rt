// A partial reading: fixing one more variable.
ghost use Rattle.std.specs.Prelude.{◌≡◌};
ghost use Rattle.rules.specs.Walk.{fixed};

use crate::Part;

impl Part {
    // With the variable of bit v fixed. The old one is still good for the other value.
    pub fn fixed(self, v: u64, value: bool) -> Part
        ensures { result ≡ fixed self v value }
    {
        let bit = masks::single(v);
        let decided = self.decided | bit;
        if value {
            Part {
                decided,
                truths: self.truths | bit,
            }
        } else {
            Part {
                decided,
                truths: self.truths,
            }
        }
    }
}
