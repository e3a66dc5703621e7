// A timetable: one start for each activity number.
#![tactic(auto)]

ghost use Rattle.std.specs.Prelude.{◌≡◌};
ghost use Rattle.timetable.specs.Mark.{no_starts};

use plan::MOST_ACTS;

// A start is in ticks; an absent activity has the mark.
#[derive(Clone, Copy)]
pub struct Timetable {
    pub starts: [u32; MOST_ACTS],
}

impl Timetable {
    pub const MARK: u32 = 4294967295;

    // The timetable in which every activity is absent.
    pub fn empty() -> Timetable
        ensures { result.starts ≡ no_starts }
    {
        Timetable {
            starts: [Timetable::MARK; MOST_ACTS],
        }
    }
}
