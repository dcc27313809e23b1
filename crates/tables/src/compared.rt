ghost use Rattle.std.specs.Prelude.{◌≡◌, ◌+◌, ◌-◌, ◌^◌, min, if◌then◌else◌};

// The largest count stays as it is.
pub fn add_one(count: &mut u64)
    ensures { count.new ≡ min (count.old + 1) (2 ^ 64 - 1) }
{
    *count = count.saturating_add(1);
}

// How many answers were held to those of the table, and how many of them differ.
#[derive(Clone, Copy)]
pub struct Compared {
    pub answers: u64,
    pub differ: u64,
}

impl Compared {
    pub const NONE: Compared = Compared {
        answers: 0,
        differ: 0,
    };

    // Counts one answer, the same as the table's or not.
    pub fn count(&mut self, same: bool)
        ensures answers { self.new.answers ≡ min (self.old.answers + 1) (2 ^ 64 - 1) }
        ensures differ { self.new.differ ≡ (if same then self.old.differ else min (self.old.differ + 1) (2 ^ 64 - 1)) }
    {
        add_one(&mut self.answers);
        if !same {
            add_one(&mut self.differ);
        }
    }
}
