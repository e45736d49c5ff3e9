// What is counted.
ghost use Rattle.std.specs.Prelude.{◌≡◌, ◌≤◌};
ghost use Rattle.transcript_lines.specs.Counted.{one_more, one_more_unless};

use std::fmt;

// How many lists there were, how many answers, and how many of these are not the stored ones. No count goes further
// than it fits.
#[derive(Clone, Copy, Debug, PartialEq, Eq)]
pub struct Counts {
    pub lists: u64,
    pub answers: u64,
    pub different: u64,
    ghost within: { different ≤ answers },
}

// by hand, since a ghost field has no derive
impl Default for Counts {
    fn default() -> Counts {
        Counts {
            lists: 0,
            answers: 0,
            different: 0,
        }
    }
}

impl fmt::Display for Counts {
    fn fmt<W: fmt::Write>(&self, f: &mut fmt::Formatter<W>) -> fmt::Result {
        let lists = self.lists;
        let answers = self.answers;
        let different = self.different;
        write!(f, "{lists} lists, {answers} answers, {different} different")
    }
}

impl Counts {
    pub fn add_list(&mut self)
        ensures { (self.new.lists ≡ one_more self.old.lists) × (self.new.answers ≡ self.old.answers)
            × (self.new.different ≡ self.old.different) }
    {
        self.lists = self.lists.saturating_add(1);
    }

    pub fn add_answer(&mut self, is_same: bool)
        ensures { (self.new.lists ≡ self.old.lists) × (self.new.answers ≡ one_more self.old.answers)
            × (self.new.different ≡ one_more_unless is_same self.old.different) }
    {
        self.answers = self.answers.saturating_add(1);
        if !is_same {
            self.different = self.different.saturating_add(1);
        }
    }
}
