ghost use Rattle.std.specs.Prelude.{◌≡◌, OnErr};
ghost use Rattle.task.specs.Tables.{entries, Withdraws};

use crate::refusal::Refusal;
use crate::table::Table;

impl Table {
    /// Lets the task with this number go, or refuses and stays as it is.
    pub fn withdraw(&mut self, number: u8) -> Result<(), Refusal>
        ensures withdraws { Withdraws (entries self.old.tasks) number (entries self.new.tasks) result }
        ensures refusal_keeps_tasks { OnErr result (self.new.tasks ≡ self.old.tasks) }
    {
        if number > 31 {
            return Err(Refusal::NumberTooLarge);
        }
        let place = usize::from(number);
        // stays: not by take, which is not covered on a place of a struct that keeps facts of its places.
        if self.tasks[place].is_none() {
            return Err(Refusal::NoSuchTask);
        }
        self.tasks[place] = None;
        Ok(())
    }
}
