ghost use Rattle.std.specs.Prelude.{◌≡◌, OnErr};
ghost use Rattle.task.specs.Rules.{no_tasks};
ghost use Rattle.task.specs.Tables.{entries, Admits, Enters};

use crate::checks::{bears_name, check_times, fits_name};
use crate::entry::Entry;
use crate::refusal::Refusal;
use crate::table::Table;
use crate::task::Task;

// The task of an entry that may join the tasks, or why it may not
fn admit(entry: Entry, tasks: &[Option<Task>; 32]) -> Result<Task, Refusal>
    ensures { Admits (entries tasks.now) entry result }
{
    if entry.number > 31 {
        return Err(Refusal::NumberTooLarge);
    }
    if tasks[usize::from(entry.number)].is_some() {
        return Err(Refusal::NumberTaken);
    }
    if !fits_name(&entry.name) {
        return Err(Refusal::BadName);
    }
    if bears_name(tasks, &entry.name) {
        return Err(Refusal::NameTaken);
    }
    check_times(&entry)?;
    Ok(Task { figures: entry })
}

impl Table {
    /// A table without tasks.
    pub fn new() -> Table
        ensures { entries result.tasks ≡ no_tasks }
    {
        Table { tasks: [None; 32] }
    }

    /// The tasks, each in the place of its number.
    pub fn tasks(&self) -> &[Option<Task>; 32]
        ensures { result.now ≡ self.now.tasks }
    {
        &self.tasks
    }

    /// Takes the entry as a task, or refuses it and stays as it is.
    pub fn enter(&mut self, entry: Entry) -> Result<(), Refusal>
        ensures enters { Enters (entries self.old.tasks) entry (entries self.new.tasks) result }
        ensures refusal_keeps_tasks { OnErr result (self.new.tasks ≡ self.old.tasks) }
    {
        let task = admit(entry, &self.tasks)?;
        self.tasks[usize::from(entry.number)] = Some(task);
        Ok(())
    }
}
