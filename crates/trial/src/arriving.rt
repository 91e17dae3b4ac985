ghost use Rattle.std.specs.Prelude.{◌-◌, ◌<◌, ◌≤◌};
ghost use Rattle.task.specs.Tables.{entry_of};
ghost use Rattle.policy.specs.Releases.{Latest};
ghost use Rattle.trial.specs.Arriving.{Arrives};

use crate::events::next_of;
use crate::opening::Turn;
use task::task::Task;

/// What comes of a place at an event.
#[derive(Drop)]
pub(crate) struct Arrival {
    /// Whether a job of the place's task comes to its deadline.
    pub(crate) due: bool,
    /// Whether that job misses it.
    pub(crate) late: bool,
    /// What is left of its job then.
    pub(crate) left: u16,
    /// Whether its job is active then.
    pub(crate) active: bool,
    /// The instant that the age of its job counts from.
    pub(crate) released: u64,
    /// The next event.
    pub(crate) event: u64,
}

/// Rules 1 and 2 for a place at an instant, and its next event.
pub(crate) fn arrive_at(place: &Option<Task>, released: u64, instant: u64, left: u16) -> Arrival
    requires early { instant ≤ 1000000000000000 }
    requires later { 0 < instant }
    requires latest { Latest (entry_of place.now) (instant - 1) released }
    ensures { Arrives (entry_of place.now) instant left result }
{
    match place {
        Some(task) => {
            let turn = Turn {
                task,
                released,
                instant,
            };
            let renewed = turn.renewed();
            let opened = turn.opens(left);
            Arrival {
                due: turn.is_deadline(),
                late: turn.misses(left),
                left: opened,
                active: opened > 0,
                released: renewed,
                event: next_of(task, renewed, instant),
            }
        }
        None => Arrival {
            due: false,
            late: false,
            left,
            active: false,
            released,
            event: u64::MAX,
        },
    }
}
