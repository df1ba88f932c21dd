//! An order that is followed from its beginning.

ghost use Rattle.std.specs.Prelude.{◌≡◌, IfOk, MatchOption, OnOk};
ghost use Rattle.fw_orders.specs.Following.{Chooses, Follows, IsMissing};
ghost use Rattle.fw_orders.specs.Places.{place_of};
ghost use Rattle.fw_orders.specs.Saying.{acts_of, parts_of, step_of};
ghost use Rattle.order_law.specs.Moments.{Begun};

use crate::act::Act;
use crate::moment::Moment;
use crate::part::Part;
use crate::stop::Stop;
use fw_world::Tables;
use order_search::{Choice, Standing};

/// Where an order stands in a file.
#[derive(Clone, Copy)]
pub(crate) enum Place<'a> {
    /// Before a part.
    Between,
    /// Among the messages of a group, with the step that is still to come.
    Among(Option<Act<'a>>),
}

/// Follows one choice. Says whether it is there, and where the order stands then.
fn choose<'a, T: Tables>(
    moment: &mut Moment<T>,
    due: Option<Act<'a>>,
    choice: Choice,
) -> Result<Option<Place<'a>>, Stop>
    ensures { IfOk result (λ next. MatchOption next
        (IsMissing moment.old (step_of due.entry) choice × (moment.new ≡ moment.old))
        (λ place. Chooses moment.old (step_of due.entry) choice moment.new (place_of place))) }
{
    match (choice, due) {
        (Choice::Trip(place), _) => match moment.trip(place)? {
            true => Ok(Some(Place::Among(due))),
            false => Ok(None),
        },
        (Choice::Ask(place), _) => match moment.ask(place)? {
            true => Ok(Some(Place::Among(due))),
            false => Ok(None),
        },
        (Choice::Step, Some(act)) => {
            moment.step(&act)?;
            Ok(Some(Place::Among(None)))
        }
        (Choice::Step, None) => Ok(None),
        (Choice::Over, _) => Ok(Some(Place::Between)),
    }
}

/// Begins the calls of a group.
fn begin<T: Tables>(moment: &mut Moment<T>, calls: &[Act<'_>]) -> Result<(), Stop>
    ensures { OnOk result (Begun moment.old (acts_of calls.now) moment.new) }
{
    match calls.split_first() {
        None => Ok(()),
        Some((call, rest)) => {
            moment.act(call)?;
            begin(moment, rest)
        }
    }
}

/// Follows choices from a place in a file.
pub(crate) fn follow<T: Tables>(
    moment: &mut Moment<T>,
    place: Place<'_>,
    parts: &[Part<'_, T::Heap>],
    choices: &[Choice],
) -> Result<Standing, Stop>
    ensures { IfOk result (λ standing. Follows moment.old (place_of place.entry) (parts_of parts.now) choices.now
        standing moment.new) }
{
    match place {
        Place::Between => match parts.split_first() {
            None => Ok(Standing::Ended),
            Some((Part::Alone(act), rest)) => {
                moment.carry(act)?;
                follow(moment, Place::Between, rest, choices)
            }
            Some((Part::Group { calls, step }, rest)) => {
                begin(moment, calls.as_slice())?;
                follow(moment, Place::Among(*step), rest, choices)
            }
        },
        Place::Among(due) => match choices.split_first() {
            None => Ok(Standing::Choosing {
                is_due: due.is_some(),
                has_left: moment.has_left(),
            }),
            Some((choice, rest)) => match choose(moment, due, *choice)? {
                Some(place) => follow(moment, place, parts, rest),
                None => Ok(Standing::Lacking),
            },
        },
    }
}
