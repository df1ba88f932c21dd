//! The orders of a file, each followed in a new world.

ghost use Rattle.std.specs.Prelude.{◌≡◌, IfOk};
ghost use Rattle.fw_orders.specs.Following.{LeadsIn};
ghost use Rattle.fw_orders.specs.Saying.{parts_of};

use crate::follow::{Place, follow};
use crate::moment::Moment;
use crate::part::Part;
use crate::stop::Stop;
use fw_world::Tables;
use order_search::{Choice, Follower, NotFollowed, Standing};
use std::alloc::Allocator;

/// A file's parts, with what worlds are made of.
#[derive(Drop)]
pub(crate) struct FileOrders<'p, 'a, T: Tables> {
    alloc: T::Heap,
    parts: &'p [Part<'a, T::Heap>],
}

impl<'p, 'a, T: Tables> FileOrders<'p, 'a, T> {
    /// The orders of a file that has these parts.
    pub(crate) fn new(alloc: T::Heap, parts: &'p [Part<'a, T::Heap>]) -> Self
        ensures { result.parts.now ≡ parts.now }
    {
        FileOrders { alloc, parts }
    }

    /// Where choices lead in a new world, and the script of what they do.
    fn follow_anew(&self, choices: &[Choice]) -> Result<(Standing, Vec<u8, T::Heap>), Stop>
        ensures { IfOk result (λ r. LeadsIn (parts_of self.now.parts.now) choices.now r.0 r.1.items) }
    {
        let mut moment = Moment::<T>::new(self.alloc)?;
        match follow(&mut moment, Place::Between, self.parts, choices) {
            Ok(standing) => Ok((standing, moment.into_script())),
            Err(stop) => {
                moment.end();
                Err(stop)
            }
        }
    }
}

impl<T: Tables> Follower for FileOrders<'_, '_, T> {
    ghost use Rattle.fw_orders.specs.Following.{LeadsIn};
    ghost use Rattle.fw_orders.specs.Saying.{parts_of};

    ghost leads = { λ orders choices standing script. LeadsIn (parts_of orders.parts.now) choices standing script };

    fn follow<A: Allocator>(
        &self,
        choices: &[Choice],
        script: &mut Vec<u8, A>,
    ) -> Result<Standing, NotFollowed> {
        let (standing, text) = match self.follow_anew(choices) {
            Ok(followed) => followed,
            Err(Stop::TooLong) => return Err(NotFollowed::TooLong),
            Err(_) => return Err(NotFollowed::NoMemory),
        };
        script.clear();
        match script.extend_from_slice(text.as_slice()) {
            Ok(()) => Ok(standing),
            Err(_) => Err(NotFollowed::NoMemory),
        }
    }
}
