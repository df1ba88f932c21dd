//! All orders, one after another, each found by following its choices from the beginning.

ghost use Rattle.std.specs.Prelude.{◌≡◌, ◌∷◌, ◌⊎◌, [], ℕ, List, IfOk, IsTrue, MatchBool, OnOk};
ghost use Rattle.order_search.specs.Orders.{Explored, ExploredPlaces, IsAbsent, Looked, Printed, at_place, then_choice};
ghost use Rattle.order_search.specs.Orders.{is_wanted as is_wanted_of};

use crate::choice::{Choice, Standing};
use crate::follower::{Follower, NotFollowed};
use crate::printer::Printer;
use std::alloc::Allocator;
use thiserror::Error;

/// The most choices of an order.
const MAX_CHOICES: usize = 512;

/// Which orders are printed.
#[derive(Clone, Copy, Debug, PartialEq, Eq)]
pub enum Wanted {
    /// All.
    All,
    /// The one with this number, from 1.
    Nth(u64),
    /// None: they are counted.
    Number,
}

/// Why a search ends before all orders are found.
#[derive(Clone, Copy, Debug, PartialEq, Eq, Error)]
pub enum Stop {
    /// An order has too many messages.
    #[error("too many messages")]
    TooLong,
    #[error("out of memory")]
    NoMemory,
    #[error("not printed")]
    NotPrinted,
    /// The order that was asked for is printed.
    #[error("the order is printed")]
    Enough,
    /// A step that was still to come is not there.
    #[error("no step")]
    NoStep,
}

/// How far a search has come.
#[derive(Drop)]
struct Course<A: Allocator> {
    wanted: Wanted,
    /// How many orders were found.
    found: u64,
    /// The choices of the order that is looked for.
    choices: Vec<Choice, A>,
    script: Vec<u8, A>,
}

/// Whether the order with a number is printed.
fn is_wanted(wanted: Wanted, number: u64) -> bool
    ensures { result ≡ is_wanted_of wanted number }
{
    match wanted {
        Wanted::All => true,
        Wanted::Nth(one) => one == number,
        Wanted::Number => false,
    }
}

/// An order is found, whose script is there.
fn find<P: Printer, A: Allocator>(course: &mut Course<A>, printer: &mut P) -> Result<(), Stop>
    ensures kept { (course.new.choices.items ≡ course.old.choices.items) × (course.new.wanted ≡ course.old.wanted) }
    ensures found { OnOk result (Printed P.prints printer.old printer.new course.old.wanted course.old.found
        course.new.found (course.old.script.items ∷ [])) }
{
    let Some(number) = course.found.checked_add(1) else {
        return Err(Stop::TooLong);
    };
    course.found = number;
    if !is_wanted(course.wanted, number) {
        return Ok(());
    }
    if printer.print(number, course.script.as_slice()).is_err() {
        return Err(Stop::NotPrinted);
    }
    match course.wanted {
        Wanted::Nth(_) => Err(Stop::Enough),
        Wanted::All | Wanted::Number => Ok(()),
    }
}

/// Follows the choices. Where they lead to the end of the file an order is found.
fn look<F: Follower, P: Printer, A: Allocator>(
    follower: &F,
    course: &mut Course<A>,
    printer: &mut P,
) -> Result<Standing, Stop>
    ensures kept { (course.new.choices.items ≡ course.old.choices.items) × (course.new.wanted ≡ course.old.wanted) }
    ensures looked { IfOk result (λ standing. Looked (F.leads follower.now) P.prints course.old.choices.items
        course.old.wanted course.old.found course.new.found printer.old printer.new standing) }
{
    let standing = match follower.follow(course.choices.as_slice(), &mut course.script) {
        Ok(standing) => standing,
        Err(NotFollowed::TooLong) => return Err(Stop::TooLong),
        Err(NotFollowed::NoMemory) => return Err(Stop::NoMemory),
    };
    if standing == Standing::Ended {
        find(course, printer)?;
    }
    Ok(standing)
}

/// Finds all orders that begin with one choice more. Says whether it is there.
#[cycle(exploring)]
fn explore_choice<F: Follower, P: Printer, A: Allocator>(
    follower: &F,
    course: &mut Course<A>,
    choice: Choice,
    printer: &mut P,
) -> Result<bool, Stop>
    ensures kept { OnOk result ((course.new.choices.items ≡ course.old.choices.items)
        × (course.new.wanted ≡ course.old.wanted)) }
    ensures found { IfOk result (λ is_there. MatchBool is_there
        (Explored (F.leads follower.now) P.prints (then_choice course.old.choices.items choice)
        course.old.wanted course.old.found course.new.found printer.old printer.new)
        (IsAbsent (F.leads follower.now) P.prints (then_choice course.old.choices.items choice) course.old.found
        course.new.found printer.old printer.new)) }
{
    if course.choices.len() >= MAX_CHOICES {
        return Err(Stop::TooLong);
    }
    if course.choices.push(choice).is_err() {
        return Err(Stop::NoMemory);
    }
    let is_there = explore(follower, course, printer)?;
    course.choices.pop();
    Ok(is_there)
}

/// Finds all orders that begin with one choice more, which has to be there.
#[cycle(exploring)]
fn explore_needed<F: Follower, P: Printer, A: Allocator>(
    follower: &F,
    course: &mut Course<A>,
    choice: Choice,
    printer: &mut P,
) -> Result<bool, Stop>
    ensures kept { OnOk result ((course.new.choices.items ≡ course.old.choices.items)
        × (course.new.wanted ≡ course.old.wanted)) }
    ensures there { IfOk result IsTrue }
    ensures found { OnOk result (Explored (F.leads follower.now) P.prints (then_choice course.old.choices.items choice)
        course.old.wanted course.old.found course.new.found printer.old printer.new) }
{
    if explore_choice(follower, course, choice, printer)? {
        Ok(true)
    } else {
        Err(Stop::NoStep)
    }
}

/// The choice of a request at a place, which is answered or left.
fn choice_at(is_answered: bool, place: u64) -> Choice
    ensures { result ≡ at_place is_answered place }
{
    if is_answered {
        Choice::Trip(place)
    } else {
        Choice::Ask(place)
    }
}

/// Finds all orders that go on with a request at each place, and says how many there are.
#[cycle(exploring)]
fn explore_places<F: Follower, P: Printer, A: Allocator>(
    follower: &F,
    course: &mut Course<A>,
    is_answered: bool,
    printer: &mut P,
) -> Result<u64, Stop>
    ensures kept { OnOk result ((course.new.choices.items ≡ course.old.choices.items)
        × (course.new.wanted ≡ course.old.wanted)) }
    ensures found { IfOk result (λ count. ExploredPlaces (F.leads follower.now) P.prints is_answered
        course.old.choices.items count course.old.wanted course.old.found course.new.found printer.old printer.new) }
{
    for place in 0..u64::MAX {
        if !explore_choice(follower, course, choice_at(is_answered, place), printer)? {
            return Ok(place);
        }
    }
    Err(Stop::TooLong)
}

/// Finds all orders that begin with those choices. Says whether they are there.
#[cycle(exploring)]
fn explore<F: Follower, P: Printer, A: Allocator>(
    follower: &F,
    course: &mut Course<A>,
    printer: &mut P,
) -> Result<bool, Stop>
    ensures kept { OnOk result ((course.new.choices.items ≡ course.old.choices.items)
        × (course.new.wanted ≡ course.old.wanted)) }
    ensures found { IfOk result (λ is_there. MatchBool is_there
        (Explored (F.leads follower.now) P.prints course.old.choices.items
        course.old.wanted course.old.found course.new.found printer.old printer.new)
        (IsAbsent (F.leads follower.now) P.prints course.old.choices.items course.old.found
        course.new.found printer.old printer.new)) }
{
    match look(follower, course, printer)? {
        Standing::Lacking => Ok(false),
        Standing::Ended => Ok(true),
        Standing::Choosing {
            is_due: true,
            has_left: false,
        } => {
            explore_places(follower, course, true, printer)?;
            explore_places(follower, course, false, printer)?;
            explore_needed(follower, course, Choice::Step, printer)
        }
        Standing::Choosing {
            is_due: true,
            has_left: true,
        } => {
            explore_places(follower, course, false, printer)?;
            explore_needed(follower, course, Choice::Step, printer)
        }
        Standing::Choosing { is_due: false, .. } => {
            if explore_places(follower, course, true, printer)? > 0 {
                return Ok(true);
            }
            explore_needed(follower, course, Choice::Over, printer)
        }
    }
}

/// Finds all orders, prints those that are wanted, and says how many there are.
///
/// # Errors
///
/// Where an order has too many messages, memory runs out, or an order is not printed; and `Enough`, once the one order
/// that is wanted is printed.
pub fn search<F: Follower, P: Printer, A: Allocator + Copy>(
    alloc: A,
    follower: &F,
    wanted: Wanted,
    printer: &mut P,
) -> Result<u64, Stop>
    ensures { IfOk result (λ count. ((script : List ℕ) × F.leads follower.now [] Standing.Lacking script)
        ⊎ Explored (F.leads follower.now) P.prints [] wanted 0 count printer.old printer.new) }
{
    let mut course = Course {
        wanted,
        found: 0,
        choices: Vec::new(alloc),
        script: Vec::new(alloc),
    };
    explore(follower, &mut course, printer)?;
    Ok(course.found)
}
