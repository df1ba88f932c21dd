//! The judge's tables, seen act after act.

ghost use Rattle.std.specs.Prelude.{◌≡◌, ◌↔◌, ℕ, ◌<◌, ◌≤◌, ◌+◌, ◌*◌, ◌^◌, [], ◌∷◌, ◌++◌, IsTrue, OnOk, length, vec_capacity};
ghost use Rattle.fuse_sessions.specs.declared.act.Act.TheVariants.{Read};
ghost use Rattle.fuse_sessions.specs.Sessions.{Session};
ghost use Rattle.fuse_sessions.specs.Numbers as numbers;
ghost use Rattle.fuse_sessions.specs.Faults.{IsInUse};
ghost use Rattle.fuse_judge.specs.Flags.{AreFlags};
ghost use Rattle.fuse_judge.specs.Opens.{AreOpen};
ghost use Rattle.fuse_judge.specs.Pending.{AreWaiting};
ghost use Rattle.fuse_judge.specs.Seen.{HasSeen, HasRoom, state_of};
ghost use Rattle.fuse_judge.specs.Verdicts.{IsVerdict, AreVerdicts};

use crate::concern::{Concern, concern_of};
use crate::flags::{
    Flags, fault_of_arrival, fault_of_beginning, fault_of_write, has_several_threads, note_flags,
};
use crate::handle::handle_of;
use crate::marks::{Marks, mark_of, set_mark};
use crate::nodes::{
    NodeRow, fault_of_attributes, fault_of_forget, fault_of_gift, fault_of_missing, fault_of_name,
    forget, give, most, note_nodes,
};
use crate::numbers::{fault_of_number, note_number};
use crate::opens::{
    OpenFiles, fault_of_opening, fault_of_release, fault_of_use, has_open, note_opens, open_count,
    reserve_opens,
};
use crate::pending::{
    Pending, fault_of_error, fault_of_interrupt, fault_of_reply, fault_of_reply_to_interrupt,
    fault_of_resent, fault_of_taking, note_asked, note_pending, reply, reserve_pending, waits,
};
use crate::projections::is_forget;
use fuse_protocol::Opcode;
use fuse_sessions::{Act, Fault, Taken};
use fuse_tables::RisingTable;
use std::alloc::{AllocError, Allocator, Global};

/// What is known of a session.
#[derive(Drop)]
pub struct Tables<A: Allocator = Global> {
    pub flags: Flags,
    pub numbers: Marks<A>,
    pub nodes: RisingTable<NodeRow, A>,
    pub pending: Pending<A>,
    pub opens: OpenFiles<A>,
}

/// Whether an act shows that the connection has ended.
fn shows_end<A: Allocator + Copy>(pending: &Pending<A>, flags: Flags, act: Act) -> bool
    ensures { (s : Session) → AreWaiting s pending.now.rows.entries → AreFlags s flags
        → result ≡ numbers.shows_end (s, act) }
{
    match act {
        Act::Takes {
            unique,
            taken: Taken::NoEntry,
            ..
        } => waits(&pending.rows, unique) && !flags.has_resent,
        Act::Ends => true,
        _ => false,
    }
}

/// For how many acts room is made at once, at least: so most frames need none made.
const BATCH: usize = 64;

/// Makes room for so many acts, where there is less.
///
/// # Errors
///
/// Out of memory.
pub(crate) fn make_room<A: Allocator + Copy>(
    tables: &mut Tables<A>,
    room: &mut usize,
    acts: usize,
) -> Result<(), AllocError>
    requires { HasRoom room.old tables.old }
    ensures kept { (s : Session) → HasSeen s (state_of tables.old) → HasSeen s (state_of tables.new) }
    ensures room { HasRoom room.new tables.new }
    ensures enough { OnOk result (acts ≤ room.new) }
{
    if acts <= *room {
        return Ok(());
    }
    *room = 0;
    let made = acts.max(BATCH);
    tables.reserve(made)?;
    *room = made;
    Ok(())
}

impl<A: Allocator + Copy> Tables<A> {
    /// Makes room for so many acts.
    ///
    /// # Errors
    ///
    /// Out of memory.
    pub fn reserve(&mut self, acts: usize) -> Result<(), AllocError>
        ensures kept { (s : Session) → HasSeen s (state_of self.old) → HasSeen s (state_of self.new) }
        ensures room { OnOk result (HasRoom acts self.new) }
    {
        self.numbers.reserve(acts)?;
        self.nodes.reserve(acts)?;
        reserve_pending(&mut self.pending, acts)?;
        reserve_opens(&mut self.opens, acts)
    }

    /// Whether something uses a node: a request that waits names it, or a file of it is open.
    fn is_in_use(&self, node: u64) -> bool
        ensures { (s : Session) → HasSeen s (state_of self.now) → IsTrue result ↔ IsInUse s node }
    {
        let named = self.pending.named.count(node) > 0;
        let opened = has_open(&self.opens, node);
        named | (opened & !self.flags.opens_no_files)
    }

    /// The fault of the next act, if it has one.
    #[inline(always)]
    fn fault(&self, act: &Act) -> Option<Fault>
        ensures { (s : Session) → HasSeen s (state_of self.now) → IsVerdict s act.now result }
    {
        let rows = &self.pending.rows;
        match *act {
            Act::Faulty(that) => Some(that),
            Act::Arrives => fault_of_arrival(self.flags),
            Act::Begins(opcode) => fault_of_beginning(self.flags, opcode),
            Act::Read { unique, .. } => {
                fault_of_number(mark_of(&self.numbers, unique), self.flags, unique)
            }
            Act::Resent { unique, original } => fault_of_resent(rows, unique, original),
            Act::Interrupts { unique, original } => {
                fault_of_interrupt(rows, has_several_threads(self.flags), unique, original)
            }
            Act::Names(node) => fault_of_name(&self.nodes, node),
            Act::Forgets(node, lookups) => {
                fault_of_forget(most(&self.nodes, node), node, lookups, self.is_in_use(node))
            }
            Act::Uses(file) => fault_of_use(open_count(&self.opens, file), self.flags, file),
            Act::Releases(file) => fault_of_release(
                open_count(&self.opens, file),
                self.flags,
                file,
                self.pending.used.count(handle_of(file)) > 0,
            ),
            Act::Writes(size) => fault_of_write(self.flags, size),
            Act::Takes { unique, taken, fit } => fault_of_taking(
                rows, self.flags, unique, taken, fit,
            ),
            Act::Interrupted(unique) => {
                fault_of_error(rows, has_several_threads(self.flags), unique)
            }
            Act::Replies { unique, .. } => {
                fault_of_reply(&self.numbers, waits(rows, unique), unique)
            }
            Act::RepliesToInterrupt {
                original,
                is_again,
                taken,
            } => {
                let several = has_several_threads(self.flags);
                fault_of_reply_to_interrupt(rows, &self.numbers, several, original, is_again, taken)
            }
            Act::Gives { nodeid, file, .. } => fault_of_gift(self.nodes.get(nodeid).copied(), file),
            Act::Describes { nodeid, kind, ino } => {
                fault_of_attributes(&self.nodes, nodeid, kind, ino)
            }
            Act::Missing { nodeid, .. } => fault_of_missing(&self.nodes, nodeid),
            Act::Opens(file) => fault_of_opening(open_count(&self.opens, file), file),
            Act::Asks { .. }
            | Act::Agrees(_)
            | Act::OpensNone(_)
            | Act::SeveralReaders
            | Act::SeveralWriters
            | Act::Resends
            | Act::Ends => None,
        }
    }

    /// Writes the next act down, whether or not it has a fault.
    #[inline(always)]
    fn note(&mut self, act: &Act)
        requires room { HasRoom 1 self.old }
        requires few { (s : Session) × HasSeen s (state_of self.old) × (2 * length s + 2 < 2 ^ 64) }
        ensures right { (s : Session) → HasSeen s (state_of self.old) → HasSeen (s ++ act.now ∷ []) (state_of self.new) }
        ensures room { (acts : ℕ) → HasRoom (acts + 1) self.old → HasRoom acts self.new }
    {
        match concern_of(*act) {
            Concern::Nothing => {}
            Concern::Requests => note_pending(&mut self.pending, *act),
            Concern::Nodes => note_nodes(&mut self.nodes, *act),
            Concern::OpenFiles => note_opens(&mut self.opens, *act),
            Concern::Several => self.note_all(act),
        }
    }

    /// Writes the next act down in each table. Few acts are of several.
    #[inline(never)]
    fn note_all(&mut self, act: &Act)
        requires room { HasRoom 1 self.old }
        requires few { (s : Session) × HasSeen s (state_of self.old) × (2 * length s + 2 < 2 ^ 64) }
        ensures right { (s : Session) → HasSeen s (state_of self.old) → HasSeen (s ++ act.now ∷ []) (state_of self.new) }
        ensures room { (acts : ℕ) → HasRoom (acts + 1) self.old → HasRoom acts self.new }
    {
        let shows = shows_end(&self.pending, self.flags, *act);
        note_flags(&mut self.flags, *act, shows);
        note_number(&mut self.numbers, *act);
        note_nodes(&mut self.nodes, *act);
        note_pending(&mut self.pending, *act);
        note_opens(&mut self.opens, *act);
    }

    /// Writes a request down that is read under a number. Returns the fault of the kernel: so a mark is looked up once for
    /// both.
    #[inline(always)]
    fn read(&mut self, opcode: Option<Opcode>, unique: u64) -> Option<Fault>
        requires room { HasRoom 1 self.old }
        ensures verdict { (s : Session) → HasSeen s (state_of self.old) → IsVerdict s (Read opcode unique) result }
        ensures right { (s : Session) → HasSeen s (state_of self.old)
            → HasSeen (s ++ Read opcode unique ∷ []) (state_of self.new) }
        ensures room { (acts : ℕ) → HasRoom (acts + 1) self.old → HasRoom acts self.new }
    {
        let before = set_mark(&mut self.numbers, unique, is_forget(opcode));
        let fault = fault_of_number(before, self.flags, unique);
        note_flags(&mut self.flags, Act::Read { opcode, unique }, false);
        fault
    }

    /// The fault of the next act, if it has one, which is written down.
    #[inline(always)]
    fn see_one(&mut self, act: &Act) -> Option<Fault>
        requires room { HasRoom 1 self.old }
        requires few { (s : Session) × HasSeen s (state_of self.old) × (2 * length s + 2 < 2 ^ 64) }
        ensures verdict { (s : Session) → HasSeen s (state_of self.old) → IsVerdict s act.now result }
        ensures right { (s : Session) → HasSeen s (state_of self.old) → HasSeen (s ++ act.now ∷ []) (state_of self.new) }
        ensures room { (acts : ℕ) → HasRoom (acts + 1) self.old → HasRoom acts self.new }
    {
        if let Act::Gives {
            nodeid,
            file,
            is_certain,
        } = *act
        {
            return give(&mut self.nodes, nodeid, file, is_certain);
        }
        if let Act::Forgets(node, lookups) = *act {
            let in_use = self.is_in_use(node);
            return forget(&mut self.nodes, node, lookups, in_use);
        }
        if let Act::Asks { unique, asked } = act {
            note_asked(&mut self.pending, *unique, asked);
            return None;
        }
        if let Act::Read { opcode, unique } = *act {
            return self.read(opcode, unique);
        }
        if let Act::Replies { unique, taken } = *act {
            return reply(&mut self.pending, &self.numbers, unique, taken);
        }
        let fault = self.fault(act);
        self.note(act);
        fault
    }

    /// Sees acts one after another, and writes a verdict on each.
    pub fn see(&mut self, acts: &[Act], verdicts: &mut Vec<Option<Fault>, A>)
        requires empty { verdicts.old.items ≡ [] }
        requires verdict_room { length acts.now ≤ vec_capacity verdicts.old }
        requires room { HasRoom (length acts.now) self.old }
        requires few { (s : Session) × HasSeen s (state_of self.old) × (length s + length acts.now ≤ 2 ^ 62) }
        ensures verdicts { (s : Session) → HasSeen s (state_of self.old) → AreVerdicts s acts.now verdicts.new.items }
        ensures right { (s : Session) → HasSeen s (state_of self.old) → HasSeen (s ++ acts.now) (state_of self.new) }
        ensures len { length verdicts.new.items ≡ length acts.now }
        ensures room { (more : ℕ) → HasRoom (length acts.now + more) self.old → HasRoom more self.new }
    {
        for act in acts {
            let verdict = self.see_one(act);
            verdicts.push_reserved(verdict);
        }
    }
}
