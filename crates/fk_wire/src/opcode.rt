//! The opcodes, and what is fixed for each.

ghost use Rattle.std.specs.Prelude.{◌≡◌, ◌≢◌, ◌↔◌, ℕ, true, false, IsTrue, MatchOption};
ghost use Rattle.fk_wire.specs.Opcodes.{code_of, has_node, is_later, reply_kind_of, minor_knows};
ghost use Rattle.fk_wire.specs.Opcodes.{name_after, name_of, latest_minor, shape_of};
ghost use Rattle.fk_wire.specs.Replies.{reply_kind};
ghost use Rattle.fk_wire.specs.Requests.{IsNodeOf};
ghost use Rattle.fk_wire.specs.declared.opcode.Opcode.{Opcode};

use crate::reply::ReplyKind;

/// The operations: those of `enum fuse_opcode` that are known here.
#[derive(Clone, Copy, Debug, PartialEq, Eq)]
pub enum Opcode {
    Lookup,
    Forget,
    Getattr,
    Mkdir,
    Unlink,
    Rmdir,
    Rename,
    Link,
    Open,
    Read,
    Write,
    Release,
    Init,
    Readdir,
    Create,
    Interrupt,
    BatchForget,
    Readdirplus,
}

/// The minor version of protocol 7 that the two sides speak.
///
/// The calls that take no minor version speak `M31`.
#[derive(Clone, Copy, Debug, PartialEq, Eq)]
pub enum Minor {
    /// 7.15, which has no BATCH_FORGET and no READDIRPLUS.
    M15,
    /// 7.31.
    M31,
}

/// The minor version that the calls speak which take none.
pub(crate) fn served_minor() -> Minor
    ensures { result ≡ latest_minor }
{
    Minor::M31
}

/// Whether an opcode came after 7.15.
fn came_later(opcode: Opcode) -> bool
    ensures { result ≡ is_later opcode }
{
    matches!(opcode, Opcode::BatchForget | Opcode::Readdirplus)
}

/// Whether the minor version knows an opcode: 7.15 has no BATCH_FORGET and no READDIRPLUS.
pub fn is_known(minor: Minor, opcode: Opcode) -> bool
    ensures { IsTrue result ↔ IsTrue (minor_knows minor opcode) }
{
    match minor {
        Minor::M31 => true,
        Minor::M15 => !came_later(opcode),
    }
}

/// The opcode of a number, if there is one.
pub fn opcode_of_code(code: u32) -> Option<Opcode>
    ensures { MatchOption result ((o : Opcode) → code_of o ≢ code) (λ o. code_of o ≡ code) }
{
    match code {
        1 => Some(Opcode::Lookup),
        2 => Some(Opcode::Forget),
        3 => Some(Opcode::Getattr),
        9 => Some(Opcode::Mkdir),
        10 => Some(Opcode::Unlink),
        11 => Some(Opcode::Rmdir),
        12 => Some(Opcode::Rename),
        13 => Some(Opcode::Link),
        14 => Some(Opcode::Open),
        15 => Some(Opcode::Read),
        16 => Some(Opcode::Write),
        18 => Some(Opcode::Release),
        26 => Some(Opcode::Init),
        28 => Some(Opcode::Readdir),
        35 => Some(Opcode::Create),
        36 => Some(Opcode::Interrupt),
        42 => Some(Opcode::BatchForget),
        44 => Some(Opcode::Readdirplus),
        _ => None,
    }
}

/// Whether a number is that of an opcode which the minor version knows.
pub fn is_served_opcode_at(minor: Minor, code: u32) -> bool
    ensures yes { result ≡ true → (o : Opcode) × IsTrue (minor_knows minor o) × (code_of o ≡ code) }
    ensures no { result ≡ false → (o : Opcode) → IsTrue (minor_knows minor o) → code_of o ≢ code }
{
    opcode_at(minor, code).is_some()
}

/// The opcode of a number, if the minor version knows it.
pub(crate) fn opcode_at(minor: Minor, code: u32) -> Option<Opcode>
    ensures { MatchOption result ((o : Opcode) → IsTrue (minor_knows minor o) → code_of o ≢ code)
        (λ o. IsTrue (minor_knows minor o) × (code_of o ≡ code)) }
{
    let Some(opcode) = opcode_of_code(code) else {
        return None;
    };
    if is_known(minor, opcode) {
        Some(opcode)
    } else {
        None
    }
}

/// Whether a request of this opcode is about a node.
pub(crate) fn is_about_node(opcode: Opcode) -> bool
    ensures { result ≡ has_node opcode }
{
    !matches!(
        opcode,
        Opcode::Init | Opcode::Interrupt | Opcode::BatchForget
    )
}

/// Whether a request of this opcode can have this node id: 0 where it is about none.
pub(crate) fn is_node_of(opcode: Opcode, nodeid: u64) -> bool
    ensures { IsTrue result ↔ IsNodeOf (has_node opcode) nodeid }
{
    is_about_node(opcode) || nodeid == 0
}

/// Where the name stands in a frame under this opcode, if it has one name and ends with it.
pub(crate) fn name_place(opcode: Opcode) -> Option<usize>
    ensures { MatchOption result ((place : ℕ) → shape_of opcode ≢ name_after place)
        (λ place. shape_of opcode ≡ name_after place) }
{
    match opcode {
        Opcode::Lookup | Opcode::Unlink | Opcode::Rmdir => Some(40),
        Opcode::Mkdir | Opcode::Link => Some(48),
        Opcode::Create => Some(56),
        _ => None,
    }
}

/// The kind of body in the replies to an opcode.
fn kind_of_reply(opcode: Opcode) -> Option<ReplyKind>
    ensures { result ≡ reply_kind_of opcode }
{
    match opcode {
        Opcode::Lookup | Opcode::Mkdir | Opcode::Link => Some(ReplyKind::Entry),
        Opcode::Getattr => Some(ReplyKind::Attr),
        Opcode::Unlink | Opcode::Rmdir | Opcode::Rename | Opcode::Release | Opcode::Interrupt =>
            Some(ReplyKind::Empty),
        Opcode::Open => Some(ReplyKind::Open),
        Opcode::Read => Some(ReplyKind::Bytes),
        Opcode::Write => Some(ReplyKind::Write),
        Opcode::Init => Some(ReplyKind::Init),
        Opcode::Readdir => Some(ReplyKind::Records),
        Opcode::Readdirplus => Some(ReplyKind::RecordsPlus),
        Opcode::Create => Some(ReplyKind::Create),
        Opcode::Forget | Opcode::BatchForget => None,
    }
}

/// The kind of body in the replies to an opcode that the minor version knows.
pub(crate) fn reply_kind_at(minor: Minor, opcode: Opcode) -> Option<ReplyKind>
    ensures { result ≡ reply_kind minor opcode }
{
    if is_known(minor, opcode) {
        kind_of_reply(opcode)
    } else {
        None
    }
}

impl Opcode {
    /// The opcode's number in linux/fuse.h (`enum fuse_opcode`).
    pub fn code(self) -> u32
        ensures { result ≡ code_of self }
    {
        match self {
            Opcode::Lookup => 1,
            Opcode::Forget => 2,
            Opcode::Getattr => 3,
            Opcode::Mkdir => 9,
            Opcode::Unlink => 10,
            Opcode::Rmdir => 11,
            Opcode::Rename => 12,
            Opcode::Link => 13,
            Opcode::Open => 14,
            Opcode::Read => 15,
            Opcode::Write => 16,
            Opcode::Release => 18,
            Opcode::Init => 26,
            Opcode::Readdir => 28,
            Opcode::Create => 35,
            Opcode::Interrupt => 36,
            Opcode::BatchForget => 42,
            Opcode::Readdirplus => 44,
        }
    }

    /// The opcode's name in capitals, as `BATCH_FORGET`.
    pub fn name(self) -> &'static str
        ensures { result.now ≡ name_of self }
    {
        match self {
            Opcode::Lookup => "LOOKUP",
            Opcode::Forget => "FORGET",
            Opcode::Getattr => "GETATTR",
            Opcode::Mkdir => "MKDIR",
            Opcode::Unlink => "UNLINK",
            Opcode::Rmdir => "RMDIR",
            Opcode::Rename => "RENAME",
            Opcode::Link => "LINK",
            Opcode::Open => "OPEN",
            Opcode::Read => "READ",
            Opcode::Write => "WRITE",
            Opcode::Release => "RELEASE",
            Opcode::Init => "INIT",
            Opcode::Readdir => "READDIR",
            Opcode::Create => "CREATE",
            Opcode::Interrupt => "INTERRUPT",
            Opcode::BatchForget => "BATCH_FORGET",
            Opcode::Readdirplus => "READDIRPLUS",
        }
    }
}
