//! The script that is drawn.

ghost use Rattle.std.specs.Prelude.{◌≡◌, ◌∷◌, [], Contains, IfErr, IfOk, IfSome, OnOk, Some, codes};
ghost use Rattle.fuse_text.specs.Outputs.{AppendsSome};
ghost use Rattle.fw_script.specs.Scripts.{IsGoodScript};
ghost use Rattle.fw_script.specs.Stops.{SaysFault};

use fuse_text::{cannot_read, no_memory};
use fw_script::Script;
use std::alloc::Allocator;
use std::io::{ErrorKind, Read, Write};

/// The bytes of a script.
fn read_text<A: Allocator, R: Read, F: Write>(
    alloc: A,
    name: &str,
    input: &mut R,
    faults: &mut F,
) -> Result<Vec<u8, A>, u8>
    ensures text { IfOk result (λ text. IfSome (R.remaining input.old) (λ bytes. text.items ≡ bytes)) }
    ensures statuses { IfErr result (Contains (1 ∷ 3 ∷ [])) }
    ensures fault { IfErr result (λ status. status ≡ 1 → SaysFault name.now (R.remaining input.old)
        (F.contents faults.old) (F.contents faults.new)) }
    ensures no_memory { IfErr result (λ status. status ≡ 3 → AppendsSome
        (F.contents faults.old) (F.contents faults.new) (codes "no memory\n")) }
    ensures no_fault { OnOk result (faults.new ≡ faults.old) }
{
    let mut text = Vec::new(alloc);
    match input.read_to_end(&mut text) {
        Ok(_) => Ok(text),
        Err(error) if error.kind() == ErrorKind::OutOfMemory => Err(no_memory(faults)),
        Err(_) => Err(cannot_read(name, faults)),
    }
}

/// Judges the lines of a script.
fn judge<A: Allocator + Copy, F: Write>(
    alloc: A,
    name: &str,
    text: &[u8],
    faults: &mut F,
) -> Result<(), u8>
    ensures judged { IfOk result (λ judged. IsGoodScript text.now) }
    ensures statuses { IfErr result (Contains (1 ∷ 3 ∷ [])) }
    ensures fault { IfErr result (λ status. status ≡ 1 → SaysFault name.now (Some text.now)
        (F.contents faults.old) (F.contents faults.new)) }
    ensures no_memory { IfErr result (λ status. status ≡ 3 → AppendsSome
        (F.contents faults.old) (F.contents faults.new) (codes "no memory\n")) }
    ensures no_fault { OnOk result (faults.new ≡ faults.old) }
{
    let mut input = text;
    let script = Script::read(alloc, name, &mut input, faults)?;
    drop(script);
    Ok(())
}

/// Reads a script, and judges its lines. Else gives the exit status: 1 after `cannot read` with the script's name, or
/// `line N:` and the fault of the first bad line, on `faults`; or 3 after `no memory`.
pub(crate) fn read_good_text<A: Allocator + Copy, R: Read, F: Write>(
    alloc: A,
    name: &str,
    input: &mut R,
    faults: &mut F,
) -> Result<Vec<u8, A>, u8>
    ensures good { IfOk result (λ text. IsGoodScript text.items) }
    ensures judged { IfOk result (λ text. IfSome (R.remaining input.old) IsGoodScript) }
    ensures statuses { IfErr result (Contains (1 ∷ 3 ∷ [])) }
    ensures fault { IfErr result (λ status. status ≡ 1 → SaysFault name.now (R.remaining input.old)
        (F.contents faults.old) (F.contents faults.new)) }
    ensures no_memory { IfErr result (λ status. status ≡ 3 → AppendsSome
        (F.contents faults.old) (F.contents faults.new) (codes "no memory\n")) }
    ensures no_fault { OnOk result (faults.new ≡ faults.old) }
{
    let text = read_text(alloc, name, input, faults)?;
    judge(alloc, name, text.as_slice(), faults)?;
    Ok(text)
}
