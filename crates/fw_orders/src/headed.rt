//! Orders as they are printed, each behind the line of its number.

ghost use Rattle.std.specs.Prelude.{◌++◌, OnOk, codes, decimal};
ghost use Rattle.std.specs.Io.KnownBytes.{Appends};

use fuse_text::{OutputRefused, write_number, write_text};
use order_search::{NotPrinted, Printer};
use std::io::Write;

/// An output that gets orders.
#[derive(Drop)]
pub(crate) struct Headed<'a, W: Write> {
    pub(crate) out: &'a mut W,
}

/// Prints an order behind the line of its number.
fn print_order<W: Write>(out: &mut W, number: u64, script: &[u8]) -> Result<(), OutputRefused>
    ensures { OnOk result (Appends (W.contents out.old) (W.contents out.new)
        (codes "# order " ++ decimal number ++ codes "\n" ++ script.now)) }
{
    write_text(out, b"# order ")?;
    write_number(out, number)?;
    write_text(out, b"\n")?;
    write_text(out, script)
}

impl<W: Write> Printer for Headed<'_, W> {
    ghost use Rattle.std.proofs.Common.{◌≡◌, ◌∙◌, refl};
    ghost use Rattle.std.specs.Io.KnownBytes.{Appends};
    ghost use Rattle.fw_orders.specs.Printed.{gets_more, gets_nothing, orders_text};

    // It is still the same output, which got the orders.
    ghost prints = { λ old new orders. (new.out.ghost_name ≡ old.out.ghost_name)
        × Appends (W.contents old.out.now) (W.contents new.out.now) (orders_text orders) };

    fn print(&mut self, number: u64, script: &[u8]) -> Result<(), NotPrinted> {
        match print_order(self.out, number, script) {
            Ok(()) => Ok(()),
            Err(_) => Err(NotPrinted),
        }
    }

    ghost stays = { λ printer. (refl, gets_nothing (W.contents printer.out.now)) };

    ghost goes_on = { λ first mid last orders more one then. (
      then.0 ∙ one.0,
      gets_more (W.contents first.out.now)
          (W.contents mid.out.now) (W.contents last.out.now) orders more one.1 then.1,
    ) };
}
