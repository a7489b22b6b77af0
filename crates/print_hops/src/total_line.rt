//! The line of all hops.

ghost use Rattle.print_lines.specs.Stands.{Passes};
ghost use Rattle.print_hops.specs.KindsOf.{waited_line};

use crate::waited::Waited;
use base_devices::Output;
use print_lines::Sheet;

/// Puts the line of what all hops of a walk take, `time` word times.
pub fn put_total<O: Output>(sheet: &mut Sheet, writer: &mut O, time: u128, waited: &Waited)
    ensures { Passes (O.device writer.old) sheet.old (O.device writer.new) sheet.new
        (waited_line time waited.now) }
{
    sheet.put(writer, b"total work ");
    sheet.put_number(writer, waited.work(time));
    sheet.put(writer, b" instruction ");
    sheet.put_number(writer, waited.instruction);
    sheet.put(writer, b" data ");
    sheet.put_number(writer, waited.operand);
    sheet.put(writer, b" cards ");
    sheet.put_number(writer, waited.cards);
    sheet.put(writer, b"\n");
}
