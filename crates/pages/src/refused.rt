// A refusal: one line, and nothing else is written.
ghost use Rattle.std.specs.Prelude.{OnOk};
ghost use Rattle.std.specs.Io.KnownBytes.{Appends};
ghost use Rattle.lines.specs.Put.{refused_line};

use lines::put::Page;
use std::io;
use std::io::Write;

// The whole output of a program that refuses its input.
pub fn write_refused<W: Write>(out: &mut W, number: u8, line: u32) -> io::Result<()>
    ensures { OnOk result (Appends (W.contents out.old) (W.contents out.new) (refused_line number line)) }
{
    let mut bytes = [0u8; 64];
    let mut page = Page {
        bytes: &mut bytes,
        next: 0,
    };
    page.put_refused(number, line);
    out.write_all(page.text())
}
