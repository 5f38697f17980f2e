//! The law of the lines of a part, as the contract of a function that does nothing.
ghost use Rattle.std.specs.Prelude.{Bool, List};
ghost use Rattle.vtimezone.specs.Cutting.{Named};
ghost use Rattle.vtimezone_reader.specs.PartLines.{begun_part};
ghost use Rattle.vtimezone_reader.specs.declared.part_lines.OpenPart.{OpenPart};
ghost use Rattle.reader_laws.specs.Lines.{HasLines, LinesRead};

/// A part whose lines were read has the first TZNAME among them of at most 32 visible bytes, and
/// all their dates in order.
pub fn parts_have_their_lines()
    ensures { (dst : Bool) (lines : List Named) (p : OpenPart) → LinesRead (begun_part dst) lines p
        → HasLines lines p }
{}
