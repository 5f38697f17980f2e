//! Laws of the definitions, each the contract of a function that does nothing.
ghost use Rattle.std.specs.Prelude.{◌≡◌, ℕ, List, [], ◌++◌, map, IsTrue};
ghost use Rattle.std.specs.List.{flat_map, list_all};
ghost use Rattle.console.specs.Lines.{ended_lines, is_whole_text, line_of, lines_of};
ghost use Rattle.console.specs.Steps.{GivesLines};
ghost use Rattle.console.specs.declared.line.Line.{Line};
ghost use Rattle.console.specs.declared.line.Line.TheVariants as line;
ghost use Rattle.td_base.specs.Names.{is_path_word};

/// The lines of texts, each ended by a line feed and with no other one, are the lines of these
/// texts.
pub fn reads_written()
    ensures { (texts : List (List ℕ)) → IsTrue (list_all is_whole_text texts)
        → lines_of (flat_map ended_lines texts) ≡ map line_of texts }
{}

/// The folder of an `install` line has a path that a command-line argument may name too.
pub fn folders_are_named()
    ensures { (bytes folder : List ℕ) → line_of bytes ≡ line.Install folder
        → IsTrue (is_path_word folder) }
{}

/// Feeding more bytes never changes the lines found so far: the lines of bytes are the first lines
/// of any longer input. `GivesLines` holds at the start. At each moment the lines given, followed
/// by those of the bytes held, are the lines of all bytes.
pub fn goes_on()
    ensures prefix { (bytes more : List ℕ)
        → (later : List Line) × (lines_of (bytes ++ more) ≡ lines_of bytes ++ later) }
    ensures start { GivesLines [] [] [] }
    ensures given { (all : List ℕ) (given : List Line) (held : List ℕ)
        → GivesLines all given held → lines_of all ≡ given ++ lines_of held }
{}
