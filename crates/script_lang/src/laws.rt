// What holds of the grammar of scripts.
ghost use Rattle.script_lang.specs.Lines.{NamesOneThing};

/// No text is two lines, nor a line and none.
pub fn a_line_names_one_thing()
    ensures { NamesOneThing }
{}
