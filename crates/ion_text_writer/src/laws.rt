//! Laws of what is written. Each stands on an empty function: its contract is the law.
ghost use Rattle.std.specs.Prelude.{◌≡◌, ◌++◌, codes};
ghost use Rattle.ion_text_writer.specs.Names.{text_of};
ghost use Rattle.ion_text_writer.specs.laws.Rows.{worked};

/// What is written of worked values: a symbol with the text of a version marker, the sign of a
/// zero, a year, an unknown symbol, a control character, the symbol of no text, annotations, lists,
/// operators, fields, lobs.
pub fn worked_text()
    ensures { text_of worked ≡
        codes "'$ion_1_0'\n-0d0\n2007T\n$0\n\"a'\\x07\"\n''\na::[null.int,('+' b)]\n"
        ++ codes "{a:15d-1}\n{{\"\\x00\\\"\\xc8\"}}\n{{AQIDBA==}}\n" }
{}
