//! Laws: what follows from the grammar. Each is a call that does nothing and promises the law.

ghost use Rattle.pdll_parser.specs.Laws.{SpelledOnce};

/// No text spells two pattern files.
pub fn spelled_once()
    ensures { SpelledOnce }
{}
