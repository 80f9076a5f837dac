//! What follows from the grammars. Each law is a call that does nothing and promises it.

ghost use Rattle.spelling_laws.specs.Laws.{TypesSpelledOnce, AttributesSpelledOnce, ModulesSpelledOnce, TypesAreRead, AttributesAreRead, ModulesAreRead};

/// No text spells two types.
pub fn types_spelled_once()
    ensures { TypesSpelledOnce }
{}

/// No text spells two attributes.
pub fn attributes_spelled_once()
    ensures { AttributesSpelledOnce }
{}

/// No bytes spell two modules.
pub fn modules_spelled_once()
    ensures { ModulesSpelledOnce }
{}

/// A text in UTF-8 is read as the type that it spells, and as none where it spells none. What a type literal of a pattern
/// means is stated by reading; this says that it is what the grammar says.
pub fn types_are_read()
    ensures { TypesAreRead }
{}

/// The same of attributes.
pub fn attributes_are_read()
    ensures { AttributesAreRead }
{}

/// The same of the operations of module files, in whatever bytes.
pub fn modules_are_read()
    ensures { ModulesAreRead }
{}
