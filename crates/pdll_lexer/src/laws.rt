//! Laws: what the scan computes is the token there. Each is a call that does nothing and promises the law.

ghost use Rattle.pdll_lexer.specs.Laws.{TokensAreTold, TokensGoOn};

/// The token that is computed at a place is the one that stands there.
pub fn tokens_are_told()
    ensures { TokensAreTold }
{}

/// A token but the end has a byte, and lies within the text.
#[tactic(auto, using(crate::proofs::Told::tokens_go_on))]
pub fn tokens_go_on()
    ensures { TokensGoOn }
{}
